//! Signatures, checked with what a cache keeps.

ghost use Rattle.std.specs.Prelude.{◌≡◌, IfSome, MatchResult};
ghost use Rattle.authenticator.specs.Checking.{Checks};
ghost use Rattle.authenticator.specs.Roster.{member_of};
ghost use Rattle.envelopes.specs.Acknowledgement.{ack_shows};
ghost use Rattle.envelopes.specs.Checking.{ChecksAck, ChecksEnvelope};
ghost use Rattle.envelopes.specs.Envelope.{envelope_shows};
ghost use Rattle.witness_service.specs.Caching.{MayUse, key_text};

use crate::cache::SignatureCache;
use authenticator::{Authenticator, Checked, Refusal, Roster};
use envelopes::{Ack, Envelope};
use packets::SignatureCheck;
use secure_log::ClosedSegment;
use std::alloc::Global;
use xdr::texts::{TextFault, read_text};

/// A signature that the cache keeps isn't checked again.
impl SignatureCheck for SignatureCache {
    ghost uses = { λ old m a new. MayUse (key_text m.root m.height a) old new };

    fn check(
        &mut self,
        alloc: Global,
        roster: &Roster,
        bytes: &[u8],
    ) -> Result<Checked<Authenticator>, Refusal> {
        check(alloc, roster, self, bytes)
    }

    fn check_envelope(
        &mut self,
        alloc: Global,
        roster: &Roster,
        bytes: &[u8],
    ) -> Result<Checked<Envelope>, Refusal> {
        check_envelope(alloc, roster, self, bytes)
    }

    fn check_ack(
        &mut self,
        alloc: Global,
        roster: &Roster,
        bytes: &[u8],
    ) -> Result<Checked<Ack>, Refusal> {
        check_ack(alloc, roster, self, bytes)
    }

    fn keep_closing(&mut self, alloc: Global, segment: &ClosedSegment) {
        keep_closing(alloc, self, segment);
    }
}

/// As `authenticator::check`.
#[tactic(auto, using(crate::proofs::Keys::text_key))]
fn check(
    alloc: Global,
    roster: &Roster,
    cache: &mut SignatureCache,
    bytes: &[u8],
) -> Result<Checked<Authenticator>, Refusal>
    ensures checks { Checks roster.now bytes.now (λ c. c.value) (λ c. c.member) result }
    ensures kept { MatchResult result
        (λ c. MayUse (key_text c.member.root c.member.height c.value) cache.old cache.new)
        (λ _. cache.new ≡ cache.old) }
{
    let authenticator: Authenticator = match read_text(alloc, bytes) {
        Ok(authenticator) => authenticator,
        Err(TextFault::NoMemory) => return Err(Refusal::NoMemory),
        Err(TextFault::NotAText) => return Err(Refusal::Garbage),
    };
    let Some(member) = roster.member(authenticator.node) else {
        return Err(Refusal::UnknownNode);
    };
    if !cache.is_signed_text(alloc, &member, &authenticator, bytes) {
        return Err(Refusal::BadSignature);
    }
    Ok(Checked::vouch(roster, authenticator))
}

/// As `envelopes::check_envelope`.
fn check_envelope(
    alloc: Global,
    roster: &Roster,
    cache: &mut SignatureCache,
    bytes: &[u8],
) -> Result<Checked<Envelope>, Refusal>
    ensures checks { ChecksEnvelope roster.now bytes.now (λ c. c.value) (λ c. c.member) result }
    ensures kept { MatchResult result
        (λ c. MayUse (key_text c.member.root c.member.height (envelope_shows c.value)) cache.old cache.new)
        (λ _. cache.new ≡ cache.old) }
{
    let envelope: Envelope = match read_text(alloc, bytes) {
        Ok(envelope) => envelope,
        Err(TextFault::NoMemory) => return Err(Refusal::NoMemory),
        Err(TextFault::NotAText) => return Err(Refusal::Garbage),
    };
    if envelope.from == envelope.to {
        return Err(Refusal::Garbage);
    }
    let Some(sender) = roster.member(envelope.from) else {
        return Err(Refusal::UnknownNode);
    };
    if roster.member(envelope.to).is_none() {
        return Err(Refusal::UnknownNode);
    }
    let hash = envelope.message().hash;
    let signature = envelope.signature.signature();
    if !cache.is_signed(
        alloc,
        &sender,
        envelope.from,
        envelope.seq,
        &hash,
        signature,
    ) {
        return Err(Refusal::BadSignature);
    }
    Ok(Checked::vouch(roster, envelope))
}

/// As `envelopes::check_ack`.
fn check_ack(
    alloc: Global,
    roster: &Roster,
    cache: &mut SignatureCache,
    bytes: &[u8],
) -> Result<Checked<Ack>, Refusal>
    ensures checks { ChecksAck roster.now bytes.now (λ c. c.value) (λ c. c.member) result }
    ensures kept { MatchResult result
        (λ c. MayUse (key_text c.member.root c.member.height (ack_shows c.value)) cache.old cache.new)
        (λ _. cache.new ≡ cache.old) }
{
    let ack: Ack = match read_text(alloc, bytes) {
        Ok(ack) => ack,
        Err(TextFault::NoMemory) => return Err(Refusal::NoMemory),
        Err(TextFault::NotAText) => return Err(Refusal::Garbage),
    };
    let Some(member) = roster.member(ack.by) else {
        return Err(Refusal::UnknownNode);
    };
    let signature = ack.signature.signature();
    if !cache.is_signed(alloc, &member, ack.by, ack.number, &ack.hash(), signature) {
        return Err(Refusal::BadSignature);
    }
    Ok(Checked::vouch(roster, ack))
}

/// Keeps what closes a segment.
fn keep_closing(alloc: Global, cache: &mut SignatureCache, segment: &ClosedSegment)
    ensures { IfSome (member_of segment.now.roster segment.now.segment.closing.node)
        (λ m. MayUse (key_text m.root m.height segment.now.segment.closing) cache.old cache.new) }
{
    let closing = segment.segment().closing();
    if let Some(member) = segment.roster().member(closing.node) {
        cache.keep_signed(
            alloc,
            &member,
            closing.node,
            closing.word,
            &closing.hash,
            &closing.signature,
        );
    }
}
