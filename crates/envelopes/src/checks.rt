//! Checks of envelopes and acknowledgements that come from elsewhere.

ghost use Rattle.std.specs.Prelude.{◌≡◌, ◌↔◌, Err, IfErr, IsSome, IsTrue, List, OnOk, ℕ};
ghost use Rattle.secure_log.specs.authenticator.Roster.{member_of};
ghost use Rattle.secure_log.specs.authenticator.declared.member.Member.{Member};
ghost use Rattle.secure_log.specs.authenticator.Signed.{IsSignedBy, IsSignedIn};
ghost use Rattle.envelopes.specs.declared.envelope.Envelope.{Envelope};
ghost use Rattle.envelopes.specs.Envelope.{envelope_shows};
ghost use Rattle.envelopes.specs.Acknowledgement.{ack_shows};
ghost use Rattle.envelopes.specs.Checking.{ChecksEnvelope, ChecksAck, IsTextOf};

use crate::acknowledgement::Ack;
use crate::envelope::Envelope;
use secure_log::{Checked, Member, Refusal, Roster, is_signed};
use std::alloc::Global;
use xdr::texts::{TextFault, read_text};

/// Checks an envelope's text: `Garbage` where it is none, or the sender is the receiver, else `UnknownNode`
/// where the sender or the receiver is no member, else `BadSignature` where the sender didn't sign it.
/// `NoMemory` comes only where a growth was refused.
pub fn check_envelope(
    alloc: Global,
    roster: &Roster,
    bytes: &[u8],
) -> Result<Checked<Envelope>, Refusal>
    ensures { ChecksEnvelope roster.now bytes.now (λ c. c.value) (λ c. c.member) result }
{
    let envelope: Envelope = match read_text(alloc, bytes) {
        Ok(envelope) => envelope,
        Err(TextFault::NoMemory) => return Err(Refusal::NoMemory),
        Err(TextFault::NotAText) => return Err(Refusal::Garbage),
    };
    match check_sent(roster, &envelope) {
        Ok(()) => Ok(Checked::vouch(roster, envelope)),
        Err(refusal) => Err(refusal),
    }
}

/// Checks that an envelope goes from a member that signed it to another, else why it doesn't.
fn check_sent(roster: &Roster, envelope: &Envelope) -> Result<(), Refusal>
    ensures signed { OnOk result (IsSignedIn roster.now (envelope_shows envelope.now)) }
    ensures two { OnOk result (¬ (envelope.now.from ≡ envelope.now.to)) }
    ensures receiver { OnOk result (IsSome (member_of roster.now envelope.now.to)) }
    ensures fault { IfErr result (λ e. (bytes : List ℕ) → IsTextOf bytes envelope.now →
        ChecksEnvelope roster.now bytes (λ (c : Envelope × Member). c.0) (λ c. c.1) (Err e)) }
{
    if envelope.from == envelope.to {
        return Err(Refusal::Garbage);
    }
    let Some(sender) = roster.member(envelope.from) else {
        return Err(Refusal::UnknownNode);
    };
    if roster.member(envelope.to).is_none() {
        return Err(Refusal::UnknownNode);
    }
    if !sent_by(&sender, envelope) {
        return Err(Refusal::BadSignature);
    }
    Ok(())
}

/// Checks an acknowledgement's text: `Garbage` where it is none, else `UnknownNode` where who signs it is no
/// member, else `BadSignature` where that one didn't sign it. `NoMemory` comes only where a growth was
/// refused.
pub fn check_ack(alloc: Global, roster: &Roster, bytes: &[u8]) -> Result<Checked<Ack>, Refusal>
    ensures { ChecksAck roster.now bytes.now (λ c. c.value) (λ c. c.member) result }
{
    let ack: Ack = match read_text(alloc, bytes) {
        Ok(ack) => ack,
        Err(TextFault::NoMemory) => return Err(Refusal::NoMemory),
        Err(TextFault::NotAText) => return Err(Refusal::Garbage),
    };
    let Some(member) = roster.member(ack.by) else {
        return Err(Refusal::UnknownNode);
    };
    if !acknowledged_by(&member, &ack) {
        return Err(Refusal::BadSignature);
    }
    Ok(Checked::vouch(roster, ack))
}

/// Whether a member signed what an envelope shows. Takes no memory.
pub fn sent_by(member: &Member, envelope: &Envelope) -> bool
    ensures { IsTrue result ↔ IsSignedBy member.now (envelope_shows envelope.now) }
{
    let hash = envelope.message().hash;
    let signature = envelope.signature.signature();
    is_signed(member, envelope.from, envelope.seq, &hash, signature)
}

/// Whether a member signed what an acknowledgement shows. Takes no memory.
pub fn acknowledged_by(member: &Member, ack: &Ack) -> bool
    ensures { IsTrue result ↔ IsSignedBy member.now (ack_shows ack.now) }
{
    let signature = ack.signature.signature();
    is_signed(member, ack.by, ack.number, &ack.hash(), signature)
}
