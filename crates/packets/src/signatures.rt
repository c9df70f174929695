//! How the signatures on what a witness is sent are checked.

ghost use Rattle.std.specs.Prelude.{◌≡◌, IfSome, MatchResult};
ghost use Rattle.envelopes.specs.secure_log.authenticator.Checking.{Checks};
ghost use Rattle.envelopes.specs.secure_log.authenticator.Roster.{member_of};
ghost use Rattle.envelopes.specs.secure_log.authenticator.declared.authenticator.Authenticator as declared;
ghost use Rattle.envelopes.specs.secure_log.authenticator.declared.member.Member as declared_member;
ghost use Rattle.envelopes.specs.Acknowledgement.{ack_shows};
ghost use Rattle.envelopes.specs.Checking.{ChecksAck, ChecksEnvelope};
ghost use Rattle.envelopes.specs.Envelope.{envelope_shows};

use envelopes::{
    Ack, Authenticator, Checked, Envelope, Refusal, Roster, check, check_ack, check_envelope,
};
use secure_log::ClosedSegment;
use std::alloc::Global;

/// How signatures are checked: by the keys alone (`ByKeys`), or with what is kept of those that were checked
/// before. Its ghost member `uses` says which value may follow once a signature was found to be a member's; a
/// text that is refused leaves it as it was.
pub trait SignatureCheck {
    // A signature of this authenticator was found to be this member's: one value may lead to the other.
    ghost uses: { Self → declared_member.Member → declared.Authenticator → Self → Type 0 } = { λ old _ _ new. new ≡ old };

    /// As `authenticator::check`.
    fn check(
        &mut self,
        alloc: Global,
        roster: &Roster,
        bytes: &[u8],
    ) -> Result<Checked<Authenticator>, Refusal>
        ensures checks { Checks roster.now bytes.now (λ c. c.value) (λ c. c.member) result }
        ensures uses { MatchResult result (λ c. uses self.old c.member c.value self.new)
            (λ _. self.new ≡ self.old) };

    /// As `envelopes::check_envelope`.
    fn check_envelope(
        &mut self,
        alloc: Global,
        roster: &Roster,
        bytes: &[u8],
    ) -> Result<Checked<Envelope>, Refusal>
        ensures checks { ChecksEnvelope roster.now bytes.now (λ c. c.value) (λ c. c.member) result }
        ensures uses { MatchResult result (λ c. uses self.old c.member (envelope_shows c.value) self.new)
            (λ _. self.new ≡ self.old) };

    /// As `envelopes::check_ack`.
    fn check_ack(
        &mut self,
        alloc: Global,
        roster: &Roster,
        bytes: &[u8],
    ) -> Result<Checked<Ack>, Refusal>
        ensures checks { ChecksAck roster.now bytes.now (λ c. c.value) (λ c. c.member) result }
        ensures uses { MatchResult result (λ c. uses self.old c.member (ack_shows c.value) self.new)
            (λ _. self.new ≡ self.old) };

    /// A segment was checked, with the signature that closes it.
    fn keep_closing(&mut self, alloc: Global, segment: &ClosedSegment)
        ensures uses { IfSome (member_of segment.now.roster segment.now.segment.closing.node)
            (λ m. uses self.old m segment.now.segment.closing self.new) };
}

/// Signatures are checked by the keys alone, each time.
#[derive(Clone, Copy)]
pub struct ByKeys;

impl SignatureCheck for ByKeys {
    fn check(
        &mut self,
        alloc: Global,
        roster: &Roster,
        bytes: &[u8],
    ) -> Result<Checked<Authenticator>, Refusal> {
        check(alloc, roster, bytes)
    }

    fn check_envelope(
        &mut self,
        alloc: Global,
        roster: &Roster,
        bytes: &[u8],
    ) -> Result<Checked<Envelope>, Refusal> {
        check_envelope(alloc, roster, bytes)
    }

    fn check_ack(
        &mut self,
        alloc: Global,
        roster: &Roster,
        bytes: &[u8],
    ) -> Result<Checked<Ack>, Refusal> {
        check_ack(alloc, roster, bytes)
    }

    fn keep_closing(&mut self, _alloc: Global, _segment: &ClosedSegment) {}
}
