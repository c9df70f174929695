//! Two hashes at one number, wherever each comes from.

ghost use Rattle.std.specs.Prelude.{◌≡◌, ◌≢◌, [], ◌∷◌, Some, None, Ok};
ghost use Rattle.secure_log.specs.LogEntries.Chain.{no_entry, IsAmong};
ghost use Rattle.secure_log.specs.Versioned.{segment_marks};
ghost use Rattle.authenticator.specs.declared.member.LogVersion.TheVariants.{One, Two};
ghost use Rattle.witness_spec.specs.evidence_spec.Showing.{authenticator_showing, versioned_showing};
ghost use Rattle.witness_spec.specs.Events.{ItsIndication, ItsEvidence};
ghost use Rattle.witness_spec.specs.Events as events;
ghost use Rattle.witness_spec.specs.Replies.{Noted, Already, Accepted, Told, EvidenceIs, Exposed};
ghost use Rattle.witness_spec.specs.Steps.{Learn, Answer, Ask};
ghost use Rattle.witness_spec.specs.Whose.{whose};
ghost use Rattle.witness_spec.specs.Standing.{kept};
ghost use Rattle.witness_examples.specs.Worked.{node_five, learned, one_hash, other_hash, read_hash, segment};
ghost use Rattle.witness_examples.specs.Worked.{closed, its_key};
ghost use Rattle.witness_examples.specs.Worked.{filed_two, learned_to};
ghost use Rattle.witness_examples.specs.Forks.{forked, zero_forked, answer_wanted, answer_forked};
ghost use Rattle.witness_examples.specs.Forks.{two_segment};
ghost use Rattle.witness_examples.specs.Forks.{two_given, segment_forked, audited_forked, full_forked};
ghost use Rattle.witness_examples.specs.Forks.{later_segment, later_closed, later_wanted, opening_forked};
ghost use Rattle.witness_examples.specs.Forks.{two_filed, below_forked, end_forked};
ghost use Rattle.witness_examples.specs.Forks.{forked_in, five_two, node_two, skipping, skipping_one};
ghost use Rattle.witness_examples.specs.Forks.{skipping_forked};
ghost use Rattle.witness_examples.specs.Forks.{gap_segment, gap_closed, gap_wanted, gap_given, gap_forked};
ghost use Rattle.witness_examples.specs.Reaching.{Reaches};

/// At number 0 every log has 32 zero bytes: an authenticator of another hash there exposes, by itself.
#[tactic(auto, unfolding(secure_log::specs::LogEntries::Chain::zeros))]
pub fn at_zero()
    ensures noted { Reaches node_five [] (Learn (learned 0 one_hash)) Noted }
    ensures exposed { Reaches node_five zero_forked (Ask ItsIndication) (Told Exposed) }
    ensures evidence { Reaches node_five zero_forked (Ask ItsEvidence)
        (EvidenceIs (Some (forked 0 (authenticator_showing One (learned 0 one_hash)) None))) }
{}

/// A segment is accepted that has another hash than was learned at its number: the node is Exposed, by the
/// authenticator and the segment.
#[tactic(auto, using(crate::proofs::Hashes::short_last, crate::proofs::Hashes::short_first))]
pub fn by_an_answer()
    ensures unlike { one_hash ≢ read_hash }
    ensures accepted { Reaches node_five answer_wanted (Answer closed) Accepted }
    ensures exposed { Reaches node_five answer_forked (Ask ItsIndication) (Told Exposed) }
    ensures evidence { Reaches node_five answer_forked (Ask ItsEvidence)
        (EvidenceIs (Some (forked 1 (authenticator_showing One (learned 1 one_hash))
        (Some (versioned_showing segment))))) }
{}

/// An authenticator of another hash than an accepted segment has there: the node is Exposed, by the segment
/// and the authenticator, while the segment is given and after it was filed Sound.
#[tactic(auto, using(crate::proofs::Hashes::short_last, crate::proofs::Hashes::short_first))]
pub fn of_a_segment()
    ensures noted { Reaches node_five two_given (Learn (learned 1 one_hash)) Noted }
    ensures evidence { Reaches node_five segment_forked (Ask ItsEvidence)
        (EvidenceIs (Some (forked 1 (versioned_showing two_segment)
        (Some (authenticator_showing One (learned 1 one_hash)))))) }
    ensures exposed { Reaches node_five audited_forked (Ask ItsIndication) (Told Exposed) }
    ensures later { Reaches node_five audited_forked (Ask ItsEvidence)
        (EvidenceIs (Some (forked 1 (versioned_showing segment)
        (Some (authenticator_showing One (learned 1 one_hash)))))) }
{}

/// After an audit up to 1 a segment from 2 on is accepted whose opening isn't the hash at 1: the node is
/// Exposed, by both segments.
#[tactic(auto, using(crate::proofs::Hashes::short_last, crate::proofs::Hashes::short_first))]
pub fn of_an_opening()
    ensures accepted { Reaches node_five later_wanted (Answer later_closed) Accepted }
    ensures exposed { Reaches node_five opening_forked (Ask ItsIndication) (Told Exposed) }
    ensures evidence { Reaches node_five opening_forked (Ask ItsEvidence)
        (EvidenceIs (Some (forked 1 (versioned_showing segment) (Some (versioned_showing later_segment))))) }
{}

/// After an audit up to 2 an authenticator of another hash below the end, or at it, is Noted and exposes, by
/// the segment and the authenticator, and isn't kept; one of the hash that was audited is there already.
#[tactic(auto, using(crate::proofs::Hashes::short_last, crate::proofs::Hashes::short_first))]
pub fn up_to_the_end()
    ensures same { Reaches node_five two_filed (Learn (learned 1 read_hash)) Already }
    ensures below { Reaches node_five two_filed (Learn (learned 1 one_hash)) Noted }
    ensures exposed { Reaches node_five below_forked (Ask ItsIndication) (Told Exposed) }
    ensures evidence { Reaches node_five below_forked (Ask ItsEvidence)
        (EvidenceIs (Some (forked 1 (versioned_showing two_segment)
        (Some (authenticator_showing One (learned 1 one_hash)))))) }
    ensures unkept { kept node_five below_forked ≡ [] }
    ensures at { Reaches node_five two_filed (Learn (learned 2 one_hash)) Noted }
    ensures at_evidence { Reaches node_five end_forked (Ask ItsEvidence)
        (EvidenceIs (Some (forked 2 (versioned_showing two_segment)
        (Some (authenticator_showing One (learned 2 one_hash)))))) }
{}

/// After 256 authenticators that are kept another hash at a number of theirs is Noted, and exposes; from
/// then on every one is Noted. One of the 256 is there already.
pub fn after_as_many_as_are_kept()
    ensures already { Reaches node_five (learned_to 256) (Learn (learned 3 one_hash)) Already }
    ensures noted { Reaches node_five (learned_to 256) (Learn (learned 3 other_hash)) Noted }
    ensures exposed { Reaches node_five full_forked (Ask ItsIndication) (Told Exposed) }
    ensures evidence { Reaches node_five full_forked (Ask ItsEvidence) (EvidenceIs (Some
        (forked 3 (authenticator_showing One (learned 3 one_hash))
        (Some (authenticator_showing One (learned 3 other_hash)))))) }
    ensures later { Reaches node_five full_forked (Learn (learned 257 one_hash)) Noted }
{}

/// In a log of version 2 an authenticator's word holds a number and how many numbers are skipped just before
/// it; it is learned as in version 1. One of the same number and hash that skips more is there already. One
/// of another hash there is Noted, and exposes, by both.
pub fn in_version_two()
    ensures its { whose (five_two ∷ []) (events.Learn (skipping 1 one_hash) its_key)
        ≡ Ok (record { member = five_two; step = Learn (skipping 1 one_hash) }) }
    ensures already { Reaches node_two skipping_one (Learn (skipping 2 one_hash)) Already }
    ensures noted { Reaches node_two skipping_one (Learn (skipping 2 other_hash)) Noted }
    ensures exposed { Reaches node_two skipping_forked (Ask ItsIndication) (Told Exposed) }
    ensures evidence { Reaches node_two skipping_forked (Ask ItsEvidence)
        (EvidenceIs (Some (forked_in Two 3 (authenticator_showing Two (skipping 1 one_hash))
        (Some (authenticator_showing Two (skipping 2 other_hash)))))) }
{}

/// In a log of version 2 a segment whose last entry skips number 2 is accepted; it shows of that number that
/// no entry has it. An authenticator of that number is Noted, and exposes, by the segment and by it.
#[tactic(auto, using(crate::proofs::Hashes::short_last, crate::proofs::Hashes::short_first))]
pub fn of_a_skipped_number()
    ensures its { whose (five_two ∷ []) (events.Answer gap_closed)
        ≡ Ok (record { member = five_two; step = Answer gap_closed }) }
    ensures none { IsAmong (2, no_entry) (segment_marks gap_segment) }
    ensures accepted { Reaches node_two gap_wanted (Answer gap_closed) Accepted }
    ensures noted { Reaches node_two gap_given (Learn (learned 2 one_hash)) Noted }
    ensures exposed { Reaches node_two gap_forked (Ask ItsIndication) (Told Exposed) }
    ensures evidence { Reaches node_two gap_forked (Ask ItsEvidence)
        (EvidenceIs (Some (forked_in Two 2 (versioned_showing gap_segment)
        (Some (authenticator_showing Two (learned 2 one_hash)))))) }
{}
