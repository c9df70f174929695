//! What holds of evidence.

ghost use Rattle.evidence_spec.specs.Laws.{OneMarkAtANumber, ShownIsOfTheLog};
ghost use Rattle.evidence_spec.specs.Laws.{SegmentIsOfTheLog};
ghost use Rattle.evidence_spec.specs.Laws.{SegmentsGoOnSound};
ghost use Rattle.evidence_spec.specs.Laws.{BaseIsOfTheLog};
ghost use Rattle.evidence_spec.specs.Laws.{ContentsGiveEntriesBack, AcceptedEvidenceProves};
ghost use Rattle.evidence_spec.specs.Laws.{AuthenticatorsShowOnePair};
ghost use Rattle.evidence_spec.specs.Laws.{SegmentsShowTheirMarks};
ghost use Rattle.evidence_spec.specs.Laws.{OwnTextsProveNothing, UnsignedProveNothing};
ghost use Rattle.evidence_spec.specs.Laws.{OneReadingProvesNothing};

use replay_spec::state_laws::honest_states_are_spelled;

/// A log has one mark at each number: a hash, or that no entry has it.
pub fn one_mark_at_a_number()
    ensures { OneMarkAtANumber }
{}

/// Where the closing of a showing, or of a segment, is a pair of a log and no two texts have one digest, all
/// that it shows are marks of the log; and the segment's entries are the log's.
pub fn what_is_shown_is_of_the_log()
    ensures showing { ShownIsOfTheLog }
    ensures segment { SegmentIsOfTheLog }
{}

/// A segment of a log, right after a number at which the log has reached a state, replays sound from that
/// state, and the log has reached the state after it at its closing number.
pub fn a_segment_after_a_reached_place_is_sound()
    ensures { SegmentsGoOnSound }
{}

/// Where the closing of a good base is a pair of an honest log, and no two texts have one digest, the log has reached
/// the base's state at the base's number, and all that the base shows are marks of the log.
pub fn a_base_is_of_the_log()
    ensures { BaseIsOfTheLog }
{
    honest_states_are_spelled();
}

/// Entries of one kind whose contents have one digest are the same, where no two texts have one digest.
pub fn contents_give_entries_back()
    ensures { ContentsGiveEntriesBack }
{}

/// Evidence that is accepted proves that the node has no honest log, unless a signature is forged or two
/// texts have one digest.
pub fn accepted_evidence_proves()
    ensures { AcceptedEvidenceProves }
{
    honest_states_are_spelled();
}

/// A signed authenticator alone, and the links of a closed segment, are closed showings, of that pair and of
/// the segment's marks.
pub fn what_is_shown_is_closed()
    ensures authenticator { AuthenticatorsShowOnePair }
    ensures marks { SegmentsShowTheirMarks }
{}

/// What an honest log shows of itself proves nothing against its node, as one of a single clock reading whose
/// digests are worked out; nor do authenticators that aren't signed, whatever they show.
pub fn what_proves_nothing()
    ensures own { OwnTextsProveNothing }
    ensures unsigned { UnsignedProveNothing }
    ensures reading { OneReadingProvesNothing }
{}
