//! Whoever answers a challenge closes it.

ghost use Rattle.witness_spec.specs.Laws.{AnswersAreAccepted, AnswersCloseChallenges, AcksClose};

/// The part of its log that a node was asked for, closed by its signature there, is the node's step, it is
/// accepted, and after it no audit is open, where the part skips no more than a text may.
pub fn answers_are_accepted()
    ensures { AnswersAreAccepted }
{}

/// The acknowledgement of a message that a node is challenged with is the node's step, it closes the
/// challenge, and after it none of that message is open.
pub fn acknowledgements_close()
    ensures { AcksClose }
{}

/// A segment that was accepted closes the audit and each challenge with a message whose RECV it has; all
/// other challenges with messages stay open, and none is new.
pub fn answers_close_challenges()
    ensures { AnswersCloseChallenges }
{}
