//! What a witness says follows from a node's own steps alone, and when it calls a node exposed.

ghost use Rattle.witness_spec.specs.Laws.{OneReply, OwnStepsAreOwed, OwnStepsAlone};
ghost use Rattle.witness_spec.specs.Laws.{LeftOutChangesNothing, WantChangesNothing, OthersAreTaken};
ghost use Rattle.witness_spec.specs.Laws.{ExposedExactlyIf, SuspectedExactlyIf, FaultStays, ExposedStays};
ghost use Rattle.witness_laws.specs.Challenges.{OpenExactlyIf};

/// A step is owed one reply at most.
pub fn one_reply()
    ensures { OneReply }
{}

/// The own steps of a history have the replies that are owed by that node's earlier steps; so histories with
/// the same steps of a node have the same replies to them, and the witness says the same of the node.
pub fn own_steps_alone()
    ensures owed { OwnStepsAreOwed }
    ensures alone { OwnStepsAlone }
{}

/// What is left out changes nothing, and its reply is that of event and roster alone; nor does being out of
/// memory change anything. Every other event is a step of its node, and is refused neither as those that are
/// left out nor as out of memory.
pub fn left_out_changes_nothing()
    ensures out { LeftOutChangesNothing }
    ensures want { WantChangesNothing }
    ensures others { OthersAreTaken }
{}

/// A node is Exposed exactly if a number has two marks among what was shown, or a File was answered Filed
/// for a segment that no list of states makes honest; otherwise Suspected exactly if a challenge is open.
pub fn exposed_exactly_if()
    ensures exposed { ExposedExactlyIf }
    ensures suspected { SuspectedExactlyIf }
{}

/// Who is exposed stays exposed, whatever follows: from such a File on, for one.
pub fn exposed_stays()
    ensures fault { FaultStays }
    ensures any { ExposedStays }
{}

/// A challenge is open exactly if it was accepted and not answered since.
pub fn open_exactly_if()
    ensures { OpenExactlyIf }
{}
