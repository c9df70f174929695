//! What holds of any two witnesses of one roster.

ghost use Rattle.witness_books.specs.Given.{AcksAreTaken, AnswersAreTaken, StepsKeepHeadline};
ghost use Rattle.witness_books.specs.Given.{WhatIsOwedIsGiven};
ghost use Rattle.witness_books.specs.Delivering.{SpelledIsOwed, SpelledIsTaken, SpelledIsWhose};
ghost use Rattle.witness_books.specs.Headline.{RunsKeepHeadline};
ghost use Rattle.witness_books.specs.Witnessed.{StartIsJournal, WitnessesAgree};

use node_book::{
    books_can_stand, evidence_proves, evidence_where_exposed, exposed_exactly_if,
    honest_is_never_exposed, journals_are_histories, runs_are_histories,
};

/// Two witnesses of one roster, from their first events on, agree on a member that has the same base at both,
/// or none, where its steps, in all that was handed to each, are the same and in the same order: the replies
/// to these are the same, and both say the same of the member, whatever else was handed to one of them.
pub fn witnesses_agree()
    ensures { WitnessesAgree }
{
    books_can_stand();
    runs_are_histories();
}

/// A run keeps the headline, whatever the history was for which the books stood: each reply is the one that
/// is owed by the node's own earlier steps, and the books hold what these say; lists of events that agree
/// on a node answer alike; who keeps an honest log is never exposed, unless a signature is forged or two
/// texts have one digest, and who differs in an audited log is; there is evidence exactly where a node is
/// exposed, and it proves that.
pub fn runs_keep_the_headline()
    ensures { RunsKeepHeadline }
{
    runs_are_histories();
    honest_is_never_exposed();
    exposed_exactly_if();
    evidence_where_exposed();
    evidence_proves();
}

/// So does a step, as a run of one event.
pub fn steps_keep_the_headline()
    ensures { StepsKeepHeadline }
{
    runs_are_histories();
    runs_keep_the_headline();
}

/// Where one reply alone is owed to an event, a step of books that stand for the history gives it, or memory
/// ran out. So the answer of a node to the audit that is open is accepted, and its acknowledgement of a
/// message that it is challenged with closes the challenge: the laws of `witness_node_laws` say that a node's
/// own calls give such answers.
pub fn what_is_owed_is_given()
    ensures given { WhatIsOwedIsGiven }
    ensures answers { AnswersAreTaken }
    ensures acks { AcksAreTaken }
{}

/// Books before any step stand for the journal of nothing, from which a noted step goes on.
pub fn start_is_a_journal()
    ensures { StartIsJournal }
{
    journals_are_histories();
}

/// Bytes and the event that they spell are one node's step, and the same one: the same reply is owed to both
/// after any history, and books are led by both to the same books.
pub fn spelled_is_taken()
    ensures whose { SpelledIsWhose }
    ensures owed { SpelledIsOwed }
    ensures taken { SpelledIsTaken }
{}
