//! What holds of signatures, rosters and words.

ghost use Rattle.authenticator.specs.Laws.{RostersWithoutGaps, TestsAsItIsSigned, TestsAsItIsSignedIn};
ghost use Rattle.authenticator.specs.Laws.{WordsAreRead};

/// The tests on signatures, which compute, are what it means that something is signed.
pub fn tests_as_it_is_signed()
    ensures by_root { TestsAsItIsSigned }
    ensures in_roster { TestsAsItIsSignedIn }
{}

/// A roster whose logs are all of version 1 has a text in the first form, the array of its members.
pub fn rosters_without_gaps()
    ensures { RostersWithoutGaps }
{}

/// A word that has room for what it skips and for its number is read as these.
#[tactic(auto, using(crate::proofs::Words::word_read))]
pub fn words_are_read()
    ensures { WordsAreRead }
{}
