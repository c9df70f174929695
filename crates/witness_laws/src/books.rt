//! What holds of books that keep their contract: whatever history they stand for, each step's reply is the
//! one that is owed, and the books after it stand for the longer history.

ghost use Rattle.witness_spec.specs.ContractLaws.{StartingBooksStand, HistoriesHaveBooks};
ghost use Rattle.witness_spec.specs.ContractLaws.{StepsKeepBooks, StepsAnswerWhatIsOwed, StepsAreARun};
ghost use Rattle.witness_spec.specs.ContractLaws.{NothingIsARun, OneStepMore, RunsAreHistories};
ghost use Rattle.witness_spec.specs.ContractLaws.{RunsThatAgree};
ghost use Rattle.witness_spec.specs.ContractLaws.{JournalsExactlyIf, StartingJournal, StepsAreNoted};
ghost use Rattle.witness_spec.specs.ContractLaws.{NotedStepsKeepJournals, LeftOutLeavesBooks};
ghost use Rattle.witness_spec.specs.ContractLaws.{WantLeavesBooks, OutOfMemoryLeavesBooks, OneBookIsEnough};
ghost use Rattle.witness_spec.specs.ContractLaws.{BookOfOwnStepsAlone, EachBookStands, BooksTell};
ghost use Rattle.witness_spec.specs.ContractLaws.{BooksTellTheSame};

/// The books of a beginning stand for the history of nothing; and for every history there are books that stand.
pub fn books_can_stand()
    ensures starting { StartingBooksStand }
    ensures any { HistoriesHaveBooks }
{}

/// Books that stand for a history lead by a step to books that do. The step's reply is the one that is owed,
/// unless it is NoMemory, which it never is to a job that is put back nor to a question for the indication.
pub fn steps_keep_books()
    ensures kept { StepsKeepBooks }
    ensures owed { StepsAnswerWhatIsOwed }
{}

/// Steps in turn are a run: all replies together are owed, and the books after them stand for the history
/// with all events. From the books of a beginning on, that is a history of these events alone. Two runs answer
/// alike where a member's steps agree in all that was handed in: the replies to these are the same, and the
/// witness says the same of the member.
pub fn runs_are_histories()
    ensures steps { StepsAreARun }
    ensures none { NothingIsARun }
    ensures more { OneStepMore }
    ensures starting { RunsAreHistories }
    ensures agree { RunsThatAgree }
{}

/// A journal is a history in which nothing ran out of memory. The books of a beginning begin one, and each step that
/// is noted keeps it: with one place more, or as it was where memory ran out.
pub fn journals_are_histories()
    ensures exactly { JournalsExactlyIf }
    ensures starting { StartingJournal }
    ensures noted { StepsAreNoted }
    ensures kept { NotedStepsKeepJournals }
{}

/// Events that are nobody's step get their refusal, 1, 2 or 3, and leave the books as they are; so do events
/// that ran out of memory.
pub fn what_leaves_books()
    ensures out { LeftOutLeavesBooks }
    ensures want { WantLeavesBooks }
    ensures copied { OutOfMemoryLeavesBooks }
{}

/// Each member has a book, and it stands for that member's own steps, whatever else a history holds: so a
/// step of this book is a step of all books, and the others stay.
pub fn one_book_is_enough()
    ensures step { OneBookIsEnough }
    ensures alone { BookOfOwnStepsAlone }
    ensures each { EachBookStands }
{}

/// To a question about a member, what its book tells is owed, and nothing else. Books tell the same of a
/// member after histories in which its steps agree.
pub fn books_tell()
    ensures owed { BooksTell }
    ensures same { BooksTellTheSame }
{}
