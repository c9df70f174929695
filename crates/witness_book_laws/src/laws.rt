//! A book that goes on from step to step by plain equations is what a witness may say of its node.

ghost use Rattle.witness_book_laws.specs.Laws.{BooksOweTheSame, BooksAreOfTheirSteps, BooksFitTogether};
ghost use Rattle.witness_book_laws.specs.Laws.{BooksTellTheIndication, BooksHaveTheAudited, BooksStand};
ghost use Rattle.witness_book_laws.specs.Laws.{BooksHaveEvidenceIfExposed, AnyBookOwesTheSame, AnyBookGoesOn};
ghost use Rattle.witness_book_laws.specs.Laws.{AnyBookKeepsItsContract, StartsStand, StartingBooksAreKept};
ghost use Rattle.witness_book_laws.specs.Laws.{KeptBooksStep, KeptBooksHaveOneMark, LookUpsTell};
ghost use Rattle.witness_book_laws.specs.Laws.{AnAnswerLooksUp};
ghost use Rattle.witness_book_laws.specs.Laws.{BooksKeepLimits, AnyBookKeepsLimits};
ghost use Rattle.witness_book_laws.specs.ReadyLaws.{StartingBooksAreReady, ReadyBooksStep, ReadyBooksAreReady};
ghost use Rattle.witness_book_laws.specs.ReadyLaws.{StepsAreOfTheLog};

/// A member's book after its own steps of a history replies to each further step what is owed to it after
/// that history, and nothing else; it tells the indication that is told of the node, and has evidence exactly
/// if the node is exposed.
pub fn books_reply_what_is_owed()
    ensures owes { BooksOweTheSame }
    ensures tells { BooksTellTheIndication }
    ensures evidence { BooksHaveEvidenceIfExposed }
{}

/// It holds what these steps say, and the books of all members of a roster stand for the history.
pub fn books_stand()
    ensures one { BooksAreOfTheirSteps }
    ensures all { BooksStand }
{}

/// Its parts fit together: what is kept lies above the end, and its numbers differ; the accepted segments
/// hold each number from where the audit began to the end, and one more segment at most was accepted; the
/// messages in the end's state have numbers up to the end; and the audited entries are those of the segments
/// up to the end.
pub fn parts_fit_together()
    ensures fit { BooksFitTogether }
    ensures audited { BooksHaveTheAudited }
{}

/// Any book whose parts fit together replies, after every history for which it stands as a member's book,
/// what is owed; and with each event that is the member's step, and that reply, it goes on: the parts of the
/// book after it fit together, and it stands for the longer history.
pub fn any_book_goes_on()
    ensures owes { AnyBookOwesTheSame }
    ensures goes_on { AnyBookGoesOn }
{}

/// So a step by these equations keeps the contract of a member's book, whatever the history was: it is a step
/// of all books, as `witness_laws::books` has it. A member's book at first is that of the contract, and fits
/// together.
pub fn equations_keep_the_contract()
    ensures step { AnyBookKeepsItsContract }
    ensures starting { StartsStand }
{}

/// The books of all members are kept at first; and where an event is a member's step, and the reply is the
/// one that this member's book owes, the books with that one gone on keep the contract of all books, and are
/// kept.
pub fn kept_books_step()
    ensures starting { StartingBooksAreKept }
    ensures step { KeptBooksStep }
{}

/// Where a node isn't exposed, its book shows one mark at each number, and what it looks up there tells
/// whether a pair was shown and whether it makes a fork: the base's mark, else zeros at 0, else the hash in the
/// accepted segment that holds the number, else that of what is kept there.
pub fn look_ups_tell()
    ensures one { KeptBooksHaveOneMark }
    ensures tell { LookUpsTell }
{}

/// Where a segment that was asked for makes the first fork with what a book shows, few look-ups tell: at the
/// end's number, where its opening is another hash than the book's there, else at the least number of a
/// learned authenticator at which the segment shows another mark.
pub fn answers_look_up()
    ensures { AnAnswerLooksUp }
{}

/// A book keeps its limits over every history, and with each step: at most `MAX_LEARNED` authenticators,
/// `MAX_CHALLENGES` open challenges with messages and `MAX_AUDITED` audited entries from where the audit began
/// on, those of the open audit among them; and the outbox, at most `MAX_OUTBOX`, has room for what the audit
/// can find.
pub fn limits_are_kept()
    ensures own { BooksKeepLimits }
    ensures any { AnyBookKeepsLimits }
{}

/// The books of all members can make their steps at first: each fits together, shows one mark at each number
/// unless its node is exposed, keeps its limits, and has a state that knows no more messages of either kind
/// than may be known where the audit began, and one for each number since. Where an event is a member's step,
/// and the reply is the one that this member's book owes, the books with that one gone on keep the contract of
/// all books, and can make their steps again.
/// A step gives a member's book only segments of logs of the member's version.
pub fn books_are_ready()
    ensures starting { StartingBooksAreReady }
    ensures step { ReadyBooksStep }
    ensures ready { ReadyBooksAreReady }
    ensures of_log { StepsAreOfTheLog }
{}
