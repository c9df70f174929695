//! What is found in evidence.

use authenticator::Number;
use evidence_showings::Mark;
use replay::ReplayFault;
use std::fmt;
use thiserror::Error;

/// What evidence shows, if it is accepted; else why it isn't.
#[derive(Clone, Copy, Debug, PartialEq, Eq)]
pub enum Finding {
    /// Two marks that differ are shown at a number. Of a fork with one showing alone, the number is 0 and the
    /// other mark is a hash of 32 zero bytes.
    TwoMarks { at: Number, one: Mark, other: Mark },
    /// What a replay finds that the entry with a number has wrong.
    Fault(ReplayFault, Number),
    /// Evidence that isn't accepted.
    NotAccepted(NotAccepted),
}

/// Why evidence isn't accepted: the first of these, in a fork of `a` first and then of `b`. Of a replay from
/// a base they are asked in this order: whether the base is of the node, and of its log's version; whether
/// the log after it is of the node; whether the base's showing is closed and signed, and the base good in all
/// else; and then whether the log follows on it, is closed and signed, and has a fault.
#[derive(Clone, Copy, Debug, PartialEq, Eq, Error)]
pub enum NotAccepted {
    /// A showing or the log is of another node than the evidence.
    AnotherNode,
    /// The roster has the node, and its log is of another version than the evidence.
    OtherVersion,
    /// The log doesn't begin with the first entry, after 32 zero bytes.
    NotFromStart,
    /// A showing begins at 0, or skips what a log of its version may not, or what is shown doesn't end in its
    /// closing's node, word and hash.
    NotClosed,
    /// A closing isn't signed by the member of the roster that it names.
    NotSigned,
    /// The base isn't good: it shows another hash than 32 zero bytes at 0, or no CHECK of its state at its
    /// number, or its bytes are no text of a state of that node and its kind, or the state knows too many
    /// messages, or one that was sent later.
    NoGoodBase,
    /// The log doesn't begin right after the base's number, with the hash that the base shows there.
    NotFromBase,
    /// No two marks are shown at the number.
    NoTwoMarks,
    /// A replay finds no fault.
    NoFault,
}

impl fmt::Display for NotAccepted {
    fn fmt<W: fmt::Write>(&self, f: &mut fmt::Formatter<W>) -> fmt::Result {
        f.write_str(self.words())
    }
}

impl NotAccepted {
    /// Why it isn't accepted.
    fn words(self) -> &'static str {
        match self {
            NotAccepted::AnotherNode => "what is shown is of another node",
            NotAccepted::OtherVersion => "the evidence is of another log version than the node's",
            NotAccepted::NotFromStart => "the log is not shown from its first entry on",
            NotAccepted::NotClosed => "what is shown does not end in what closes it",
            NotAccepted::NotSigned => "what closes it is not signed by the node",
            NotAccepted::NoGoodBase => "the base is not good",
            NotAccepted::NotFromBase => "the log does not follow on the base",
            NotAccepted::NoTwoMarks => "no two hashes are shown at the number",
            NotAccepted::NoFault => "the log has no fault",
        }
    }
}

impl Finding {
    ghost use Rattle.std.specs.Prelude.{◌≡◌};
    ghost use Rattle.challenge.specs.Findings.{is_accepted};

    /// Whether the evidence is accepted.
    pub fn is_accepted(&self) -> bool
        ensures { result ≡ is_accepted self.now }
    {
        !matches!(self, Finding::NotAccepted(_))
    }
}
