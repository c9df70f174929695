//! Why a witness refuses what it is handed.

ghost use Rattle.std.specs.Prelude.{◌≡◌};
ghost use Rattle.witness_spec.specs.Refusals.{refusal_number, refusal_of};
ghost use Rattle.node_book.specs.Replies.{refusal_in};

use authenticator::Refusal as CheckRefusal;
use std::fmt;
use thiserror::Error;

/// Why a witness refuses an event. Refusals are tried in the order that each event names.
#[derive(Clone, Copy, Debug, PartialEq, Eq, Error)]
pub enum Refusal {
    /// A node that it is of isn't in the roster.
    UnknownNode,
    /// The bytes spell nothing that may be handed over.
    Garbage,
    /// It isn't signed by the member that it names, or was checked under another key or roster.
    BadSignature,
    /// As many authenticators are kept as may be, 256.
    LearnedFull,
    /// As many challenges with messages are open as may be, 16.
    ChallengesFull,
    /// What the audit could find has no room in the outbox.
    OutboxFull,
    /// No learned number is near enough: among the next 4,096 after the end.
    TooFar,
    /// There is nothing to audit.
    NothingToAudit,
    /// An audit or a job is under way.
    Busy,
    /// That wasn't asked.
    NotAsked,
    /// No job is out.
    NoJob,
    /// It isn't the job that is out.
    WrongJob,
    /// As many entries are audited as may be, 65,536.
    BookFull,
    /// A growth was refused.
    NoMemory,
    /// It is of a number below all that the base shows from which the audit began.
    BelowBase,
}

impl fmt::Display for Refusal {
    fn fmt<W: fmt::Write>(&self, f: &mut fmt::Formatter<W>) -> fmt::Result {
        f.write_str(self.words())
    }
}

impl Refusal {
    /// What is said of it.
    fn words(self) -> &'static str {
        match self {
            Refusal::UnknownNode => "unknown node",
            Refusal::Garbage => "garbage",
            Refusal::BadSignature => "bad signature",
            Refusal::LearnedFull => "as many authenticators are kept as may be",
            Refusal::ChallengesFull => "as many challenges are open as may be",
            Refusal::OutboxFull => "the outbox has no room",
            Refusal::TooFar => "no learned number is near enough",
            Refusal::NothingToAudit => "there is nothing to audit",
            Refusal::Busy => "an audit is under way",
            Refusal::NotAsked => "that was not asked",
            Refusal::NoJob => "no job is out",
            Refusal::WrongJob => "it is not the job that is out",
            Refusal::BookFull => "as many entries are audited as may be",
            Refusal::NoMemory => "out of memory",
            Refusal::BelowBase => "it lies below the base",
        }
    }

    /// The number that programs print, from 1 to 15.
    pub fn number(self) -> u32
        ensures { result ≡ refusal_number (refusal_in self) }
    {
        match self {
            Refusal::UnknownNode => 1,
            Refusal::Garbage => 2,
            Refusal::BadSignature => 3,
            Refusal::LearnedFull => 4,
            Refusal::ChallengesFull => 5,
            Refusal::OutboxFull => 6,
            Refusal::TooFar => 7,
            Refusal::NothingToAudit => 8,
            Refusal::Busy => 9,
            Refusal::NotAsked => 10,
            Refusal::NoJob => 11,
            Refusal::WrongJob => 12,
            Refusal::BookFull => 13,
            Refusal::NoMemory => 14,
            Refusal::BelowBase => 15,
        }
    }

    /// What a check of bytes answers, as a witness says it.
    pub fn of_check(refusal: CheckRefusal) -> Refusal
        ensures { refusal_in result ≡ refusal_of refusal }
    {
        match refusal {
            CheckRefusal::UnknownNode => Refusal::UnknownNode,
            CheckRefusal::Garbage => Refusal::Garbage,
            CheckRefusal::BadSignature => Refusal::BadSignature,
            CheckRefusal::NoMemory => Refusal::NoMemory,
        }
    }
}
