//! What a witness said.

ghost use Rattle.std.specs.Prelude.{◌≡◌};
ghost use Rattle.witness_books.specs.node_book.Replies.{refusal_in, reply_in};
ghost use Rattle.witness_books.specs.node_book.witness_spec.Replies.{is_want};
ghost use Rattle.witness_calls.specs.Telling.{IsSaid, indication_word, wants_memory};

use authenticator::{Authenticator, Number};
use challenge::{Challenge, Evidence};
use std::sync::Arc;
use witness_service::{Indication, Refusal, Reply, ReplyOf};

/// What a witness answered to an event that asks for no job and brings none back.
#[derive(Drop)]
pub enum Said {
    /// The authenticator was learned.
    Noted,
    /// It was learned before, or a challenge with that message is open.
    Already,
    /// The challenge is open.
    Opened,
    /// The segment is the one that was asked for.
    Accepted,
    /// The challenge is closed.
    Closed,
    /// The node is asked for the segment of its log from the first to the last of these numbers.
    Asked {
        /// The first number.
        first: Number,
        /// The last number.
        last: Number,
    },
    /// A job came back, done or as it was.
    Returned,
    /// An authenticator of another node is to be forwarded.
    Forwarded(Authenticator),
    /// Nothing is to be forwarded.
    Empty,
    /// The node's failure indication.
    Told(Indication),
    /// The node's open challenges.
    Open(Vec<Challenge>),
    /// The evidence against the node, if there is some.
    EvidenceIs(Option<Arc<Evidence>>),
    /// The event was refused.
    Refused(Refusal),
}

impl Said {
    /// What a reply says. A job or a done value in it, which no event of these has, is spent without use.
    pub fn of(reply: Reply) -> Said
        ensures { IsSaid (reply_in reply) result }
    {
        match reply {
            ReplyOf::Noted => Said::Noted,
            ReplyOf::Already => Said::Already,
            ReplyOf::Opened => Said::Opened,
            ReplyOf::Accepted => Said::Accepted,
            ReplyOf::Closed => Said::Closed,
            ReplyOf::Asked { first, last } => Said::Asked { first, last },
            ReplyOf::Filed | ReplyOf::Returned => Said::Returned,
            ReplyOf::Forwarded(authenticator) => Said::Forwarded(authenticator),
            ReplyOf::Empty => Said::Empty,
            ReplyOf::Told(indication) => Said::Told(indication),
            ReplyOf::OpenList(challenges) => Said::Open(challenges),
            ReplyOf::EvidenceIs(evidence) => Said::EvidenceIs(evidence),
            ReplyOf::Refused(refusal) => Said::Refused(refusal),
            ReplyOf::Job(job) => {
                job.discard();
                Said::Returned
            }
            ReplyOf::FileRefused(refusal, done) => {
                done.discard();
                Said::Refused(refusal)
            }
            ReplyOf::PutBackRefused(refusal, job) => {
                job.discard();
                Said::Refused(refusal)
            }
        }
    }

    /// Whether it was refused because a signature doesn't verify.
    pub fn is_bad_signature(&self) -> bool {
        matches!(self, Said::Refused(Refusal::BadSignature))
    }

    /// Whether it is that a node is exposed.
    pub fn is_exposed(&self) -> bool {
        matches!(self, Said::Told(Indication::Exposed))
    }

    /// Whether it was refused because the node's book has no room for a further authenticator.
    pub fn is_learned_full(&self) -> bool {
        matches!(self, Said::Refused(Refusal::LearnedFull))
    }

    /// Whether it was refused because memory ran out.
    pub fn is_no_memory(&self) -> bool
        ensures { result ≡ wants_memory self.now }
    {
        match self {
            Said::Refused(refusal) => is_want(*refusal),
            _ => false,
        }
    }
}

/// Whether it is the refusal that memory ran out.
fn is_want(refusal: Refusal) -> bool
    ensures { result ≡ is_want (refusal_in refusal) }
{
    matches!(refusal, Refusal::NoMemory)
}

/// The word of an indication.
pub fn indication_word(indication: Indication) -> &'static str
    ensures { result.now ≡ indication_word indication }
{
    match indication {
        Indication::Trusted => "trusted",
        Indication::Suspected => "suspected",
        Indication::Exposed => "exposed",
    }
}
