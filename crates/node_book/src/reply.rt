//! What a witness answers.

ghost use Rattle.std.specs.Prelude.{◌≡◌};
ghost use Rattle.node_book.specs.Replies.{reply_in};

use crate::refusal::Refusal;
use authenticator::{Authenticator, Number};
use challenge::{Challenge, Evidence};
use replay_jobs::{PlainDone, PlainJob, ReplayDone, ReplayJob};
use std::sync::Arc;

/// What a witness says of a node: its failure indication (PeerReview, SOSP 2007, section 3).
#[derive(Clone, Copy, Debug, PartialEq, Eq)]
pub enum Indication {
    /// There is no evidence against it, and no challenge is open.
    Trusted,
    /// There is no evidence against it, but a challenge is open.
    Suspected,
    /// There is evidence against it.
    Exposed,
}

/// What a witness answers to an event. `J` and `D` are a replay to be done and one that was done: the values
/// that must be spent (`Reply`), or their plain words (`PlainReply`, a note of a reply).
#[derive(Drop)]
pub enum ReplyOf<J, D> {
    /// The authenticator was learned.
    Noted,
    /// It was learned before, or a challenge with that message is open.
    Already,
    /// The challenge is open.
    Opened,
    /// The segment is the one that was asked for.
    Accepted,
    /// The challenge that it acknowledges is closed.
    Closed,
    /// The node is asked for the segment of its log from the first to the last of these numbers.
    Asked { first: Number, last: Number },
    /// A replay is to be done.
    Job(J),
    /// The done value was filed.
    Filed,
    /// The job was put back.
    Returned,
    /// An authenticator of another node that is to be forwarded.
    Forwarded(Authenticator),
    /// Nothing is to be forwarded.
    Empty,
    /// What is said of the node.
    Told(Indication),
    /// Its open challenges, in the order in which they were accepted.
    OpenList(Vec<Challenge>),
    /// The evidence against it, if there is some.
    EvidenceIs(Option<Arc<Evidence>>),
    /// The event was refused: nothing changed.
    Refused(Refusal),
    /// A done value was refused, and comes back: nothing changed.
    FileRefused(Refusal, D),
    /// A job was refused, and comes back: nothing changed.
    PutBackRefused(Refusal, J),
}

/// A reply, with its job or done value.
pub type Reply = ReplyOf<ReplayJob, ReplayDone>;

/// The plain words of a reply: they may be copied and let go.
pub type PlainReply = ReplyOf<PlainJob, PlainDone>;
