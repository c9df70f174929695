//! The steps of one node's book.

use crate::event::Question;
use authenticator::Authenticator;
use envelopes::{Ack, Envelope};
use replay_jobs::{PlainDone, ReplayDone, ReplayJob, SharedSegment};

/// A step of one node's book: an event of that node, without what tells whose it is. Bytes were read, and
/// signatures checked, before.
pub enum Step {
    /// The node's authenticator, to be learned.
    Learn(Authenticator),
    /// An envelope that the node is to acknowledge.
    SendChallenge(Envelope),
    /// A segment of its log, in answer to an audit.
    Answer(SharedSegment),
    /// Its acknowledgement of an envelope.
    AckIn(Ack),
    /// It is to be asked for the next segment.
    Audit,
    /// The segment that was given is to be replayed.
    Begin,
    /// A job comes back, done.
    File(ReplayDone),
    /// A job comes back as it was.
    PutBack(ReplayJob),
    /// The oldest authenticator that is to be forwarded is asked for.
    Forward,
    /// What is said of the node is asked for.
    Ask(Question),
}
