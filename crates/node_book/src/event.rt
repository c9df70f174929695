//! What a witness is handed.

ghost use Rattle.std.specs.Prelude.{◌≡◌, IfOk};
ghost use Rattle.witness_spec.specs.Events.{IsEvent};
ghost use Rattle.node_book.specs.Events.{event_in};

use authenticator::{Authenticator, Checked};
use envelopes::{Ack, Envelope};
use replay_jobs::{PlainDone, PlainJob, ReplayDone, ReplayJob, SharedSegment};

/// What may be asked of a node.
#[derive(Clone, Copy, Debug, PartialEq, Eq)]
pub enum Question {
    /// Its failure indication: trusted, suspected or exposed (PeerReview, SOSP 2007, section 3).
    Indication,
    /// Its open challenges.
    Challenges,
    /// The evidence against it.
    Evidence,
}

/// One event at a witness: bytes as they arrive, a value that was checked before, or what the witness itself
/// has to do about a node, which is given by its number. `J` and `D` are a replay to be done and one that was
/// done: the values that must be spent (`Event`), or their plain words (`PlainEvent`, a note of an event).
#[derive(Drop)]
pub enum EventOf<J, D> {
    /// A packet (`packets::read_packet`), as it arrived.
    Deliver(Vec<u8>),
    /// A node's authenticator, to be learned: an event of the node that signs it.
    Learn(Checked<Authenticator>),
    /// An envelope that its receiver is to acknowledge: an event of the receiver.
    SendChallenge(Checked<Envelope>),
    /// A segment, in answer to an audit: an event of the node that closes it.
    Answer(SharedSegment),
    /// An acknowledgement of an envelope: an event of the node that signs it.
    AckIn(Checked<Ack>),
    /// The node is to be asked for the next segment of its log.
    Audit(u32),
    /// The segment that was given is to be replayed: asks for the job.
    Begin(u32),
    /// A job comes back, done.
    File(D),
    /// A job comes back as it was.
    PutBack(J),
    /// Asks for the oldest authenticator that is to be forwarded.
    Forward(u32),
    /// Asks what the witness says of the node.
    Ask(u32, Question),
}

/// An event, with its job or done value.
pub type Event = EventOf<ReplayJob, ReplayDone>;

/// The plain words of an event: they may be copied and let go.
pub type PlainEvent = EventOf<PlainJob, PlainDone>;
