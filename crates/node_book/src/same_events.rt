//! Whether two events are the same, by their plain words.

ghost use Rattle.std.specs.Prelude.{◌≡◌, ◌↔◌, IsTrue};
ghost use Rattle.witness_spec.specs.Events.{AckIn, Answer, Ask, Audit, Begin, Deliver, File, Forward, Learn};
ghost use Rattle.witness_spec.specs.Events.{PutBack, SendChallenge};
ghost use Rattle.node_book.specs.Events.{event_in, key_of, question_in};
ghost use Rattle.replay_jobs.specs.Jobs.{done_parts};

use crate::event::{EventOf, PlainEvent, Question};
use authenticator::{Authenticator, Checked, Member, Signs, is_same_hash};
use envelopes::{Ack, Envelope};
use replay_jobs::{PlainDone, PlainJob, SharedSegment};

impl EventOf<PlainJob, PlainDone> {
    /// Whether another says the same event: of the same kind, and the same in every part. Of a checked value
    /// it compares the value and the key that it was checked under. It compares bytes, and takes no memory.
    pub fn is_same(&self, other: &PlainEvent) -> bool
        ensures { IsTrue result ↔ (event_in self.now ≡ event_in other.now) }
    {
        match self {
            EventOf::Deliver(bytes) => is_delivery(other, bytes),
            EventOf::Learn(checked) => is_learned(other, checked),
            EventOf::SendChallenge(checked) => is_challenge(other, checked),
            EventOf::Answer(segment) => is_answer(other, segment),
            EventOf::AckIn(checked) => is_ack(other, checked),
            EventOf::Audit(node) => is_audit(other, *node),
            EventOf::Begin(node) => is_begin(other, *node),
            EventOf::File(done) => is_file(other, done),
            EventOf::PutBack(job) => is_put_back(other, job),
            EventOf::Forward(node) => is_forward(other, *node),
            EventOf::Ask(node, question) => is_ask(other, *node, *question),
        }
    }
}

/// Whether the keys of two members are the same: root and height.
fn is_same_key(own: &Member, other: &Member) -> bool
    ensures { IsTrue result ↔ (key_of own.now ≡ key_of other.now) }
{
    is_same_hash(&own.root, &other.root) && own.height == other.height
}

/// Whether two questions are the same.
fn is_same_question(own: Question, other: Question) -> bool
    ensures { IsTrue result ↔ (question_in own ≡ question_in other) }
{
    match own {
        Question::Indication => matches!(other, Question::Indication),
        Question::Challenges => matches!(other, Question::Challenges),
        Question::Evidence => matches!(other, Question::Evidence),
    }
}

/// Whether the event is that these bytes arrive.
fn is_delivery(event: &PlainEvent, bytes: &[u8]) -> bool
    ensures { IsTrue result ↔ (Deliver bytes.now ≡ event_in event.now) }
{
    match event {
        EventOf::Deliver(other) => bytes == other.as_slice(),
        _ => false,
    }
}

/// Whether the event is that this authenticator is to be learned.
fn is_learned(event: &PlainEvent, checked: &Checked<Authenticator>) -> bool
    ensures { IsTrue result ↔ (Learn checked.now.value (key_of checked.now.member) ≡ event_in event.now) }
{
    match event {
        EventOf::Learn(other) => {
            is_same_key(checked.member(), other.member()) && checked.value().is_same(other.value())
        }
        _ => false,
    }
}

/// Whether the event is that this envelope is to be acknowledged.
fn is_challenge(event: &PlainEvent, checked: &Checked<Envelope>) -> bool
    ensures { IsTrue result ↔
        (SendChallenge checked.now.value (key_of checked.now.member) ≡ event_in event.now) }
{
    match event {
        EventOf::SendChallenge(other) => {
            is_same_key(checked.member(), other.member()) && checked.value().is_same(other.value())
        }
        _ => false,
    }
}

/// Whether the event is that this segment answers an audit.
fn is_answer(event: &PlainEvent, segment: &SharedSegment) -> bool
    ensures { IsTrue result ↔ (Answer segment.now ≡ event_in event.now) }
{
    match event {
        EventOf::Answer(other) => segment.is_same(other),
        _ => false,
    }
}

/// Whether the event is that this acknowledgement comes in.
fn is_ack(event: &PlainEvent, checked: &Checked<Ack>) -> bool
    ensures { IsTrue result ↔ (AckIn checked.now.value (key_of checked.now.member) ≡ event_in event.now) }
{
    match event {
        EventOf::AckIn(other) => {
            is_same_key(checked.member(), other.member()) && checked.value().is_same(other.value())
        }
        _ => false,
    }
}

/// Whether the event is that this node is to be audited.
fn is_audit(event: &PlainEvent, node: u32) -> bool
    ensures { IsTrue result ↔ (Audit node ≡ event_in event.now) }
{
    match event {
        EventOf::Audit(other) => node == *other,
        _ => false,
    }
}

/// Whether the event is that a replay of this node's segment is to begin.
fn is_begin(event: &PlainEvent, node: u32) -> bool
    ensures { IsTrue result ↔ (Begin node ≡ event_in event.now) }
{
    match event {
        EventOf::Begin(other) => node == *other,
        _ => false,
    }
}

/// Whether the event is that this done value comes back.
fn is_file(event: &PlainEvent, done: &PlainDone) -> bool
    ensures { IsTrue result ↔ (File (done_parts done.now) ≡ event_in event.now) }
{
    match event {
        EventOf::File(other) => done.is_same(other),
        _ => false,
    }
}

/// Whether the event is that this job comes back.
fn is_put_back(event: &PlainEvent, job: &PlainJob) -> bool
    ensures { IsTrue result ↔ (PutBack job.now ≡ event_in event.now) }
{
    match event {
        EventOf::PutBack(other) => job.is_same(other),
        _ => false,
    }
}

/// Whether the event is that this node's authenticator is to be forwarded.
fn is_forward(event: &PlainEvent, node: u32) -> bool
    ensures { IsTrue result ↔ (Forward node ≡ event_in event.now) }
{
    match event {
        EventOf::Forward(other) => node == *other,
        _ => false,
    }
}

/// Whether the event is that this is asked of this node.
fn is_ask(event: &PlainEvent, node: u32, question: Question) -> bool
    ensures { IsTrue result ↔ (Ask node (question_in question) ≡ event_in event.now) }
{
    match event {
        EventOf::Ask(whom, other) => node == *whom && is_same_question(question, *other),
        _ => false,
    }
}
