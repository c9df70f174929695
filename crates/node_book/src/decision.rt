//! What is decided of a step, before the book changes: all that the reply and the change need beside the
//! step, and no value that must be spent.

use crate::refusal::Refusal;
use crate::reply::Indication;
use authenticator::{Authenticator, Number};
use challenge::{Challenge, Evidence};
use replay_jobs::{PlainJob, SharedSegment};
use std::sync::Arc;

/// Of an authenticator that is to be learned.
#[derive(Drop)]
pub(crate) enum LearnDecision {
    /// Its pair was shown before.
    Known,
    /// Its number lies below the base.
    Below,
    /// As many are kept as may be.
    Full,
    /// The node is exposed: nothing is kept.
    Ignored,
    /// It is kept, or exposes the node by this evidence.
    Noted(Option<Arc<Evidence>>),
}

/// Of a challenge with a message.
#[derive(Drop)]
pub(crate) enum ChallengeDecision {
    /// One with that message is open.
    Known,
    /// As many are open as may be.
    Full,
    /// It is to be open.
    Opened,
}

/// Of a segment.
#[derive(Drop)]
pub(crate) enum AnswerDecision {
    /// It wasn't asked for.
    NotAsked,
    /// It was: one share of it more, and the evidence by which it exposes the node, if it does.
    Accepted(SharedSegment, Option<Arc<Evidence>>),
}

/// Of an audit.
#[derive(Drop)]
pub(crate) enum AuditDecision {
    /// The segment between these numbers is to be asked for.
    Asked(Number, Number),
    /// None is.
    Refused(Refusal),
}

/// Of a job that is to begin.
#[derive(Drop)]
pub(crate) enum BeginDecision {
    /// This one does.
    Begun(PlainJob),
    /// None does.
    Refused(Refusal),
}

/// Of a job that comes back.
#[derive(Drop)]
pub(crate) enum ReturnDecision {
    /// No job is out.
    NoJob,
    /// Another one is.
    Another,
    /// It is the one that is out.
    IsOut,
}

/// Of a question.
#[derive(Drop)]
pub(crate) enum AskDecision {
    /// What is said of the node.
    Told(Indication),
    /// Its open challenges.
    OpenList(Vec<Challenge>),
    /// The evidence against it, if there is some.
    EvidenceIs(Option<Arc<Evidence>>),
}

/// Of a step, by its kind.
#[derive(Drop)]
pub(crate) enum Decision {
    Learn(LearnDecision),
    SendChallenge(ChallengeDecision),
    Answer(AnswerDecision),
    /// Whether its challenge is open.
    AckIn(bool),
    Audit(AuditDecision),
    Begin(BeginDecision),
    File(ReturnDecision),
    PutBack(ReturnDecision),
    /// The oldest authenticator that is to be forwarded.
    Forward(Option<Authenticator>),
    Ask(AskDecision),
}
