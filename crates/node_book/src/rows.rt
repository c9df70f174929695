//! What a book holds in memory.

ghost use Rattle.std.specs.Prelude.{◌≡◌};
ghost use Rattle.witness_spec.specs.Starting.{start_number};
ghost use Rattle.node_book.specs.Rows.{base_in};

use crate::outbox::Outbox;
use authenticator::{Authenticator, LogVersion, Number};
use challenge::{Base, Challenge, Evidence, SharedState};
use replay_jobs::SharedSegment;
use std::sync::Arc;

/// How far an audit is: there is none; a segment is asked for, from the first to the last of two numbers; one
/// is given; a job of it is out.
#[derive(Drop)]
pub(crate) enum Stage {
    NoAudit,
    Wanted(Number, Number),
    Given(SharedSegment),
    Out(SharedSegment),
}

/// What exposed the node, if something did: a fork, or a replay that found a fault in a segment, which came
/// after so many accepted segments. Evidence of a replay is made where it is asked for: its entries are those
/// segments'.
#[derive(Drop)]
pub(crate) enum Exposure {
    Nothing,
    Fork(Arc<Evidence>),
    Replay(usize, SharedSegment),
}

/// What a book holds. Each list has the oldest first.
#[derive(Drop)]
pub(crate) struct Rows {
    /// The node's number.
    pub node: u32,
    /// The version of its log.
    pub log_version: LogVersion,
    /// The base from which its audit began, if it did from one.
    pub base: Option<Arc<Base>>,
    /// The last number that was audited, and the state there.
    pub end: u64,
    pub state: SharedState,
    /// How far the audit is.
    pub stage: Stage,
    /// How many jobs were begun.
    pub begun: u64,
    /// Learned authenticators, with numbers above the end.
    pub learned: Vec<Authenticator>,
    /// Accepted segments.
    pub segments: Vec<SharedSegment>,
    /// Open challenges.
    pub challenges: Vec<Challenge>,
    /// What is to be forwarded.
    pub outbox: Outbox,
    /// What exposed the node.
    pub exposure: Exposure,
}

/// The number at which an audit from a base begins; 0 without one.
pub(crate) fn start_number(base: &Option<Arc<Base>>) -> u64
    ensures { result ≡ start_number (base_in base.now) }
{
    match base {
        Some(base) => base.at().get(),
        None => 0,
    }
}
