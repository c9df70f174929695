//! The plain words of a job.

ghost use Rattle.std.specs.Prelude.{◌≡◌, ◌↔◌, IfOk, IsTrue};
ghost use Rattle.witness_spec.specs.Events.{IsClosedUnder};

use crate::segment::SharedSegment;
use replay::SharedState;
use std::alloc::AllocError;
use std::marker::Model;

/// The plain words of a replay to be done: of a node, with the number of the job in its book, from a state,
/// of a closed segment. They say which job is meant, and aren't the job: they may be copied and let go.
/// State and segment are shared.
#[derive(Drop)]
pub struct PlainJob {
    node: u32,
    number: u64,
    state: SharedState,
    segment: SharedSegment,
}

impl Model for PlainJob {
    ghost use Rattle.witness_spec.specs.Events.{JobParts};
    ghost use Rattle.replay_jobs.specs.Codes.{job_code};

    ghost Value = { JobParts };

    ghost coded = { job_code };

    ghost view = { λ j. record {
      node = j.node;
      number = j.number;
      state = j.state;
      segment = j.segment;
    } };
}

impl PlainJob {
    /// The words of the job of this number in the book of a node.
    pub fn new(node: u32, number: u64, state: SharedState, segment: SharedSegment) -> PlainJob
        ensures { result ≡ record {
          node = node;
          number = number;
          state = state;
          segment = segment;
        } }
    {
        PlainJob {
            node,
            number,
            state,
            segment,
        }
    }

    /// The node in whose book the job is.
    pub fn node(&self) -> u32
        ensures { result ≡ self.now.node }
    {
        self.node
    }

    /// The job's number in that book.
    pub fn number(&self) -> u64
        ensures { result ≡ self.now.number }
    {
        self.number
    }

    /// The state before the segment's first entry.
    pub fn state(&self) -> &SharedState
        ensures { result.now ≡ self.now.state }
    {
        &self.state
    }

    /// The segment to be replayed, which has a text and is closed under its roster.
    pub fn segment(&self) -> &SharedSegment
        ensures segment { result.now ≡ self.now.segment }
        ensures closed { IsClosedUnder self.now.segment }
    {
        let _closed = self.segment.closed();
        &self.segment
    }

    /// The segment alone.
    pub fn into_segment(self) -> SharedSegment
        ensures { result ≡ self.segment }
    {
        let PlainJob {
            node: _,
            number: _,
            state: _,
            segment,
        } = self;
        segment
    }

    /// Whether another is the same job: node, number, state and segment, with its roster, are. It compares
    /// bytes, and takes no memory.
    pub fn is_same(&self, other: &PlainJob) -> bool
        ensures { IsTrue result ↔ (self.now ≡ other.now) }
    {
        self.node == other.node
            && self.number == other.number
            && self.state.is_same(&other.state)
            && self.segment.is_same(&other.segment)
    }

    /// The same words once more: state and segment get an owner more each. Takes no memory: `AllocError`
    /// comes only where owners can't be counted further.
    pub fn try_clone(&self) -> Result<PlainJob, AllocError>
        ensures { IfOk result (λ j. j ≡ self.now) }
    {
        let state = self.state.try_clone()?;
        let segment = self.segment.try_clone()?;
        Ok(PlainJob {
            node: self.node,
            number: self.number,
            state,
            segment,
        })
    }
}
