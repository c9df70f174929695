//! Replays to be done.

ghost use Rattle.std.specs.Prelude.{◌≡◌};
ghost use Rattle.witness_spec.specs.Events.{IsEvent, PutBack};
ghost use Rattle.replay_jobs.specs.Backs.{job_in};
ghost use Rattle.replay_jobs.specs.Jobs.{HasRoom};

use crate::done::{PlainDone, ReplayDone};
use crate::plain::PlainJob;
use crate::verdict::replayed;
use std::alloc::{AllocError, Global};
use std::marker::Model;

/// A replay to be done (PeerReview, SOSP 2007, section 5.4), which a book hands out: of its node, from a
/// state, of a closed segment, with the number of the job in that book. It can be neither copied nor let go:
/// `run` or `discard` spends it, or its book takes it back. The messages that the state knows, and those that
/// the segment may add, are within a state's bounds.
pub struct ReplayJob {
    plain: PlainJob,
}

impl Model for ReplayJob {
    ghost use Rattle.witness_spec.specs.Events.{JobParts};
    ghost use Rattle.replay_jobs.specs.Codes.{job_code};
    ghost use Rattle.replay_jobs.specs.Jobs.{HasRoom};

    ghost Value = { JobParts };

    ghost coded = { job_code };

    ghost view = { λ j. j.plain };

    ghost invariant = { λ j. HasRoom j.plain };
}

/// What comes back of a job that was run.
pub enum Back {
    /// It was done.
    Done(ReplayDone),
    /// Memory was refused: the job as it was.
    Job(ReplayJob),
}

impl ReplayJob {
    /// The job of these words. A book makes each once.
    pub fn new(plain: PlainJob) -> ReplayJob
        requires { HasRoom plain }
        ensures { result ≡ plain }
    {
        ReplayJob { plain }
    }

    /// The node in whose book the job is.
    pub fn node(&self) -> u32
        ensures { result ≡ self.now.node }
    {
        self.plain.node()
    }

    /// Its plain words. It may be put back: its segment has a text and is closed.
    pub fn plain(&self) -> &PlainJob
        ensures plain { result.now ≡ self.now }
        ensures event { IsEvent (PutBack self.now) }
        ensures room { HasRoom self.now }
    {
        let _segment = self.plain.segment();
        &self.plain
    }

    /// Replays the job's segment after its state. `Done` comes back with that very job and its verdict, which
    /// is the replay by a done value's type; `Job` comes only where a growth was refused, and is the very
    /// job. It takes no lock and waits for nobody. Memory is that of the state, of its calls, of the state's
    /// text after the last entry, and of a copy of each authenticator that the entries show.
    pub fn run(self, alloc: Global) -> Back
        ensures { job_in result ≡ self }
    {
        match replayed(alloc, &self.plain) {
            Ok(verdict) => {
                let ReplayJob { plain } = self;
                Back::Done(ReplayDone::new(PlainDone::new(plain, verdict)))
            }
            Err(AllocError) => Back::Job(self),
        }
    }

    /// Its plain words alone.
    pub fn into_plain(self) -> PlainJob
        ensures { result ≡ self }
    {
        let ReplayJob { plain } = self;
        plain
    }

    /// Spends the job without a replay: in its book it stays out.
    pub fn discard(self) {
        let ReplayJob { plain: _ } = self;
    }
}
