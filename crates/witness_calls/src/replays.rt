//! Rounds of replays.

ghost use Rattle.std.specs.Prelude.{◌≤◌};
ghost use Rattle.witness_calls.specs.Telling.{Extends};

use crate::caller::Caller;
use crate::said::Said;
use authenticator::Number;
use challenge::ReplayFault;
use replay_pool::{NoGate, replay_round};
use std::alloc::AllocError;
use std::sync::Wait;
use std::thread::Threads;
use witness_books::{Back, JobVerdict, ReplayDone, ReplayJob};
use witness_service::{EventOf, ReplyOf};

/// What the replay of a node's segment found.
#[derive(Clone, Copy)]
pub enum Outcome {
    /// Each entry may stand where it does.
    Sound,
    /// What the first entry that may not has wrong, and its number.
    Fault(ReplayFault, Number),
}

/// A node whose segment was replayed.
#[derive(Clone, Copy)]
pub struct Replayed {
    /// The node's number.
    pub node: u32,
    /// What was found.
    pub outcome: Outcome,
}

impl Replayed {
    /// What a done value says.
    fn of(done: &ReplayDone) -> Replayed {
        let outcome = match done.verdict() {
            JobVerdict::Sound(_, _) => Outcome::Sound,
            JobVerdict::Fault(fault, number) => Outcome::Fault(*fault, *number),
        };
        Replayed {
            node: done.node(),
            outcome,
        }
    }
}

impl<R: Threads + Wait + Sync> Caller<'_, R> {
    /// Begins each segment that these nodes gave, in their order, has so many workers replay them at once,
    /// and files what they found: that of each node comes back, in the same order. A node that gave none is
    /// passed over. `AllocError` comes where memory ran out: a job that wasn't done is then put back. Where
    /// memory is refused for that too it is discarded, and its node's book waits for it for good.
    pub fn replay(&mut self, nodes: &[u32], workers: usize) -> Result<Vec<Replayed>, AllocError>
        requires some { 1 ≤ workers }
        requires most { workers ≤ 16 }
        ensures { Extends self.old self.new }
    {
        let jobs = self.begin_each(nodes)?;
        match replay_round(self.runtime(), self.alloc(), jobs, workers, &NoGate) {
            Ok(backs) => self.file_each(backs),
            Err(jobs) => {
                self.put_back_each(jobs);
                Err(AllocError)
            }
        }
    }

    /// Begins each segment that these nodes gave, in their order.
    fn begin_each(&mut self, nodes: &[u32]) -> Result<Vec<ReplayJob>, AllocError>
        ensures { Extends self.old self.new }
    {
        let mut jobs = Vec::new(self.alloc());
        for node in nodes {
            let kept = match self.begin(*node) {
                Ok(Some(job)) => self.keep(&mut jobs, job),
                Ok(None) => Ok(()),
                Err(AllocError) => Err(AllocError),
            };
            if kept.is_err() {
                self.put_back_each(jobs);
                return Err(AllocError);
            }
        }
        Ok(jobs)
    }

    /// Keeps a job with others. Where there is no room it is put back.
    fn keep(&mut self, jobs: &mut Vec<ReplayJob>, job: ReplayJob) -> Result<(), AllocError>
        ensures { Extends self.old self.new }
    {
        match jobs.push(job) {
            Ok(()) => Ok(()),
            Err(refused) => {
                self.put_back(refused.value);
                Err(AllocError)
            }
        }
    }

    /// Begins the segment that a node gave, if it gave one.
    fn begin(&mut self, node: u32) -> Result<Option<ReplayJob>, AllocError>
        ensures { Extends self.old self.new }
    {
        match self.step(EventOf::Begin(node)) {
            ReplyOf::Job(job) => Ok(Some(job)),
            other => {
                if Said::of(other).is_no_memory() {
                    Err(AllocError)
                } else {
                    Ok(None)
                }
            }
        }
    }

    /// Puts a job back into its book. Where memory is refused the job is discarded.
    fn put_back(&mut self, job: ReplayJob)
        ensures { Extends self.old self.new }
    {
        let _ = Said::of(self.step(EventOf::PutBack(job)));
    }

    /// Puts each of these jobs back.
    fn put_back_each(&mut self, mut jobs: Vec<ReplayJob>)
        ensures { Extends self.old self.new }
    {
        while let Some(job) = jobs.pop() {
            self.put_back(job);
        }
        jobs.destroy_empty();
    }

    /// Files what came back of a job. One that wasn't done is put back.
    fn file(&mut self, back: Back) -> Result<Replayed, AllocError>
        ensures { Extends self.old self.new }
    {
        match back {
            Back::Done(done) => {
                let replayed = Replayed::of(&done);
                match Said::of(self.step(EventOf::File(done))) {
                    Said::Returned => Ok(replayed),
                    _ => Err(AllocError),
                }
            }
            Back::Job(job) => {
                self.put_back(job);
                Err(AllocError)
            }
        }
    }

    /// Files what came back of each job. What was found is in the order of the jobs.
    fn file_each(&mut self, mut backs: Vec<Back>) -> Result<Vec<Replayed>, AllocError>
        ensures { Extends self.old self.new }
    {
        let mut found = Vec::new(self.alloc());
        let mut failed = false;
        while let Some(back) = backs.pop() {
            failed |= match self.file(back) {
                Ok(replayed) => found.push(replayed).is_err(),
                Err(AllocError) => true,
            };
        }
        backs.destroy_empty();
        found.reverse();
        if failed { Err(AllocError) } else { Ok(found) }
    }
}
