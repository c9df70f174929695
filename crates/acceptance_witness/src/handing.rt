//! Jobs through one slot, with two workers.

ghost use Rattle.std.specs.Prelude.{◌≡◌, All, length};
ghost use Rattle.replay_pool.specs.hand_off.Seats.{AreRetired, idle_at, none_at, opened};

use crate::begun_jobs::{jobs_of, spend_jobs};
use replay_pool::{HandOff, PosterSeat, WorkerSeat};
use std::alloc::Global;
use witness_books::{Back, ReplayJob};

/// What came back.
#[derive(Clone, Copy, PartialEq, Eq)]
enum Came {
    Nothing,
    Job(u32),
    Done(u32),
}

/// What came back, and of which node. It is spent.
fn spend(back: Back) -> Came {
    match back {
        Back::Done(done) => {
            let node = done.node();
            done.discard();
            Came::Done(node)
        }
        Back::Job(job) => {
            let node = job.node();
            job.discard();
            Came::Job(node)
        }
    }
}

/// What is collected at the one slot.
fn collected(hand_off: &HandOff, poster: &mut PosterSeat) -> Came
    requires slots { poster.old.slots ≡ hand_off.now }
    requires slot { length hand_off.now ≡ 1 }
    requires job { length poster.old.jobs ≡ 1 }
    ensures slots { poster.new.slots ≡ poster.old.slots }
    ensures job { length poster.new.jobs ≡ 1 }
    ensures workers { poster.new.workers ≡ poster.old.workers }
    ensures none { All AreRetired poster.old.workers → poster.new.jobs ≡ none_at hand_off.now }
{
    match hand_off.collect(poster, 0) {
        Some(back) => spend(back),
        None => Came::Nothing,
    }
}

/// Whether a job is posted.
fn is_posted(hand_off: &HandOff, poster: &mut PosterSeat, job: ReplayJob) -> bool
    requires slots { poster.old.slots ≡ hand_off.now }
    requires slot { length hand_off.now ≡ 1 }
    requires job { length poster.old.jobs ≡ 1 }
    ensures slots { poster.new.slots ≡ poster.old.slots }
    ensures job { length poster.new.jobs ≡ 1 }
    ensures workers { poster.new.workers ≡ poster.old.workers }
{
    match hand_off.post(poster, 0, job) {
        Ok(()) => true,
        Err(job) => {
            job.discard();
            false
        }
    }
}

/// Whether a worker finds nothing to take. What it took it gives back.
fn finds_nothing(alloc: Global, hand_off: &HandOff, worker: &mut WorkerSeat) -> bool
    requires idle { worker.old ≡ idle_at hand_off.now }
    requires slot { length hand_off.now ≡ 1 }
    ensures { worker.new ≡ idle_at hand_off.now }
{
    let Some(job) = hand_off.take(worker, 0) else {
        return true;
    };
    let given = hand_off.done(worker, 0, job.run(alloc));
    let Ok(()) = given else { unreachable!() };
    false
}

/// Whether a job that is posted goes to the one worker that takes it, who alone gives it back; it is
/// collected after that, and not before.
fn passes(
    alloc: Global,
    hand_off: &HandOff,
    poster: &mut PosterSeat,
    one: &mut WorkerSeat,
    two: &mut WorkerSeat,
    job: ReplayJob,
) -> bool
    requires slots { poster.old.slots ≡ hand_off.now }
    requires slot { length hand_off.now ≡ 1 }
    requires job { length poster.old.jobs ≡ 1 }
    requires one { one.old ≡ idle_at hand_off.now }
    requires two { two.old ≡ idle_at hand_off.now }
    ensures slots { poster.new.slots ≡ poster.old.slots }
    ensures job { length poster.new.jobs ≡ 1 }
    ensures workers { poster.new.workers ≡ poster.old.workers }
    ensures one { one.new ≡ idle_at hand_off.now }
    ensures two { two.new ≡ idle_at hand_off.now }
{
    let node = job.node();
    let posted = is_posted(hand_off, poster, job);
    let Some(job) = hand_off.take(one, 0) else {
        return false;
    };
    let alone = finds_nothing(alloc, hand_off, two);
    let early = collected(hand_off, poster);
    let other = hand_off.done(two, 0, job.run(alloc));
    let Err(back) = other else { unreachable!() };
    let own = hand_off.done(one, 0, back);
    let Ok(()) = own else { unreachable!() };
    posted
        && alone
        && early == Came::Nothing
        && collected(hand_off, poster) == Came::Done(node)
        && collected(hand_off, poster) == Came::Nothing
}

/// Whether the first job passes; the second one is posted then, and the third refused; and where both workers
/// are retired the second one is collected as it was.
fn goes_through(alloc: Global, first: ReplayJob, second: ReplayJob, third: ReplayJob) -> bool {
    let Ok((hand_off, mut poster, mut seats)) = HandOff::open(alloc, 1, 2) else {
        first.discard();
        second.discard();
        third.discard();
        return false;
    };
    let Some(mut two) = seats.pop() else {
        unreachable!()
    };
    let Some(mut one) = seats.pop() else {
        unreachable!()
    };
    let passed = passes(alloc, &hand_off, &mut poster, &mut one, &mut two, first);
    let node = second.node();
    let posted = is_posted(&hand_off, &mut poster, second);
    let refused = !is_posted(&hand_off, &mut poster, third);
    hand_off.retire(&mut poster, one);
    hand_off.retire(&mut poster, two);
    let last = collected(&hand_off, &mut poster);
    hand_off.close(poster);
    passed && posted && refused && last == Came::Job(node)
}

/// The same of jobs that were begun.
fn jobs_go_through(alloc: Global) -> bool {
    let mut jobs = jobs_of(alloc, &[5, 6, 2]);
    let passed = match (jobs.pop(), jobs.pop(), jobs.pop()) {
        (Some(third), Some(second), Some(first)) => goes_through(alloc, first, second, third),
        (third, second, first) => {
            spend_some(third);
            spend_some(second);
            spend_some(first);
            false
        }
    };
    spend_jobs(jobs);
    passed
}

/// Spends a job, if there is one.
fn spend_some(job: Option<ReplayJob>) {
    match job {
        Some(job) => job.discard(),
        None => {}
    }
}

#[test]
fn a_job_goes_to_one_worker_and_comes_back(rt: HostRuntime) {
    assert!(rt; jobs_go_through(rt.alloc()));
}
