//! What the poster of a round does at its slots.

ghost use Rattle.std.specs.Prelude.{◌≡◌, ◌≤◌, [], All, IsSome, length, vec_capacity, vec_len};
ghost use Rattle.std.specs.List.{AllZip};
ghost use Rattle.hand_off.specs.replay_jobs.Backs.{job_in};
ghost use Rattle.hand_off.specs.Seats.{AreRetired, count, idle_at, none_at};
ghost use Rattle.replay_pool.specs.Rounds.{IsBackAt, some_jobs};

use hand_off::{Back, HandOff, PosterSeat, ReplayJob, WorkerSeat};
use std::alloc::Global;

/// Posts each job to the slot of its place, the last one first.
pub fn post_all(hand_off: &HandOff, poster: &mut PosterSeat, mut jobs: Vec<ReplayJob>)
    requires slots { poster.old.slots ≡ hand_off.now }
    requires empty { poster.old.jobs ≡ none_at hand_off.now }
    requires each { length hand_off.now ≡ vec_len jobs }
    ensures slots { poster.new.slots ≡ poster.old.slots }
    ensures jobs { poster.new.jobs ≡ some_jobs jobs.items }
    ensures workers { poster.new.workers ≡ poster.old.workers }
{
    while let Some(job) = jobs.pop() {
        let posted = hand_off.post(poster, jobs.len(), job);
        let Ok(()) = posted else { unreachable!() };
    }
    jobs.destroy_empty();
}

/// Retires all workers.
pub fn retire_all(hand_off: &HandOff, poster: &mut PosterSeat, mut seats: Vec<WorkerSeat>)
    requires slots { poster.old.slots ≡ hand_off.now }
    requires idle { All (λ w. w ≡ idle_at hand_off.now) seats.items }
    requires workers { All (λ c. c ≡ count (vec_len seats) 0) poster.old.workers }
    ensures slots { poster.new.slots ≡ poster.old.slots }
    ensures jobs { poster.new.jobs ≡ poster.old.jobs }
    ensures workers { All AreRetired poster.new.workers }
{
    while let Some(seat) = seats.pop() {
        hand_off.retire(poster, seat);
    }
}

/// Collects what came back at each slot, and runs what no worker ran. All workers are retired.
pub fn collect_all(
    alloc: Global,
    hand_off: &HandOff,
    poster: &mut PosterSeat,
    mut backs: Vec<Back>,
) -> Vec<Back>
    requires slots { poster.old.slots ≡ hand_off.now }
    requires retired { All AreRetired poster.old.workers }
    requires posted { All IsSome poster.old.jobs }
    requires each { length poster.old.jobs ≡ length hand_off.now }
    requires room { (backs.items ≡ []) × (vec_len backs ≡ 0) × (length hand_off.now ≤ vec_capacity backs) }
    ensures slots { poster.new.slots ≡ poster.old.slots }
    ensures jobs { poster.new.jobs ≡ none_at hand_off.now }
    ensures backs { AllZip IsBackAt poster.old.jobs result.items }
{
    for slot in 0..hand_off.slots() {
        let Some(back) = hand_off.collect(poster, slot) else {
            unreachable!()
        };
        backs.push_reserved(run_left(alloc, back));
    }
    backs
}

/// Runs what no worker ran.
fn run_left(alloc: Global, back: Back) -> Back
    ensures { job_in result ≡ job_in back }
{
    match back {
        Back::Done(done) => Back::Done(done),
        Back::Job(job) => job.run(alloc),
    }
}
