//! A round of workers: each takes what is left, a job at a time.

ghost use Rattle.std.specs.Prelude.{◌≡◌, ◌≤◌, IfErr, IfOk};
ghost use Rattle.std.specs.List.{AllZip};
ghost use Rattle.replay_pool.specs.Rounds.{IsBackOf};

use crate::gate::Gate;
use crate::slots::{collect_all, post_all, retire_all};
use crate::workers::run_workers;
use hand_off::{Back, HandOff, ReplayJob};
use std::alloc::Global;
use std::sync::Wait;
use std::thread::Threads;

/// Runs each job once, by at most so many workers, 1 to 16, and gives what came back of each, in the order of
/// the jobs: a job done, with the verdict that is the replay of its own state and segment, or the very job
/// where memory was refused for its replay. The gate is told of each job's place before it is run, by the
/// worker that runs it. The calling thread is one of the workers: where no thread can be made it runs all
/// jobs. `Err` comes only where room for what comes back was refused: with all jobs, in their order, and none
/// was run.
pub fn replay_round<R: Threads + Wait + Sync, G: Gate>(
    rt: &R,
    alloc: Global,
    jobs: Vec<ReplayJob>,
    workers: usize,
    gate: &G,
) -> Result<Vec<Back>, Vec<ReplayJob>>
    requires least { 1 ≤ workers }
    requires most { workers ≤ 16 }
    ensures backs { IfOk result (λ backs. AllZip IsBackOf jobs.items backs.items) }
    ensures all { IfErr result (λ all. all.items ≡ jobs.items) }
{
    if jobs.is_empty() {
        jobs.destroy_empty();
        return Ok(Vec::new(alloc));
    }
    let Ok(ended) = Vec::with_capacity(alloc, workers) else {
        return Err(jobs);
    };
    let Ok(backs) = Vec::with_capacity(alloc, jobs.len()) else {
        return Err(jobs);
    };
    let Ok((hand_off, mut poster, seats)) = HandOff::open(alloc, jobs.len(), workers) else {
        backs.destroy_empty();
        return Err(jobs);
    };
    post_all(&hand_off, &mut poster, jobs);
    let seats = run_workers(rt, gate, alloc, &hand_off, seats, ended);
    retire_all(&hand_off, &mut poster, seats);
    let backs = collect_all(alloc, &hand_off, &mut poster, backs);
    hand_off.close(poster);
    Ok(backs)
}
