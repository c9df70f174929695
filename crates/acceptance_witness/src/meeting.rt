//! Jobs that meet at a gate: they are run at the same time, where there are two workers, and a free
//! worker takes what is left.

ghost use Rattle.std.specs.Prelude.{◌≤◌};

use crate::begun_jobs::{jobs_of, spend_jobs};
use replay_pool::{Gate, NoGate, replay_round};
use std::alloc::Global;
use std::sync::Wait;
use std::sync::atomic::{AtomicU64, Ordering};
use std::thread::{Threads, yield_now};
use witness_books::Back;

/// How often a worker looks whether the others came.
const TURNS: u64 = 1_000_000;

/// Which jobs a gate holds.
#[derive(Clone, Copy)]
enum Holds {
    /// Each job.
    Each,
    /// The job at this place, from 1.
    One(usize),
}

impl Holds {
    /// Whether the job at this place is held.
    fn is_held(self, job: usize) -> bool {
        match self {
            Holds::Each => true,
            Holds::One(place) => place == job,
        }
    }
}

/// A gate that holds jobs until so many were reached, and counts those that waited in vain.
#[derive(Drop)]
struct Meeting {
    holds: Holds,
    wanted: u64,
    reached: AtomicU64,
    missed: AtomicU64,
}

impl Gate for Meeting {
    fn reached(&self, job: usize) {
        self.reached.fetch_add(1, Ordering::SeqCst);
        if !self.holds.is_held(job) {
            return;
        }
        for _ in 0..TURNS {
            if self.reached.load(Ordering::SeqCst) >= self.wanted {
                return;
            }
            yield_now();
        }
        self.missed.fetch_add(1, Ordering::SeqCst);
    }
}

impl Meeting {
    /// Whether so many jobs reached it, of which so many waited in vain.
    fn has_met(&self, reached: u64, missed: u64) -> bool {
        self.reached.load(Ordering::SeqCst) == reached
            && self.missed.load(Ordering::SeqCst) == missed
    }
}

/// A gate that nobody reached, for these jobs of so many.
fn gate(holds: Holds, wanted: u64) -> Meeting {
    Meeting {
        holds,
        wanted,
        reached: AtomicU64::new(0),
        missed: AtomicU64::new(0),
    }
}

/// The most places that a gate counts.
const PLACES: usize = 7;

/// A gate that counts how often each place is reached: the place's own byte, the lowest for place 0.
#[derive(Drop)]
struct Counts {
    reached: AtomicU64,
}

impl Gate for Counts {
    fn reached(&self, job: usize) {
        if job <= PLACES {
            self.reached.fetch_add(1 << (8 * job), Ordering::SeqCst);
        }
    }
}

/// Whether this is what came back of a node's job, done. It is spent.
fn is_done(back: Back, node: u8) -> bool {
    match back {
        Back::Done(done) => {
            let is_its = done.node() == node as u32;
            done.discard();
            is_its
        }
        Back::Job(job) => {
            job.discard();
            false
        }
    }
}

/// Whether the job of each of these nodes came back done, in their order, and nothing else.
fn are_done(mut backs: Vec<Back>, nodes: &[u8]) -> bool {
    let mut done = backs.len() == nodes.len();
    while let Some(back) = backs.pop() {
        let node = nodes.get(backs.len()).copied().unwrap_or(0);
        done = is_done(back, node) && done;
    }
    backs.destroy_empty();
    done
}

/// Whether the jobs of these nodes come back done, in their order, from a round with so many workers.
fn all_done<R: Threads + Wait + Sync, G: Gate>(
    rt: &R,
    alloc: Global,
    nodes: &[u8],
    workers: usize,
    gate: &G,
) -> bool
    requires least { 1 ≤ workers }
    requires most { workers ≤ 16 }
{
    match replay_round(rt, alloc, jobs_of(alloc, nodes), workers, gate) {
        Ok(backs) => are_done(backs, nodes),
        Err(jobs) => {
            spend_jobs(jobs);
            false
        }
    }
}

/// Whether two jobs reach the gate, of which so many wait in vain for the other, in a round with so many
/// workers, and both come back done.
fn miss<R: Threads + Wait + Sync>(rt: &R, alloc: Global, workers: usize, missed: u64) -> bool
    requires least { 1 ≤ workers }
    requires most { workers ≤ 16 }
{
    let gate = gate(Holds::Each, 2);
    all_done(rt, alloc, &[5, 6], workers, &gate) && gate.has_met(2, missed)
}

/// Whether the job at this place of three is held until both others reached the gate, in a round with two
/// workers, and all come back done.
fn meets_both_others<R: Threads + Wait + Sync>(rt: &R, alloc: Global, place: usize) -> bool {
    let gate = gate(Holds::One(place), 3);
    all_done(rt, alloc, &[5, 6, 2], 2, &gate) && gate.has_met(3, 0)
}

/// Whether three jobs reach the gate by their places from 1, each once, in a round with so many workers, and
/// all come back done.
fn places_are_counted<R: Threads + Wait + Sync>(rt: &R, alloc: Global, workers: usize) -> bool
    requires least { 1 ≤ workers }
    requires most { workers ≤ 16 }
{
    let gate = Counts {
        reached: AtomicU64::new(0),
    };
    all_done(rt, alloc, &[5, 6, 2], workers, &gate)
        && gate.reached.load(Ordering::SeqCst) == 0x0101_0100
}

#[test]
fn a_gate_is_told_each_place_from_1_once(rt: HostRuntime) {
    assert!(rt; places_are_counted(&rt, rt.alloc(), 1));
    assert!(rt; places_are_counted(&rt, rt.alloc(), 2));
}

#[test]
fn two_workers_run_two_jobs_at_the_same_time(rt: HostRuntime) {
    assert!(rt; miss(&rt, rt.alloc(), 2, 0));
}

#[test]
fn one_worker_runs_one_job_after_the_other(rt: HostRuntime) {
    assert!(rt; miss(&rt, rt.alloc(), 1, 1));
}

#[test]
fn more_workers_than_jobs_run_each_once(rt: HostRuntime) {
    assert!(rt; all_done(&rt, rt.alloc(), &[5, 6], 16, &NoGate));
}

#[test]
fn while_one_holds_the_first_of_three_the_other_takes_both_others(rt: HostRuntime) {
    assert!(rt; meets_both_others(&rt, rt.alloc(), 1));
}

#[test]
fn while_one_holds_the_second_of_three_the_other_takes_both_others(rt: HostRuntime) {
    assert!(rt; meets_both_others(&rt, rt.alloc(), 2));
}

#[test]
fn while_one_holds_the_third_of_three_both_others_were_taken(rt: HostRuntime) {
    assert!(rt; meets_both_others(&rt, rt.alloc(), 3));
}

#[test]
fn a_round_without_jobs_gives_nothing(rt: HostRuntime) {
    assert!(rt; all_done(&rt, rt.alloc(), &[], 2, &NoGate));
}
