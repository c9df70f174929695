//! What the workers of a round do, and their threads.

ghost use Rattle.std.specs.Prelude.{◌≡◌, ◌+◌, ◌^◌, ◌<◌, ◌≤◌, ◌++◌, [], All, length, vec_capacity, vec_len};
ghost use Rattle.std.specs.Thread.{IsSync};
ghost use Rattle.hand_off.specs.Seats.{idle_at};

use crate::gate::Gate;
use hand_off::{HandOff, WorkerSeat};
use std::alloc::Global;
use std::snapshot::Snapshot;
use std::sync::Wait;
use std::thread;
use std::thread::{Promise, Scope, Threads};

/// A worker's thread gives its seat back as it was.
#[derive(Drop)]
struct SeatOf(Snapshot<WorkerSeat>);

impl Promise<WorkerSeat> for SeatOf {
    ghost use Rattle.std.specs.Prelude.{◌≡◌};

    ghost kept_by = { λ p r. r ≡ p.0.value };
}

/// Takes the job of a slot, if one is ready, runs it and gives back what came of it.
fn try_slot<G: Gate>(
    gate: &G,
    alloc: Global,
    hand_off: &HandOff,
    seat: &mut WorkerSeat,
    slot: usize,
)
    requires idle { seat.old ≡ idle_at hand_off.now }
    requires slot { slot < length hand_off.now }
    requires fits { slot + 1 < 2 ^ 64 }
    ensures { seat.new ≡ seat.old }
{
    let Some(job) = hand_off.take(seat, slot) else {
        return;
    };
    gate.reached(slot + 1);
    let given = hand_off.done(seat, slot, job.run(alloc));
    let Ok(()) = given else { unreachable!() };
}

/// What a worker does: it tries each slot once, and waits for nobody.
fn work<G: Gate>(gate: &G, alloc: Global, hand_off: &HandOff, mut seat: WorkerSeat) -> WorkerSeat
    requires { seat ≡ idle_at hand_off.now }
    ensures { result ≡ seat }
{
    for slot in 0..hand_off.slots() {
        try_slot(gate, alloc, hand_off, &mut seat, slot);
    }
    seat
}

/// Starts a thread for each worker but the first, whose work is done here once the others are started. So is
/// the work of one for which no thread is made.
fn run_all<'s, E, R: Threads, G: Gate>(
    rt: &R,
    scope: &Scope<'s, E>,
    gate: &'s G,
    alloc: Global,
    hand_off: &'s HandOff,
    mut waiting: Vec<WorkerSeat>,
    mut ended: Vec<WorkerSeat>,
) -> Vec<WorkerSeat>
    requires sync { IsSync G.row }
    requires idle { All (λ w. w ≡ idle_at hand_off.now) waiting.items }
    requires room { vec_len ended + vec_len waiting ≤ vec_capacity ended }
    ensures same { result.items ≡ ended.items ++ waiting.items }
    ensures len { vec_len result ≡ vec_len ended + vec_len waiting }
    ensures room { vec_capacity result ≡ vec_capacity ended }
{
    let Some(seat) = waiting.pop() else {
        return ended;
    };
    if waiting.is_empty() {
        ended.push_reserved(work(gate, alloc, hand_off, seat));
        return ended;
    }
    let promise = SeatOf(Snapshot::of(&seat));
    let run = move || -> WorkerSeat
        requires { seat ≡ idle_at hand_off.now }
        ensures { result ≡ seat }
    { work(gate, alloc, hand_off, seat) };
    let made = scope.spawn_with(promise, run);
    let mut all = run_all(rt, scope, gate, alloc, hand_off, waiting, ended);
    let seat = match made {
        Ok(handle) => handle.join(rt),
        Err(refused) => (refused.value)(),
    };
    all.push_reserved(seat);
    all
}

/// Has all workers do their work, and waits until they have ended.
pub fn run_workers<R: Threads + Wait, G: Gate>(
    rt: &R,
    gate: &G,
    alloc: Global,
    hand_off: &HandOff,
    waiting: Vec<WorkerSeat>,
    ended: Vec<WorkerSeat>,
) -> Vec<WorkerSeat>
    requires idle { All (λ w. w ≡ idle_at hand_off.now) waiting.items }
    requires room { (ended.items ≡ []) × (vec_len ended ≡ 0) × (vec_len waiting ≤ vec_capacity ended) }
    ensures same { result.items ≡ waiting.items }
    ensures len { vec_len result ≡ vec_len waiting }
{
    thread::scope(
        thread::scope_env(),
        rt,
        |scope| -> Vec<WorkerSeat>
            requires sync { IsSync G.row }
            requires idle { All (λ w. w ≡ idle_at hand_off.now) waiting.items }
            requires room { (ended.items ≡ []) × (vec_len ended ≡ 0)
                × (vec_len waiting ≤ vec_capacity ended) }
            ensures same { result.items ≡ waiting.items }
            ensures len { vec_len result ≡ vec_len waiting }
        { run_all(rt, scope, gate, alloc, hand_off, waiting, ended) },
    )
}
