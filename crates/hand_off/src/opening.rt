//! How slots are opened, get their workers, and are closed.

ghost use Rattle.std.specs.Prelude.{◌≡◌, ◌+◌, ◌<◌, ◌≤◌, [], All, IfErr, IfOk, None, length, map};
ghost use Rattle.std.specs.Prelude.{vec_capacity, vec_len};
ghost use Rattle.hand_off.specs.Seats.{idle_at};
ghost use Rattle.hand_off.specs.Places.{idle_place, slot_id, slot_ids, vacant, with_one_retired};

use crate::places::{PosterPlace, WorkerPlace};
use crate::seats::WorkerSeat;
use crate::slot::Slot;
use std::alloc::{AllocError, Global};

/// This many empty slots without workers, and the poster's seat at each.
pub fn open_slots(alloc: Global, count: usize) -> Result<(Vec<Slot>, Vec<PosterPlace>), AllocError>
    ensures count { IfOk result (λ r. vec_len r.0 ≡ count) }
    ensures vacant { IfOk result (λ r. r.1.items ≡ map (λ s. vacant (slot_id s) 0) r.0.items) }
{
    let mut places = Vec::with_capacity(alloc, count)?;
    let mut slots = Vec::with_capacity(alloc, count)?;
    for _ in 0..count {
        match Slot::open(alloc) {
            Ok((slot, seat)) => {
                slots.push_reserved(slot);
                places.push_reserved(PosterPlace::new(seat));
            }
            Err(AllocError) => {
                close_slots(slots, places);
                return Err(AllocError);
            }
        }
    }
    Ok((slots, places))
}

/// Ends slots that nothing is posted to.
pub fn close_slots(mut slots: Vec<Slot>, mut places: Vec<PosterPlace>)
    requires slots { map (λ p. p.slot) places.items ≡ slot_ids slots.items }
    requires empty { All (λ p. p.job ≡ None) places.items }
{
    while let Some(slot) = slots.pop() {
        let Some(place) = places.pop() else {
            unreachable!()
        };
        slot.close(place.into_seat());
    }
    slots.destroy_empty();
}

/// A seat at each slot for each of this many workers, at most 16. Where memory was refused the places are
/// those of these slots, and name no job.
pub fn recruit_all(
    alloc: Global,
    slots: &[Slot],
    places: &mut Vec<PosterPlace>,
    workers: usize,
) -> Result<Vec<WorkerSeat>, AllocError>
    requires few { workers ≤ 16 }
    requires vacant { places.old.items ≡ map (λ s. vacant (slot_id s) 0) slots.now }
    ensures count { IfOk result (λ all. vec_len all ≡ workers) }
    ensures idle { IfOk result (λ all. All (λ w. w ≡ idle_at (slot_ids slots.now)) all.items) }
    ensures vacant { IfOk result (λ _. places.new.items ≡ map (λ s. vacant (slot_id s) workers) slots.now) }
    ensures slots { IfErr result (λ _. map (λ p. p.slot) places.new.items ≡ slot_ids slots.now) }
    ensures empty { IfErr result (λ _. All (λ p. p.job ≡ None) places.new.items) }
{
    let Ok(mut all) = Vec::with_capacity(alloc, workers) else {
        return Err(AllocError);
    };
    for worker in 0..workers {
        let Ok(seat) = recruit(alloc, slots, places, worker) else {
            return Err(AllocError);
        };
        all.push_reserved(seat);
    }
    Ok(all)
}

/// A seat at each slot for the worker of this number, 0 to 15. Where memory was refused nothing has changed.
fn recruit(
    alloc: Global,
    slots: &[Slot],
    places: &mut Vec<PosterPlace>,
    worker: usize,
) -> Result<WorkerSeat, AllocError>
    requires few { worker < 16 }
    requires vacant { places.old.items ≡ map (λ s. vacant (slot_id s) worker) slots.now }
    ensures idle { IfOk result (λ w. w ≡ idle_at (slot_ids slots.now)) }
    ensures vacant { IfOk result (λ _. places.new.items ≡ map
        (λ s. vacant (slot_id s) (worker + 1)) slots.now) }
    ensures same { IfErr result (λ _. places.new.items ≡ places.old.items) }
{
    let row = Vec::with_capacity(alloc, slots.len())?;
    let places = recruit_row(slots, places, row, worker as u64);
    Ok(WorkerSeat { places })
}

/// The same, with room for the seats.
fn recruit_row(
    slots: &[Slot],
    places: &mut Vec<PosterPlace>,
    mut row: Vec<WorkerPlace>,
    worker: u64,
) -> Vec<WorkerPlace>
    requires few { worker < 16 }
    requires vacant { places.old.items ≡ map (λ s. vacant (slot_id s) worker) slots.now }
    requires room { (row.items ≡ []) × (length slots.now ≤ vec_capacity row) }
    ensures idle { result.items ≡ map (λ s. idle_place (slot_id s)) slots.now }
    ensures vacant { places.new.items ≡ map (λ s. vacant (slot_id s) (worker + 1)) slots.now }
{
    for slot in 0..slots.len() {
        row.push_reserved(places[slot].recruit(&slots[slot], worker));
    }
    row
}

/// Takes in a worker's seat at each slot, the last one first.
pub fn retire_places(slots: &[Slot], places: &mut Vec<PosterPlace>, mut worker: Vec<WorkerPlace>)
    requires slots { map (λ p. p.slot) places.old.items ≡ slot_ids slots.now }
    requires idle { worker.items ≡ map (λ s. idle_place (slot_id s)) slots.now }
    ensures { places.new.items ≡ map with_one_retired places.old.items }
{
    while let Some(place) = worker.pop() {
        let slot = worker.len();
        places[slot].retire(&slots[slot], place);
    }
}
