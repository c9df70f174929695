//! The hand-off: its slots, and each step on them.

ghost use Rattle.std.specs.Prelude.{◌≡◌, ◌<◌, ◌≤◌, All, IfErr, IfNone, IfOk, IfSome, IsSome, None, OnErr};
ghost use Rattle.std.specs.Prelude.{OnOk, Some};
ghost use Rattle.std.specs.Prelude.{length, vec_len};
ghost use Rattle.replay_jobs.specs.Backs.{job_in};
ghost use Rattle.witness_spec.specs.Events.{JobParts};
ghost use Rattle.hand_off.specs.Seats.{AreRetired, idle_at, job_at, none_at, opened, posting, retiring};
ghost use Rattle.hand_off.specs.Seats.{working};

use crate::opening::{close_slots, open_slots, recruit_all, retire_places};
use crate::seats::{PosterSeat, WorkerSeat};
use crate::slot::Slot;
use replay_jobs::{Back, ReplayJob};
use std::alloc::{AllocError, Global};
use std::marker::Model;

/// Slots through which jobs pass from a poster to workers, and what came back of them returns. Threads share
/// it by a reference, each with a seat of its own. It must be closed.
pub struct HandOff {
    slots: Vec<Slot>,
}

impl Model for HandOff {
    ghost use Rattle.std.specs.Prelude.{List};
    ghost use Rattle.atomic_table.specs.Seated.{TableId};
    ghost use Rattle.hand_off.specs.Places.{slot_ids};

    ghost Value = { List TableId };

    ghost view = { λ h. slot_ids h.slots.items };
}

impl HandOff {
    /// This many empty slots, at least 1, for 1 to 16 workers: with the poster's seat, and a seat for each
    /// worker. It alone takes memory: for the slots, and for each seat a few bytes a slot.
    pub fn open(
        alloc: Global,
        slots: usize,
        workers: usize,
    ) -> Result<(HandOff, PosterSeat, Vec<WorkerSeat>), AllocError>
        requires slots { 1 ≤ slots }
        requires least { 1 ≤ workers }
        requires most { workers ≤ 16 }
        ensures slots { IfOk result (λ r. length r.0 ≡ slots) }
        ensures poster { IfOk result (λ r. r.1 ≡ opened r.0 workers) }
        ensures count { IfOk result (λ r. vec_len r.2 ≡ workers) }
        ensures workers { IfOk result (λ r. All (λ w. w ≡ idle_at r.0) r.2.items) }
    {
        let (slots, mut places) = open_slots(alloc, slots)?;
        match recruit_all(alloc, &slots, &mut places, workers) {
            Ok(seats) => Ok((HandOff { slots }, PosterSeat { places }, seats)),
            Err(AllocError) => {
                close_slots(slots, places);
                Err(AllocError)
            }
        }
    }

    /// How many slots there are.
    pub fn slots(&self) -> usize
        ensures { result ≡ length self.now }
    {
        self.slots.len()
    }

    /// Puts a job into a slot. `Err` comes exactly where the poster's seat names a job there already, with
    /// the job that was handed in; nothing has changed then. It is one atomic step.
    pub fn post(
        &self,
        poster: &mut PosterSeat,
        slot: usize,
        job: ReplayJob,
    ) -> Result<(), ReplayJob>
        requires slots { poster.old.slots ≡ self.now }
        requires slot { slot < length self.now }
        ensures empty { OnOk result (job_at poster.old.jobs slot ≡ None) }
        ensures posted { OnOk result (poster.new ≡ posting poster.old slot (Some job)) }
        ensures full { IfErr result (λ back. (back ≡ job) × IsSome (job_at poster.old.jobs slot)) }
        ensures same { OnErr result (poster.new ≡ poster.old) }
    {
        poster.places[slot].post(&self.slots[slot], job)
    }

    /// Takes the job out of a slot, for a worker that holds nothing. It tries once: `None` comes where at
    /// that moment no job was ready there, or another worker was faster; the seat is as before then.
    pub fn take(&self, worker: &mut WorkerSeat, slot: usize) -> Option<ReplayJob>
        requires idle { worker.old ≡ idle_at self.now }
        requires slot { slot < length self.now }
        ensures taken { IfSome result (λ job. worker.new ≡ working worker.old slot (Some job)) }
        ensures none { IfNone result (worker.new ≡ worker.old) }
    {
        worker.places[slot].take(&self.slots[slot])
    }

    /// Gives back what came of the job that this worker took from a slot. `Err` comes exactly
    /// where the worker doesn't hold the slot, with what was handed in; nothing has changed
    /// then. It is one atomic step.
    pub fn done(&self, worker: &mut WorkerSeat, slot: usize, back: Back) -> Result<(), Back>
        requires slots { worker.old.slots ≡ self.now }
        requires slot { slot < length self.now }
        requires own { (job : JobParts) → job_at worker.old.jobs slot ≡ Some job → job_in back ≡ job }
        ensures held { OnOk result (IsSome (job_at worker.old.jobs slot)) }
        ensures given { OnOk result (worker.new ≡ working worker.old slot None) }
        ensures idle { IfErr result (λ kept. (kept ≡ back) × (job_at worker.old.jobs slot ≡ None)) }
        ensures same { OnErr result (worker.new ≡ worker.old) }
    {
        worker.places[slot].done(&self.slots[slot], back)
    }

    /// Takes what came back of the job that was posted to a slot, or the job itself, if no worker took it. It
    /// tries once: `None` comes where nothing is posted there, or where at that moment a worker had the job;
    /// the seat names what it named then. Once all workers are retired it comes for no job that was posted.
    pub fn collect(&self, poster: &mut PosterSeat, slot: usize) -> Option<Back>
        requires slots { poster.old.slots ≡ self.now }
        requires slot { slot < length self.now }
        ensures own { IfSome result (λ back. job_at poster.old.jobs slot ≡ Some (job_in back)) }
        ensures empty { IfSome result (λ _. poster.new ≡ posting poster.old slot None) }
        ensures same { IfNone result (poster.new ≡ poster.old) }
        ensures sure { IfNone result (All AreRetired poster.old.workers
            → job_at poster.old.jobs slot ≡ None) }
    {
        poster.places[slot].collect(&self.slots[slot])
    }

    /// Takes in the seat of a worker that holds nothing, and counts it as retired.
    pub fn retire(&self, poster: &mut PosterSeat, worker: WorkerSeat)
        requires slots { poster.old.slots ≡ self.now }
        requires idle { worker ≡ idle_at self.now }
        ensures { poster.new ≡ retiring poster.old }
    {
        let WorkerSeat { places } = worker;
        retire_places(&self.slots, &mut poster.places, places);
    }

    /// Ends the hand-off. No job is posted.
    pub fn close(self, poster: PosterSeat)
        requires slots { poster.slots ≡ self }
        requires empty { poster.jobs ≡ none_at self }
    {
        let HandOff { slots } = self;
        let PosterSeat { places } = poster;
        close_slots(slots, places);
    }
}
