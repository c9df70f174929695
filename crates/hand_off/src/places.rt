//! Seats at one slot, which know at run time what they name.

ghost use Rattle.std.specs.Prelude.{◌≡◌, ℕ, ◌<◌, [], ◌∷◌, false, None, Some, IfErr, IfNone, IfSome, IsSome};
ghost use Rattle.std.specs.Prelude.{OnOk};
ghost use Rattle.replay_jobs.specs.Backs.{job_in};
ghost use Rattle.witness_spec.specs.Events.{JobParts};
ghost use Rattle.hand_off.specs.Slots.{poster, workers};
ghost use Rattle.hand_off.specs.Seats.{AreRetired};
ghost use Rattle.hand_off.specs.Places.{holding, idle_place, naming, slot_id, vacant, with_one_more};
ghost use Rattle.hand_off.specs.Places.{with_one_retired};
ghost use Rattle.hand_off.specs.declared.view.Workers.{Workers};

use crate::slot::{Slot, SlotSeat};
use replay_jobs::{Back, ReplayJob};
use std::marker::Model;

/// The poster's seat at one slot, and whether it names a job there.
#[derive(Drop)]
pub struct PosterPlace {
    posted: bool,
    seat: SlotSeat,
}

impl Model for PosterPlace {
    ghost use Rattle.hand_off.specs.Places.{IsPosterPlace, PostedPlace, job_named, workers_counted};
    ghost use Rattle.hand_off.specs.Codes.{posted_place_code};

    ghost Value = { PostedPlace };

    ghost coded = { posted_place_code };

    ghost view = { λ p. record {
      slot = p.seat.table_id;
      job = job_named p.seat.me.0;
      workers = workers_counted p.seat.me.0;
    } };

    ghost invariant = { λ p. IsPosterPlace p.posted p.seat.me };
}

/// A worker's seat at one slot, with the worker's number, and whether it holds the slot.
#[derive(Drop)]
pub struct WorkerPlace {
    worker: u64,
    held: bool,
    seat: SlotSeat,
}

impl Model for WorkerPlace {
    ghost use Rattle.std.specs.Prelude.{◌<◌};
    ghost use Rattle.hand_off.specs.Places.{IsWorkerPlace, WorkedPlace, job_named};
    ghost use Rattle.hand_off.specs.Codes.{worked_place_code};

    ghost Value = { WorkedPlace };

    ghost coded = { worked_place_code };

    ghost view = { λ p. record {
      slot = p.seat.table_id;
      job = job_named p.seat.me.0;
    } };

    ghost invariant = { λ p. (p.worker < 16) × IsWorkerPlace p.worker p.held p.seat.me };
}

impl PosterPlace {
    /// The seat of a slot that was opened.
    pub fn new(seat: SlotSeat) -> PosterPlace
        requires { seat.me ≡ (poster None false (workers 0 0 None), (0, None) ∷ []) }
        ensures { result ≡ vacant seat.table_id 0 }
    {
        PosterPlace {
            posted: false,
            seat,
        }
    }

    /// A seat at the slot for one worker more.
    pub fn recruit(&mut self, slot: &Slot, worker: u64) -> WorkerPlace
        requires slot { self.old.slot ≡ slot_id slot.now }
        requires next { worker ≡ self.old.workers.made }
        requires few { worker < 16 }
        ensures more { self.new ≡ with_one_more self.old }
        ensures worker { result ≡ idle_place self.old.slot }
    {
        let seat = slot.recruit(&mut self.seat);
        WorkerPlace {
            worker,
            held: false,
            seat,
        }
    }

    /// Posts a job, unless one is named here.
    pub fn post(&mut self, slot: &Slot, job: ReplayJob) -> Result<(), ReplayJob>
        requires { self.old.slot ≡ slot_id slot.now }
        ensures empty { OnOk result (self.old.job ≡ None) }
        ensures posted { OnOk result (self.new ≡ naming self.old (Some job)) }
        ensures full { IfErr result (λ back. (back ≡ job) × IsSome self.old.job) }
        ensures same { IfErr result (λ _. self.new ≡ self.old) }
    {
        if self.posted {
            return Err(job);
        }
        slot.post(&mut self.seat, job);
        self.posted = true;
        Ok(())
    }

    /// Collects what came back of the job that is named here, or the job.
    pub fn collect(&mut self, slot: &Slot) -> Option<Back>
        requires { self.old.slot ≡ slot_id slot.now }
        ensures own { IfSome result (λ back. self.old.job ≡ Some (job_in back)) }
        ensures empty { IfSome result (λ _. self.new ≡ naming self.old None) }
        ensures same { IfNone result (self.new ≡ self.old) }
        ensures sure { IfNone result (AreRetired self.old.workers → self.old.job ≡ None) }
    {
        if !self.posted {
            return None;
        }
        let Some(back) = slot.collect(&mut self.seat) else {
            return None;
        };
        self.posted = false;
        Some(back)
    }

    /// Takes in the seat of a worker that holds nothing here.
    pub fn retire(&mut self, slot: &Slot, worker: WorkerPlace)
        requires slot { self.old.slot ≡ slot_id slot.now }
        requires worker { worker ≡ idle_place (slot_id slot.now) }
        ensures { self.new ≡ with_one_retired self.old }
    {
        slot.retire(&mut self.seat, worker.into_seat());
    }

    /// The seat alone, which names no job.
    pub fn into_seat(self) -> SlotSeat
        requires { self.job ≡ None }
        ensures slot { result.table_id ≡ self.slot }
        ensures empty { (c : Workers) × (result.me ≡ (poster None false c, (0, None) ∷ [])) }
    {
        let PosterPlace { posted: _, seat } = self;
        seat
    }
}

impl WorkerPlace {
    ghost use Rattle.hand_off.specs.Slots.{idle};

    /// Takes the job of the slot, if one is ready.
    pub fn take(&mut self, slot: &Slot) -> Option<ReplayJob>
        requires slot { self.old.slot ≡ slot_id slot.now }
        requires idle { self.old.job ≡ None }
        ensures taken { IfSome result (λ job. self.new ≡ holding self.old (Some job)) }
        ensures none { IfNone result (self.new ≡ self.old) }
    {
        let job = slot.take(&mut self.seat, self.worker)?;
        self.held = true;
        Some(job)
    }

    /// Gives back what came of the job that is held here; or nothing is held, and it comes back.
    pub fn done(&mut self, slot: &Slot, back: Back) -> Result<(), Back>
        requires slot { self.old.slot ≡ slot_id slot.now }
        requires own { (job : JobParts) → self.old.job ≡ Some job → job_in back ≡ job }
        ensures held { OnOk result (IsSome self.old.job) }
        ensures given { OnOk result (self.new ≡ holding self.old None) }
        ensures idle { IfErr result (λ kept. (kept ≡ back) × (self.old.job ≡ None)) }
        ensures same { IfErr result (λ _. self.new ≡ self.old) }
    {
        if !self.held {
            return Err(back);
        }
        slot.done(&mut self.seat, back);
        self.held = false;
        Ok(())
    }

    /// The seat alone, which holds nothing.
    pub fn into_seat(self) -> SlotSeat
        requires { self.job ≡ None }
        ensures slot { result.table_id ≡ self.slot }
        ensures idle { (w : ℕ) × (result.me ≡ (idle w, [])) }
    {
        let WorkerPlace {
            worker: _,
            held: _,
            seat,
        } = self;
        seat
    }
}
