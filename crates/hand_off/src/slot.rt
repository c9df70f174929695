//! One slot: a word, and a place for a job or for what came back of it.

ghost use Rattle.std.specs.Prelude.{◌≡◌, ℕ, ◌<◌, [], ◌∷◌, Bool, false, Option, None, Some, IfNone, IfOk};
ghost use Rattle.std.specs.Prelude.{IfSome};
ghost use Rattle.replay_jobs.specs.Backs.{job_in};
ghost use Rattle.witness_spec.specs.Events.{JobParts};
ghost use Rattle.hand_off.specs.Slots.{holds, idle, poster, recruit, recruiter, retirer, unnoted, workers};
ghost use Rattle.hand_off.specs.declared.view.Workers.{Workers};

use crate::rule::{BringBack, Collect, Done, Note, Post, Recruit, Retire, SlotRule, Take, TakeOut};
use crate::view::View;
use atomic_table::{Seat, Table};
use replay_jobs::{Back, ReplayJob};
use std::alloc::{AllocError, Global};

/// The word of an empty slot.
const EMPTY: u64 = 0;

/// The word of a slot with a job that no worker took.
const READY: u64 = 1;

/// The word of a slot with what came back of its job.
const DONE: u64 = 2;

/// The word of a slot whose job is with worker 0; with worker 1 it is one more, and so on.
const WITH: u64 = 3;

/// A seat at a slot: the poster's or a worker's.
pub type SlotSeat = Seat<Option<Back>, View>;

/// One slot. It must be closed.
pub struct Slot {
    table: Table<Option<Back>, View, (), SlotRule, Global>,
    ghost sized: { (table.shared.table_id.words ≡ 1) × (table.shared.table_id.slots ≡ 1) },
}

impl Slot {
    /// An empty slot without workers, and the poster's seat.
    pub fn open(alloc: Global) -> Result<(Slot, SlotSeat), AllocError>
        ensures seat { IfOk result (λ r. r.1.table_id ≡ r.0.table.shared.table_id) }
        ensures empty { IfOk result (λ r. r.1.me ≡ (poster None false (workers 0 0 None), (0, None) ∷ [])) }
    {
        let (table, mut seat) = Table::vacant(alloc, &[EMPTY], 1, &())?;
        table.shared.load::<TakeOut>(&mut seat, 0);
        Ok((Slot { table }, seat))
    }

    /// A seat for one worker more, of the next number.
    pub fn recruit(&self, seat: &mut SlotSeat) -> SlotSeat
        requires seat { seat.old.table_id ≡ self.now.table.shared.table_id }
        requires poster { (job : Option JobParts) × (home : Bool) × (c : Workers)
            × (seat.old.me.0 ≡ poster job home c) }
        ensures same { (seat.new.table_id ≡ seat.old.table_id) × (seat.new.id ≡ seat.old.id)
            × (seat.new.me.1 ≡ seat.old.me.1) }
        ensures more { seat.new.me.0 ≡ recruiter seat.old.me.0 }
        ensures worker { (result.table_id ≡ seat.old.table_id) × (result.me ≡ (recruit seat.old.me.0, [])) }
    {
        self.table.shared.split_seat::<Recruit>(seat)
    }

    /// Puts a job into the empty slot.
    pub fn post(&self, seat: &mut SlotSeat, job: ReplayJob)
        requires seat { seat.old.table_id ≡ self.now.table.shared.table_id }
        requires empty { (c : Workers) × (seat.old.me ≡ (poster None false c, (0, None) ∷ [])) }
        ensures same { (seat.new.table_id ≡ seat.old.table_id) × (seat.new.id ≡ seat.old.id) }
        ensures posted { (c : Workers) → seat.old.me ≡ (poster None false c, (0, None) ∷ [])
            → seat.new.me ≡ (poster (Some job) false (unnoted c), []) }
    {
        let old = self.table.shared.exchange(seat, 0, Some(Back::Job(job)));
        let None = old else { unreachable!() };
        self.table
            .shared
            .compare_exchange::<Post>(seat, 0, EMPTY, READY);
    }

    /// Takes the job, if one is ready, for the worker of this number.
    pub fn take(&self, seat: &mut SlotSeat, worker: u64) -> Option<ReplayJob>
        requires seat { seat.old.table_id ≡ self.now.table.shared.table_id }
        requires idle { (seat.old.me ≡ (idle worker, [])) × (worker < 16) }
        ensures same { (seat.new.table_id ≡ seat.old.table_id) × (seat.new.id ≡ seat.old.id) }
        ensures taken { IfSome result (λ job. seat.new.me ≡ (holds worker job, (0, None) ∷ [])) }
        ensures none { IfNone result (seat.new.me ≡ seat.old.me) }
    {
        let found = self
            .table
            .shared
            .compare_exchange::<Take>(seat, 0, READY, worker + WITH);
        if found != READY {
            return None;
        }
        let lay = self.table.shared.exchange(seat, 0, None);
        let Some(back) = lay else { unreachable!() };
        let Back::Job(job) = back else { unreachable!() };
        Some(job)
    }

    /// Gives back what came of the job that this worker holds.
    pub fn done(&self, seat: &mut SlotSeat, back: Back)
        requires seat { seat.old.table_id ≡ self.now.table.shared.table_id }
        requires holds { (w : ℕ) × (job : JobParts) × (seat.old.me ≡ (holds w job, (0, None) ∷ []))
            × (job_in back ≡ job) }
        ensures same { (seat.new.table_id ≡ seat.old.table_id) × (seat.new.id ≡ seat.old.id) }
        ensures idle { (w : ℕ) (job : JobParts) → seat.old.me ≡ (holds w job, (0, None) ∷ [])
            → seat.new.me ≡ (idle w, []) }
    {
        let old = self.table.shared.exchange(seat, 0, Some(back));
        let None = old else { unreachable!() };
        self.table.shared.store::<Done>(seat, 0, DONE);
    }

    /// Takes what came back of the job that was posted, or the job itself, if no worker has it. There is
    /// always one once all workers are retired.
    pub fn collect(&self, seat: &mut SlotSeat) -> Option<Back>
        requires seat { seat.old.table_id ≡ self.now.table.shared.table_id }
        requires posted { (job : JobParts) × (c : Workers) × (seat.old.me ≡ (poster (Some job) false c, [])) }
        ensures same { (seat.new.table_id ≡ seat.old.table_id) × (seat.new.id ≡ seat.old.id) }
        ensures some { IfSome result (λ back. (job : JobParts) (c : Workers)
            → seat.old.me ≡ (poster (Some job) false c, [])
            → (job_in back ≡ job) × (seat.new.me ≡ (poster None false (unnoted c), (0, None) ∷ []))) }
        ensures none { IfNone result ((job : JobParts) (c : Workers)
            → seat.old.me ≡ (poster (Some job) false c, [])
            → (c.retired ≡ c.made → ⊥) × ((d : Workers) × (d.made ≡ c.made) × (d.retired ≡ c.retired)
            × (seat.new.me ≡ (poster (Some job) false d, [])))) }
    {
        let word = self.table.shared.load::<Note>(seat, 0);
        if word != READY && word != DONE {
            return None;
        }
        let found = self
            .table
            .shared
            .compare_exchange::<Collect>(seat, 0, word, EMPTY);
        if found != word {
            return None;
        }
        let lay = self.table.shared.exchange(seat, 0, None);
        let Some(back) = lay else { unreachable!() };
        Some(back)
    }

    /// Takes in the seat of a worker that holds nothing.
    pub fn retire(&self, seat: &mut SlotSeat, worker: SlotSeat)
        requires seats { (seat.old.table_id ≡ self.now.table.shared.table_id)
            × (worker.table_id ≡ self.now.table.shared.table_id) }
        requires poster { (job : Option JobParts) × (home : Bool) × (c : Workers)
            × (seat.old.me.0 ≡ poster job home c) }
        requires idle { (w : ℕ) × (worker.me ≡ (idle w, [])) }
        ensures same { (seat.new.table_id ≡ seat.old.table_id) × (seat.new.id ≡ seat.old.id)
            × (seat.new.me.1 ≡ seat.old.me.1) }
        ensures fewer { seat.new.me.0 ≡ retirer seat.old.me.0 worker.me.0 }
    {
        self.table.shared.join_seat::<Retire>(seat, worker);
    }

    /// Ends the empty slot.
    pub fn close(self, mut seat: SlotSeat)
        requires seat { seat.table_id ≡ self.table.shared.table_id }
        requires empty { (c : Workers) × (seat.me ≡ (poster None false c, (0, None) ∷ [])) }
    {
        let Slot { table } = self;
        table.shared.load::<BringBack>(&mut seat, 0);
        let mut closed = table.close_with(seat);
        let lay = closed.take(0);
        let None = lay else { unreachable!() };
        closed.free();
    }
}
