//! What holds of slots.

ghost use Rattle.hand_off.specs.Laws.{HeldIsPosted, OneHolds};

/// By the rule that holds between any two steps, a slot is with one worker at most.
pub fn one_worker_holds_a_slot()
    ensures { OneHolds }
{}

/// The job that a worker holds is the one that the poster's seat names at that slot: so `take` gives the very
/// job that was posted there.
pub fn a_held_job_is_the_posted_one()
    ensures { HeldIsPosted }
{}
