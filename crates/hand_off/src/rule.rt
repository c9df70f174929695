//! The rule of a slot, and what each step tells its seat. These types are for proofs alone.

ghost use Rattle.hand_off.specs.Slots.{brings_back, collects, dones, notes, posts, takes, takes_out};

use crate::view::View;
use atomic_table::{Join, Play, Split, TableRule};
use replay_jobs::Back;

/// What holds of a slot between any two steps.
pub struct SlotRule;

impl TableRule<Option<Back>, View, ()> for SlotRule {
    ghost use Rattle.std.specs.Prelude.{None, true};
    ghost use Rattle.hand_off.specs.Slots.{Kept, poster, workers};

    ghost holds = { λ _ s. Kept s };

    ghost first = { λ _. poster None true (workers 0 0 None) };
}

/// The poster takes the slot out before the first job.
pub struct TakeOut;

impl Play<Option<Back>, View> for TakeOut {
    ghost then = { λ st m r n. takes_out m n };
}

/// The poster brings the slot back at the end.
pub struct BringBack;

impl Play<Option<Back>, View> for BringBack {
    ghost then = { λ st m r n. brings_back m n };
}

/// The poster posts a job.
pub struct Post;

impl Play<Option<Back>, View> for Post {
    ghost then = { λ st m r n. posts m r n };
}

/// A worker takes the job, or tries to.
pub struct Take;

impl Play<Option<Back>, View> for Take {
    ghost then = { λ st m r n. takes m r n };
}

/// A worker gives back what came of the job.
pub struct Done;

impl Play<Option<Back>, View> for Done {
    ghost then = { λ st m r n. dones m n };
}

/// The poster reads the word.
pub struct Note;

impl Play<Option<Back>, View> for Note {
    ghost then = { λ st m r n. notes m r n };
}

/// The poster collects what came back, or tries to.
pub struct Collect;

impl Play<Option<Back>, View> for Collect {
    ghost then = { λ st m r n. collects st.first m r n };
}

/// One worker more.
pub struct Recruit;

impl Split<View> for Recruit {
    ghost use Rattle.hand_off.specs.Slots.{recruit, recruiter};

    ghost left = { recruiter };

    ghost right = { recruit };
}

/// One worker less.
pub struct Retire;

impl Join<View> for Retire {
    ghost use Rattle.hand_off.specs.Slots.{retirer};
    ghost use Rattle.hand_off.specs.declared.view.View.TheVariants.{Retired};

    ghost both = { retirer };

    ghost spent = { Retired };
}
