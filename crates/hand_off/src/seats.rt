//! The seats of a hand-off: the poster's, and one for each worker.

use crate::places::{PosterPlace, WorkerPlace};
use std::marker::Model;

/// The poster's seat: it posts jobs and collects what came back of them. It may go to another thread, and
/// can't be shared. It takes a few bytes for each slot.
#[derive(Drop)]
pub struct PosterSeat {
    pub(crate) places: Vec<PosterPlace>,
}

impl Model for PosterSeat {
    ghost use Rattle.hand_off.specs.Seats.{Posting};
    ghost use Rattle.hand_off.specs.Places.{posting_of};
    ghost use Rattle.hand_off.specs.Codes.{posting_code};

    ghost Value = { Posting };

    ghost coded = { posting_code };

    ghost view = { λ s. posting_of s.places.items };
}

/// A worker's seat: it takes jobs and gives back what came of them. It may go to another thread, and can't be
/// shared. It takes a few bytes for each slot.
#[derive(Drop)]
pub struct WorkerSeat {
    pub(crate) places: Vec<WorkerPlace>,
}

impl Model for WorkerSeat {
    ghost use Rattle.hand_off.specs.Seats.{Working};
    ghost use Rattle.hand_off.specs.Places.{working_of};
    ghost use Rattle.hand_off.specs.Codes.{working_code};

    ghost Value = { Working };

    ghost coded = { working_code };

    ghost view = { λ s. working_of s.places.items };
}
