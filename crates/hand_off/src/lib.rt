//! Slots through which jobs pass from one poster to several workers, and what came back of them returns. Each
//! call is a few atomic steps and waits for nobody.
#![tactic(auto)]

mod hand_off;
pub mod laws;
mod opening;
mod places;
mod rule;
mod seats;
mod slot;
mod view;

pub use hand_off::HandOff;
pub use replay_jobs::{Back, ReplayJob};
pub use seats::{PosterSeat, WorkerSeat};
