//! Rounds of replays: several jobs, run by several workers.
#![tactic(auto)]

mod gate;
mod round;
mod slots;
mod workers;

pub use gate::{Gate, NoGate};
pub use hand_off::{HandOff, PosterSeat, WorkerSeat};
pub use round::replay_round;
