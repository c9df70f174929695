//! The time that a process logs, from the system's clock.
#![tactic(auto)]

mod clock;

pub use clock::SystemClock;
