//! Replays that are to be done and replays that were done: a witness's book hands out the one and takes the
//! other.
#![tactic(auto)]

mod done;
mod job;
mod plain;
mod segment;
mod verdict;

pub use done::{PlainDone, ReplayDone};
pub use job::{Back, ReplayJob};
pub use plain::PlainJob;
pub use replay::{SharedState, state_kind};
pub use segment::SharedSegment;
pub use verdict::JobVerdict;
