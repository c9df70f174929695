//! The text of a state as its parts, lent by the bytes that they were read from.

mod mounted;
mod parts;
mod read;
mod whole;
mod world;

pub use mounted::mounts_of;
pub use parts::{MachinePart, MountPart, StagePart, StatePart, WorldPart};
pub use whole::{PartsFault, read_parts};
