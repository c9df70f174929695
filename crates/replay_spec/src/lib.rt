//! What an honest log is, and what a replay of one finds, as definitions.
#![tactic(auto)]

pub mod laws;
pub mod log_laws;
pub mod state_laws;

pub use secure_log::log_entries::{Entry, MAX_SKIPPED, link_hash};
pub use secure_log::{ClosedSegment, MAX_ENTRIES, copy_of};
