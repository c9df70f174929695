//! Evidence against a node, as definitions: what is shown of a log, what is accepted, and what that proves.
#![tactic(auto)]

pub mod laws;
mod limits;

pub use limits::{MAX_AUDITED, MAX_KNOWN, MAX_STATE};
pub use replay_spec::{ClosedSegment, Entry, MAX_ENTRIES, MAX_SKIPPED, copy_of, link_hash};
