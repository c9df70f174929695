//! Places for the connections of a process, so that nobody holds others off.
#![tactic(auto)]

mod holder;
mod room;

pub use holder::{Holder, MAX_AUDITORS, MAX_OF_A_MEMBER, MAX_STRANGERS, PATIENCE, Standing};
pub use room::Places;
