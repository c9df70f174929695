//! What a server owes, as definitions: all that its replies depend on, what MOUNT does, the reply to a
//! record, and the text of a file. The laws of these.
#![tactic(auto)]

pub mod laws;
pub mod mount_laws;
pub mod programs;
pub mod worked;
