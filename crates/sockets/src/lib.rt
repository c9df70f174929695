//! What processes that listen have in common: what an error of `accept` means, and the commands to a process.
#![tactic(auto)]

mod accepting;
mod control;

pub use accepting::{AcceptTrouble, trouble_of};
pub use control::{Command, STATUS, STOP, command_of, says_stop};
