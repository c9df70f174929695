//! What changes of files do to the numbers that a server keeps beside them.
#![tactic(auto)]

pub mod laws;
pub mod links;
pub mod moves;
