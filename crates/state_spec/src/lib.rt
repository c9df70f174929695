//! The state of a node's reference machine, its text and its digest, as definitions.
#![tactic(auto)]

pub mod laws;
