//! What holds of what a witness says of a node.
#![tactic(auto)]

pub mod answers;
pub mod books;
pub mod evidence;
pub mod laws;
pub mod trust;
