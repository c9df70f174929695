//! The keys of the nodes that a program runs: their master secrets, and nodes that have keys and aren't made
//! yet.
#![tactic(auto)]

mod keyed;
mod masters;

pub use keyed::KeyedNode;
pub use masters::Masters;
