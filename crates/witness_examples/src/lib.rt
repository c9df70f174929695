//! Histories whose replies the definitions of a witness compute.
#![tactic(auto)]

pub mod delivered;
pub mod exposed;
pub mod forks;
pub mod limits;
pub mod refusals;
pub mod rows;
pub mod signed;
