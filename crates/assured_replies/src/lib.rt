//! What a user gets who has a reply of an audited server: it is the one that the server owed.
#![tactic(auto)]

pub mod example;
pub mod laws;
