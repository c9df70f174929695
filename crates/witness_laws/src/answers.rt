//! What a node answers is accepted.

pub mod laws;
