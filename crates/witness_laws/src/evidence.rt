//! When there is evidence against a node, and what it proves.

pub mod laws;
