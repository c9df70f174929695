//! What it takes that files in a list are a tree, place by place.

pub mod laws;
