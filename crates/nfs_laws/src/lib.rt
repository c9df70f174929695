//! What the procedures of NFS version 2 keep of a tree of files, and what they do to its paths.
#![tactic(auto)]

pub mod changes;
pub mod frames;
pub mod laws;
pub mod readdir;
pub mod sizes;
pub mod steps;
pub mod trees;
