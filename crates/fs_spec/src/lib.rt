//! What a tree of files means: numbered files, and the paths that walks along names reach.
#![tactic(auto)]

pub mod changes;
pub mod edited_trees;
pub mod laws;

pub use nfs_items::{Fattr, FileType, RawTime, Sattr, Stat, Time, Who};
