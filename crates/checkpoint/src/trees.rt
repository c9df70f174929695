//! The files of a server as texts.

mod read;
mod write;

pub use read::tree_of;
pub use write::{add_tree, add_tree_digests};
