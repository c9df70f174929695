//! What is kept beside the files of a tree, counted from the files.

mod links;
mod maps;

pub use maps::linked_inodes;
