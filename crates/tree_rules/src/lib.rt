//! Whether files that come from outside are a tree within the limits of a server.
#![tactic(auto)]

mod climb;
mod entries;
pub mod file_rules;
mod limits;
mod names;
mod rules;

pub use entries::{GivenEntry, directory_of};
pub use inodes::directories::{Directory, Entry, is_name};
pub use inodes::{BLOCK_SIZE, Body, Given, Inode, MAX_FILE_SIZE};
pub use limits::{MAX_BLOCKS, MAX_DIRECTORY_ENTRIES, MAX_FILES, Usage, total_usage};
pub use names::{Counts, count_names, numbers_in, place_of};
pub use rules::is_tree;
