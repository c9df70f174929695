//! The inode table of a server: its files under their numbers, and beside them the counts that its limits
//! ask for.
#![tactic(auto)]

mod edits;
mod links;
mod opening;
mod table;

pub use table::InodeTable;
pub use tree_rules::{
    BLOCK_SIZE, Body, Directory, Given, Inode, MAX_BLOCKS, MAX_DIRECTORY_ENTRIES, MAX_FILE_SIZE,
    MAX_FILES, is_name, is_tree, total_usage,
};
