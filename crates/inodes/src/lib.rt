//! Files as they are stored: an inode keeps, beside the file, what would else be counted: how many names it
//! has, and the directory above.
#![tactic(auto)]

mod checks;
mod content;
pub mod directories;
mod edits;
mod given;
mod inode;
mod new;

pub use given::Given;
pub use inode::{BLOCK_SIZE, Body, Inode, MAX_FILE_SIZE};
