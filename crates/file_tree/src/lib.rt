//! The files of a server, as a tree of directories.
#![tactic(auto)]

mod digests;
mod file_checks;
mod limits;
mod linking;
mod making;
mod name_checks;
mod parts;
mod paths;
mod reading;
mod removing;
mod renaming;
mod setting;
mod tree;

pub use inode_table::{is_tree, total_usage};
pub use limits::{MAX_BLOCKS, MAX_DIRECTORY_ENTRIES, MAX_FILES, MAX_NUMBER};
pub use nfs_spec::{
    DirOpArgs, DirOpOk, NfsArgs, NfsResult, SHORT_ANSWER, write_attributes, write_dir_op,
    write_result,
};
pub use tree::Tree;
