//! What calls that take names out of directories, or move them, refuse, told by the inode table before them.

mod above;
mod found;
mod removing;
mod renaming;

pub use removing::{check_remove, check_remove_dir};
pub use renaming::{Move, check_rename};
