//! Edits of inodes that stand under their numbers, and what each leaves of their files and of what is kept
//! beside them.

pub mod renaming;
pub mod slots;
