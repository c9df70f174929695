//! What each edit of files does to the nlink of every file.

pub mod laws;
