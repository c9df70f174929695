//! What making, linking, removing and renaming do to a tree of files.

pub mod laws;
