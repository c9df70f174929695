//! Directories as they are stored: names in order of insertion, and their pages.

mod directory;
mod names;
mod page;

pub use directory::{Directory, Entry, FIRST_COOKIE};
pub use names::is_name;
