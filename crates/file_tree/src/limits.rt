//! Limits of a server.

pub use crate::file_checks::{MAX_BLOCKS, MAX_DIRECTORY_ENTRIES, MAX_FILES, MAX_NUMBER};
