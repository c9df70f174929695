//! Limits of a server.

pub use inode_table::{MAX_BLOCKS, MAX_DIRECTORY_ENTRIES, MAX_FILES};

/// The greatest file number or cookie that is given.
pub const MAX_NUMBER: u32 = 4_294_967_294;
