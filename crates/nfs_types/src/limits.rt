//! Limits that the protocol sets.

/// The greatest length of a name in bytes (RFC 1094, section 2.3.7, filename).
pub const MAXNAMLEN: u32 = 255;

/// The greatest length of a symbolic link's target in bytes (RFC 1094, section 2.3.8, path).
pub const MAXPATHLEN: u32 = 1024;

/// The most bytes that one call reads or writes (RFC 1094, section 2.2).
pub const MAXDATA: u32 = 8192;

/// The bytes of the longest answer of a call that changes files: a stat, a file handle and attributes
/// (RFC 1094, section 2.3.11, diropres).
pub const SHORT_ANSWER: usize = 104;
