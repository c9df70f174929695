//! Limits that the protocol sets.

/// The greatest length of a path in bytes (RFC 1094, appendix A.3).
pub const MNTPATHLEN: u32 = 1024;

/// The greatest length of a machine's name in bytes (RFC 1094, appendix A.3).
pub const MNTNAMLEN: u32 = 255;

/// The most mounts of a server, by this service's choice.
pub const MAX_MOUNTS: u32 = 40;

/// The bytes of the longest answer to MNT: a status and a file handle (RFC 1094, appendix A.4.2, fhstatus).
pub const MNT_ANSWER: usize = 36;
