//! The programs that a server has, and the credentials that it takes.

/// The program number of NFS (RFC 1094, section 2.2).
pub const NFS_PROGRAM: u32 = 100003;

/// The version of NFS that is served.
pub const NFS_VERSION: u32 = 2;

/// The program number of MOUNT (RFC 1094, appendix A.5).
pub const MOUNT_PROGRAM: u32 = 100005;

/// The version of MOUNT that is served.
pub const MOUNT_VERSION: u32 = 1;

/// AUTH_NONE (RFC 5531, section 8.2).
pub const AUTH_NONE: u32 = 0;

/// AUTH_SYS (RFC 5531, section 8.2).
pub const AUTH_SYS: u32 = 1;
