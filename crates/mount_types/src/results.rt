//! Results of the procedures.

use nfs_items::{FileHandle, Stat};

/// What a procedure answers. Names and directories are lent by the server.
#[derive(Drop)]
pub enum MountResult<'a> {
    /// Of NULL, UMNT and UMNTALL.
    Nothing,
    /// Of MNT (RFC 1094, appendix A.4.2, fhstatus). The status is a UNIX error number, as each stat is.
    Mounted(Result<FileHandle, Stat>),
    /// Of DUMP: the machines that have a directory mounted, in order of mounting.
    Mounts {
        /// Names of at most 255 bytes.
        hosts: &'a [Vec<u8>],
        /// At most 1,024 bytes.
        directory: &'a [u8],
    },
    /// Of EXPORT: a directory that every machine may mount, at most 1,024 bytes.
    Exported(&'a [u8]),
}
