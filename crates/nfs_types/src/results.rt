//! Results of the procedures.

use nfs_items::{Fattr, FileHandle, Stat};

/// A file and its attributes (RFC 1094, section 2.3.11, diropres).
#[derive(Clone, Copy, Debug, PartialEq, Eq)]
pub struct DirOpOk {
    pub file: FileHandle,
    pub attributes: Fattr,
}

/// Bytes of a file, and its attributes (RFC 1094, section 2.2.7, readres).
#[derive(Clone, Copy, Debug)]
pub struct ReadOk<'a> {
    pub attributes: Fattr,
    /// At most 8,192 bytes.
    pub data: &'a [u8],
}

/// An entry of a directory (RFC 1094, section 2.2.17, entry).
#[derive(Clone, Copy, Debug)]
pub struct PageEntry<'a> {
    /// The number of the file.
    pub fileid: u32,
    pub name: &'a [u8],
    /// Where a READDIR goes on after this entry.
    pub cookie: u32,
}

/// Entries of a directory, and whether none is left after them.
#[derive(Drop)]
pub struct Page<'a> {
    pub entries: Vec<PageEntry<'a>>,
    pub eof: bool,
}

/// The figures of a file system (RFC 1094, section 2.2.18, statfsres).
#[derive(Clone, Copy, Debug, PartialEq, Eq)]
pub struct FsStats {
    /// The best size of a READ or WRITE, in bytes.
    pub transfer_size: u32,
    /// In bytes.
    pub block_size: u32,
    /// In blocks.
    pub blocks: u32,
    /// Free blocks.
    pub free: u32,
    /// Free blocks for callers other than user 0.
    pub available: u32,
}

/// What a procedure answers. Bytes, targets and names are lent by the tree.
#[derive(Drop)]
pub enum NfsResult<'a> {
    /// Of NULL, ROOT and WRITECACHE.
    Nothing,
    /// Of GETATTR, SETATTR and WRITE (RFC 1094, section 2.3.9, attrstat).
    Attributes(Result<Fattr, Stat>),
    /// Of LOOKUP, CREATE and MKDIR (RFC 1094, section 2.3.11, diropres).
    DirOp(Result<DirOpOk, Stat>),
    /// Of READLINK, at most 1,024 bytes.
    Target(Result<&'a [u8], Stat>),
    /// Of READ.
    Bytes(Result<ReadOk<'a>, Stat>),
    /// Of REMOVE, RENAME, LINK, SYMLINK and RMDIR.
    Status(Result<(), Stat>),
    /// Of READDIR.
    Entries(Result<Page<'a>, Stat>),
    /// Of STATFS.
    Free(Result<FsStats, Stat>),
}
