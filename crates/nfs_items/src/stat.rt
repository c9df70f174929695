//! Why a procedure was refused.

use std::alloc::AllocError;
use thiserror::Error;
use xdr::Writer;

/// A stat other than OK (RFC 1094, section 2.3.1).
#[derive(Clone, Copy, Debug, PartialEq, Eq, Error)]
pub enum Stat {
    #[error("not owner")]
    Perm = 1,
    #[error("no such file or directory")]
    NoEnt = 2,
    #[error("device failed")]
    Io = 5,
    #[error("no such device or address")]
    NxIo = 6,
    #[error("permission denied")]
    Acces = 13,
    #[error("file exists")]
    Exist = 17,
    #[error("no such device")]
    NoDev = 19,
    #[error("not a directory")]
    NotDir = 20,
    #[error("is a directory")]
    IsDir = 21,
    #[error("file too large")]
    FBig = 27,
    #[error("no space left")]
    NoSpc = 28,
    #[error("read-only file system")]
    RoFs = 30,
    #[error("file name too long")]
    NameTooLong = 63,
    #[error("directory not empty")]
    NotEmpty = 66,
    #[error("disk quota exceeded")]
    DQuot = 69,
    #[error("stale file handle")]
    Stale = 70,
    #[error("write cache flushed")]
    WFlush = 99,
}

impl Stat {
    ghost use Rattle.std.specs.Prelude.{◌-◌, vec_len, vec_capacity};
    ghost use Rattle.xdr.specs.Item.{word};
    ghost use Rattle.xdr.specs.Writing.{Writes, Spends};
    ghost use Rattle.nfs_items.specs.Attributes.{stat_number};

    /// Appends the stat's number, 4 bytes. Where memory is refused, the bytes stay as they were.
    pub fn write(self, out: &mut Vec<u8>) -> Result<(), AllocError>
        ensures writes { Writes word (stat_number self) out.old.items result out.new.items }
        ensures room { Spends 4 (vec_capacity out.old - vec_len out.old)
            result (vec_capacity out.new - vec_len out.new) }
    {
        out.put_u32(self as u32)
    }
}
