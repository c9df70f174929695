//! Attributes of files.

use crate::time::Time;
use std::alloc::AllocError;
use xdr::{Writer, all_or_nothing};

/// What a file is (RFC 1094, section 2.3.2, ftype), of the kinds that this server has.
#[derive(Clone, Copy, Debug, PartialEq, Eq)]
pub enum FileType {
    Regular = 1,
    Directory = 2,
    Symlink = 5,
}

/// The attributes of a file (RFC 1094, section 2.3.5, fattr).
#[derive(Clone, Copy, Debug, PartialEq, Eq)]
pub struct Fattr {
    pub file_type: FileType,
    /// Type bits and twelve kept bits, of which the low nine are the permissions.
    pub mode: u32,
    /// Names of a file or symbolic link; two and the subdirectories of a directory.
    pub nlink: u32,
    pub uid: u32,
    pub gid: u32,
    /// In bytes.
    pub size: u32,
    /// In bytes.
    pub blocksize: u32,
    pub rdev: u32,
    /// In units of blocksize, rounded up.
    pub blocks: u32,
    pub fsid: u32,
    pub fileid: u32,
    pub atime: Time,
    pub mtime: Time,
    pub ctime: Time,
}

impl Fattr {
    ghost use Rattle.std.specs.Prelude.{◌-◌, vec_len, vec_capacity};
    ghost use Rattle.xdr.specs.Item.{spelling};
    ghost use Rattle.xdr.specs.Writing.{Adds, Writes, Spends};
    ghost use Rattle.nfs_items.specs.Attributes.{fattr, fattr_value};

    /// Appends the attributes, 68 bytes. Where memory is refused, the bytes stay as they were.
    // Inlined, as `add` is, the words go from registers to the reply (docs/SPEED.md).
    #[inline(always)]
    pub fn write(&self, out: &mut Vec<u8>) -> Result<(), AllocError>
        ensures writes { Writes fattr (fattr_value self.now) out.old.items result out.new.items }
        ensures room { Spends 68 (vec_capacity out.old - vec_len out.old)
            result (vec_capacity out.new - vec_len out.new) }
    {
        let start = out.len();
        let written = self.add(out);
        all_or_nothing(out, start, written)
    }

    /// Appends the attributes as far as memory allows. The words after the type stand in this order here, so
    /// they are taken over as they are: with the type in front of them they would have to be moved first.
    #[inline(always)]
    fn add(&self, out: &mut Vec<u8>) -> Result<(), AllocError>
        ensures text { Adds (spelling fattr (fattr_value self.now)) out.old.items result out.new.items }
        ensures room { Spends 68 (vec_capacity out.old - vec_len out.old)
            result (vec_capacity out.new - vec_len out.new) }
    {
        out.put_u32(self.file_type as u32)?;
        out.put_u32s(&[
            self.mode,
            self.nlink,
            self.uid,
            self.gid,
            self.size,
            self.blocksize,
            self.rdev,
            self.blocks,
            self.fsid,
            self.fileid,
            self.atime.seconds(),
            self.atime.microseconds(),
            self.mtime.seconds(),
            self.mtime.microseconds(),
            self.ctime.seconds(),
            self.ctime.microseconds(),
        ])
    }
}
