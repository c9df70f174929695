//! Arguments of the procedures.

ghost use Rattle.std.specs.Prelude.{◌≡◌};

use nfs_items::{FileHandleRef, Sattr};

/// A procedure of NFS version 2 (RFC 1094, section 2.2), with its number.
#[derive(Clone, Copy, Debug, PartialEq, Eq)]
pub enum NfsProcedure {
    Null = 0,
    Getattr = 1,
    Setattr = 2,
    /// Obsolete: does nothing.
    Root = 3,
    Lookup = 4,
    Readlink = 5,
    Read = 6,
    /// Not used by the protocol: does nothing.
    Writecache = 7,
    Write = 8,
    Create = 9,
    Remove = 10,
    Rename = 11,
    Link = 12,
    Symlink = 13,
    Mkdir = 14,
    Rmdir = 15,
    Readdir = 16,
    Statfs = 17,
}

impl NfsProcedure {
    ghost use Rattle.nfs_types.specs.Texts.{procedure_at};

    /// The procedure of a number, of which there are 18, from 0 on.
    pub fn from_number(number: u32) -> Option<NfsProcedure>
        ensures { result ≡ procedure_at number }
    {
        match number {
            0 => Some(NfsProcedure::Null),
            1 => Some(NfsProcedure::Getattr),
            2 => Some(NfsProcedure::Setattr),
            3 => Some(NfsProcedure::Root),
            4 => Some(NfsProcedure::Lookup),
            5 => Some(NfsProcedure::Readlink),
            6 => Some(NfsProcedure::Read),
            7 => Some(NfsProcedure::Writecache),
            8 => Some(NfsProcedure::Write),
            9 => Some(NfsProcedure::Create),
            10 => Some(NfsProcedure::Remove),
            11 => Some(NfsProcedure::Rename),
            12 => Some(NfsProcedure::Link),
            13 => Some(NfsProcedure::Symlink),
            14 => Some(NfsProcedure::Mkdir),
            15 => Some(NfsProcedure::Rmdir),
            16 => Some(NfsProcedure::Readdir),
            17 => Some(NfsProcedure::Statfs),
            _ => None,
        }
    }
}

/// A name in a directory (RFC 1094, section 2.3.10, diropargs).
#[derive(Clone, Copy, Debug)]
pub struct DirOpArgs<'a> {
    pub dir: FileHandleRef<'a>,
    /// At most 255 bytes.
    pub name: &'a [u8],
}

/// A procedure with its arguments.
#[derive(Clone, Copy, Debug)]
pub enum NfsArgs<'a> {
    Null,
    Getattr(FileHandleRef<'a>),
    Setattr {
        file: FileHandleRef<'a>,
        attributes: Sattr,
    },
    Root,
    Lookup(DirOpArgs<'a>),
    Readlink(FileHandleRef<'a>),
    Read {
        file: FileHandleRef<'a>,
        /// In bytes from the start.
        offset: u32,
        /// In bytes.
        count: u32,
    },
    Writecache,
    Write {
        file: FileHandleRef<'a>,
        /// In bytes from the start.
        offset: u32,
        /// At most 8,192 bytes.
        data: &'a [u8],
    },
    Create {
        place: DirOpArgs<'a>,
        attributes: Sattr,
    },
    Remove(DirOpArgs<'a>),
    Rename {
        from: DirOpArgs<'a>,
        to: DirOpArgs<'a>,
    },
    Link {
        file: FileHandleRef<'a>,
        place: DirOpArgs<'a>,
    },
    Symlink {
        place: DirOpArgs<'a>,
        /// At most 1,024 bytes.
        target: &'a [u8],
        attributes: Sattr,
    },
    Mkdir {
        place: DirOpArgs<'a>,
        attributes: Sattr,
    },
    Rmdir(DirOpArgs<'a>),
    Readdir {
        dir: FileHandleRef<'a>,
        /// That of the last entry before the page; 0 for the first page.
        cookie: u32,
        /// In bytes, of the entries of the page.
        count: u32,
    },
    Statfs(FileHandleRef<'a>),
}
