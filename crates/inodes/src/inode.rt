//! A file as it is stored.

use crate::content;
use crate::directories::Directory;
use crate::given::Given;
use nfs_spec::{Fattr, FileType, Stat, Time, Who};
use std::alloc::AllocError;

/// The greatest size of a regular file in bytes.
pub const MAX_FILE_SIZE: u32 = 1_048_576;

/// The size of a block in bytes, which is also the size of every directory.
pub const BLOCK_SIZE: u32 = 512;

/// The bits that permit others to read, to write, and to search or execute.
const READ: u16 = 0o4;

const WRITE: u16 = 0o2;

const SEARCH: u16 = 0o1;

/// What a file holds.
#[derive(Drop)]
pub enum Body {
    /// At most `MAX_FILE_SIZE` bytes.
    Regular(Vec<u8>),
    /// The target of a symbolic link, at most 1,024 bytes.
    Symlink(Vec<u8>),
    Directory {
        /// The number of the directory above; the root's own for the root.
        parent: u32,
        listing: Directory,
    },
}

impl Body {
    ghost use Rattle.std.specs.Prelude.{◌≡◌, ◌≤◌};
    ghost use Rattle.nfs_spec.specs.fs_spec.Files.{is_directory};
    ghost use Rattle.nfs_spec.specs.fs_spec.Trees.{IsBody};
    ghost use Rattle.nfs_spec.specs.fs_spec.Changes.Limits.{blocks_in};
    ghost use Rattle.nfs_spec.specs.FileAttributes.{type_of, type_bits, size_of};
    ghost use Rattle.nfs_spec.specs.Procedures.{is_regular};
    ghost use Rattle.std.specs.Prelude.{◌<◌, ◌^◌, Some, OnOk, OnErr, length};
    ghost use Rattle.nfs_spec.specs.Changes.{body_with_length};
    ghost use Rattle.inodes.specs.Inodes.{body_in, parent_in};
    ghost use Rattle.inodes.specs.Contents.{body_with_bytes_at};

    /// What the file is.
    pub fn file_type(&self) -> FileType
        ensures { result ≡ type_of (body_in self.now) }
    {
        match self {
            Body::Regular(_) => FileType::Regular,
            Body::Symlink(_) => FileType::Symlink,
            Body::Directory { .. } => FileType::Directory,
        }
    }

    /// The bits of a mode that tell the type.
    pub fn type_bits(&self) -> u16
        ensures { result ≡ type_bits (body_in self.now) }
    {
        match self {
            Body::Regular(_) => 0o100000,
            Body::Symlink(_) => 0o120000,
            Body::Directory { .. } => 0o040000,
        }
    }

    /// Whether it is a regular file.
    pub fn is_regular(&self) -> bool
        ensures { result ≡ is_regular (body_in self.now) }
    {
        matches!(self, Body::Regular(_))
    }

    /// Whether it is a directory.
    pub fn is_directory(&self) -> bool
        ensures { result ≡ is_directory (body_in self.now) }
    {
        matches!(self, Body::Directory { .. })
    }

    /// The blocks of `BLOCK_SIZE` bytes that a regular file takes; 0 for the other kinds.
    pub fn blocks(&self) -> u32
        requires { IsBody (body_in self.now) }
        ensures { result ≡ blocks_in (body_in self.now) }
    {
        match self {
            Body::Regular(bytes) => (bytes.len() as u32 + BLOCK_SIZE - 1) / BLOCK_SIZE,
            Body::Symlink(_) | Body::Directory { .. } => 0,
        }
    }

    /// In bytes; a block for a directory.
    pub fn size(&self) -> u32
        requires { IsBody (body_in self.now) }
        ensures value { result ≡ size_of (body_in self.now) }
        ensures bound { result ≤ MAX_FILE_SIZE }
    {
        match self {
            Body::Regular(bytes) => bytes.len() as u32,
            Body::Symlink(target) => target.len() as u32,
            Body::Directory { .. } => BLOCK_SIZE,
        }
    }

    /// Cuts a regular file's bytes, or fills them up with zeros; other bodies stay. Where memory is refused
    /// nothing changes.
    pub fn resize(&mut self, size: u32) -> Result<(), AllocError>
        ensures ok { OnOk result (body_in self.new ≡ body_with_length (Some size) (body_in self.old)) }
        ensures parent { parent_in self.new ≡ parent_in self.old }
        ensures err { OnErr result (body_in self.new ≡ body_in self.old) }
    {
        match self {
            Body::Regular(bytes) => content::resize(bytes, size as usize),
            Body::Symlink(_) | Body::Directory { .. } => Ok(()),
        }
    }

    /// The same with a size that may be given.
    fn resize_to(&mut self, size: Option<u32>) -> Result<(), AllocError>
        ensures ok { OnOk result (body_in self.new ≡ body_with_length size (body_in self.old)) }
        ensures parent { parent_in self.new ≡ parent_in self.old }
        ensures err { OnErr result (body_in self.new ≡ body_in self.old) }
    {
        match size {
            Some(size) => self.resize(size),
            None => Ok(()),
        }
    }

    /// Writes bytes into a regular file at an offset, with zeros between its end and an offset past it; other
    /// bodies stay. Where memory is refused nothing changes.
    pub fn write(&mut self, offset: u32, new: &[u8]) -> Result<(), AllocError>
        requires { length new.now < 2 ^ 32 }
        ensures ok { OnOk result (body_in self.new ≡ body_with_bytes_at offset new.now (body_in self.old)) }
        ensures parent { parent_in self.new ≡ parent_in self.old }
        ensures err { OnErr result (body_in self.new ≡ body_in self.old) }
    {
        match self {
            Body::Regular(bytes) => content::write_at(bytes, offset as usize, new),
            Body::Symlink(_) | Body::Directory { .. } => Ok(()),
        }
    }
}

/// A file with its attributes.
#[derive(Drop)]
pub struct Inode {
    /// The twelve kept bits of the mode, of which the low nine are the permissions.
    pub mode: u16,
    /// The names of a file or symbolic link; two and the subdirectories of a directory.
    pub nlink: u32,
    pub uid: u32,
    pub gid: u32,
    pub atime: Time,
    pub mtime: Time,
    pub ctime: Time,
    pub body: Body,
}

impl Inode {
    ghost use Rattle.std.specs.Prelude.{◌≡◌};
    ghost use Rattle.nfs_spec.specs.nfs_items.CallerOf.{caller_of};
    ghost use Rattle.nfs_spec.specs.fs_spec.Trees.{IsBody};
    ghost use Rattle.std.specs.Prelude.{◌≤◌, ◌<◌, ◌^◌, OnOk, OnErr, length};
    ghost use Rattle.nfs_spec.specs.Changes.{with_mtime, apply_fields};
    ghost use Rattle.std.specs.Result.{result_map_both};
    ghost use Rattle.nfs_spec.specs.ProcedureChecks.{class_of, permits, may_search, owns, may_read};
    ghost use Rattle.nfs_spec.specs.ProcedureChecks.{may_write, bytes_of, target_of};
    ghost use Rattle.inodes.specs.Inodes.{body_in, parent_in, file_in, fattr_of};
    ghost use Rattle.inodes.specs.Contents.{body_with_bytes_at};
    ghost use Rattle.inodes.specs.Given.{given_in};
    ghost use Rattle.inodes.specs.InodeLookUp.{look_up_in};

    /// The attributes (RFC 1094, section 2.3.5) under the server's number and a file's.
    pub fn attributes(&self, fsid: u32, number: u32) -> Fattr
        requires { IsBody (body_in self.now.body) }
        ensures { result ≡ fattr_of fsid number self.now }
    {
        let size = self.body.size();
        Fattr {
            file_type: self.body.file_type(),
            mode: u32::from(self.body.type_bits()) + u32::from(self.mode),
            nlink: self.nlink,
            uid: self.uid,
            gid: self.gid,
            size,
            blocksize: BLOCK_SIZE,
            rdev: 0,
            blocks: (size + BLOCK_SIZE - 1) / BLOCK_SIZE,
            fsid,
            fileid: number,
            atime: self.atime,
            mtime: self.mtime,
            ctime: self.ctime,
        }
    }

    /// The caller's class, as a factor of the bits of others: the owner's, the group's or that of others.
    fn class_of(&self, who: &Who) -> u16
        ensures value { result ≡ class_of (caller_of who.now) (file_in self.now) }
        ensures bound { result ≤ 0x40 }
    {
        if who.uid == self.uid {
            0o100
        } else if who.gid == self.gid || who.gids.as_slice().contains(&self.gid) {
            0o010
        } else {
            0o001
        }
    }

    /// Whether a bit of its class, `READ`, `WRITE` or `SEARCH`, permits a caller; uid 0 always.
    fn permits(&self, who: &Who, access: u16) -> bool
        requires { access ≤ 7 }
        ensures { result ≡ permits (caller_of who.now) (file_in self.now) access }
    {
        who.uid == 0 || self.mode & (self.class_of(who) * access) != 0
    }

    /// Whether a caller may search a directory, or execute a file: by the execute bit of its class, and uid 0
    /// always.
    pub fn may_search(&self, who: &Who) -> bool
        ensures { result ≡ may_search (caller_of who.now) (file_in self.now) }
    {
        self.permits(who, SEARCH)
    }

    /// Whether a caller is the owner.
    pub fn owns(&self, who: &Who) -> bool
        ensures { result ≡ owns (caller_of who.now) (file_in self.now) }
    {
        who.uid == self.uid
    }

    /// Whether a caller may read: the owner always, else by the read bit of its class, and uid 0 always.
    pub fn may_read(&self, who: &Who) -> bool
        ensures { result ≡ may_read (caller_of who.now) (file_in self.now) }
    {
        self.owns(who) || self.permits(who, READ)
    }

    /// Whether a caller may write: the owner always, else by the write bit of its class, and uid 0 always.
    pub fn may_write(&self, who: &Who) -> bool
        ensures { result ≡ may_write (caller_of who.now) (file_in self.now) }
    {
        self.owns(who) || self.permits(who, WRITE)
    }

    /// The bytes of a regular file. IsDir for a directory, NxIo for a symbolic link.
    pub fn bytes(&self) -> Result<&[u8], Stat>
        ensures { result_map_both (λ bytes. bytes.now) (λ e. e) result ≡ bytes_of (body_in self.now.body) }
    {
        match &self.body {
            Body::Regular(bytes) => Ok(bytes.as_slice()),
            Body::Symlink(_) => Err(Stat::NxIo),
            Body::Directory { .. } => Err(Stat::IsDir),
        }
    }

    /// The target of a symbolic link. NxIo for other files.
    pub fn target(&self) -> Result<&[u8], Stat>
        ensures { result_map_both (λ target. target.now) (λ e. e) result ≡ target_of (body_in self.now.body) }
    {
        match &self.body {
            Body::Symlink(target) => Ok(target.as_slice()),
            Body::Regular(_) | Body::Directory { .. } => Err(Stat::NxIo),
        }
    }

    /// Writes bytes into a regular file at an offset (RFC 1094, section 2.2.9), with zeros between its end
    /// and an offset past it; mtime and ctime become now. Where memory is refused nothing changes.
    pub fn write(&mut self, now: Time, offset: u32, new: &[u8]) -> Result<(), AllocError>
        requires { length new.now < 2 ^ 32 }
        ensures file { OnOk result (file_in self.new ≡ with_mtime now (record (file_in self.old) {
          body = body_with_bytes_at offset new.now (body_in self.old.body);
        })) }
        ensures nlink { self.new.nlink ≡ self.old.nlink }
        ensures parent { parent_in self.new.body ≡ parent_in self.old.body }
        ensures err { OnErr result (file_in self.new ≡ file_in self.old) }
    {
        self.body.write(offset, new)?;
        self.mtime = now;
        self.ctime = now;
        Ok(())
    }

    /// Sets the attributes that are given (RFC 1094, section 2.2.3): ctime becomes now if there are any, and
    /// mtime if a size is given, before a given mtime. Where memory is refused nothing changes.
    pub fn set(&mut self, now: Time, given: &Given) -> Result<(), AllocError>
        ensures file { OnOk result (file_in self.new
            ≡ apply_fields now (given_in given.now) (file_in self.old)) }
        ensures nlink { self.new.nlink ≡ self.old.nlink }
        ensures parent { parent_in self.new.body ≡ parent_in self.old.body }
        ensures err { OnErr result (file_in self.new ≡ file_in self.old) }
    {
        self.body.resize_to(given.size)?;
        self.mode = given.mode.unwrap_or(self.mode);
        self.uid = given.uid.unwrap_or(self.uid);
        self.gid = given.gid.unwrap_or(self.gid);
        self.atime = given.atime.unwrap_or(self.atime);
        let mtime = if given.size.is_some() {
            now
        } else {
            self.mtime
        };
        self.mtime = given.mtime.unwrap_or(mtime);
        self.ctime = if given.is_any() { now } else { self.ctime };
        Ok(())
    }

    /// The number that a name stands for in a directory under the given number, `.` and `..` too. NotDir
    /// comes first, then Acces where the caller may not search it, then NoEnt.
    pub fn number_at(&self, who: &Who, number: u32, name: &[u8]) -> Result<u32, Stat>
        ensures { result ≡ look_up_in (caller_of who.now) number self.now name.now }
    {
        let Body::Directory { parent, listing } = &self.body else {
            return Err(Stat::NotDir);
        };
        if !self.may_search(who) {
            return Err(Stat::Acces);
        }
        listing.number_at(number, *parent, name).ok_or(Stat::NoEnt)
    }
}
