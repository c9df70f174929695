//! New files.

use crate::given::Given;
use crate::inode::{Body, Inode};
use nfs_spec::{Time, Who};
use std::alloc::{AllocError, Global};

impl Body {
    ghost use Rattle.std.specs.Prelude.{◌≡◌, IfOk, replicate};
    ghost use Rattle.nfs_spec.specs.fs_spec.Files.{Regular};
    ghost use Rattle.inodes.specs.Inodes.{body_in};

    /// A regular file of zeros, with a size in bytes.
    pub fn zeros(alloc: Global, size: u32) -> Result<Body, AllocError>
        ensures { IfOk result (λ body. body_in body ≡ Regular (replicate size 0)) }
    {
        let mut bytes = Vec::new(alloc);
        bytes.resize(size as usize, 0)?;
        Ok(Body::Regular(bytes))
    }
}

impl Inode {
    ghost use Rattle.std.specs.Prelude.{◌≡◌};
    ghost use Rattle.nfs_spec.specs.nfs_items.CallerOf.{caller_of};
    ghost use Rattle.nfs_spec.specs.Changes.{new_file};
    ghost use Rattle.inodes.specs.Given.{given_in};
    ghost use Rattle.inodes.specs.Inodes.{body_in, file_in};

    /// A new file of a caller, with no name yet. Its mode is the one given, else this one; user and group are
    /// the caller's, but for user 0 the ones given; its times are now, but for the ones given.
    pub fn new(who: &Who, now: Time, given: &Given, mode: u16, body: Body) -> Inode
        ensures file { file_in result
            ≡ new_file (caller_of who.now) now (given_in given.now) mode (body_in body) }
        ensures nlink { result.nlink ≡ 0 }
        ensures body { result.body ≡ body }
    {
        let (uid, gid) = if who.uid == 0 {
            (given.uid.unwrap_or(who.uid), given.gid.unwrap_or(who.gid))
        } else {
            (who.uid, who.gid)
        };
        Inode {
            mode: given.mode.unwrap_or(mode),
            nlink: 0,
            uid,
            gid,
            atime: given.atime.unwrap_or(now),
            mtime: given.mtime.unwrap_or(now),
            ctime: now,
            body,
        }
    }
}
