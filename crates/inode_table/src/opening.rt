//! The inodes that each server begins with.

ghost use Rattle.std.specs.Prelude.{◌≡◌, IfOk};
ghost use Rattle.nfs_count_laws.specs.nfs_spec.Opening.{first_file, opening_root, opening_hello};
ghost use Rattle.tree_rules.specs.inodes.Inodes.{body_in, file_in, KeepsParent};

use fs_spec::Time;
use std::alloc::{AllocError, Global};
use tree_rules::{Body, Directory, Inode};

/// A file of user and group 0 whose times are 0.
fn first_inode(mode: u16, nlink: u32, body: Body) -> Inode
    ensures file { file_in result ≡ first_file mode (body_in body) }
    ensures nlink { result.nlink ≡ nlink }
    ensures body { result.body ≡ body }
{
    Inode {
        mode,
        nlink,
        uid: 0,
        gid: 0,
        atime: Time::epoch(),
        mtime: Time::epoch(),
        ctime: Time::epoch(),
        body,
    }
}

/// The directory `/`, with `hello` under number 2.
pub fn root_inode(alloc: Global) -> Result<Inode, AllocError>
    ensures file { IfOk result (λ inode. file_in inode ≡ opening_root) }
    ensures nlink { IfOk result (λ inode. inode.nlink ≡ 2) }
    ensures parent { IfOk result (λ inode. KeepsParent inode.body 1) }
{
    let mut listing = Directory::new(alloc)?;
    listing.put(b"hello".to_vec(alloc)?, 2)?;
    Ok(first_inode(0o777, 2, Body::Directory { parent: 1, listing }))
}

/// The regular file `hello`.
pub fn hello_inode(alloc: Global) -> Result<Inode, AllocError>
    ensures file { IfOk result (λ inode. file_in inode ≡ opening_hello) }
    ensures nlink { IfOk result (λ inode. inode.nlink ≡ 1) }
{
    let bytes = b"hello\n".to_vec(alloc)?;
    Ok(first_inode(0o644, 1, Body::Regular(bytes)))
}
