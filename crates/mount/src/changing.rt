//! Procedures that change what is mounted.

ghost use Rattle.std.specs.Prelude.{◌≡◌, ◌≤◌, length};
ghost use Rattle.mount_types.specs.declared.limits.TheConstants.{MNTNAMLEN};
ghost use Rattle.server_spec.specs.Paths.{names_on};
ghost use Rattle.server_spec.specs.MountCalls.{mount_root, mount_at, unmount_at};
ghost use Rattle.mount.specs.Performs.{Performs};

use crate::paths::{ROOT, is_root, is_there};
use crate::table::MountTable;
use file_tree::Tree;
use mount_types::{FileHandle, MountResult, Stat};
use std::alloc::{AllocError, Global};

/// A machine mounts the root (RFC 1094, appendix A.5.2): NoSpc where 40 others have it mounted.
fn mount_root(
    mounts: &mut MountTable,
    tree: &Tree,
    alloc: Global,
    host: &[u8],
) -> Result<MountResult<'static>, AllocError>
    requires { length host.now ≤ MNTNAMLEN }
    ensures { Performs (mount_root tree.now.files mounts.old host.now) mounts.old result mounts.new }
{
    let is_listed = mounts.contains(host) || mounts.push(alloc, host)?;
    let mounted = if is_listed {
        Ok(FileHandle::new(tree.fsid(), ROOT))
    } else {
        Err(Stat::NoSpc)
    };
    Ok(MountResult::Mounted(mounted))
}

/// A machine mounts a path: the root, else Acces where the path leads to something
/// and NoEnt where it doesn't.
pub fn mount(
    mounts: &mut MountTable,
    tree: &Tree,
    alloc: Global,
    host: &[u8],
    path: &[u8],
) -> Result<MountResult<'static>, AllocError>
    requires { length host.now ≤ MNTNAMLEN }
    ensures { Performs (mount_at tree.now.files mounts.old host.now (names_on path.now))
        mounts.old result mounts.new }
{
    if is_root(path) {
        return mount_root(mounts, tree, alloc, host);
    }
    let stat = if is_there(tree, path) {
        Stat::Acces
    } else {
        Stat::NoEnt
    };
    Ok(MountResult::Mounted(Err(stat)))
}

/// A machine unmounts a path (RFC 1094, appendix A.5.4), which does nothing unless the path is the root's.
pub fn unmount(mounts: &mut MountTable, host: &[u8], path: &[u8])
    ensures { mounts.new ≡ unmount_at mounts.old host.now (names_on path.now) }
{
    if is_root(path) {
        mounts.remove(host);
    }
}
