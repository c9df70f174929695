//! File handles, and the attributes after them.

ghost use Rattle.std.specs.Prelude.{◌≡◌};
ghost use Rattle.nfs_items.specs.Attributes.{outcome_of};
ghost use Rattle.file_tree.specs.nfs_types.Results.{dir_op_of};
ghost use Rattle.nfs_laws.specs.nfs_spec.NfsCalls.{number_for};
ghost use Rattle.nfs_procs.specs.Changed.{file_then};

use file_tree::{DirOpOk, Tree};
use nfs_items::{FileHandle, FileHandleRef, Stat};

/// The file number that a handle names here; another handle names 0, which no file has.
pub(crate) fn number_for(tree: &Tree, file: FileHandleRef) -> u32
    ensures { result ≡ number_for tree.now.files file.entry.0.now }
{
    file.number_in(tree.fsid()).unwrap_or(0)
}

/// The handle and the attributes of a file that a call made or found.
pub(crate) fn file_after(tree: &Tree, made: Result<u32, Stat>) -> Result<DirOpOk, Stat>
    ensures { outcome_of dir_op_of result ≡ file_then tree.now.files made }
{
    let number = made?;
    let attributes = tree.attributes(number)?;
    Ok(DirOpOk {
        file: FileHandle::new(tree.fsid(), number),
        attributes,
    })
}
