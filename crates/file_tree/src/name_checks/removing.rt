//! What REMOVE and RMDIR refuse.

ghost use Rattle.std.specs.Prelude.{◌≡◌};
ghost use Rattle.nfs_spec.specs.nfs_items.Timeval.{Timeval};
ghost use Rattle.nfs_spec.specs.nfs_items.CallerOf.{caller_of};
ghost use Rattle.nfs_spec.specs.Procedures.{remove, remove_dir};
ghost use Rattle.inode_table.specs.inodes.Inodes.{file_in};
ghost use Rattle.file_tree.specs.NameChecks.Names.{MayGo, check_empty, unnamed_by};

use crate::name_checks::found::find_to_edit;
use inode_table::{Inode, InodeTable};
use nfs_spec::{Stat, Who};

/// NotDir where a file is no directory, NotEmpty where it is one with entries.
pub fn check_empty(inode: &Inode) -> Result<(), Stat>
    ensures { result ≡ check_empty (file_in inode.now) }
{
    if inode.directory()?.is_empty() {
        Ok(())
    } else {
        Err(Stat::NotEmpty)
    }
}

/// REMOVE (RFC 1094, section 2.2.11): Stale, NotDir, Acces, NoEnt and IsDir, in this order. Gives the number
/// whose name goes.
pub fn check_remove(table: &InodeTable, who: &Who, dir: u32, name: &[u8]) -> Result<u32, Stat>
    ensures effect { (now : Timeval) → unnamed_by now table.now dir name.now result
        ≡ remove table.now (caller_of who.now) now dir name.now }
    ensures granted { MayGo table.now dir name.now result }
{
    let number = find_to_edit(table, who, dir, name)?;
    let Some(inode) = table.get(number) else {
        return Err(Stat::Stale);
    };
    if inode.body.is_directory() {
        return Err(Stat::IsDir);
    }
    Ok(number)
}

/// RMDIR (RFC 1094, section 2.2.16): Stale, NotDir, Acces, NoEnt, NotDir and NotEmpty, in this order. Gives
/// the number whose name goes.
pub fn check_remove_dir(table: &InodeTable, who: &Who, dir: u32, name: &[u8]) -> Result<u32, Stat>
    ensures effect { (now : Timeval) → unnamed_by now table.now dir name.now result
        ≡ remove_dir table.now (caller_of who.now) now dir name.now }
    ensures granted { MayGo table.now dir name.now result }
{
    let number = find_to_edit(table, who, dir, name)?;
    let Some(inode) = table.get(number) else {
        return Err(Stat::Stale);
    };
    check_empty(inode)?;
    Ok(number)
}
