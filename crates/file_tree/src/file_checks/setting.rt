//! What SETATTR and WRITE refuse.

ghost use Rattle.std.specs.Prelude.{◌≡◌};
ghost use Rattle.nfs_spec.specs.nfs_items.Timeval.{Timeval};
ghost use Rattle.nfs_spec.specs.nfs_items.CallerOf.{caller_of};
ghost use Rattle.nfs_spec.specs.Procedures.{set_attributes, write};
ghost use Rattle.inode_table.specs.inodes.Given.{given_in};
ghost use Rattle.file_tree.specs.FileChecks.Decides.{Decides};

use crate::file_checks::room::check_blocks;
use inode_table::{BLOCK_SIZE, Given, InodeTable, MAX_FILE_SIZE};
use nfs_spec::{Stat, Who};

/// SETATTR (RFC 1094, section 2.2.3): Stale, then Perm, then IsDir, NxIo, Acces, FBig and NoSpc where a size
/// is given.
pub fn check_set(table: &InodeTable, who: &Who, number: u32, given: &Given) -> Result<(), Stat>
    ensures { (now : Timeval) →
        Decides (set_attributes table.now (caller_of who.now) now number (given_in given.now)) result }
{
    table.files_are_a_tree();
    let Some(inode) = table.get(number) else {
        return Err(Stat::Stale);
    };
    inode.check_owner(who, given)?;
    inode.check_resize(who, given.size)?;
    let Some(size) = given.size else {
        return Ok(());
    };
    check_blocks(
        table,
        inode.body.blocks(),
        (size + BLOCK_SIZE - 1) / BLOCK_SIZE,
    )
}

/// WRITE (RFC 1094, section 2.2.9): Stale, IsDir, NxIo, Acces, FBig and NoSpc, in this order; the last two
/// not of no bytes.
pub fn check_write(
    table: &InodeTable,
    who: &Who,
    number: u32,
    offset: u32,
    new: &[u8],
) -> Result<(), Stat>
    ensures { (now : Timeval) →
        Decides (write table.now (caller_of who.now) now number offset new.now) result }
{
    table.files_are_a_tree();
    let Some(inode) = table.get(number) else {
        return Err(Stat::Stale);
    };
    let old = inode.bytes()?;
    if !inode.may_write(who) {
        return Err(Stat::Acces);
    }
    if new.is_empty() {
        return Ok(());
    }
    let end = offset as usize + new.len();
    if end > MAX_FILE_SIZE as usize {
        return Err(Stat::FBig);
    }
    let size = end.max(old.len()) as u32;
    check_blocks(
        table,
        inode.body.blocks(),
        (size + BLOCK_SIZE - 1) / BLOCK_SIZE,
    )
}
