//! What CREATE refuses.

ghost use Rattle.std.specs.Prelude.{◌≡◌, ◌↔◌, ◌+◌, ◌-◌, ◌/◌, Bool, true};
ghost use Rattle.nfs_spec.specs.nfs_items.Timeval.{Timeval};
ghost use Rattle.nfs_spec.specs.nfs_items.CallerOf.{caller_of};
ghost use Rattle.nfs_spec.specs.Sattr.{GivenFields};
ghost use Rattle.inode_table.specs.nfs_laws.Room.{HasRoomToMake};
ghost use Rattle.inode_table.specs.inodes.Inodes.{file_in};
ghost use Rattle.file_tree.specs.FileChecks.Creates.{regular_number, check_new, DecidesCreate};

use crate::file_checks::room::check_file;
use inode_table::{BLOCK_SIZE, Directory, Inode, InodeTable, MAX_FILE_SIZE, is_name};
use nfs_spec::{Stat, Who};

/// A number, where it is a regular file's: else Stale, or Exist.
fn regular_number(table: &InodeTable, number: u32) -> Result<Option<u32>, Stat>
    ensures { result ≡ regular_number table.now number }
{
    let Some(inode) = table.get(number) else {
        return Err(Stat::Stale);
    };
    if inode.body.is_regular() {
        Ok(Some(number))
    } else {
        Err(Stat::Exist)
    }
}

/// A new file of a size in bytes, with a name in a directory that is there: Acces, FBig and NoSpc, in this
/// order; the last by any test that tells it.
fn check_new(
    table: &InodeTable,
    who: &Who,
    inode: &Inode,
    listing: &Directory,
    size: u32,
) -> Result<(), Stat>
    ensures { (room : Bool) →
        ((room ≡ true) ↔ HasRoomToMake table.now listing.now.next ((size + 512 - 1) / 512)) →
        result ≡ check_new (caller_of who.now) (file_in inode.now) size room }
{
    if !inode.may_write(who) {
        return Err(Stat::Acces);
    }
    if size > MAX_FILE_SIZE {
        return Err(Stat::FBig);
    }
    check_file(table, listing, (size + BLOCK_SIZE - 1) / BLOCK_SIZE)
}

/// The number that a name has that CREATE (RFC 1094, section 2.2.10) would make with a size in bytes, if it
/// is there, for its attributes to be set. Stale, NotDir, Acces; where the name is taken Exist unless by a
/// regular file; where it is free Acces, FBig and NoSpc.
pub fn find_to_create(
    table: &InodeTable,
    who: &Who,
    dir: u32,
    name: &[u8],
    size: Option<u32>,
) -> Result<Option<u32>, Stat>
    ensures { (now : Timeval) (a : GivenFields) → a.size ≡ size →
        DecidesCreate table.now (caller_of who.now) now dir name.now a result }
{
    table.files_are_a_tree();
    let Some(inode) = table.get(dir) else {
        return Err(Stat::Stale);
    };
    let listing = inode.directory()?;
    if !is_name(name) || !inode.may_search(who) {
        return Err(Stat::Acces);
    }
    match listing.find(name) {
        Some(entry) => regular_number(table, entry.number),
        None => {
            check_new(table, who, inode, listing, size.unwrap_or(0))?;
            Ok(None)
        }
    }
}
