//! What MKDIR, SYMLINK and LINK refuse.

ghost use Rattle.std.specs.Prelude.{◌≡◌, ◌≤◌, ◌+◌, []};
ghost use Rattle.std.specs.Result.{result_map_both};
ghost use Rattle.nfs_spec.specs.nfs_items.Timeval.{Timeval};
ghost use Rattle.nfs_spec.specs.nfs_items.CallerOf.{caller_of};
ghost use Rattle.nfs_spec.specs.fs_spec.Files.{File, listing_in};
ghost use Rattle.nfs_spec.specs.fs_spec.Maxima.{max_number};
ghost use Rattle.nfs_spec.specs.fs_spec.Changes.Limits.{blocks_in};
ghost use Rattle.nfs_spec.specs.Procedures.{make, link};
ghost use Rattle.file_tree.specs.FileChecks.Decides.{Decides};
ghost use Rattle.file_tree.specs.FileChecks.FreeNames.{free_name};

use crate::file_checks::room::{check_entry, check_file};
use inode_table::{Directory, InodeTable};
use nfs_spec::{Stat, Who};

/// What a directory lists, where a caller may put a name into it that is free: Stale, NotDir, Acces and
/// Exist, in this order.
fn free_name<'a>(
    table: &'a InodeTable,
    who: &Who,
    dir: u32,
    name: &[u8],
) -> Result<&'a Directory, Stat>
    ensures { result_map_both (λ listing. listing.now) (λ e. e) result
        ≡ free_name table.now (caller_of who.now) dir name.now }
{
    let Some(inode) = table.get(dir) else {
        return Err(Stat::Stale);
    };
    let listing = inode.directory()?;
    inode.check_edit(who, name)?;
    if listing.find(name).is_some() {
        return Err(Stat::Exist);
    }
    Ok(listing)
}

/// MKDIR and SYMLINK (RFC 1094, sections 2.2.15 and 2.2.14), by the blocks of the new file: Stale, NotDir,
/// Acces, Exist and NoSpc, in this order.
pub fn check_make(
    table: &InodeTable,
    who: &Who,
    dir: u32,
    name: &[u8],
    blocks: u32,
) -> Result<(), Stat>
    ensures { (now : Timeval) (f : File) →
        (listing_in f.body).entries ≡ [] → (listing_in f.body).next ≤ max_number + 1 →
        blocks_in f.body ≡ blocks →
        Decides (make table.now (caller_of who.now) now dir name.now f) result }
{
    table.files_are_a_tree();
    let listing = free_name(table, who, dir, name)?;
    check_file(table, listing, blocks)
}

/// LINK (RFC 1094, section 2.2.13): of the file Stale and IsDir; then Stale, NotDir, Acces, Exist and NoSpc,
/// in this order.
pub fn check_link(
    table: &InodeTable,
    who: &Who,
    number: u32,
    dir: u32,
    name: &[u8],
) -> Result<(), Stat>
    ensures { (now : Timeval) →
        Decides (link table.now (caller_of who.now) now number dir name.now) result }
{
    table.files_are_a_tree();
    let Some(inode) = table.get(number) else {
        return Err(Stat::Stale);
    };
    if inode.body.is_directory() {
        return Err(Stat::IsDir);
    }
    let listing = free_name(table, who, dir, name)?;
    check_entry(table, listing)
}
