//! Directories by their numbers, and files by their names.

ghost use Rattle.std.specs.Prelude.{◌≡◌};
ghost use Rattle.std.specs.Result.{result_map_both};
ghost use Rattle.nfs_spec.specs.nfs_items.CallerOf.{caller_of};
ghost use Rattle.nfs_spec.specs.ProcedureChecks.{dir_of};
ghost use Rattle.file_tree.specs.NameChecks.Names.{numbered_dir, number_listed, number_to_edit};

use inode_table::{Directory, Inode, InodeTable};
use nfs_spec::{Stat, Who};

/// A directory that was found.
#[derive(Clone, Copy)]
pub struct Found<'a> {
    pub inode: &'a Inode,
    pub listing: &'a Directory,
}

/// The directory of a number. Stale and NotDir.
pub fn find_directory(table: &InodeTable, number: u32) -> Result<Found<'_>, Stat>
    ensures { result_map_both (numbered_dir number) (λ e. e) result ≡ dir_of table.now number }
{
    let Some(inode) = table.get(number) else {
        return Err(Stat::Stale);
    };
    let listing = inode.directory()?;
    Ok(Found { inode, listing })
}

/// The number that a name stands for. NoEnt where it stands for nothing.
pub fn find_number(listing: &Directory, name: &[u8]) -> Result<u32, Stat>
    ensures { result ≡ number_listed listing.now name.now }
{
    match listing.find(name) {
        Some(entry) => Ok(entry.number),
        None => Err(Stat::NoEnt),
    }
}

/// The number of a file whose name a caller may take out of a directory. Stale, NotDir, Acces and NoEnt, in
/// this order.
pub fn find_to_edit(table: &InodeTable, who: &Who, dir: u32, name: &[u8]) -> Result<u32, Stat>
    ensures { result ≡ number_to_edit table.now (caller_of who.now) dir name.now }
{
    let directory = find_directory(table, dir)?;
    directory.inode.check_edit(who, name)?;
    find_number(directory.listing, name)
}
