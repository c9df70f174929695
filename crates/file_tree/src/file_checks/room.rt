//! Room, told by the counts that the table keeps. NoSpc where there is none.

ghost use Rattle.std.specs.Prelude.{◌≡◌, ◌≤◌, ◌+◌};
ghost use Rattle.nfs_spec.specs.nfs_items.declared.stat.Stat.TheVariants as stats;
ghost use Rattle.nfs_spec.specs.fs_spec.Maxima.{max_blocks};
ghost use Rattle.nfs_spec.specs.fs_spec.Changes.Limits.{block_count};
ghost use Rattle.inode_table.specs.nfs_laws.Room.{HasRoomToMake, HasRoomToLink};
ghost use Rattle.file_tree.specs.FileChecks.Decides.{IsCheckOf};

use crate::file_checks::limits::{MAX_BLOCKS, MAX_DIRECTORY_ENTRIES, MAX_FILES, MAX_NUMBER};
use inode_table::{Directory, InodeTable};
use nfs_spec::Stat;

/// Room for other bytes of a file, told by the blocks that it takes before and after.
pub fn check_blocks(table: &InodeTable, before: u32, after: u32) -> Result<(), Stat>
    ensures { IsCheckOf (block_count table.now + after ≤ max_blocks + before) stats.NoSpc result }
{
    let blocks = u64::from(table.block_count()) + u64::from(after);
    if blocks <= u64::from(MAX_BLOCKS) + u64::from(before) {
        Ok(())
    } else {
        Err(Stat::NoSpc)
    }
}

/// Room for one more entry in a directory.
pub fn check_entry(table: &InodeTable, listing: &Directory) -> Result<(), Stat>
    ensures { IsCheckOf (HasRoomToLink table.now listing.now.next) stats.NoSpc result }
{
    if table.entry_count() < MAX_DIRECTORY_ENTRIES && listing.next() <= MAX_NUMBER {
        Ok(())
    } else {
        Err(Stat::NoSpc)
    }
}

/// Room for one more file of so many blocks, with a name in a directory.
pub fn check_file(table: &InodeTable, listing: &Directory, blocks: u32) -> Result<(), Stat>
    ensures { IsCheckOf (HasRoomToMake table.now listing.now.next blocks) stats.NoSpc result }
{
    if table.file_count() >= MAX_FILES || table.next() > MAX_NUMBER {
        return Err(Stat::NoSpc);
    }
    check_blocks(table, 0, blocks)?;
    check_entry(table, listing)
}
