//! Calls that read alone.

ghost use Rattle.std.specs.Prelude.{◌≡◌, ◌≤◌, All, IfOk, List, ℕ, Some, drop, length, min, take};
ghost use Rattle.nfs_spec.specs.nfs_items.CallerOf.{caller_of};
ghost use Rattle.nfs_spec.specs.nfs_items.Attributes.{outcome_of};
ghost use Rattle.nfs_spec.specs.nfs_types.Results.{bytes_of, page_of};
ghost use Rattle.nfs_spec.specs.fs_spec.Maxima.{max_data, max_name, max_target};
ghost use Rattle.nfs_spec.specs.Procedures.{read_link, read, read_dir, stat_fs};

use crate::limits::MAX_BLOCKS;
use crate::tree::Tree;
use inode_table::{BLOCK_SIZE, Body};
use nfs_spec::{FsStats, MAXDATA, Page, ReadOk, Stat, Who};
use std::alloc::{AllocError, Global};

/// The bytes from an offset on, at most a count of them and `MAXDATA`; none past the end.
fn part(bytes: &[u8], offset: u32, count: u32) -> &[u8]
    ensures value { result.now ≡ take (min count max_data) (drop offset bytes.now) }
    ensures size { length result.now ≤ max_data }
{
    let rest = &bytes[(offset as usize).min(bytes.len())..];
    &rest[..(count.min(MAXDATA) as usize).min(rest.len())]
}

impl Tree {
    /// The target of a symbolic link (RFC 1094, section 2.2.6), at most 1,024 bytes. Stale where no file has
    /// the number, NxIo where that file is no symbolic link.
    pub fn read_link(&self, number: u32) -> Result<&[u8], Stat>
        ensures value { outcome_of (λ target. target.now) result ≡ read_link self.now.files number }
        ensures size { IfOk result (λ target. length target.now ≤ max_target) }
    {
        let Some(inode) = self.table.get(number) else {
            return Err(Stat::Stale);
        };
        inode.target()
    }

    /// Bytes of a regular file from an offset on, at most `count` and 8,192, and its attributes (RFC 1094,
    /// section 2.2.7); none past its end. Stale where no file has the number, IsDir, NxIo for a symbolic
    /// link, and Acces where the caller may neither read nor execute it, in this order.
    pub fn read(&self, who: &Who, number: u32, offset: u32, count: u32) -> Result<ReadOk<'_>, Stat>
        ensures value { outcome_of bytes_of result
            ≡ read self.now.files (caller_of who.now) number offset count }
        ensures size { IfOk result (λ read. length read.«data».now ≤ max_data) }
    {
        let Some(inode) = self.table.get(number) else {
            return Err(Stat::Stale);
        };
        let bytes = inode.bytes()?;
        if !(inode.may_read(who) || inode.may_search(who)) {
            return Err(Stat::Acces);
        }
        Ok(ReadOk {
            attributes: inode.attributes(self.table.fsid(), number),
            data: part(bytes, offset, count),
        })
    }

    /// The entries of a directory above a cookie (RFC 1094, section 2.2.17), `.` and `..` too: the longest
    /// front whose costs, 16 bytes and the padded name each, add up to at most `count` and 8,192; and whether
    /// none is left. Stale where no file has the number, NotDir, and Acces where the caller may not read it,
    /// in this order.
    pub fn list(
        &self,
        alloc: Global,
        who: &Who,
        dir: u32,
        cookie: u32,
        count: u32,
    ) -> Result<Result<Page<'_>, Stat>, AllocError>
        ensures value { IfOk result (λ r.
            outcome_of page_of r ≡ read_dir self.now.files (caller_of who.now) dir cookie count) }
        ensures names { IfOk result (λ r. IfOk r (λ page.
            All (λ e. length e.name.now ≤ max_name) page.entries.items)) }
    {
        self.table.files_are_a_tree();
        self.page_at(alloc, who, dir, cookie, count)
    }

    /// The same, without what is said of names.
    fn page_at(
        &self,
        alloc: Global,
        who: &Who,
        dir: u32,
        cookie: u32,
        count: u32,
    ) -> Result<Result<Page<'_>, Stat>, AllocError>
        ensures { IfOk result (λ r.
            outcome_of page_of r ≡ read_dir self.now.files (caller_of who.now) dir cookie count) }
    {
        let Some(inode) = self.table.get(dir) else {
            return Ok(Err(Stat::Stale));
        };
        let Body::Directory { parent, listing } = &inode.body else {
            return Ok(Err(Stat::NotDir));
        };
        if !inode.may_read(who) {
            return Ok(Err(Stat::Acces));
        }
        Ok(Ok(listing.page(alloc, dir, *parent, cookie, count)?))
    }

    /// The figures of the file system (RFC 1094, section 2.2.18): free is what the regular files leave. Stale
    /// where no file has the number.
    pub fn figures(&self, number: u32) -> Result<FsStats, Stat>
        ensures { result ≡ stat_fs self.now.files number }
    {
        if self.table.get(number).is_none() {
            return Err(Stat::Stale);
        }
        self.table.files_are_a_tree();
        let free = MAX_BLOCKS - self.table.block_count();
        Ok(FsStats {
            transfer_size: MAXDATA,
            block_size: BLOCK_SIZE,
            blocks: MAX_BLOCKS,
            free,
            available: free,
        })
    }
}
