//! Pages of a directory.

ghost use Rattle.std.specs.Prelude.{◌≡◌, ◌∷◌, [], List, OnOk, IfOk, map, min, false};
ghost use Rattle.nfs_spec.specs.fs_spec.Maxima.{max_data};
ghost use Rattle.nfs_spec.specs.Readdir.{page_entry};
ghost use Rattle.nfs_spec.specs.nfs_types.Calls as calls;
ghost use Rattle.nfs_spec.specs.nfs_types.Results.{entry_of, page_of};
ghost use Rattle.inodes.specs.Directories.Entries.{entries_of};
ghost use Rattle.inodes.specs.Directories.Pages.{above, front_page, page_with};

use crate::directories::directory::Entry;
use indexmap::map::Slice;
use nfs_spec::{MAXDATA, Page, PageEntry};
use std::alloc::{AllocError, Global};

/// A page that is being filled, in the order of the cookies.
#[derive(Drop)]
pub struct Filling<'a> {
    /// The entries so far, and whether each one fitted.
    page: Page<'a>,
    /// The bytes of the count that are left; none once an entry did not fit.
    room: usize,
}

impl<'a> Filling<'a> {
    /// A page with no entries, for at most `count` bytes and `MAXDATA`.
    pub fn new(alloc: Global, count: u32) -> Self
        ensures { (es : List calls.PageEntry) → page_with result es ≡ front_page (min count max_data) es }
    {
        Filling {
            page: Page {
                entries: Vec::new(alloc),
                eof: true,
            },
            room: count.min(MAXDATA) as usize,
        }
    }

    /// Adds an entry if it fits, as each one before it did, and says whether it does. An entry costs 16 bytes
    /// and its name, padded to whole words. Where memory is refused nothing changes.
    fn add(&mut self, entry: PageEntry<'a>) -> Result<bool, AllocError>
        ensures added { OnOk result ((es : List calls.PageEntry) →
            page_with self.new es ≡ page_with self.old (entry_of entry.entry ∷ es)) }
        ensures full { IfOk result (λ fits. fits ≡ false → (es : List calls.PageEntry) →
            page_with self.new es ≡ page_with self.new []) }
    {
        let cost = 16 + (entry.name.len() + 3) / 4 * 4;
        if cost > self.room {
            self.room = 0;
            self.page.eof = false;
            return Ok(false);
        }
        self.page.entries.push(entry)?;
        self.room -= cost;
        Ok(true)
    }

    /// The same for an entry above a cookie; another is passed over.
    pub fn add_above(&mut self, cookie: u32, entry: PageEntry<'a>) -> Result<(), AllocError>
        ensures { OnOk result ((es : List calls.PageEntry) →
            page_with self.new (above cookie es)
            ≡ page_with self.old (above cookie (entry_of entry.entry ∷ es))) }
    {
        if entry.cookie > cookie {
            self.add(entry)?;
        }
        Ok(())
    }

    /// The same for all of a directory's last entries, up to the first that does not fit.
    pub fn add_all(&mut self, entries: Slice<'a, Vec<u8>, Entry>) -> Result<(), AllocError>
        ensures { OnOk result (page_with self.new []
            ≡ page_with self.old (map page_entry (entries_of entries.entry))) }
    {
        for (name, entry) in entries {
            let fits = self.add(PageEntry {
                fileid: entry.number,
                name: name.as_slice(),
                cookie: entry.cookie,
            })?;
            if !fits {
                break;
            }
        }
        Ok(())
    }

    /// The page.
    pub fn finish(self) -> Page<'a>
        ensures { page_of result ≡ page_with self.entry [] }
    {
        self.page
    }
}
