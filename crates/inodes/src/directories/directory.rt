//! A directory: names in order of insertion.

ghost use Rattle.std.specs.Prelude.{◌≡◌, ◌≢◌, ◌<◌, ◌≤◌, ◌+◌, ◌^◌, ◌-◌, ℕ, List, [], ◌∷◌, ◌++◌, length};
ghost use Rattle.std.specs.Prelude.{slice_index_or, ◌==◌, Some, None, OnOk, OnErr, IfOk, option_map, map};
ghost use Rattle.std.specs.Prelude.{nat_eq, nat_le};
ghost use Rattle.std.specs.Cmp.Lexicographic.{pointwise};
ghost use Rattle.std.specs.Map.{lookup, remove_entry};
ghost use Rattle.nfs_spec.specs.fs_spec.Listing.{NamedEntry, Listing, entry_at, entry_number, with_entry};
ghost use Rattle.nfs_spec.specs.fs_spec.Listing.{without_entry};
ghost use Rattle.inodes.specs.Directories.Entries.{entries_of};
ghost use Rattle.inodes.specs.Directories.Pages.{above};
ghost use Rattle.nfs_spec.specs.Effects.{number_in_listing};
ghost use Rattle.nfs_spec.specs.Readdir.{entries_listed, page_entry, page_of};
ghost use Rattle.nfs_spec.specs.nfs_types.Results.{page_of as page_of_code};

use crate::directories::names::is_name;
use crate::directories::page::Filling;
use indexmap::IndexMap;
use indexmap::map::Slice;
use nfs_spec::{Page, PageEntry};
use std::alloc::{AllocError, Global};
use std::marker::Model;

/// The cookie of a directory's first entry: 1 and 2 are those of `.` and `..`.
pub const FIRST_COOKIE: u32 = 3;

/// What a name stands for.
#[derive(Clone, Copy)]
pub struct Entry {
    /// The number of the file.
    pub number: u32,
    /// The entry's place in the order of insertion, from `FIRST_COOKIE`; no two entries that a directory ever
    /// had share one.
    pub cookie: u32,
}

/// The entries of a directory. Their map lies elsewhere, so that an inode takes few bytes: most are no
/// directory's, and a look-up among many files reads less memory.
#[derive(Drop)]
pub struct Directory {
    next: u32,
    entries: Box<IndexMap<Vec<u8>, Entry>>,
}

impl Model for Directory {
    ghost use Rattle.nfs_spec.specs.fs_spec.Listing.{Listing, IsRising};
    ghost use Rattle.inodes.specs.declared.directories.directory.TheConstants.{FIRST_COOKIE};
    ghost use Rattle.inodes.specs.Directories.Entries.{entries_of};

    ghost Value = { Listing };

    ghost view = { λ a. record { next = a.next; entries = entries_of a.entries.value.entries } };

    ghost invariant = { λ a. IsRising FIRST_COOKIE (entries_of a.entries.value.entries) a.next };
}

impl Directory {
    /// A directory with no entries, whose first gets `FIRST_COOKIE`. Takes memory once.
    pub fn new(alloc: Global) -> Result<Directory, AllocError>
        ensures { IfOk result (λ directory. directory ≡ record { next = FIRST_COOKIE; entries = [] }) }
    {
        Ok(Directory {
            next: FIRST_COOKIE,
            entries: Box::new(alloc, IndexMap::new(alloc))?,
        })
    }

    /// The cookie that the next entry gets.
    pub fn next(&self) -> u32
        ensures { result ≡ self.now.next }
    {
        self.next
    }

    /// How many entries it has.
    pub fn len(&self) -> usize
        ensures { result ≡ length self.now.entries }
    {
        self.entries.len()
    }

    /// Whether it has none.
    pub fn is_empty(&self) -> bool
        ensures { result ≡ (length self.now.entries == 0) }
    {
        self.entries.is_empty()
    }

    /// Its entries, in order of insertion. Names are lent.
    pub fn entries(&self) -> Slice<'_, Vec<u8>, Entry>
        ensures { entries_of result ≡ self.now.entries }
    {
        self.entries.as_slice()
    }

    /// The number that the entry at a place in this order stands for; places count from 0.
    pub fn number_in(&self, place: usize) -> u32
        requires { place < length self.now.entries }
        ensures { (none : NamedEntry) → entry_number (slice_index_or self.now.entries place none) ≡ result }
    {
        let (_, entry) = self.entries.get_index(place).unwrap();
        entry.number
    }

    /// The entry with a name.
    // Inlined, the hash of a short name needs no call (docs/SPEED.md).
    #[inline(always)]
    pub fn find(&self, name: &[u8]) -> Option<Entry>
        ensures { option_map (λ e. (e.number, e.cookie)) result ≡ entry_at self.now name.now }
    {
        self.entries.get(name).copied()
    }

    /// The number that a name stands for in this directory, whose own number and the one above are given:
    /// its own for `.`, the one above for `..`. None where it lists no such name, or it may be none.
    pub fn number_at(&self, own: u32, above: u32, name: &[u8]) -> Option<u32>
        ensures { result ≡ number_in_listing own above self.now name.now }
    {
        if name == b".".as_slice() {
            Some(own)
        } else if name == b"..".as_slice() {
            Some(above)
        } else if is_name(name) {
            self.find(name).map(|entry| entry.number)
        } else {
            None
        }
    }

    /// The entries above a cookie, in order of insertion.
    fn entries_above(&self, cookie: u32) -> Slice<'_, Vec<u8>, Entry>
        ensures { map page_entry (entries_of result) ≡ above cookie (map page_entry self.now.entries) }
    {
        let entries = self.entries.as_slice();
        let first = entries.partition_point(
            |_: &Vec<u8>, entry: &Entry| -> bool
                ensures { result ≡ nat_le entry.now.cookie cookie }
            { entry.cookie <= cookie },
        );
        entries.split_at(first).1
    }

    /// A page (RFC 1094, section 2.2.17) of this directory, whose own number and the one above are given: `.`
    /// with cookie 1, `..` with 2 and the entries in order of insertion, of these the ones above a cookie,
    /// while their costs, 16 bytes and the padded name each, add up to at most `count` bytes and `MAXDATA`;
    /// and whether none is left after them. Names are lent.
    pub fn page(
        &self,
        alloc: Global,
        own: u32,
        above: u32,
        cookie: u32,
        count: u32,
    ) -> Result<Page<'_>, AllocError>
        ensures { IfOk result (λ page.
            page_of_code page ≡ page_of cookie count (entries_listed own above self.now)) }
    {
        let mut filling = Filling::new(alloc, count);
        filling.add_above(
            cookie,
            PageEntry {
                fileid: own,
                name: b".".as_slice(),
                cookie: 1,
            },
        )?;
        filling.add_above(
            cookie,
            PageEntry {
                fileid: above,
                name: b"..".as_slice(),
                cookie: 2,
            },
        )?;
        filling.add_all(self.entries_above(cookie))?;
        Ok(filling.finish())
    }

    /// Puts a name last, with the next cookie, in place of the entry that it has. Where memory is refused
    /// nothing changes.
    #[tactic(auto, using(crate::proofs::OfDirectories::Rising::rising_put))]
    pub fn put(&mut self, name: Vec<u8>, number: u32) -> Result<(), AllocError>
        requires { self.old.next < 2 ^ 32 - 1 }
        ensures ok { OnOk result (self.new ≡ with_entry self.old name.items number) }
        ensures here { OnOk result (entry_at self.new name.items ≡ Some (number, self.old.next)) }
        ensures others { OnOk result ((q : List ℕ) → q ≢ name.items →
            entry_at self.new q ≡ entry_at self.old q) }
        ensures err { OnErr result (self.new ≡ self.old) }
    {
        let cookie = self.next;
        put_last(&mut self.entries, name, Entry { number, cookie })?;
        self.next = cookie + 1;
        Ok(())
    }

    /// Puts an entry with a new name and a cookie of its own last; the next cookie is then the one after it.
    /// Where memory is refused nothing changes.
    #[tactic(auto, using(crate::proofs::OfDirectories::Rising::rising_added))]
    pub fn add(&mut self, name: Vec<u8>, entry: Entry) -> Result<(), AllocError>
        requires new { entry_at self.old name.items ≡ None }
        requires later { self.old.next ≤ entry.cookie }
        requires bound { entry.cookie < 2 ^ 32 - 1 }
        ensures ok { OnOk result (self.new ≡ record {
          next = entry.cookie + 1;
          entries = self.old.entries ++ (name.items, (entry.number, entry.cookie)) ∷ [];
        }) }
        ensures err { OnErr result (self.new ≡ self.old) }
    {
        add_last(&mut self.entries, name, entry)?;
        self.next = entry.cookie + 1;
        Ok(())
    }

    /// The cookie that the next entry gets becomes a later one.
    #[tactic(auto, using(crate::proofs::OfDirectories::Rising::rising_to))]
    pub fn skip_to(&mut self, next: u32)
        requires { self.old.next ≤ next }
        ensures { self.new ≡ record { next = next; entries = self.old.entries } }
    {
        self.next = next;
    }

    /// Takes a name out, if it is there; the others keep their order and their cookies, and the next cookie
    /// stays.
    #[tactic(auto, using(crate::proofs::OfDirectories::Rising::rising_without))]
    pub fn remove(&mut self, name: &[u8])
        ensures new { self.new ≡ without_entry self.old name.now }
        ensures gone { entry_at self.new name.now ≡ None }
        ensures others { (q : List ℕ) → q ≢ name.now → entry_at self.new q ≡ entry_at self.old q }
    {
        take_out(&mut self.entries, name);
    }
}

/// Takes an entry out; the others keep their order.
fn take_out(entries: &mut IndexMap<Vec<u8>, Entry>, name: &[u8])
    ensures new { entries_of entries.new.entries
        ≡ remove_entry (pointwise nat_eq name.now) (entries_of entries.old.entries) }
    ensures gone { lookup (pointwise nat_eq name.now) (entries_of entries.new.entries) ≡ None }
    ensures others { (q : List ℕ) → q ≢ name.now →
        lookup (pointwise nat_eq q) (entries_of entries.new.entries)
        ≡ lookup (pointwise nat_eq q) (entries_of entries.old.entries) }
{
    entries.shift_remove(name);
}

/// Puts an entry with a new name last. Where memory is refused nothing changes.
fn add_last(
    entries: &mut IndexMap<Vec<u8>, Entry>,
    name: Vec<u8>,
    entry: Entry,
) -> Result<(), AllocError>
    requires { lookup (pointwise nat_eq name.items) (entries_of entries.old.entries) ≡ None }
    ensures ok { OnOk result (entries_of entries.new.entries
        ≡ entries_of entries.old.entries ++ (name.items, (entry.number, entry.cookie)) ∷ []) }
    ensures err { OnErr result (entries_of entries.new.entries ≡ entries_of entries.old.entries) }
{
    entries.insert(name, entry)?;
    Ok(())
}

/// Puts an entry last, in place of the one that its name has. Where memory is refused nothing changes.
fn put_last(
    entries: &mut IndexMap<Vec<u8>, Entry>,
    name: Vec<u8>,
    entry: Entry,
) -> Result<(), AllocError>
    ensures ok { OnOk result (entries_of entries.new.entries
        ≡ remove_entry (pointwise nat_eq name.items) (entries_of entries.old.entries)
        ++ (name.items, (entry.number, entry.cookie)) ∷ []) }
    ensures here { OnOk result (lookup (pointwise nat_eq name.items) (entries_of entries.new.entries)
        ≡ Some (entry.number, entry.cookie)) }
    ensures others { OnOk result ((q : List ℕ) → q ≢ name.items →
        lookup (pointwise nat_eq q) (entries_of entries.new.entries)
        ≡ lookup (pointwise nat_eq q) (entries_of entries.old.entries)) }
    ensures err { OnErr result (entries_of entries.new.entries ≡ entries_of entries.old.entries) }
{
    entries.reserve(1)?;
    entries.shift_remove(name.as_slice());
    let _ = entries.insert(name, entry).unwrap();
    Ok(())
}
