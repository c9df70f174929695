//! Directories of entries that come from outside.

ghost use Rattle.std.specs.Prelude.{◌≡◌, IfOk, MatchOption};
ghost use Rattle.tree_rules.specs.GivenListing.{IsListing, said_entries};

use inodes::directories::{Directory, Entry, is_name};
use std::alloc::{AllocError, Global};

/// An entry as it is given.
#[derive(Clone, Copy)]
pub struct GivenEntry<'a> {
    /// The name, of any length and any bytes.
    pub name: &'a [u8],
    /// The number of the file that it names.
    pub number: u32,
    pub cookie: u32,
}

/// The directory of these entries, whose next cookie is given. None where they are those of no directory:
/// their cookies do not rise from 3 to below the next, one of the names is empty, `.` or `..` or has a byte
/// that is zero or a slash, or a name comes twice.
pub fn directory_of(
    alloc: Global,
    next: u32,
    entries: &[GivenEntry],
) -> Result<Option<Directory>, AllocError>
    ensures { IfOk result (λ directory. MatchOption directory
        (IsListing next (said_entries entries.now) → ⊥)
        (λ d. (d ≡ record { next = next; entries = said_entries entries.now })
        × IsListing next (said_entries entries.now))) }
{
    let mut directory = Directory::new(alloc)?;
    for entry in entries {
        if entry.cookie < directory.next() {
            return Ok(None);
        }
        if next <= entry.cookie {
            return Ok(None);
        }
        if !is_name(entry.name) {
            return Ok(None);
        }
        if let Some(_) = directory.find(entry.name) {
            return Ok(None);
        }
        let name = entry.name.to_vec(alloc)?;
        directory.add(
            name,
            Entry {
                number: entry.number,
                cookie: entry.cookie,
            },
        )?;
    }
    if next < directory.next() {
        return Ok(None);
    }
    directory.skip_to(next);
    Ok(Some(directory))
}
