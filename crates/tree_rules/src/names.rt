//! Names, counted over all entries.

ghost use Rattle.std.specs.Prelude.{◌≡◌, ◌≢◌, ◌<◌, ◌≤◌, ◌+◌, ◌↔◌, ℕ, true, length, slice_index, MatchOption};
ghost use Rattle.std.specs.Prelude.{MatchBool, IfOk, map, replicate};
ghost use Rattle.std.specs.List.{All};
ghost use Rattle.nfs_laws.specs.fs_spec.Maxima.{max_entries};
ghost use Rattle.nfs_laws.specs.fs_spec.Listing.{entry_number};
ghost use Rattle.nfs_laws.specs.fs_spec.Files.{listing_in};
ghost use Rattle.tree_rules.specs.FileRules.Rules.{AreKnown, AreRising, numbers_of};
ghost use Rattle.inodes.specs.Inodes.{body_in};
ghost use Rattle.tree_rules.specs.Listed.{entries_among, files_in};
ghost use Rattle.tree_rules.specs.Counting.{AddsNames, IsAmong, IsCount};

use inodes::directories::Directory;
use inodes::{Body, Inode};
use std::alloc::{AllocError, Global};

/// The place of a number among numbers that rise.
pub fn place_of(numbers: &[u32], number: u32) -> Option<usize>
    requires { AreRising numbers.now }
    ensures { MatchOption result
        ((k : ℕ) → k < length numbers.now → slice_index numbers.now k ≢ number)
        (λ place. (place < length numbers.now) × (slice_index numbers.now place ≡ number)) }
{
    match numbers.binary_search(&number) {
        Ok(place) => Some(place),
        Err(_) => None,
    }
}

/// Adds the names that a directory has to the counts, and notes its place above the numbers that it names.
/// Answers whether all of these are there.
fn add_names(
    place: usize,
    listing: &Directory,
    numbers: &[u32],
    names: &mut [usize],
    above: &mut [usize],
) -> bool
    requires rising { AreRising numbers.now }
    requires names { length names.old ≡ length numbers.now }
    requires above { length above.old ≡ length numbers.now }
    requires few { (k : ℕ) → k < length numbers.now →
        slice_index names.old k + length listing.now.entries ≤ max_entries }
    ensures known { MatchBool result
        (All (λ e. IsAmong numbers.now (entry_number e)) listing.now.entries)
        (All (λ e. IsAmong numbers.now (entry_number e)) listing.now.entries → ⊥) }
    ensures adds { result ≡ true → AddsNames place numbers.now listing.now.entries
        names.old above.old names.new above.new }
{
    for at in 0..listing.len() {
        let Some(named) = place_of(numbers, listing.number_in(at)) else {
            return false;
        };
        names[named] += 1;
        above[named] = place;
    }
    true
}

/// The same of any file, which has names only where it is a directory.
fn add_inode(
    place: usize,
    body: &Body,
    numbers: &[u32],
    names: &mut [usize],
    above: &mut [usize],
) -> bool
    requires rising { AreRising numbers.now }
    requires names { length names.old ≡ length numbers.now }
    requires above { length above.old ≡ length numbers.now }
    requires few { (k : ℕ) → k < length numbers.now →
        slice_index names.old k + length (listing_in (body_in body.now)).entries ≤ max_entries }
    ensures known { MatchBool result
        (All (λ e. IsAmong numbers.now (entry_number e)) (listing_in (body_in body.now)).entries)
        (All (λ e. IsAmong numbers.now (entry_number e)) (listing_in (body_in body.now)).entries → ⊥) }
    ensures adds { result ≡ true → AddsNames place numbers.now (listing_in (body_in body.now)).entries
        names.old above.old names.new above.new }
{
    match body {
        Body::Directory { listing, .. } => add_names(place, listing, numbers, names, above),
        Body::Regular(_) | Body::Symlink(_) => true,
    }
}

/// The same of all files, whose numbers rise.
fn add_inodes(
    inodes: &[(u32, Inode)],
    numbers: &[u32],
    names: &mut [usize],
    above: &mut [usize],
) -> bool
    requires numbers { numbers.now ≡ numbers_of inodes.now }
    requires rising { AreRising numbers.now }
    requires few { entries_among (files_in inodes.now) ≤ max_entries }
    requires names { names.old ≡ replicate (length inodes.now) 0 }
    requires above { above.old ≡ replicate (length inodes.now) 0 }
    ensures { MatchBool result (IsCount (files_in inodes.now) names.new above.new)
        (AreKnown (files_in inodes.now) → ⊥) }
{
    for place in 0..inodes.len() {
        if !add_inode(place, &inodes[place].1.body, numbers, names, above) {
            return false;
        }
    }
    true
}

/// What counting over all entries gives of each place in a list of files.
#[derive(Drop)]
pub struct Counts {
    /// How many names the file has.
    pub names: Vec<usize>,
    /// The place of a directory that names it; 0 where none does.
    pub above: Vec<usize>,
}

/// The numbers of the files in a list.
pub fn numbers_in(alloc: Global, inodes: &[(u32, Inode)]) -> Result<Vec<u32>, AllocError>
    ensures { IfOk result (λ numbers. numbers.items ≡ map (λ inode. inode.0) inodes.now) }
{
    inodes.iter().map(|inode| inode.0).collect(alloc)
}

/// Counts the names of each file. None where an entry names a number that no file has.
pub fn count_names(
    alloc: Global,
    numbers: &[u32],
    inodes: &[(u32, Inode)],
) -> Result<Option<Counts>, AllocError>
    requires numbers { numbers.now ≡ numbers_of inodes.now }
    requires rising { AreRising numbers.now }
    requires few { entries_among (files_in inodes.now) ≤ max_entries }
    ensures { IfOk result (λ counts. MatchOption counts (AreKnown (files_in inodes.now) → ⊥)
        (λ c. IsCount (files_in inodes.now) c.names.items c.above.items)) }
{
    let mut names = vec![in alloc; 0; inodes.len()]?;
    let mut above = vec![in alloc; 0; inodes.len()]?;
    if !add_inodes(inodes, numbers, &mut names, &mut above) {
        return Ok(None);
    }
    Ok(Some(Counts { names, above }))
}
