//! What is kept beside each file of a tree: its links, and the directory above.

ghost use Rattle.std.specs.Prelude.{◌≡◌, ◌<◌, ◌≤◌, ℕ, OnOk, OnErr, length, slice_index, true};
ghost use Rattle.fs_spec.specs.nfs_items.Terms.{FileNumber};
ghost use Rattle.fs_spec.specs.Maxima.{max_entries};
ghost use Rattle.fs_spec.specs.Files.{File, is_directory};
ghost use Rattle.nfs_count_laws.specs.nfs_spec.FileAttributes.{is_directory_at, subdirectories};
ghost use Rattle.tree_rules.specs.FileRules.Rules.{AreRising, IsAt, numbers_of};
ghost use Rattle.tree_rules.specs.inodes.Inodes.{body_in, file_in, files_of, parent_in};
ghost use Rattle.tree_rules.specs.Counting.{IsCount};
ghost use Rattle.inode_table.specs.Links.Linked.{AreLinked, IsLinks};
ghost use Rattle.tree_rules.specs.Listed.{AreTree, entries_among, files_in};

use std::alloc::{AllocError, Global};
use tree_rules::{Body, Counts, Directory, Inode, count_names, numbers_in, place_of};

/// What is kept beside a file.
#[derive(Clone, Copy)]
pub struct Links {
    /// The names of a file or symbolic link; two and the subdirectories of a directory.
    pub nlink: u32,
    /// The number of the directory above a directory, the root's own for the root.
    pub parent: u32,
}

/// Whether a number is a directory's.
fn is_directory_at(numbers: &[u32], inodes: &[(u32, Inode)], number: u32) -> bool
    requires numbers { numbers.now ≡ numbers_of inodes.now }
    requires rising { AreRising numbers.now }
    ensures { (fsid next : ℕ) → result ≡ is_directory_at (files_of fsid next inodes.now) number }
{
    match place_of(numbers, number) {
        Some(place) => inodes[place].1.body.is_directory(),
        None => false,
    }
}

/// How many directories a directory lists.
fn count_subdirectories(listing: &Directory, numbers: &[u32], inodes: &[(u32, Inode)]) -> usize
    requires numbers { numbers.now ≡ numbers_of inodes.now }
    requires rising { AreRising numbers.now }
    ensures value { (fsid next : ℕ) →
        result ≡ subdirectories (files_of fsid next inodes.now) listing.now }
    ensures bound { result ≤ length listing.now.entries }
{
    let mut count = 0;
    for at in 0..listing.len() {
        if is_directory_at(numbers, inodes, listing.number_in(at)) {
            count += 1;
        }
    }
    count
}

/// The number at the place that is noted above one.
fn number_above(place: usize, numbers: &[u32], above: &[usize]) -> u32
    requires place { place < length above.now }
    requires above { slice_index above.now place < length numbers.now }
    ensures { result ≡ slice_index numbers.now (slice_index above.now place) }
{
    numbers[above[place]]
}

/// What is kept beside the file at a place, where all are a tree and their names are counted.
fn links_of(place: usize, numbers: &[u32], inodes: &[(u32, Inode)], counts: &Counts) -> Links
    requires inside { place < length inodes.now }
    requires numbers { numbers.now ≡ numbers_of inodes.now }
    requires rising { AreRising numbers.now }
    requires few { entries_among (files_in inodes.now) ≤ max_entries }
    requires tree { AreTree inodes.now }
    requires counted { IsCount (files_in inodes.now) counts.now.names.items counts.now.above.items }
    ensures { (fsid next : ℕ) (n : FileNumber) (f : File) → IsAt (files_in inodes.now) place n f →
        IsLinks (files_of fsid next inodes.now) n f.body result }
{
    match &inodes[place].1.body {
        Body::Directory { listing, .. } => Links {
            nlink: 2 + count_subdirectories(listing, numbers, inodes) as u32,
            parent: number_above(place, numbers, &counts.above),
        },
        Body::Regular(_) | Body::Symlink(_) => Links {
            nlink: counts.names[place] as u32,
            parent: 1,
        },
    }
}

/// Keeps these beside a file.
fn link(inode: &mut Inode, links: Links)
    ensures file { file_in inode.new ≡ file_in inode.old }
    ensures nlink { inode.new.nlink ≡ links.nlink }
    ensures parent { is_directory (body_in inode.old.body) ≡ true → parent_in inode.new.body ≡ links.parent }
{
    inode.nlink = links.nlink;
    inode.set_parent(links.parent);
}

/// Keeps beside each file what counting gives, where all are a tree and their names are counted.
fn link_all(numbers: &[u32], counts: &Counts, inodes: &mut [(u32, Inode)])
    requires numbers { numbers.now ≡ numbers_of inodes.old }
    requires rising { AreRising numbers.now }
    requires few { entries_among (files_in inodes.old) ≤ max_entries }
    requires tree { AreTree inodes.old }
    requires counted { IsCount (files_in inodes.old) counts.now.names.items counts.now.above.items }
    ensures files { files_in inodes.new ≡ files_in inodes.old }
    ensures linked { (fsid next : ℕ) → AreLinked (files_of fsid next inodes.new) inodes.new }
{
    for place in 0..inodes.len() {
        let links = links_of(place, numbers, inodes, counts);
        link(&mut inodes[place].1, links);
    }
}

/// Keeps beside each file of a tree what counting over all files gives: its `nlink`, and of a directory the
/// number of the one above. What the inodes kept before is not looked at. The numbers rise, and there are at
/// most 16,384 entries in all. Where memory is refused nothing changes.
pub fn set_links(alloc: Global, inodes: &mut [(u32, Inode)]) -> Result<(), AllocError>
    requires rising { AreRising (numbers_of inodes.old) }
    requires few { entries_among (files_in inodes.old) ≤ max_entries }
    requires tree { AreTree inodes.old }
    ensures files { files_in inodes.new ≡ files_in inodes.old }
    ensures linked { OnOk result ((fsid next : ℕ) → AreLinked (files_of fsid next inodes.new) inodes.new) }
    ensures err { OnErr result (inodes.new ≡ inodes.old) }
{
    let numbers = numbers_in(alloc, inodes)?;
    let counts = count_names(alloc, &numbers, inodes)?.unwrap();
    link_all(&numbers, &counts, inodes);
    Ok(())
}
