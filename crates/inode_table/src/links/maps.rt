//! Inodes by their numbers.

ghost use Rattle.std.specs.Prelude.{◌≡◌, ◌<◌, ◌≤◌, ◌∷◌, ℕ, IfOk, OnOk, Some, slice_get};
ghost use Rattle.fs_spec.specs.nfs_items.Terms.{FileNumber};
ghost use Rattle.fs_spec.specs.Maxima.{max_entries};
ghost use Rattle.nfs_count_laws.specs.Counted.{AreCounted};
ghost use Rattle.tree_rules.specs.FileRules.Rules.{AreRising, numbers_of};
ghost use Rattle.tree_rules.specs.inodes.Inodes.{files_of, above_at, links_at};
ghost use Rattle.tree_rules.specs.inodes.declared.inode.Inode as stored;
ghost use Rattle.tree_rules.specs.Listed.{AreTree, entries_among, files_in};

use crate::links::links::set_links;
use std::alloc::{AllocError, Global};
use std::collections::BTreeMap;
use tree_rules::Inode;

/// Puts an inode first in a map, under a number below the first there is.
fn put_first(map: &mut BTreeMap<u32, Inode>, number: u32, inode: Inode) -> Result<(), AllocError>
    requires { (e : FileNumber × stored.Inode) → slice_get map.old.entries 0 ≡ Some e → number < e.0 }
    ensures { OnOk result (map.new.entries ≡ (number, inode) ∷ map.old.entries) }
{
    map.insert(number, inode)?;
    Ok(())
}

/// A map of inodes whose numbers rise.
fn by_number(
    alloc: Global,
    mut inodes: Vec<(u32, Inode)>,
) -> Result<BTreeMap<u32, Inode>, AllocError>
    requires { AreRising (numbers_of inodes.items) }
    ensures { IfOk result (λ map. map.entries ≡ inodes.items) }
{
    let mut map = BTreeMap::new(alloc);
    while let Some((number, inode)) = inodes.pop() {
        put_first(&mut map, number, inode)?;
    }
    Ok(map)
}

/// The inodes of a tree under their numbers. Beside each file stands what counting over all files gives: its
/// `nlink`, and of a directory the number of the one above; what the inodes kept before is not looked at. The
/// numbers rise, and there are at most 16,384 entries in all.
pub fn linked_inodes(
    alloc: Global,
    mut inodes: Vec<(u32, Inode)>,
) -> Result<BTreeMap<u32, Inode>, AllocError>
    requires rising { AreRising (numbers_of inodes.items) }
    requires few { entries_among (files_in inodes.items) ≤ max_entries }
    requires tree { AreTree inodes.items }
    ensures files { IfOk result (λ map. (fsid next : ℕ) →
        files_of fsid next map.entries ≡ files_of fsid next inodes.items) }
    ensures counted { IfOk result (λ map. (fsid next : ℕ) →
        AreCounted (files_of fsid next map.entries) (links_at map.entries) (above_at map.entries)) }
{
    set_links(alloc, &mut inodes)?;
    by_number(alloc, inodes)
}
