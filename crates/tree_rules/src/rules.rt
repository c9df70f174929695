//! The rules of a tree.

ghost use Rattle.std.specs.Prelude.{◌≡◌, ◌≤◌, ◌==◌, ◌↔◌, ℕ, length, IsTrue, IfOk, MatchBool, nat_lt};
ghost use Rattle.std.specs.Prelude.{if◌then◌else◌};
ghost use Rattle.nfs_laws.specs.fs_spec.Maxima.{max_entries};
ghost use Rattle.nfs_laws.specs.fs_spec.Files.{is_directory};
ghost use Rattle.nfs_laws.specs.fs_spec.Trees.{IsFileTree};
ghost use Rattle.tree_rules.specs.FileRules.Rules.{AreFiles, AreRising, HaveNames, may_have, numbers_of};
ghost use Rattle.inodes.specs.Inodes.{body_in, files_of};
ghost use Rattle.tree_rules.specs.Listed.{entries_among, files_in};

use crate::climb::leads_up;
use crate::names::{count_names, numbers_in};
use inodes::{Body, Inode};
use std::alloc::{AllocError, Global};

/// Whether a place may have so many names: the root, which is a directory, none; another directory one; a
/// file or symbolic link at least one.
fn may_have(place: usize, body: &Body, names: usize) -> bool
    ensures { result ≡ may_have place (is_directory (body_in body.now)) names }
{
    match body {
        Body::Directory { .. } => { if place == 0 { names == 0 } else { names == 1 } }
        Body::Regular(_) | Body::Symlink(_) => { if place == 0 { false } else { 0 < names } }
    }
}

/// Whether each place has names as it may.
fn have_names(inodes: &[(u32, Inode)], names: &[usize]) -> bool
    requires { length names.now ≡ length inodes.now }
    ensures { MatchBool result (HaveNames (files_in inodes.now) names.now)
        (HaveNames (files_in inodes.now) names.now → ⊥) }
{
    for place in 0..inodes.len() {
        if !may_have(place, &inodes[place].1.body, names[place]) {
            return false;
        }
    }
    true
}

/// Whether files, each of which is one by itself, are a tree: the first is the root, a directory with no
/// name; every other directory has one name, and every other file at least one; each name stands for one of
/// them; and each is below the root. The numbers rise, and there are at most 16,384 entries in all. What the
/// inodes keep beside their files (`nlink`, `parent`) is not looked at.
pub fn is_tree(alloc: Global, inodes: &[(u32, Inode)]) -> Result<bool, AllocError>
    requires rising { AreRising (numbers_of inodes.now) }
    requires few { entries_among (files_in inodes.now) ≤ max_entries }
    ensures { (fsid next : ℕ) → AreFiles next (files_in inodes.now) →
        IfOk result (λ is. IsTrue is ↔ IsFileTree (files_of fsid next inodes.now)) }
{
    if inodes.is_empty() {
        return Ok(false);
    }
    if inodes[0].0 != 1 {
        return Ok(false);
    }
    let numbers = numbers_in(alloc, inodes)?;
    let Some(counts) = count_names(alloc, &numbers, inodes)? else {
        return Ok(false);
    };
    if !have_names(inodes, &counts.names) {
        return Ok(false);
    }
    leads_up(alloc, &counts.above)
}
