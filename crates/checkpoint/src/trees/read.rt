//! Trees from the parts of their files.

ghost use Rattle.std.specs.Prelude.{◌≡◌, ◌<◌, ◌^◌, ◌↔◌, ℕ, IfOk, IsTrue, MatchOption};
ghost use Rattle.std.specs.List.{All};
ghost use Rattle.nfs_laws.specs.fs_spec.Trees.{IsFileTree};
ghost use Rattle.nfs_laws.specs.fs_spec.Changes.Limits.{has_room};
ghost use Rattle.nfs_laws.specs.Sizes.Bounds.{HasWords};
ghost use Rattle.file_tree.specs.tree_rules.FileRules.Rules.{AreFiles, files_listed};
ghost use Rattle.inodes.specs.Inodes.{file_in, files_of};
ghost use Rattle.file_tree.specs.tree_rules.Listed.{files_in};
ghost use Rattle.state_machine.specs.file_texts.Bounds.{IsWritable};
ghost use Rattle.state_machine.specs.file_texts.Parts.{body_of, files_given};
ghost use Rattle.checkpoint.specs.Trees.ServedTrees.{IsServedTree};

use file_tree::{Tree, is_tree, total_usage};
use inodes::Inode;
use state_machine::{FilePart, inodes_of};
use std::alloc::{AllocError, Global};

/// The tree of a server's files, for the server of a number. None exactly where the files are no tree within
/// all limits.
pub fn tree_of(
    alloc: Global,
    node: u32,
    next: u32,
    parts: &[FilePart],
) -> Result<Option<Tree>, AllocError>
    requires { All (λ part. IsWritable (body_of part.body)) parts.now }
    ensures { IfOk result (λ tree. MatchOption tree (IsServedTree node next (files_given parts.now) → ⊥)
        (λ t. (t.files ≡ files_listed node next (files_given parts.now))
        × IsServedTree node next (files_given parts.now))) }
{
    let Some(inodes) = inodes_of(alloc, next, parts)? else {
        return Ok(None);
    };
    if !are_served(alloc, &inodes)? {
        return Ok(None);
    }
    have_words(&inodes);
    let tree = Tree::of_inodes(alloc, node, next, inodes)?;
    Ok(Some(tree))
}

/// Whether files, each of which is one by itself, are a tree within all limits.
fn are_served(alloc: Global, inodes: &[(u32, Inode)]) -> Result<bool, AllocError>
    requires { (next : ℕ) × AreFiles next (files_in inodes.now) }
    ensures { (node next : ℕ) → next < 2 ^ 32 → AreFiles next (files_in inodes.now) →
        IfOk result (λ are. IsTrue are ↔
        (IsFileTree (files_of node next inodes.now) × IsTrue (has_room (files_of node next inodes.now)))) }
{
    match total_usage(inodes) {
        Some(_) => is_tree(alloc, inodes),
        None => Ok(false),
    }
}

/// Owner, group and seconds of an inode are words: does nothing, and tells a caller's proof.
fn has_words(inode: &Inode)
    ensures { HasWords (file_in inode.now) }
{
    let _uid = inode.uid;
    let _gid = inode.gid;
    let _atime = inode.atime.seconds();
    let _mtime = inode.mtime.seconds();
    let _ctime = inode.ctime.seconds();
}

/// The same of many.
fn have_words(inodes: &[(u32, Inode)])
    ensures { All (λ e. HasWords (file_in e.1)) inodes.now }
{
    for (_, inode) in inodes {
        has_words(inode);
    }
}
