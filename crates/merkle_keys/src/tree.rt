//! The hashes of a tree.

ghost use Rattle.std.specs.Prelude.{◌≡◌, ◌+◌, ◌-◌, ◌*◌, ◌^◌, ◌<◌, ◌≤◌, List, ℕ, IfOk, OnOk, vec_len};
ghost use Rattle.merkle_keys.specs.Tree.{inner_hash, sibling, parent_hash, path_end};
ghost use Rattle.merkle_keys.specs.StoredTree.{HoldsLeaves, HoldsTree};

use crate::leaves::{leaf_hashes, leaf_hashes_by};
use crate::signature::MAX_HEIGHT;
use lamport::LeafKeys;
use sha2::{Digest, Sha256};
use std::alloc::{AllocError, Global};
use std::thread::Threads;

/// The number of leaves of a tree.
pub(crate) fn leaf_count(height: u32) -> u32
    requires { height ≤ MAX_HEIGHT }
    ensures leaves { result ≡ 2 ^ height }
    ensures some { 1 ≤ result }
    ensures few { result ≤ 2 ^ MAX_HEIGHT }
{
    1 << height
}

/// The digest of the byte 1, the left and the right hash.
#[tactic(auto, unfolding(crate::specs::Tree::inner_hash))]
pub(crate) fn inner_hash(left: &[u8; 32], right: &[u8; 32]) -> [u8; 32]
    ensures { result ≡ inner_hash left.now right.now }
{
    let mut text = Sha256::new();
    text.update([1u8]);
    text.update(left);
    text.update(right);
    text.finalize()
}

/// The place that shares its parent with this one.
#[tactic(auto, unfolding(crate::specs::Tree::sibling))]
pub(crate) fn sibling(place: usize) -> usize
    requires { place < 2 ^ MAX_HEIGHT }
    ensures { result ≡ sibling place }
{
    if place % 2 == 0 { place + 1 } else { place - 1 }
}

/// Where a path leads from a leaf's hash.
pub(crate) fn path_end(leaf: u32, start: [u8; 32], path: &[[u8; 32]]) -> [u8; 32]
    ensures { result ≡ path_end leaf start path.now }
{
    let mut place = leaf;
    let mut own = start;
    for other in path {
        own = parent_hash(place, &own, other);
        place /= 2;
    }
    own
}

/// The hash over a place's own and its sibling's.
#[tactic(auto, unfolding(crate::specs::Tree::parent_hash))]
fn parent_hash(place: u32, own: &[u8; 32], other: &[u8; 32]) -> [u8; 32]
    ensures { result ≡ parent_hash place own.now other.now }
{
    if place % 2 == 0 {
        inner_hash(own, other)
    } else {
        inner_hash(other, own)
    }
}

/// All hashes of a tree with so many leaves, level after level, the leaves first.
pub(crate) fn tree_hashes(
    alloc: Global,
    keys: &LeafKeys,
    leaves: u32,
) -> Result<Vec<[u8; 32]>, AllocError>
    requires some { 1 ≤ leaves }
    requires few { leaves ≤ 2 ^ MAX_HEIGHT }
    ensures { IfOk result (λ v. HoldsTree keys.now.master leaves (leaves - 1) v.items) }
{
    let mut hashes = leaf_hashes(alloc, keys, leaves)?;
    add_inner_hashes(&mut hashes, leaves as usize)?;
    Ok(hashes)
}

/// All hashes of a tree, as `tree_hashes` gives them, with its leaves made by up to four threads.
pub(crate) fn tree_hashes_by<R: Threads + Sync>(
    rt: &R,
    alloc: Global,
    keys: &LeafKeys,
    leaves: u32,
) -> Result<Vec<[u8; 32]>, AllocError>
    requires some { 1 ≤ leaves }
    requires few { leaves ≤ 2 ^ MAX_HEIGHT }
    ensures { IfOk result (λ v. HoldsTree keys.now.master leaves (leaves - 1) v.items) }
{
    let mut hashes = leaf_hashes_by(rt, alloc, keys, leaves)?;
    add_inner_hashes(&mut hashes, leaves as usize)?;
    Ok(hashes)
}

/// Adds the inner hashes after the leaves': the n-th of them is over the hashes 2n and 2n + 1 of all.
fn add_inner_hashes(hashes: &mut Vec<[u8; 32]>, leaves: usize) -> Result<(), AllocError>
    requires some { 1 ≤ leaves }
    requires few { leaves ≤ 2 ^ MAX_HEIGHT }
    requires leaves { vec_len hashes.old ≡ leaves }
    ensures { OnOk result ((master : List ℕ) → HoldsLeaves master leaves hashes.old.items →
        HoldsTree master leaves (leaves - 1) hashes.new.items) }
{
    for n in 0..leaves - 1 {
        let hash = inner_hash(&hashes[2 * n], &hashes[2 * n + 1]);
        hashes.push(hash)?;
    }
    Ok(())
}
