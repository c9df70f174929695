//! The hashes of a tree's leaves: by fours, in one thread or in up to four.

ghost use Rattle.std.specs.Prelude.{◌≡◌, ◌+◌, ◌*◌, ◌/◌, ◌^◌, ◌<◌, ◌≤◌, ℕ, IfOk, [], length, slice_index_or};
ghost use Rattle.lamport.specs.Lamport.{leaf_hash, public_hash};
ghost use Rattle.merkle_keys.specs.Tree.{leaf_key};
ghost use Rattle.merkle_keys.specs.StoredTree.{HoldsFirst, HoldsLeaves};

use crate::signature::MAX_HEIGHT;
use lamport::LeafKeys;
use std::alloc::{AllocError, Global};
use std::thread;
use std::thread::Threads;

/// The most threads that make the leaves of a tree.
const MAX_THREADS: usize = 4;

/// The leaves' hashes, with room for those above them.
pub(crate) fn leaf_hashes(
    alloc: Global,
    keys: &LeafKeys,
    leaves: u32,
) -> Result<Vec<[u8; 32]>, AllocError>
    requires few { leaves ≤ 2 ^ MAX_HEIGHT }
    ensures { IfOk result (λ v. HoldsLeaves keys.now.master leaves v.items) }
{
    let mut hashes = Vec::with_capacity(alloc, 2 * leaves as usize)?;
    hashes.resize(leaves as usize, [0u8; 32])?;
    set_leaves(keys, 0, &mut hashes);
    Ok(hashes)
}

/// The leaves' hashes, as `leaf_hashes` gives them, made by up to four threads.
pub(crate) fn leaf_hashes_by<R: Threads + Sync>(
    rt: &R,
    alloc: Global,
    keys: &LeafKeys,
    leaves: u32,
) -> Result<Vec<[u8; 32]>, AllocError>
    requires few { leaves ≤ 2 ^ MAX_HEIGHT }
    ensures { IfOk result (λ v. HoldsLeaves keys.now.master leaves v.items) }
{
    let mut hashes = Vec::with_capacity(alloc, 2 * leaves as usize)?;
    hashes.resize(leaves as usize, [0u8; 32])?;
    set_leaves_by(rt, keys, &mut hashes);
    Ok(hashes)
}

/// Sets the leaves' hashes, each thread its share of them.
fn set_leaves_by<R: Threads + Sync>(rt: &R, keys: &LeafKeys, hashes: &mut [[u8; 32]])
    requires { length hashes.old ≤ 2 ^ MAX_HEIGHT }
    ensures { (k : ℕ) → k < length hashes.old →
        slice_index_or hashes.new k [] ≡ leaf_hash (public_hash (leaf_key keys.now.master k)) }
{
    let share = share(hashes.len(), thread_count(rt));
    thread::for_each_chunk_mut(
        rt,
        hashes,
        share,
        &|first, part| { set_leaves(keys, first, part) },
    );
}

/// How many leaves each thread makes: whole fours, so that all but the last have none left.
fn share(leaves: usize, threads: usize) -> usize
    requires few { leaves ≤ 2 ^ MAX_HEIGHT }
    requires threads { (1 ≤ threads) × (threads ≤ MAX_THREADS) }
    ensures { 1 ≤ result }
{
    4 * leaves.div_ceil(4 * threads).max(1)
}

/// As many threads as there are processors, up to four; one where that isn't known.
fn thread_count(rt: &impl Threads) -> usize
    ensures { (1 ≤ result) × (result ≤ MAX_THREADS) }
{
    match thread::available_parallelism(rt) {
        Ok(count) => count.get().min(MAX_THREADS),
        Err(_) => 1,
    }
}

/// Sets the hashes of the leaves from `first` on: by fours, and of up to three that are left one by one.
fn set_leaves(keys: &LeafKeys, first: usize, hashes: &mut [[u8; 32]])
    requires { first + length hashes.old ≤ 2 ^ MAX_HEIGHT }
    ensures { HoldsFirst keys.now.master first (length hashes.old) hashes.new }
{
    set_fours(keys, first, hashes);
    set_rest(keys, first, hashes);
}

/// Sets the hashes of all whole fours of leaves.
fn set_fours(keys: &LeafKeys, first: usize, hashes: &mut [[u8; 32]])
    requires { first + length hashes.old ≤ 2 ^ MAX_HEIGHT }
    ensures { HoldsFirst keys.now.master first (4 * (length hashes.old / 4)) hashes.new }
{
    for four in 0..hashes.len() / 4 {
        set_four(keys, first, hashes, 4 * four);
    }
}

/// Sets the hashes of four leaves, those before which are set.
fn set_four(keys: &LeafKeys, first: usize, hashes: &mut [[u8; 32]], at: usize)
    requires few { first + length hashes.old ≤ 2 ^ MAX_HEIGHT }
    requires within { at + 4 ≤ length hashes.old }
    requires before { HoldsFirst keys.now.master first at hashes.old }
    ensures { HoldsFirst keys.now.master first (at + 4) hashes.new }
{
    let [a, b, c, d] = keys.four_leaf_hashes((first + at) as u32);
    hashes[at] = a;
    hashes[at + 1] = b;
    hashes[at + 2] = c;
    hashes[at + 3] = d;
}

/// Sets the hashes of the leaves after the last whole four.
fn set_rest(keys: &LeafKeys, first: usize, hashes: &mut [[u8; 32]])
    requires few { first + length hashes.old ≤ 2 ^ MAX_HEIGHT }
    requires before { HoldsFirst keys.now.master first (4 * (length hashes.old / 4)) hashes.old }
    ensures { HoldsFirst keys.now.master first (length hashes.old) hashes.new }
{
    for place in hashes.len() / 4 * 4..hashes.len() {
        hashes[place] = keys.leaf_hash((first + place) as u32);
    }
}
