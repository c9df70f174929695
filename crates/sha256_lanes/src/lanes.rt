//! Four messages side by side: word i of lane l stands at place 4 * i + l.

ghost use Rattle.std.specs.Prelude.{◌≡◌, ℕ, ◌+◌, ◌*◌, ◌<◌, List, length, slice_index};
ghost use Rattle.sha2.specs.Sha256.{compress, initial_hash_256};
ghost use Rattle.sha256_lanes.specs.Lanes.{IsBlockOf, IsHashOf, KeepsOthers};

use crate::constants::INITIAL_HASH;
use crate::rounds::hash_value;

/// The block's words of a lane, in the first sixteen places of a schedule.
#[inline(always)]
pub(crate) fn block_words(words: &[u32; 64], l: usize) -> [u32; 64]
    requires { l < 4 }
    ensures { (k : ℕ) → k < 16 → slice_index result k ≡ slice_index words.now (4 * k + l) }
{
    let mut own = [0u32; 64];
    'words: for i in 0..16 {
        own[i] = words[4 * i + l];
    }
    own
}

/// The hash value of a lane.
#[inline(always)]
fn lane_hash(hashes: &[u32; 32], l: usize) -> [u32; 8]
    requires { l < 4 }
    ensures { IsHashOf result hashes.now l }
{
    let mut own = [0u32; 8];
    'words: for i in 0..8 {
        own[i] = hashes[4 * i + l];
    }
    own
}

/// Sets a lane's hash value.
#[inline(always)]
fn set_hash(hashes: &mut [u32; 32], l: usize, hash: [u32; 8])
    requires { l < 4 }
    ensures set { IsHashOf hash hashes.new l }
    ensures others { KeepsOthers l hashes.old hashes.new }
{
    'words: for i in 0..8 {
        hashes[4 * i + l] = hash[i];
    }
}

/// The initial hash value in each lane.
pub(crate) fn initial_hashes() -> [u32; 32]
    ensures { (l : ℕ) → l < 4 → IsHashOf initial_hash_256 result l }
{
    let mut hashes = [0u32; 32];
    'lanes: for l in 0..4 {
        set_hash(&mut hashes, l, INITIAL_HASH);
    }
    hashes
}

/// The hash values of four messages after a block of each, from those before it and the blocks' words. The
/// loop is over the lanes, and what stands in it has no other: so it runs on vectors.
#[inline(never)]
pub(crate) fn hash_values(before: &[u32; 32], words: &[u32; 64]) -> [u32; 32]
    ensures { (l : ℕ) (h b : List ℕ) → l < 4 → length h ≡ 8 → IsHashOf h before.now l
        → IsBlockOf b words.now l
        → IsHashOf (compress h b) result l }
{
    let mut hashes = [0u32; 32];
    'lanes: for l in 0..4 {
        let hash = hash_value(lane_hash(before, l), block_words(words, l));
        set_hash(&mut hashes, l, hash);
    }
    hashes
}
