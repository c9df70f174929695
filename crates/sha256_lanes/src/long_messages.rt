//! Digests of messages of many blocks.

ghost use Rattle.std.specs.Prelude.{◌≡◌, ℕ, ◌<◌, ◌≤◌, List, [], ◌++◌, slice_index_or};
ghost use Rattle.sha2.specs.Sha256.{sha256};
ghost use Rattle.sha256_lanes.specs.LongMessages.{HoldsBlocks};

use crate::blocks::{digest, last_block, words_of};
use crate::lanes::{hash_values, initial_hashes};

/// Four messages of one length, which are taken in side by side: a block of 64 bytes of each at a time, and
/// at the end up to 55 bytes that are left of each.
#[derive(Drop)]
pub struct FourMessages {
    hashes: [u32; 32],
    length: u64,
}

impl FourMessages {
    /// Four empty messages.
    pub fn new() -> FourMessages
        ensures { (l : ℕ) → l < 4 → HoldsBlocks result l [] }
    {
        FourMessages {
            hashes: initial_hashes(),
            length: 0,
        }
    }

    /// Appends a block to each message. Takes no memory.
    pub fn update(&mut self, blocks: &[[u8; 64]; 4])
        ensures { (l : ℕ) (m : List ℕ) → l < 4 → HoldsBlocks self.old l m →
            HoldsBlocks self.new l (m ++ slice_index_or blocks.now l []) }
    {
        self.hashes = hash_values(&self.hashes, &words_of(blocks));
        self.length = self.length.wrapping_add(64);
    }

    /// The SHA-256 digests of the four messages, with what is left of each: at most 55 bytes. Each digest
    /// stands in the place of its message. Takes no memory.
    pub fn finalize<const N: usize>(self, rest: &[[u8; N]; 4]) -> [[u8; 32]; 4]
        requires { N ≤ 55 }
        ensures { (l : ℕ) (m : List ℕ) → l < 4 → HoldsBlocks self l m →
            slice_index_or result l [] ≡ sha256 (m ++ slice_index_or rest.now l []) }
    {
        let bits = self.length.wrapping_add(N as u64).wrapping_mul(8);
        let words = words_of(&[
            last_block(&rest[0], bits),
            last_block(&rest[1], bits),
            last_block(&rest[2], bits),
            last_block(&rest[3], bits),
        ]);
        let hashes = hash_values(&self.hashes, &words);
        [
            digest(&hashes, 0),
            digest(&hashes, 1),
            digest(&hashes, 2),
            digest(&hashes, 3),
        ]
    }
}
