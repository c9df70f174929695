//! From a message to its block's words (FIPS 180-4, 5.1.1 and 5.2.1), and from a hash value to its bytes.

ghost use Rattle.std.specs.Prelude.{◌≡◌, ℕ, ◌+◌, ◌-◌, ◌*◌, ◌≤◌, ◌<◌, List, [], ◌∷◌, ◌++◌, length};
ghost use Rattle.std.specs.Prelude.{replicate, take, drop, slice_index_or};
ghost use Rattle.std.specs.Int.{w64, to_be_bytes};
ghost use Rattle.sha2.specs.Sha256.{digest_bytes, word_at};
ghost use Rattle.sha256_lanes.specs.Lanes.{IsBlockOf, IsHashOf, KeepsOthers};

/// The last block of a message: up to 55 bytes that are left of it, a bit 1, zeros, and the length of the
/// whole message in bits.
pub(crate) fn last_block<const N: usize>(rest: &[u8; N], bits: u64) -> [u8; 64]
    requires { N ≤ 55 }
    ensures { result ≡ rest.now ++ (0x80 ∷ replicate (55 - N) 0 ++ to_be_bytes w64 bits) }
{
    let mut block = [0u8; 64];
    block[..N].copy_from_slice(rest);
    block[N] = 0x80;
    block[56..].copy_from_slice(&bits.to_be_bytes());
    block
}

/// The word at a byte of a block, high byte first.
fn word_at(block: &[u8], at: usize) -> u32
    requires { at + 4 ≤ length block.now }
    ensures { result ≡ word_at block.now at }
{
    u32::from_be_bytes([block[at], block[at + 1], block[at + 2], block[at + 3]])
}

/// The words of four blocks, each in its lane.
pub(crate) fn words_of(blocks: &[[u8; 64]; 4]) -> [u32; 64]
    ensures { (l : ℕ) → l < 4 → IsBlockOf (slice_index_or blocks.now l []) result l }
{
    let mut words = [0u32; 64];
    'lanes: for l in 0..4 {
        set_block(&mut words, l, &blocks[l]);
    }
    words
}

/// The words of four blocks that follow one another, each in its lane.
pub(crate) fn words_of_blocks(blocks: &[u8; 256]) -> [u32; 64]
    ensures { (l : ℕ) → l < 4 → IsBlockOf (take 64 (drop (l * 64) blocks.now)) result l }
{
    let mut words = [0u32; 64];
    'lanes: for l in 0..4 {
        set_block(&mut words, l, &blocks[64 * l..64 * l + 64]);
    }
    words
}

/// Sets the words of a lane to those of a block.
fn set_block(words: &mut [u32; 64], l: usize, block: &[u8])
    requires lane { l < 4 }
    requires block { length block.now ≡ 64 }
    ensures set { IsBlockOf block.now words.new l }
    ensures others { KeepsOthers l words.old words.new }
{
    'words: for i in 0..16 {
        words[4 * i + l] = word_at(block, 4 * i);
    }
}

/// The bytes of a hash value, of each word the high byte first.
pub(crate) fn digest_of(hash: &[u32; 8]) -> [u8; 32]
    ensures { result ≡ digest_bytes hash.now 8 }
{
    let mut bytes = [0u8; 32];
    'words: for i in 0..8 {
        bytes[4 * i..4 * i + 4].copy_from_slice(&hash[i].to_be_bytes());
    }
    bytes
}

/// The bytes of a lane's hash value, of each word the high byte first.
pub(crate) fn digest(hashes: &[u32; 32], l: usize) -> [u8; 32]
    requires { l < 4 }
    ensures { (h : List ℕ) → IsHashOf h hashes.now l → result ≡ digest_bytes h 8 }
{
    let mut bytes = [0u8; 32];
    'words: for i in 0..8 {
        bytes[4 * i..4 * i + 4].copy_from_slice(&hashes[4 * i + l].to_be_bytes());
    }
    bytes
}
