//! The hashes of four leaves at a time: their secrets, public hashes and texts stand side by side.

ghost use Rattle.std.specs.Prelude.{◌≡◌, ℕ, ◌+◌, ◌^◌, ◌<◌, ◌≤◌, List, [], ◌∷◌, ◌++◌, slice_index};
ghost use Rattle.std.specs.Prelude.{slice_index_or};
ghost use Rattle.sha2.specs.Sha256.{sha256};
ghost use Rattle.lamport.specs.Fours.{four};
ghost use Rattle.lamport.specs.Lamport.{LeafKey, leaf_hash, public_hash, secret};
ghost use Rattle.lamport.specs.LeafTexts.{HoldsText};

use crate::key::PLACES;
use crate::secrets::secret_text;
use sha256_lanes::{FourMessages, digest_4};

/// The texts of four leaves, as far as they are made. Each begins with a byte before its first place, so that
/// it has whole blocks and one byte after them.
#[derive(Drop)]
struct LeafTexts {
    blocks: FourMessages,
    last: [u8; 4],
}

impl LeafTexts {
    /// The texts before their first place: the byte 0.
    fn new() -> LeafTexts
        ensures { (l : ℕ) → l < 4 → HoldsText result l (0 ∷ []) }
    {
        LeafTexts {
            blocks: FourMessages::new(),
            last: [0; 4],
        }
    }

    /// Adds both public hashes of a place to each text, value 0 before 1.
    fn add_place(&mut self, zeros: &[[u8; 32]; 4], ones: &[[u8; 32]; 4])
        ensures { (l : ℕ) (m : List ℕ) → l < 4 → HoldsText self.old l m →
            HoldsText self.new l (m ++ (slice_index_or zeros.now l [] ++ slice_index_or ones.now l [])) }
    {
        let blocks = [
            next_block(self.last[0], &zeros[0], &ones[0]),
            next_block(self.last[1], &zeros[1], &ones[1]),
            next_block(self.last[2], &zeros[2], &ones[2]),
            next_block(self.last[3], &zeros[3], &ones[3]),
        ];
        self.blocks.update(&blocks);
        self.last = [ones[0][31], ones[1][31], ones[2][31], ones[3][31]];
    }

    /// The digests of the texts.
    fn finalize(self) -> [[u8; 32]; 4]
        ensures { (l : ℕ) (m : List ℕ) → l < 4 → HoldsText self l m → slice_index_or result l [] ≡ sha256 m }
    {
        let [a, b, c, d] = self.last;
        self.blocks.finalize(&[[a], [b], [c], [d]])
    }
}

/// The next block of a text whose last byte isn't in a block yet. The last byte of the second hash is left.
fn next_block(last: u8, zero: &[u8; 32], one: &[u8; 32]) -> [u8; 64]
    ensures { result ++ slice_index one.now 31 ∷ [] ≡ last ∷ zero.now ++ one.now }
{
    let mut block = [last; 64];
    block[1..33].copy_from_slice(zero);
    block[33..].copy_from_slice(&one[..31]);
    block
}

/// The secrets of a place and bit value, of four leaves from `first` on.
fn secrets(master: &[u8; 32], first: u32, place: u32, bit: bool) -> [[u8; 32]; 4]
    requires { first + 4 ≤ 2 ^ 32 }
    ensures { result ≡ four (λ leaf. secret (record { master = master.now; leaf = leaf }) place bit) first }
{
    digest_4(&[
        secret_text(master, first, place, bit),
        secret_text(master, first + 1, place, bit),
        secret_text(master, first + 2, place, bit),
        secret_text(master, first + 3, place, bit),
    ])
}

/// The public hashes of a place and bit value, of four leaves from `first` on.
fn public_hashes(master: &[u8; 32], first: u32, place: u32, bit: bool) -> [[u8; 32]; 4]
    requires { first + 4 ≤ 2 ^ 32 }
    ensures { result ≡ four (λ leaf. public_hash (record { master = master.now; leaf = leaf }) place bit)
        first }
{
    digest_4(&secrets(master, first, place, bit))
}

/// The hashes of four leaves from `first` on.
pub(crate) fn leaf_hashes(master: &[u8; 32], first: u32) -> [[u8; 32]; 4]
    requires { first + 4 ≤ 2 ^ 32 }
    ensures { result ≡ four (λ leaf. leaf_hash (public_hash (record { master = master.now; leaf = leaf })))
        first }
{
    let mut texts = LeafTexts::new();
    for place in 0..PLACES {
        let zeros = public_hashes(master, first, place, false);
        let ones = public_hashes(master, first, place, true);
        texts.add_place(&zeros, &ones);
    }
    texts.finalize()
}
