//! What a signature shows of its key: the public hashes, and by them the hash of the key's leaf.

ghost use Rattle.std.specs.Prelude.{◌≡◌, ℕ, ◌+◌, ◌*◌, ◌<◌, ◌≤◌, Bool, false, true, List, [], ◌∷◌, ◌++◌};
ghost use Rattle.std.specs.Prelude.{length, if◌then◌else◌, slice_index_or};
ghost use Rattle.sha2.specs.Sha256.{sha256};
ghost use Rattle.sha256_lanes.specs.OneMessage.{HoldsMessage};
ghost use Rattle.lamport.specs.Fours.{four, four_bits};
ghost use Rattle.lamport.specs.Lamport.{digest_bit, end_to_end, leaf_hash, shown_hash, piece};

use crate::key::{PLACES, TEXT_SIZE};
use sha256_lanes::{OneMessage, digest_row};

/// The bit of a digest at a place: place 0 is the highest bit of the first byte.
pub(crate) fn digest_bit(digest: &[u8; 32], place: u32) -> bool
    requires { place < PLACES }
    ensures { result ≡ digest_bit digest.now place }
{
    let byte = digest[(place / 8) as usize];
    (byte >> (7 - place % 8)) & 1 == 1
}

/// The bits of a digest at four places from `first` on.
pub(crate) fn four_digest_bits(digest: &[u8; 32], first: u32) -> [bool; 4]
    requires { first + 4 ≤ PLACES }
    ensures { result ≡ four_bits (digest_bit digest.now) first }
{
    [
        digest_bit(digest, first),
        digest_bit(digest, first + 1),
        digest_bit(digest, first + 2),
        digest_bit(digest, first + 3),
    ]
}

/// The 32 bytes at a place.
#[tactic(auto, unfolding(crate::specs::Lamport::piece))]
fn piece(bytes: &[u8], place: usize) -> &[u8]
    requires { 32 * place + 32 ≤ length bytes.now }
    ensures size { length result.now ≡ 32 }
    ensures bytes { result.now ≡ piece bytes.now place }
{
    &bytes[32 * place..32 * place + 32]
}

/// The digest of the 32 bytes at each place.
fn piece_hashes(bytes: &[u8]) -> [[u8; 32]; 256]
    requires { length bytes.now ≡ TEXT_SIZE }
    ensures { (place : ℕ) → place < PLACES →
        slice_index_or result place [] ≡ sha256 (piece bytes.now place) }
{
    let (pieces, _) = bytes.as_chunks::<32>();
    let mut hashes = [[0u8; 32]; 256];
    digest_row(pieces, &mut hashes);
    hashes
}

/// Adds the public hashes of four places to a leaf's text, of each place value 0 before 1.
pub(crate) fn add_four_pairs(text: &mut OneMessage, zeros: &[[u8; 32]; 4], ones: &[[u8; 32]; 4])
    ensures { (hash : ℕ → Bool → List ℕ) (n : ℕ) →
        zeros.now ≡ four (λ place. hash place false) n → ones.now ≡ four (λ place. hash place true) n →
        HoldsMessage text.old (0 ∷ end_to_end (λ place. hash place false ++ hash place true) n) →
        HoldsMessage text.new (0 ∷ end_to_end (λ place. hash place false ++ hash place true) (n + 4)) }
{
    add_pair(text, &zeros[0], &ones[0]);
    add_pair(text, &zeros[1], &ones[1]);
    add_pair(text, &zeros[2], &ones[2]);
    add_pair(text, &zeros[3], &ones[3]);
}

/// Two hashes, one after the other.
fn pair(first: &[u8], second: &[u8]) -> [u8; 64]
    requires first { length first.now ≡ 32 }
    requires second { length second.now ≡ 32 }
    ensures { result ≡ first.now ++ second.now }
{
    let mut both = [0u8; 64];
    both[..32].copy_from_slice(first);
    both[32..].copy_from_slice(second);
    both
}

/// Adds two hashes to a leaf's text.
fn add_pair(text: &mut OneMessage, zero: &[u8; 32], one: &[u8; 32])
    ensures { (m : List ℕ) → HoldsMessage text.old m → HoldsMessage text.new (m ++ (zero.now ++ one.now)) }
{
    text.update(&pair(zero, one));
}

/// Adds both public hashes of a place to a leaf's text, value 0 before 1: `shown` is the digest's own bit's.
fn add_place(text: &mut OneMessage, bit: bool, shown: &[u8; 32], other: &[u8])
    requires { length other.now ≡ 32 }
    ensures { (m : List ℕ) → HoldsMessage text.old m →
        HoldsMessage text.new (m ++ (if bit then other.now ++ shown.now else shown.now ++ other.now)) }
{
    if bit {
        text.update(&pair(other, shown));
    } else {
        text.update(&pair(shown, other));
    }
}

/// A leaf's text before its first place: the byte 0.
pub(crate) fn leaf_start() -> OneMessage
    ensures { HoldsMessage result (0 ∷ []) }
{
    let mut text = OneMessage::new();
    text.update(&[0u8]);
    text
}

/// The leaf hash of the key that a signature shows: each secret is hashed, and stands beside the other
/// value's hash in the key's public text.
pub fn shown_key(digest: &[u8; 32], shown: &[u8], other: &[u8]) -> [u8; 32]
    requires shown { length shown.now ≡ TEXT_SIZE }
    requires other { length other.now ≡ TEXT_SIZE }
    ensures { result ≡ leaf_hash (shown_hash digest.now shown.now other.now) }
{
    let hashes = piece_hashes(shown);
    let mut text = leaf_start();
    for place in 0..PLACES {
        let bit = digest_bit(digest, place);
        add_place(
            &mut text,
            bit,
            &hashes[place as usize],
            piece(other, place as usize),
        );
    }
    text.finalize()
}
