//! Keys that sign once.

ghost use Rattle.std.specs.Prelude.{◌≡◌, ℕ, ◌<◌, ◌^◌, ◌+◌, ◌≤◌, Bool, not, IfOk, IfErr, List, [], ◌++◌, take};
ghost use Rattle.std.specs.Prelude.{if◌then◌else◌, vec_len, vec_capacity};
ghost use Rattle.sha2.specs.Sha256.{sha256};
ghost use Rattle.lamport.specs.Fours.{four, four_bits};
ghost use Rattle.lamport.specs.Bound.{BoundLeaf};
ghost use Rattle.lamport.specs.Lamport.{LeafKey, digest_bit, end_to_end, secret, public_hash, leaf_hash};
ghost use Rattle.lamport.specs.Lamport.{shown_secrets, other_hashes, word_bytes};

use crate::bound::{BoundKey, SignatureTexts};
use crate::buffers::TextBuffers;
use crate::secrets::secret_text;
use crate::shown::{add_four_pairs, four_digest_bits, leaf_start};
use sha2::{Digest, Sha256};
use sha256_lanes::digest_4;
use std::alloc::{AllocError, AllocFailed, Global};
use std::marker::Model;

/// A key for one signature: the secrets of one leaf of a master secret. It can be neither copied nor let
/// go: `sign`, `sign_into` or `discard` spends it, so that one value signs once. `LeafKeys::take` is the one
/// way to a key, and gives each leaf's once: two signatures by one leaf would show both secrets of each bit
/// in which their digests differ.
pub struct OneTimeKey {
    master: [u8; 32],
    leaf: u32,
}

impl Model for OneTimeKey {
    ghost use Rattle.lamport.specs.Lamport.{LeafKey};

    ghost Value = { LeafKey };

    ghost view = { λ k. record { master = k.master; leaf = k.leaf } };
}

/// What a key's signature of a digest holds: two texts of `TEXT_SIZE` bytes.
#[derive(Drop)]
pub struct OneTimeSignature {
    /// For each bit of the digest the secret of its place and value.
    pub shown: Vec<u8>,
    /// For each bit the public hash of the other value.
    pub other: Vec<u8>,
}

/// The places of a digest's bits: a signature shows one secret for each.
pub const PLACES: u32 = 256;

/// The bytes of a secret or a hash for each place: 32 of them each.
pub const TEXT_SIZE: usize = 8192;

impl OneTimeKey {
    /// The key of a leaf. It holds the master secret, and makes each secret when it is asked for.
    pub(crate) fn new(master: [u8; 32], leaf: u32) -> OneTimeKey
        ensures { result ≡ record { master = master; leaf = leaf } }
    {
        OneTimeKey { master, leaf }
    }

    /// The public hash of a place, from 0 for the highest bit of the digest's first byte, and a bit value.
    pub fn public_hash(&self, place: u8, bit: bool) -> [u8; 32]
        ensures { result ≡ public_hash self.now place bit }
    {
        let secret = Sha256::digest(self.secret_text(u32::from(place), bit));
        Sha256::digest(secret)
    }

    /// The hash of the key's leaf in a tree of keys: the digest of the byte 0 and all 512 public hashes. It
    /// takes 1,281 compressions of SHA-256.
    pub fn leaf_hash(&self) -> [u8; 32]
        ensures { result ≡ leaf_hash (public_hash self.now) }
    {
        let mut text = leaf_start();
        for turn in 0..PLACES / 4 {
            let zeros = self.four_hashes(4 * turn, [false; 4]);
            let ones = self.four_hashes(4 * turn, [true; 4]);
            add_four_pairs(&mut text, &zeros, &ones);
        }
        text.finalize()
    }

    /// Signs a digest, which spends the key. Where memory was refused the key comes back, and nothing was
    /// shown of it. Takes memory twice, `TEXT_SIZE` bytes each.
    pub fn sign(
        self,
        alloc: Global,
        digest: &[u8; 32],
    ) -> Result<OneTimeSignature, AllocFailed<OneTimeKey>>
        ensures shown { IfOk result (λ s. s.shown.items ≡ shown_secrets self digest.now) }
        ensures other { IfOk result (λ s. s.other.items ≡ other_hashes self digest.now) }
        ensures refused { IfErr result (λ e. e.value ≡ self) }
    {
        match TextBuffers::new(alloc) {
            Ok(buffers) => Ok(self.sign_into(buffers, digest)),
            Err(AllocError) => Err(AllocFailed { value: self }),
        }
    }

    /// Signs a digest, which spends the key, by 768 compressions of SHA-256. Takes no memory but that of the
    /// buffers.
    pub fn sign_into(self, buffers: TextBuffers, digest: &[u8; 32]) -> OneTimeSignature
        ensures shown { result.shown.items ≡ shown_secrets self digest.now }
        ensures other { result.other.items ≡ other_hashes self digest.now }
    {
        let texts = self.texts(digest);
        self.discard();
        let TextBuffers {
            mut shown,
            mut other,
        } = buffers;
        add_text(&mut shown, &texts.shown);
        add_text(&mut other, &texts.other);
        OneTimeSignature { shown, other }
    }

    /// Binds the key to a digest, which spends it: what comes of it signs this digest and no other. Nothing is
    /// computed for it, and no memory is taken.
    pub fn bind(self, digest: &[u8; 32]) -> BoundKey
        ensures { result ≡ record { key = self; digest = digest.now } }
    {
        let OneTimeKey { master, leaf } = self;
        BoundKey::new(master, leaf, *digest)
    }

    /// Spends the key without a signature.
    pub fn discard(self) {
        let OneTimeKey { master: _, leaf: _ } = self;
    }

    /// The texts of a digest's signature.
    pub(crate) fn texts(&self, digest: &[u8; 32]) -> SignatureTexts
        ensures shown { result.shown ≡ shown_secrets self.now digest.now }
        ensures other { result.other ≡ other_hashes self.now digest.now }
    {
        let mut shown = [0u8; TEXT_SIZE];
        let mut other = [0u8; TEXT_SIZE];
        for turn in 0..PLACES / 4 {
            let bits = four_digest_bits(digest, 4 * turn);
            let at = 128 * turn as usize;
            put_four(&mut shown, at, &self.four_secrets(4 * turn, bits));
            put_four(&mut other, at, &self.four_hashes(4 * turn, opposite(bits)));
        }
        SignatureTexts { shown, other }
    }

    // The secrets of four places from `first` on, each of its bit value.
    fn four_secrets(&self, first: u32, bits: [bool; 4]) -> [[u8; 32]; 4]
        requires { first + 4 ≤ PLACES }
        ensures { (bit : ℕ → Bool) → bits ≡ four_bits bit first →
            result ≡ four (λ place. secret self.now place (bit place)) first }
    {
        digest_4(&[
            self.secret_text(first, bits[0]),
            self.secret_text(first + 1, bits[1]),
            self.secret_text(first + 2, bits[2]),
            self.secret_text(first + 3, bits[3]),
        ])
    }

    // The public hashes of four places from `first` on, each of its bit value.
    fn four_hashes(&self, first: u32, bits: [bool; 4]) -> [[u8; 32]; 4]
        requires { first + 4 ≤ PLACES }
        ensures { (bit : ℕ → Bool) → bits ≡ four_bits bit first →
            result ≡ four (λ place. public_hash self.now place (bit place)) first }
    {
        digest_4(&self.four_secrets(first, bits))
    }

    // What the secret of a place and bit value is the digest of.
    fn secret_text(&self, place: u32, bit: bool) -> [u8; 44]
        ensures { secret self.now place bit ≡ sha256 result }
    {
        secret_text(&self.master, self.leaf, place, bit)
    }
}

/// Sets the bytes of four places after the first `at` bytes.
fn put_four(text: &mut [u8; TEXT_SIZE], at: usize, pieces: &[[u8; 32]; 4])
    requires { at + 128 ≤ TEXT_SIZE }
    ensures { (f : ℕ → List ℕ) (n : ℕ) → pieces.now ≡ four f n → take at text.old ≡ end_to_end f n →
        take (at + 128) text.new ≡ end_to_end f (n + 4) }
{
    put_32(text, at, &pieces[0]);
    put_32(text, at + 32, &pieces[1]);
    put_32(text, at + 64, &pieces[2]);
    put_32(text, at + 96, &pieces[3]);
}

/// Sets 32 bytes after the first `at`.
fn put_32(text: &mut [u8; TEXT_SIZE], at: usize, bytes: &[u8; 32])
    requires { at + 32 ≤ TEXT_SIZE }
    ensures { take (at + 32) text.new ≡ take at text.old ++ bytes.now }
{
    text[at..at + 32].copy_from_slice(bytes);
}

/// Appends a text to nothing, in memory that has room for it.
fn add_text(buffer: &mut Vec<u8>, text: &[u8; TEXT_SIZE])
    requires empty { (buffer.old.items ≡ []) × (vec_len buffer.old ≡ 0) }
    requires room { TEXT_SIZE ≤ vec_capacity buffer.old }
    ensures { buffer.new.items ≡ text.now }
{
    buffer.extend_from_slice(text).unwrap();
}

/// The other value of each bit.
fn opposite(bits: [bool; 4]) -> [bool; 4]
    ensures { (bit : ℕ → Bool) (n : ℕ) → bits ≡ four_bits bit n →
        result ≡ four_bits (λ place. not (bit place)) n }
{
    [!bits[0], !bits[1], !bits[2], !bits[3]]
}
