//! Keys that are bound to the one digest that they sign.

ghost use Rattle.std.specs.Prelude.{◌≡◌, ◌↔◌, IsTrue};
ghost use Rattle.lamport.specs.Bound.{BoundLeaf};
ghost use Rattle.lamport.specs.Lamport.{shown_secrets, other_hashes};

use crate::buffers::TextBuffers;
use crate::key::{OneTimeKey, OneTimeSignature, TEXT_SIZE};
use std::marker::Model;

/// A key that was bound to one digest: `OneTimeKey::bind` is the one way to it, and spends the key. It makes
/// that digest's signature as often as it is asked to, and no other, so that a signature can be made later
/// than its key was taken, elsewhere, or twice. The master secret can't be read or printed.
#[derive(Drop)]
pub struct BoundKey {
    master: [u8; 32],
    leaf: u32,
    digest: [u8; 32],
}

impl Model for BoundKey {
    ghost use Rattle.lamport.specs.Bound.{BoundLeaf};

    ghost Value = { BoundLeaf };

    ghost view = { λ k. record { key = record { master = k.master; leaf = k.leaf }; digest = k.digest } };
}

/// The two texts of a signature, as they stand.
#[derive(Drop)]
pub struct SignatureTexts {
    /// For each bit of the digest the secret of its place and value.
    pub shown: [u8; TEXT_SIZE],
    /// For each bit the public hash of the other value.
    pub other: [u8; TEXT_SIZE],
}

impl BoundKey {
    /// The key of a leaf, for this digest alone.
    pub(crate) fn new(master: [u8; 32], leaf: u32, digest: [u8; 32]) -> BoundKey
        ensures { result ≡ record { key = record { master = master; leaf = leaf }; digest = digest } }
    {
        BoundKey {
            master,
            leaf,
            digest,
        }
    }

    /// Another value of the same key and digest, which makes the same signature.
    pub fn again(&self) -> BoundKey
        ensures { result ≡ self.now }
    {
        BoundKey::new(self.master, self.leaf, self.digest)
    }

    /// Whether another is of the same key and digest.
    pub fn is_same(&self, other: &BoundKey) -> bool
        ensures { IsTrue result ↔ (self.now ≡ other.now) }
    {
        self.leaf == other.leaf
            && is_same_hash(&self.digest, &other.digest)
            && is_same_hash(&self.master, &other.master)
    }

    /// The signature of the digest, as `OneTimeKey::sign_into` makes it, by 768 compressions of SHA-256. Takes
    /// no memory but that of the buffers.
    pub fn signature(&self, buffers: TextBuffers) -> OneTimeSignature
        ensures shown { result.shown.items ≡ shown_secrets self.now.key self.now.digest }
        ensures other { result.other.items ≡ other_hashes self.now.key self.now.digest }
    {
        OneTimeKey::new(self.master, self.leaf).sign_into(buffers, &self.digest)
    }

    /// The texts of that signature, in no memory but their own, 16 KiB.
    pub fn texts(&self) -> SignatureTexts
        ensures shown { result.shown ≡ shown_secrets self.now.key self.now.digest }
        ensures other { result.other ≡ other_hashes self.now.key self.now.digest }
    {
        let key = OneTimeKey::new(self.master, self.leaf);
        let texts = key.texts(&self.digest);
        key.discard();
        texts
    }
}

/// Whether two hashes or secrets are the same.
fn is_same_hash(one: &[u8; 32], other: &[u8; 32]) -> bool
    ensures { IsTrue result ↔ (one.now ≡ other.now) }
{
    one.as_slice() == other.as_slice()
}
