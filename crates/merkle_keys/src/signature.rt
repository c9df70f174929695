//! Signatures, and who made them.

ghost use Rattle.std.specs.Prelude.{◌≡◌, ◌↔◌, IfOk, IsTrue, length};
ghost use Rattle.merkle_keys.specs.Signing.{Signed};

use crate::texts::Texts;
use crate::tree::{leaf_count, path_end};
use std::alloc::{AllocError, Global};
use std::marker::Model;

/// A signature of a digest: for each of the digest's bits a secret of a leaf, for each other bit value its
/// public hash, and the leaf's authentication path: the siblings' hashes from the leaf up, the lowest first.
///
/// A signer's signature holds its key, bound to the digest, in place of the secrets and hashes. They are made
/// each time that they are asked for, by 768 compressions of SHA-256 and in 16 KiB of the stack, or once by
/// `make`. One that was read holds them.
#[derive(Drop)]
pub struct Signature {
    pub(crate) leaf: u32,
    pub(crate) texts: Texts,
    pub(crate) path: Vec<[u8; 32]>,
}

impl Model for Signature {
    ghost use Rattle.std.specs.Prelude.{◌≤◌, length};
    ghost use Rattle.merkle_keys.specs.Signing.{SignatureParts};
    ghost use Rattle.merkle_keys.specs.Texts.{shown_in, other_in};
    ghost use Rattle.merkle_keys.specs.declared.signature.TheConstants.{MAX_HEIGHT};

    ghost Value = { SignatureParts };

    ghost view = { λ s. record {
      leaf = s.leaf;
      shown = shown_in s.texts;
      other = other_in s.texts;
      path = s.path.items;
    } };

    ghost invariant = { λ s. length s.path.items ≤ MAX_HEIGHT };
}

/// The greatest height of a tree: it has 65,536 leaves.
pub const MAX_HEIGHT: u32 = 16;

impl Signature {
    /// The number of the leaf that signed.
    pub fn leaf(&self) -> u32
        ensures { result ≡ self.now.leaf }
    {
        self.leaf
    }

    /// A copy. Takes memory for the path, and where the secrets and hashes stand twice more.
    pub fn try_clone(&self, alloc: Global) -> Result<Signature, AllocError>
        ensures { IfOk result (λ s. s ≡ self.now) }
    {
        let texts = self.texts.try_clone(alloc)?;
        let path = Vec::from_slice(alloc, &self.path)?;
        Ok(Signature {
            leaf: self.leaf,
            texts,
            path,
        })
    }

    /// Makes the secrets and hashes of a signer's signature, so that they stand and aren't made again. Where
    /// memory was refused they are made as before, each time that they are asked for. Takes memory twice,
    /// `lamport::TEXT_SIZE` bytes each, and none where they stand.
    pub fn make(&mut self, alloc: Global) -> Result<(), AllocError>
        ensures { self.new ≡ self.old }
    {
        self.texts.make(alloc)
    }

    /// Whether another signature is the same: of the same leaf, with the same secrets, hashes and path. Two
    /// of one key and digest are, and else bytes are compared. Takes no memory.
    pub fn is_same(&self, other: &Signature) -> bool
        ensures { IsTrue result ↔ (self.now ≡ other.now) }
    {
        self.leaf == other.leaf
            && is_same_path(&self.path, &other.path)
            && self.texts.is_same(&other.texts)
    }
}

/// Whether two paths are the same.
fn is_same_path(one: &[[u8; 32]], other: &[[u8; 32]]) -> bool
    ensures { IsTrue result ↔ (one.now ≡ other.now) }
{
    one == other
}

/// Whether a signature of the digest was made under this root of this height. Any root and height may be
/// asked; above `MAX_HEIGHT` the answer is no, and at height 0 the root is a lone leaf's hash. Takes no
/// memory, and 513 compressions of SHA-256 and two for each level.
pub fn verify(root: &[u8; 32], height: u32, digest: &[u8; 32], signature: &Signature) -> bool
    ensures { IsTrue result ↔ Signed root.now height digest.now signature.now }
{
    if height > MAX_HEIGHT
        || signature.leaf >= leaf_count(height)
        || signature.path.len() != height as usize
    {
        return false;
    }
    let start = signature.texts.shown_key(digest);
    let end = path_end(signature.leaf, start, &signature.path);
    end.as_slice() == root.as_slice()
}
