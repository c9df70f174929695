//! Signers, of which each leaf signs once.

ghost use Rattle.std.specs.Prelude.{◌≡◌, ◌↔◌, ◌+◌, ◌-◌, ◌^◌, ◌<◌, ◌≤◌, [], ◌∷◌, ◌++◌, length, slice_index_or};
ghost use Rattle.std.specs.Prelude.{IfOk, OnOk, OnErr, vec_len, vec_capacity};
ghost use Rattle.merkle_keys.specs.Tree.{root, authentication_path};
ghost use Rattle.merkle_keys.specs.declared.signer.SignFault.TheVariants.{NoMemory};
ghost use Rattle.merkle_keys.specs.Signing.{Signed, signature_of};

use crate::buffers::SignatureBuffers;
use crate::signature::{MAX_HEIGHT, Signature};
use crate::texts::Texts;
use crate::tree::{leaf_count, sibling, tree_hashes, tree_hashes_by};
use lamport::LeafKeys;
use std::alloc::{AllocError, Global};
use std::marker::Model;
use std::thread::Threads;
use thiserror::Error;

/// Why a digest was not signed. After either nothing has changed.
#[derive(Clone, Copy, Debug, PartialEq, Eq, Error)]
pub enum SignFault {
    /// Each of the 2 to the height leaves has signed.
    #[error("all keys are used up")]
    KeysUsedUp,
    /// A growth was refused.
    #[error("out of memory")]
    NoMemory,
}

impl SignFault {
    ghost use Rattle.merkle_keys.specs.FaultNumbers.{fault_number};

    /// The number that programs print: 1 KeysUsedUp. Being out of memory has none.
    pub fn number(self) -> Option<u32>
        ensures { result ≡ fault_number self }
    {
        match self {
            SignFault::KeysUsedUp => Some(1),
            SignFault::NoMemory => None,
        }
    }
}

impl From<AllocError> for SignFault {
    ghost from_gives = { λ _ e. e ≡ NoMemory };

    fn from(_e: AllocError) -> SignFault {
        SignFault::NoMemory
    }
}

/// A master secret's keys, of which each signs once, in order. It keeps the tree's hashes, 64 bytes for
/// each leaf. The key of a leaf is made for its hash, when the signer is made, and to sign, when it is taken
/// out of `keys`, which gives each once; a signature holds it bound to its digest. No call gives out the master
/// secret, and none prints it.
#[derive(Drop)]
pub struct Signer {
    keys: LeafKeys,
    height: u32,
    hashes: Vec<[u8; 32]>,
}

impl Model for Signer {
    ghost use Rattle.merkle_keys.specs.Signing.{SignerState};
    ghost use Rattle.merkle_keys.specs.StoredTree.{IsSigner};

    ghost Value = { SignerState };

    ghost view = { λ s. record { master = s.keys.master; height = s.height; used = s.keys.next } };

    ghost invariant = { λ s. IsSigner s.keys.master s.height s.keys.next s.hashes.items };
}

impl Signer {
    /// A signer of a new tree with 2 to the height leaves, from 2 to 65,536. Each leaf's hash takes 1,281
    /// compressions of SHA-256, and each inner hash 2. Takes memory once, 64 bytes for each leaf.
    pub fn new(alloc: Global, master: [u8; 32], height: u32) -> Result<Signer, AllocError>
        requires some { 1 ≤ height }
        requires low { height ≤ MAX_HEIGHT }
        ensures { IfOk result (λ s. s ≡ record { master = master; height = height; used = 0 }) }
    {
        let keys = LeafKeys::new(master);
        let hashes = tree_hashes(alloc, &keys, leaf_count(height))?;
        Ok(Signer {
            keys,
            height,
            hashes,
        })
    }

    /// A signer as `new` makes it, whose leaves' hashes are made by as many threads as there are processors,
    /// up to four. It has the same keys for any number of threads. Takes memory once, as `new`, and what
    /// threads take.
    pub fn new_by<R: Threads + Sync>(
        rt: &R,
        alloc: Global,
        master: [u8; 32],
        height: u32,
    ) -> Result<Signer, AllocError>
        requires some { 1 ≤ height }
        requires low { height ≤ MAX_HEIGHT }
        ensures { IfOk result (λ s. s ≡ record { master = master; height = height; used = 0 }) }
    {
        let keys = LeafKeys::new(master);
        let hashes = tree_hashes_by(rt, alloc, &keys, leaf_count(height))?;
        Ok(Signer {
            keys,
            height,
            hashes,
        })
    }

    /// The public key: the hash at the top of the tree.
    pub fn root(&self) -> [u8; 32]
        ensures { result ≡ root self.now.master self.now.height }
    {
        last_hash(&self.hashes)
    }

    /// How many signings are left.
    pub fn left(&self) -> u32
        ensures { result + self.now.used ≡ 2 ^ self.now.height }
    {
        leaf_count(self.height) - self.keys.next()
    }

    /// Signs a digest by the next leaf: the leaf's number is the count of signings before. `KeysUsedUp`
    /// comes exactly after 2 to the height of them. After a fault nothing has changed: no key was taken.
    /// Takes memory once, before the key. The signature's secrets and hashes are made when they are asked
    /// for.
    pub fn sign(&mut self, digest: &[u8; 32]) -> Result<Signature, SignFault>
        ensures used_up { (result ≡ Err SignFault.KeysUsedUp) ↔ (self.old.used ≡ 2 ^ self.old.height) }
        ensures signature { IfOk result
            (λ s. s ≡ signature_of self.old.master self.old.height self.old.used digest.now) }
        ensures signed { IfOk result
            (λ s. Signed (root self.old.master self.old.height) self.old.height digest.now s) }
        ensures spent { OnOk result (self.new ≡ record self.old { used = self.old.used + 1 }) }
        ensures refused { OnErr result (self.new ≡ self.old) }
    {
        if self.left() == 0 {
            return Err(SignFault::KeysUsedUp);
        }
        let buffers = SignatureBuffers::new(*self.hashes.allocator())?;
        Ok(self.sign_into(buffers, digest))
    }

    /// Signs a digest by the next leaf, as `sign` does, where a leaf is left: `left` says so. Takes no
    /// memory but that of the buffers, so that it can't be refused.
    pub fn sign_into(&mut self, buffers: SignatureBuffers, digest: &[u8; 32]) -> Signature
        requires left { self.old.used < 2 ^ self.old.height }
        ensures signature { result ≡ signature_of self.old.master self.old.height self.old.used digest.now }
        ensures signed { Signed (root self.old.master self.old.height) self.old.height digest.now result }
        ensures spent { self.new ≡ record self.old { used = self.old.used + 1 } }
    {
        let leaf = self.keys.next();
        let path = self.path(buffers.path, leaf);
        let key = self.keys.take().bind(digest);
        Signature {
            leaf,
            texts: Texts::Bound(key),
            path,
        }
    }

    // The authentication path of a leaf, in a vector that is empty and has room for it.
    fn path(&self, buffer: Vec<[u8; 32]>, leaf: u32) -> Vec<[u8; 32]>
        requires leaf { leaf < 2 ^ self.now.height }
        requires empty { (buffer.items ≡ []) × (vec_len buffer ≡ 0) }
        requires room { MAX_HEIGHT ≤ vec_capacity buffer }
        ensures { result.items ≡ authentication_path self.now.master 0 leaf self.now.height }
    {
        let mut path = buffer;
        let leaves = leaf_count(self.height) as usize;
        let mut first = 0usize;
        let mut place = leaf as usize;
        for _level in 0..self.height {
            add_hash(&mut path, self.hashes[first + sibling(place)]);
            first = leaves + first / 2;
            place /= 2;
        }
        path
    }
}

/// Appends a hash, for which there is room.
fn add_hash(path: &mut Vec<[u8; 32]>, hash: [u8; 32])
    requires { vec_len path.old < vec_capacity path.old }
    ensures items { path.new.items ≡ path.old.items ++ hash ∷ [] }
    ensures len { vec_len path.new ≡ vec_len path.old + 1 }
    ensures capacity { vec_capacity path.old ≤ vec_capacity path.new }
{
    path.push(hash).unwrap();
}

/// The last of a tree's hashes.
fn last_hash(hashes: &[[u8; 32]]) -> [u8; 32]
    requires { 1 ≤ length hashes.now }
    ensures { result ≡ slice_index_or hashes.now (length hashes.now - 1) [] }
{
    hashes[hashes.len() - 1]
}
