//! The keys of a master secret, each handed out once.

ghost use Rattle.std.specs.Prelude.{◌≡◌, ◌+◌, ◌-◌, ◌^◌, ◌<◌, ◌≤◌};
ghost use Rattle.lamport.specs.Fours.{four};
ghost use Rattle.lamport.specs.Lamport.{LeafKey, KeysToCome, public_hash, leaf_hash};

use crate::key::OneTimeKey;
use crate::leaves::leaf_hashes;
use std::marker::Model;

/// The one-time keys of a master secret, from leaf 0 on. `take` is the one way to a key, and gives each
/// leaf's once: no leaf signs twice, whatever else is done with this value. It can be neither copied nor
/// printed, and the master secret can't be read. Whoever has a master secret must make one such value of
/// it.
#[derive(Drop)]
pub struct LeafKeys {
    master: [u8; 32],
    next: u32,
}

impl Model for LeafKeys {
    ghost use Rattle.lamport.specs.Lamport.{KeysToCome};

    ghost Value = { KeysToCome };

    ghost view = { λ k. record { master = k.master; next = k.next } };
}

impl LeafKeys {
    /// The keys of a master secret, of which none was taken.
    pub fn new(master: [u8; 32]) -> LeafKeys
        ensures { result ≡ record { master = master; next = 0 } }
    {
        LeafKeys { master, next: 0 }
    }

    /// The number of the leaf whose key comes next: so many keys were taken.
    pub fn next(&self) -> u32
        ensures { result ≡ self.now.next }
    {
        self.next
    }

    /// The hash of a leaf in a tree of keys, whether its key was taken or not. Its key is made for this
    /// alone, by 1,281 compressions of SHA-256, and signs nothing.
    pub fn leaf_hash(&self, leaf: u32) -> [u8; 32]
        ensures { result ≡ leaf_hash (public_hash (record { master = self.now.master; leaf = leaf })) }
    {
        let key = OneTimeKey::new(self.master, leaf);
        let hash = key.leaf_hash();
        key.discard();
        hash
    }

    /// The hashes of four leaves from `first` on, each as `leaf_hash` gives it. The 1,281 compressions of
    /// each leaf run side by side with those of the others, so that the four take less time where a compiler
    /// makes vectors.
    pub fn four_leaf_hashes(&self, first: u32) -> [[u8; 32]; 4]
        requires { first + 4 ≤ 2 ^ 32 }
        ensures { result ≡ four
            (λ leaf. leaf_hash (public_hash (record { master = self.now.master; leaf = leaf }))) first }
    {
        leaf_hashes(&self.master, first)
    }

    /// The key of the next leaf, which can't be taken again.
    pub fn take(&mut self) -> OneTimeKey
        requires { self.old.next < 2 ^ 32 - 1 }
        ensures key { result ≡ record { master = self.old.master; leaf = self.old.next } }
        ensures taken { self.new ≡ record self.old { next = self.old.next + 1 } }
    {
        let key = OneTimeKey::new(self.master, self.next);
        self.next += 1;
        key
    }
}
