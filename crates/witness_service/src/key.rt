//! Keys of signatures.

ghost use Rattle.std.specs.Prelude.{◌≡◌, IfOk, nat_eq};
ghost use Rattle.std.specs.Cmp.{on_equiv, on_per, partial_equiv_from_equiv};
ghost use Rattle.std.specs.Cmp.Lexicographic.{nat_list_eq_equiv, pointwise};
ghost use Rattle.xdr.specs.Item.{Fits, fixed, pair, word};
ghost use Rattle.witness_service.specs.Caching.{key_bytes, key_item, key_text, key_value};
ghost use Rattle.witness_service.specs.Hashing.{looked_up, ref_bytes, same_look_up};

use authenticator::{Member, Word};
use merkle_keys::Signature;
use std::alloc::{AllocError, Global};
use std::collections::hash_map::Equivalent;
use std::hash::{Hash, Hasher};
use std::marker::Model;
use xdr::Writer;
use xdr::laws::no_spelling_begins_another;

/// What a signature is kept by: the root and the height under which it was checked, and the whole text of the
/// authenticator that it makes. A clause sees its bytes.
#[derive(Drop)]
pub(crate) struct Key {
    root: [u8; 32],
    height: u32,
    text: Vec<u8>,
}

impl Model for Key {
    ghost use Rattle.std.specs.Prelude.{List, ℕ};
    ghost use Rattle.witness_service.specs.Caching.{key_bytes};

    ghost Value = { List ℕ };

    ghost view = { λ k. key_bytes k.root k.height k.text.items };
}

/// A key whose text is borrowed, as keys are looked up.
#[derive(Clone, Copy)]
pub(crate) struct KeyRef<'a> {
    root: [u8; 32],
    height: u32,
    text: &'a [u8],
}

/// How many bytes of its text a key is looked up by, beside root and height: node, number, hash and leaf. A
/// leaf signs once, so they tell signatures apart; what is found is compared by all bytes.
const LOOKED_UP: usize = 48;

/// The size of the longest text, whose path has 16 hashes.
const LONGEST: usize = 16_948;

impl Key {
    /// The key of a text, under a root and a height.
    fn new(root: [u8; 32], height: u32, text: Vec<u8>) -> Key
        ensures key { result ≡ key_bytes root height text.items }
        ensures fits { Fits (pair (fixed 32) word) (root, height) }
    {
        Key { root, height, text }
    }

    /// The key of an authenticator of these parts, under a member's root and height.
    pub(crate) fn of_parts(
        alloc: Global,
        member: &Member,
        node: u32,
        word: Word,
        hash: &[u8; 32],
        signature: &Signature,
    ) -> Result<Key, AllocError>
        ensures text { IfOk result (λ key. key ≡ key_text member.now.root member.now.height
            (record { node = node; word = word; hash = hash.now; signature = signature.now })) }
        ensures fits { IfOk result (λ key. Fits key_item (key_value member.now.root member.now.height
            (record { node = node; word = word; hash = hash.now; signature = signature.now }))) }
    {
        let mut text = Vec::with_capacity(alloc, LONGEST)?;
        text.put_u32(node)?;
        word.write(&mut text)?;
        text.put_fixed(hash)?;
        signature.write(&mut text)?;
        Ok(Key::new(member.root, member.height, text))
    }

    /// The same key, with its text borrowed.
    pub(crate) fn borrowed(&self) -> KeyRef<'_>
        ensures { ref_bytes result ≡ self.now }
    {
        KeyRef {
            root: self.root,
            height: self.height,
            text: &self.text,
        }
    }
}

impl<'a> KeyRef<'a> {
    /// The key of what may be an authenticator's text, under a root and a height.
    pub(crate) fn new(root: &[u8; 32], height: u32, text: &'a [u8]) -> KeyRef<'a>
        ensures key { ref_bytes result ≡ key_bytes root.now height text.now }
        ensures fits { Fits (pair (fixed 32) word) (root.now, height) }
    {
        KeyRef {
            root: *root,
            height,
            text,
        }
    }

    /// The same key, with a copy of its text.
    pub(crate) fn to_key(self, alloc: Global) -> Result<Key, AllocError>
        ensures { IfOk result (λ key. key ≡ ref_bytes self.entry) }
    {
        let text = Vec::from_slice(alloc, self.text)?;
        Ok(Key::new(self.root, self.height, text))
    }
}

impl<'a> PartialEq for KeyRef<'a> {
    ghost eq = { λ x y. pointwise nat_eq (ref_bytes x) (ref_bytes y) };

    ghost laws = { on_per ref_bytes (partial_equiv_from_equiv nat_list_eq_equiv) };

    fn eq(&self, other: &KeyRef<'a>) -> bool {
        no_spelling_begins_another();
        self.height == other.height && self.root == other.root && self.text == other.text
    }
}

impl<'a> Eq for KeyRef<'a> {
    ghost laws = { on_equiv ref_bytes nat_list_eq_equiv };
}

impl<'a> Hash for KeyRef<'a> {
    ghost hash_input = { λ key. looked_up (ref_bytes key) };

    ghost respects_eq = { λ x y. same_look_up (ref_bytes x) (ref_bytes y) };

    fn hash<H: Hasher>(&self, state: &mut H) {
        let text = self.text;
        let count = LOOKED_UP.min(text.len());
        state.write(&self.root);
        state.write(&self.height.to_be_bytes());
        state.write(&text[..count]);
    }
}

impl PartialEq for Key {
    ghost eq = { pointwise nat_eq };

    ghost laws = { partial_equiv_from_equiv nat_list_eq_equiv };

    fn eq(&self, other: &Key) -> bool {
        self.borrowed() == other.borrowed()
    }
}

impl Eq for Key {
    ghost laws = { nat_list_eq_equiv };
}

impl Hash for Key {
    ghost hash_input = { looked_up };

    ghost respects_eq = { same_look_up };

    fn hash<H: Hasher>(&self, state: &mut H) {
        self.borrowed().hash(state);
    }
}

impl<'a> Equivalent<Key> for KeyRef<'a> {
    ghost equivalent = { λ key. pointwise nat_eq (ref_bytes key) };

    ghost respects_hash = { λ key. same_look_up (ref_bytes key) };

    ghost respects_eq = { λ key. nat_list_eq_equiv.congr (ref_bytes key) };

    fn equivalent(&self, key: &Key) -> bool {
        *self == key.borrowed()
    }
}
