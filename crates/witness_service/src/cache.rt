//! Signatures that were checked, so that they aren't checked again.

ghost use Rattle.std.specs.Prelude.{◌≡◌, ◌↔◌, ◌⊎◌, ◌<◌, [], IsTrue, MatchBool, Ok, false, if◌then◌else◌};
ghost use Rattle.xdr.specs.Texts.Text.{IsText};
ghost use Rattle.merkle_keys.specs.Signing.{Signed};
ghost use Rattle.authenticator.specs.Signed.{IsSignedBy, authenticator_text, authenticator_value};
ghost use Rattle.authenticator.specs.Signed.{signed_digest};
ghost use Rattle.witness_service.specs.Caching.{AreSigned, Holds, IsSignedKey, MayHold, MayUse, bytes_of};
ghost use Rattle.witness_service.specs.Caching.{is_kept, key_bytes, key_text, keys_of, used, without};
ghost use Rattle.witness_service.specs.Hashing.{ref_bytes};

use crate::key::{Key, KeyRef};
use authenticator::{Authenticator, Member, Word, is_signed, is_signed_by};
use lru::LruCache;
use merkle_keys::Signature;
use std::alloc::{AllocError, Global};
use std::marker::Model;
use std::num::NonZeroUsize;
use xdr::laws::no_spelling_begins_another;

/// The keys that are kept.
type Kept = LruCache<Key, ()>;

/// Signatures that were checked: at most so many, of which the one that wasn't used for longest makes room.
/// It keeps each by the root and the height under which it was checked and the authenticator's whole text,
/// some 17 KiB, and keeps none that wasn't checked.
#[derive(Drop)]
pub struct SignatureCache {
    capacity: usize,
    kept: Option<Kept>,
}

impl Model for SignatureCache {
    ghost use Rattle.witness_service.specs.Caching.{CacheParts, MayHold, keys_of};

    ghost Value = { CacheParts };

    ghost view = { λ c. record { capacity = c.capacity; keys = keys_of c.kept } };

    ghost invariant = { λ c. MayHold c.capacity c.kept };
}

impl SignatureCache {
    /// An empty cache for at most so many signatures; one for none keeps none. Takes no memory.
    pub fn new(capacity: usize) -> SignatureCache
        ensures { result ≡ record { capacity = capacity; keys = [] } }
    {
        SignatureCache {
            capacity,
            kept: None,
        }
    }

    /// The most signatures that it may keep.
    pub fn capacity(&self) -> usize
        ensures { result ≡ self.now.capacity }
    {
        self.capacity
    }

    /// Whether it keeps the authenticator of this text, checked under this root and height. The order in
    /// which signatures make room stays. Takes no memory, so it is Ok.
    pub fn known(
        &self,
        _alloc: Global,
        root: &[u8; 32],
        height: u32,
        text: &[u8],
    ) -> Result<bool, AllocError>
        ensures { result ≡ Ok (is_kept self.now.keys (key_bytes root.now height text.now)) }
    {
        match &self.kept {
            Some(kept) => Ok(is_there(kept, KeyRef::new(root, height, text))),
            None => Ok(false),
        }
    }

    /// Whether a member signed that the log of this node has this hash at this word, as
    /// `authenticator::is_signed` says: from what is kept, else by a check, and then it is kept. Where memory
    /// is refused for its key it is checked and not kept.
    pub(crate) fn is_signed(
        &mut self,
        alloc: Global,
        member: &Member,
        node: u32,
        word: Word,
        hash: &[u8; 32],
        signature: &Signature,
    ) -> bool
        ensures signed { IsTrue result ↔
            Signed member.now.root member.now.height (signed_digest node word hash.now) signature.now }
        ensures kept { MatchBool result
            (MayUse (key_text member.now.root member.now.height
            (record { node = node; word = word; hash = hash.now; signature = signature.now }))
            self.old self.new)
            (self.new ≡ self.old) }
    {
        let Ok(key) = Key::of_parts(alloc, member, node, word, hash, signature) else {
            return is_signed(member, node, word, hash, signature);
        };
        if is_used(&mut self.kept, self.capacity, key.borrowed()) {
            no_spelling_begins_another();
            return true;
        }
        if !is_signed(member, node, word, hash, signature) {
            return false;
        }
        keep(&mut self.kept, alloc, self.capacity, key);
        true
    }

    /// The same of an authenticator whose text is at hand: it is looked up by that, and only what was checked
    /// takes memory for its key.
    pub(crate) fn is_signed_text(
        &mut self,
        alloc: Global,
        member: &Member,
        authenticator: &Authenticator,
        text: &[u8],
    ) -> bool
        requires { IsText authenticator_text (authenticator_value authenticator.now) text.now }
        ensures signed { IsTrue result ↔ IsSignedBy member.now authenticator.now }
        ensures kept { MatchBool result
            (MayUse (key_bytes member.now.root member.now.height text.now) self.old self.new)
            (self.new ≡ self.old) }
    {
        let key = KeyRef::new(&member.root, member.height, text);
        if is_used(&mut self.kept, self.capacity, key) {
            no_spelling_begins_another();
            return true;
        }
        if !is_signed_by(member, authenticator) {
            return false;
        }
        if let Ok(key) = key.to_key(alloc) {
            keep(&mut self.kept, alloc, self.capacity, key);
        }
        true
    }

    /// Keeps what a member signed: that the log of this node has this hash at this word. Where memory is
    /// refused for its key it isn't kept.
    pub(crate) fn keep_signed(
        &mut self,
        alloc: Global,
        member: &Member,
        node: u32,
        word: Word,
        hash: &[u8; 32],
        signature: &Signature,
    )
        requires { Signed member.now.root member.now.height
            (signed_digest node word hash.now) signature.now }
        ensures { MayUse (key_text member.now.root member.now.height
            (record { node = node; word = word; hash = hash.now; signature = signature.now }))
            self.old self.new }
    {
        let Ok(key) = Key::of_parts(alloc, member, node, word, hash, signature) else {
            return;
        };
        if !is_used(&mut self.kept, self.capacity, key.borrowed()) {
            keep(&mut self.kept, alloc, self.capacity, key);
        }
    }
}

/// Whether a key is kept; it goes first then.
fn is_used(kept: &mut Option<Kept>, capacity: usize, key: KeyRef<'_>) -> bool
    requires { MayHold capacity kept.old }
    ensures holds { MayHold capacity kept.new }
    ensures own { IsTrue result → IsSignedKey (ref_bytes key.entry) }
    ensures there { result ≡ is_kept (keys_of kept.old) (ref_bytes key.entry) }
    ensures some { IsTrue result → 0 < capacity }
    ensures keys { keys_of kept.new ≡
        (if result then used capacity (ref_bytes key.entry) (keys_of kept.old) else keys_of kept.old) }
{
    match kept {
        Some(kept) => is_promoted(kept, capacity, key),
        None => false,
    }
}

/// The same where something may be kept.
fn is_promoted(kept: &mut Kept, capacity: usize, key: KeyRef<'_>) -> bool
    requires { Holds capacity kept.old }
    ensures holds { Holds capacity kept.new }
    ensures own { IsTrue result → IsSignedKey (ref_bytes key.entry) }
    ensures there { result ≡ is_kept (bytes_of kept.old.entries) (ref_bytes key.entry) }
    ensures keys { bytes_of kept.new.entries ≡
        (if result then used capacity (ref_bytes key.entry) (bytes_of kept.old.entries)
        else bytes_of kept.old.entries) }
{
    kept.promote(key)
}

/// Keeps a key that isn't kept, if there may be one and memory is enough.
fn keep(kept: &mut Option<Kept>, alloc: Global, capacity: usize, key: Key)
    requires holds { MayHold capacity kept.old }
    requires own { IsSignedKey key }
    requires new { is_kept (keys_of kept.old) key ≡ false }
    ensures holds { MayHold capacity kept.new }
    ensures keys { (keys_of kept.new ≡ keys_of kept.old) ⊎
        ((0 < capacity) × (keys_of kept.new ≡ used capacity key (keys_of kept.old))) }
{
    let Some(room) = NonZeroUsize::new(capacity) else {
        return;
    };
    if kept.is_none() {
        let Ok(empty) = LruCache::sparse(alloc, room) else {
            return;
        };
        *kept = Some(empty);
    }
    match kept {
        Some(kept) => put(kept, capacity, key),
        None => {}
    }
}

/// The same where something may be kept.
fn put(kept: &mut Kept, capacity: usize, key: Key)
    requires holds { Holds capacity kept.old }
    requires own { IsSignedKey key }
    requires new { is_kept (bytes_of kept.old.entries) key ≡ false }
    ensures holds { Holds capacity kept.new }
    ensures keys { (bytes_of kept.new.entries ≡ bytes_of kept.old.entries) ⊎
        (bytes_of kept.new.entries ≡ used capacity key (bytes_of kept.old.entries)) }
{
    let _ = kept.put(key, ());
}

/// Whether a key is kept.
fn is_there(kept: &Kept, key: KeyRef<'_>) -> bool
    ensures { result ≡ is_kept (bytes_of kept.now.entries) (ref_bytes key.entry) }
{
    kept.contains(key)
}
