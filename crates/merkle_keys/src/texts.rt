//! The two texts of a signature: as they stand, or as their key makes them when they are asked for.

ghost use Rattle.std.specs.Prelude.{◌≡◌, ◌↔◌, ◌++◌, ℕ, List, IfOk, IfSome, IsTrue, length};
ghost use Rattle.lamport.specs.Lamport.{leaf_hash, shown_hash, shown_secrets, other_hashes};
ghost use Rattle.lamport.specs.declared.key.TheConstants.{TEXT_SIZE};
ghost use Rattle.lamport.specs.sha256_lanes.OneMessage.{HoldsMessage};
ghost use Rattle.merkle_keys.specs.BoundTexts.{AreOf};
ghost use Rattle.merkle_keys.specs.Texts.{shown_in, other_in};

use crate::stored::StoredTexts;
use lamport::{BoundKey, OneMessage, OneTimeSignature, TextBuffers, shown_key};
use std::alloc::{AllocError, Global};

/// The texts of a signature.
#[derive(Drop)]
pub(crate) enum Texts {
    /// They stand.
    Stored(StoredTexts),
    /// The key makes them each time that they are asked for.
    Bound(BoundKey),
}

impl Texts {
    /// Texts that were read.
    pub(crate) fn read(shown: Vec<u8>, other: Vec<u8>) -> Texts
        requires shown { length shown.items ≡ TEXT_SIZE }
        requires other { length other.items ≡ TEXT_SIZE }
        ensures shown { shown_in result ≡ shown.items }
        ensures other { other_in result ≡ other.items }
    {
        Texts::Stored(StoredTexts {
            shown,
            other,
            key: None,
        })
    }

    /// What a key makes, made now.
    fn made(key: &BoundKey, buffers: TextBuffers) -> Texts
        ensures shown { shown_in result ≡ shown_secrets key.now.key key.now.digest }
        ensures other { other_in result ≡ other_hashes key.now.key key.now.digest }
    {
        let OneTimeSignature { shown, other } = key.signature(buffers);
        Texts::Stored(StoredTexts {
            shown,
            other,
            key: Some(key.again()),
        })
    }

    /// Makes the texts that their key hasn't made, so that they stand. Where memory was refused it is left to
    /// the key. Takes memory twice, `lamport::TEXT_SIZE` bytes each.
    pub(crate) fn make(&mut self, alloc: Global) -> Result<(), AllocError>
        ensures shown { shown_in self.new ≡ shown_in self.old }
        ensures other { other_in self.new ≡ other_in self.old }
    {
        let made = match &*self {
            Texts::Stored(_) => return Ok(()),
            Texts::Bound(key) => Texts::made(key, TextBuffers::new(alloc)?),
        };
        *self = made;
        Ok(())
    }

    /// A copy: of texts that stand, or of the key that makes them.
    pub(crate) fn try_clone(&self, alloc: Global) -> Result<Texts, AllocError>
        ensures shown { IfOk result (λ texts. shown_in texts ≡ shown_in self.now) }
        ensures other { IfOk result (λ texts. other_in texts ≡ other_in self.now) }
    {
        match self {
            Texts::Stored(texts) => Ok(Texts::Stored(texts.try_clone(alloc)?)),
            Texts::Bound(key) => Ok(Texts::Bound(key.again())),
        }
    }

    /// The key that made the texts or makes them, where that is this program's own.
    fn key(&self) -> Option<&BoundKey>
        ensures { IfSome result (λ key. AreOf (shown_in self.now) (other_in self.now) key.now) }
    {
        match self {
            Texts::Stored(texts) => texts.key.as_ref(),
            Texts::Bound(key) => Some(key),
        }
    }

    /// Whether one key made both, so that they are the same. Nothing is compared but keys.
    fn have_one_key(&self, other: &Texts) -> bool
        ensures shown { IsTrue result → shown_in self.now ≡ shown_in other.now }
        ensures other { IsTrue result → other_in self.now ≡ other_in other.now }
    {
        match self.key() {
            Some(own) => match other.key() {
                Some(others) => own.is_same(others),
                None => false,
            },
            None => false,
        }
    }

    /// Whether the texts are these.
    fn are(&self, shown: &[u8], other: &[u8]) -> bool
        ensures { IsTrue result ↔ ((shown_in self.now ≡ shown.now) × (other_in self.now ≡ other.now)) }
    {
        match self {
            Texts::Stored(texts) => are_same(&texts.shown, &texts.other, shown, other),
            Texts::Bound(key) => {
                let made = key.texts();
                are_same(&made.shown, &made.other, shown, other)
            }
        }
    }

    /// Whether others are the same. Where one key made both nothing is made for it.
    pub(crate) fn is_same(&self, other: &Texts) -> bool
        ensures { IsTrue result ↔
            ((shown_in self.now ≡ shown_in other.now) × (other_in self.now ≡ other_in other.now)) }
    {
        if self.have_one_key(other) {
            return true;
        }
        match other {
            Texts::Stored(texts) => self.are(&texts.shown, &texts.other),
            Texts::Bound(key) => {
                let made = key.texts();
                self.are(&made.shown, &made.other)
            }
        }
    }

    /// The leaf hash of the key that they show for a digest.
    pub(crate) fn shown_key(&self, digest: &[u8; 32]) -> [u8; 32]
        ensures { result ≡ leaf_hash (shown_hash digest.now (shown_in self.now) (other_in self.now)) }
    {
        match self {
            Texts::Stored(texts) => shown_key(digest, &texts.shown, &texts.other),
            Texts::Bound(key) => {
                let made = key.texts();
                shown_key(digest, &made.shown, &made.other)
            }
        }
    }

    /// Adds both to what is hashed.
    pub(crate) fn hash_into(&self, text: &mut OneMessage)
        ensures { (front : List ℕ) → HoldsMessage text.old front →
            HoldsMessage text.new ((front ++ shown_in self.now) ++ other_in self.now) }
    {
        match self {
            Texts::Stored(texts) => hash_both(&texts.shown, &texts.other, text),
            Texts::Bound(key) => {
                let made = key.texts();
                hash_both(&made.shown, &made.other, text)
            }
        }
    }

    /// Each has its size: does nothing, and tells a caller's proof.
    pub(crate) fn have_sizes(&self)
        ensures shown { length (shown_in self.now) ≡ TEXT_SIZE }
        ensures other { length (other_in self.now) ≡ TEXT_SIZE }
    {
        match self {
            Texts::Stored(texts) => {
                let _shown = &texts.shown;
            }
            Texts::Bound(_) => lamport::laws::texts_have_their_size(),
        }
    }
}

/// Whether two texts are the same as two others.
fn are_same(shown: &[u8], other: &[u8], others_shown: &[u8], others_other: &[u8]) -> bool
    ensures { IsTrue result ↔ ((shown.now ≡ others_shown.now) × (other.now ≡ others_other.now)) }
{
    is_same_text(shown, others_shown) && is_same_text(other, others_other)
}

/// Whether two texts are the same.
fn is_same_text(one: &[u8], other: &[u8]) -> bool
    ensures { IsTrue result ↔ (one.now ≡ other.now) }
{
    one == other
}

/// Adds two texts to what is hashed.
fn hash_both(shown: &[u8], other: &[u8], text: &mut OneMessage)
    ensures { (front : List ℕ) → HoldsMessage text.old front →
        HoldsMessage text.new ((front ++ shown.now) ++ other.now) }
{
    text.update(shown);
    text.update(other);
}
