//! The two texts of a signature as they stand.

ghost use Rattle.std.specs.Prelude.{◌≡◌, IfOk, length};
ghost use Rattle.std.specs.Option.{ForSome};
ghost use Rattle.lamport.specs.declared.key.TheConstants.{TEXT_SIZE};
ghost use Rattle.merkle_keys.specs.BoundTexts.{AreOf};

use lamport::BoundKey;
use std::alloc::{AllocError, Global};

/// Texts as they stand, and the key that made them, where that was this program's own.
#[derive(Drop)]
pub(crate) struct StoredTexts {
    pub(crate) shown: Vec<u8>,
    pub(crate) other: Vec<u8>,
    pub(crate) key: Option<BoundKey>,
    pub ghost shown_size: { length shown.items ≡ TEXT_SIZE },
    pub ghost other_size: { length other.items ≡ TEXT_SIZE },
    pub ghost of_key: { ForSome key (AreOf shown.items other.items) },
}

impl StoredTexts {
    /// A copy, with the key. Takes memory twice.
    pub(crate) fn try_clone(&self, alloc: Global) -> Result<StoredTexts, AllocError>
        ensures shown { IfOk result (λ texts. texts.shown.items ≡ self.now.shown.items) }
        ensures other { IfOk result (λ texts. texts.other.items ≡ self.now.other.items) }
    {
        let shown = Vec::from_slice(alloc, &self.shown)?;
        let other = Vec::from_slice(alloc, &self.other)?;
        Ok(StoredTexts {
            shown,
            other,
            key: again(&self.key),
        })
    }
}

/// The same key once more, if there is one.
fn again(key: &Option<BoundKey>) -> Option<BoundKey>
    ensures { result ≡ key.now }
{
    match key {
        Some(key) => Some(key.again()),
        None => None,
    }
}
