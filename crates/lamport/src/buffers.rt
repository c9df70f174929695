//! Memory for signatures.

ghost use Rattle.std.specs.Prelude.{◌≡◌, ◌≤◌, [], vec_len, vec_capacity};
ghost use Rattle.lamport.specs.declared.key.TheConstants.{TEXT_SIZE};

use crate::key::TEXT_SIZE;
use std::alloc::{AllocError, Global};

/// Memory for the two texts of a key's signature: with it a key signs without asking for any.
#[derive(Drop)]
pub struct TextBuffers {
    pub(crate) shown: Vec<u8>,
    pub(crate) other: Vec<u8>,
    ghost shown_room: { (shown.items ≡ []) × (vec_len shown ≡ 0) × (TEXT_SIZE ≤ vec_capacity shown) },
    ghost other_room: { (other.items ≡ []) × (vec_len other ≡ 0) × (TEXT_SIZE ≤ vec_capacity other) },
}

impl TextBuffers {
    /// Takes memory twice, `TEXT_SIZE` bytes each.
    pub fn new(alloc: Global) -> Result<TextBuffers, AllocError> {
        let shown = Vec::with_capacity(alloc, TEXT_SIZE)?;
        let other = Vec::with_capacity(alloc, TEXT_SIZE)?;
        Ok(TextBuffers { shown, other })
    }
}
