//! Memory for signatures.

ghost use Rattle.std.specs.Prelude.{◌≡◌, ◌≤◌, [], vec_len, vec_capacity};
ghost use Rattle.merkle_keys.specs.declared.signature.TheConstants.{MAX_HEIGHT};

use crate::signature::MAX_HEIGHT;
use std::alloc::{AllocError, Global};

/// Memory for one signature at any height: with it a signer signs without asking for any.
#[derive(Drop)]
pub struct SignatureBuffers {
    pub(crate) path: Vec<[u8; 32]>,
    ghost path_room: { (path.items ≡ []) × (vec_len path ≡ 0) × (MAX_HEIGHT ≤ vec_capacity path) },
}

impl SignatureBuffers {
    /// Takes memory once, 512 bytes for a path.
    pub fn new(alloc: Global) -> Result<SignatureBuffers, AllocError> {
        let path = Vec::with_capacity(alloc, MAX_HEIGHT as usize)?;
        Ok(SignatureBuffers { path })
    }
}
