//! Keys that sign many times: one-time keys under a tree of SHA-256 digests.
#![tactic(auto)]

mod buffers;
pub mod laws;
mod leaves;
mod signature;
mod signer;
mod stored;
mod text;
mod texts;
mod tree;

pub use buffers::SignatureBuffers;
pub use signature::{MAX_HEIGHT, Signature, verify};
pub use signer::{SignFault, Signer};
