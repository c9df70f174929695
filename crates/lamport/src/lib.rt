//! Lamport's one-time keys over SHA-256: a key signs one digest and is spent.
#![tactic(auto)]

mod bound;
mod buffers;
mod key;
mod keys;
pub mod laws;
mod leaves;
mod secrets;
mod shown;

pub use bound::{BoundKey, SignatureTexts};
pub use buffers::TextBuffers;
pub use key::{OneTimeKey, OneTimeSignature, PLACES, TEXT_SIZE};
pub use keys::LeafKeys;
pub use sha256_lanes::OneMessage;
pub use shown::shown_key;
