//! What the crates of tests share: bytes as they are written down, readers and writers that fail, and who
//! signs.
#![tactic(auto)]

mod devices;
mod signers;
mod words;

pub use devices::{Refusal, SlowReader, SlowWriter};
pub use signers::{MASTER, client, roster_of, server, signed};
pub use words::{of_text, of_words, push_text, push_words};
