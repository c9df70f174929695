//! SHA-256 of four messages of one length at a time, and of one message by four blocks at a time.
//!
//! Four messages stand side by side in plain arrays, a block of each at a time, and one loop goes over these
//! four lanes: a compiler that makes vectors runs all four at once. A message of at most 55 bytes takes one
//! block. Of one message, the schedules of four blocks are made so; their rounds follow one another.
#![tactic(auto)]

mod blocks;
mod constants;
mod lanes;
mod long_messages;
mod messages;
mod one_message;
mod rounds;
mod schedules;

pub use long_messages::FourMessages;
pub use messages::{digest_4, digest_row};
pub use one_message::OneMessage;
