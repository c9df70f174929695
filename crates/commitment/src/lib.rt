//! A node's commitment to its log: what it sends is signed where it is logged, and what it receives is
//! acknowledged by the signature of where it is.
#![tactic(auto)]

mod incoming;
mod kept;
pub mod laws;
mod outcome;
mod receiver;
mod refusal;
pub mod senders;
pub mod signings;

pub use incoming::{Incoming, ReadValue, Verify};
pub use outcome::{Prepared, Received};
pub use receiver::Receiver;
pub use refusal::Refusal;
