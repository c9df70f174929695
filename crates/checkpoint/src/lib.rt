//! The text of a node's state, its digest, and states from their texts.
#![tactic(auto)]

mod digest;
mod front;
mod mounts;
pub mod parts;
mod read;
mod renewal;
mod shared;
mod text;
pub mod trees;

pub use digest::state_digest;
pub use read::{StateFault, read_state};
pub use renewal::renew;
pub use shared::SharedState;
pub use state_machine::states::{ReceivedMessage, SentMessage};
pub use state_machine::{Machine, MessageBody, Stage, State, a_text_has_one_state};
pub use text::state_text;
