//! The state of a node's reference machine: what a replay must know of the entries before it.

mod message;
mod received;
mod sends;
mod texts;

pub use message::{ReceivedMessage, SentMessage};
pub use received::{MAX_RECEIVED, Received};
pub use sends::{MAX_SENDS, Sends};
pub use texts::NumberedSend;
