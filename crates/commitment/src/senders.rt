//! A node's log with the keys that sign each SEND and RECV of it, and what that log gives to others.

pub mod laws;
mod lookups;
mod refusal;
mod reserve;
mod sender;
mod signed_entry;

pub use refusal::SendRefusal;
pub use sender::Sender;
