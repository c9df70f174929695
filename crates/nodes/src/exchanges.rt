//! An exchange between a client and a server, and what holds of it.

pub mod laws;

pub use crate::exchange::exchange;
