//! The process of a server on a host of its own.
#![tactic(auto)]

mod checking;
mod held;
mod locked;
mod put_back;
mod server;
mod status;

pub use server::{Ending, ServerOrder, host_server};
