//! A client's calls to a server on another host, of which nothing is known but the bytes that come back.
#![tactic(auto)]

mod accepted;
mod call_fault;
mod calls;
mod client;
mod courier;
mod fault;
pub mod laws;
mod pipe;
mod received;
mod sent;
mod taken;

pub use call_fault::CallFault;
pub use client::{Pending, RemoteClient};
pub use courier::{Carried, Courier, CourierFault};
pub use fault::AcceptFault;
pub use pipe::call_through_pipe;
