//! One client under a lock, for all the local programs that call a server on another host.
#![tactic(auto)]

mod caller;
mod client;
mod flights;
mod rounds;
mod shared;

pub use client::{InFlight, SharedClient};
pub use flights::{Flights, Presence};
pub use remote::{AcceptFault, CallFault, Carried, Courier, CourierFault, Pending, RemoteClient};
pub use shared::{SharedRemote, serve_shared};
