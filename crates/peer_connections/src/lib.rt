//! Connections between parties on hosts of their own: accepting them, their streams, calls over them, commands at the
//! control socket, and where the threads of a process say what happens.
#![tactic(auto)]

mod accept;
mod caller;
mod control;
mod failure;
mod memory;
mod node_connection;
mod output;
mod phase;
mod seats;
mod stream;
mod turns;

pub use accept::{Accepting, Place};
pub use caller::{Answer, CallFault, PeerCaller};
pub use control::{Commands, Teller, attend};
pub use failure::ServeFailure;
pub use memory::OwnMemory;
pub use node_connection::{Meanwhile, NodeConnection, NodeReceiver, NodeSender, Sent};
pub use output::Output;
pub use phase::{Phase, end_serving, is_serving};
pub use places::Standing;
pub use seats::Seats;
pub use stream::{PeerStream, Waiting, set_timeouts};
pub use turns::SegmentTurns;
