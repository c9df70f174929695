//! `nfsacc serve`: connections on a socket, each served by a thread of its own as one client of a server, and
//! in the end everybody's log audited by a witness.
#![tactic(auto)]

mod checks;
mod connection;
mod control;
mod link;
mod listen;
mod members;
mod order;
mod phase;
mod run;
mod stream;

pub use auditing::{Closed, NodeReport, ReceiptFault, Shelf};
pub use node_keys::Masters;
pub use nodes::{ClientNode, ServerNode};
pub use order::Order;
pub use run::{Finished, ServeFault, serve};
pub use serve_options::{Heights, ServeOptions};
