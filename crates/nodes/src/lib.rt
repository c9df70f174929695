//! Servers and clients whose logs are honest unless they stray, and the two of them joined to a link.
#![tactic(auto)]

mod client;
mod deliver;
mod direct;
mod exchange;
pub mod exchanges;
mod honest;
mod locked;
mod lookups;
mod lost;
mod node;
mod role;
mod server;
mod shared;
mod sides;

pub use client::ClientNode;
pub use direct::Direct;
pub use gateway::links::{Clock, FixedClock, Link, LinkFault, ScriptedClock};
pub use gateway::{Gateway, Served, Service, StreamFault};
pub use honest::HonestServer;
pub use node::Node;
pub use node_logs::{AckTaken, BaseFault, Forked, NodeLog, Receipt};
pub use role::{Client, Role, Server};
pub use server::ServerNode;
pub use shared::Shared;
