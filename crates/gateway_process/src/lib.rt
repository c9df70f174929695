//! The process of a gateway on a user's machine: local programs are served by a server on another host.
#![tactic(auto)]

mod cause;
mod context;
mod delivery;
mod desk;
mod local_programs;
mod local_stream;
mod news;
mod own_log;
mod receipts;
mod reporter;
mod run;
mod status;
mod tcp_courier;
mod trouble;
mod watch;
mod way;
mod ways;
mod witness_caller;
mod witness_peer;

pub use run::{Ending, GatewayOrder, run_gateway};
