//! The commands of parties on hosts of their own: their secrets and rosters, and their processes.
#![tactic(auto)]

mod ask;
mod assured;
mod below_base;
mod cases;
mod control;
mod findings;
mod gateways;
mod greeting;
mod keys;
mod opening;
mod server;
mod witness;

pub use ask::ask_witness;
pub use below_base::{KeptFiles, StateFiles};
pub use control::{show_status, stop_process};
pub use gateways::run_gateway;
pub use keys::{make_rosters, make_secret, show_members};
pub use server::run_server;
pub use witness::run_witness;
