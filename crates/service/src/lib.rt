//! One record to one reply.
#![tactic(auto)]

mod checks;
mod service;

pub use mount::MountTable;
pub use nfs_procs::Time;
pub use service::Service;
