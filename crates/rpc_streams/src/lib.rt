//! Streams of RPC records in, the records of their replies out.
#![tactic(auto)]

mod batch;
mod stream;

pub use service::Service;
pub use stream::run_rpc;
