//! Streams of records, answered over a link.
#![tactic(auto)]

mod fault;
pub mod links;
mod serve;

pub use fault::StreamFault;
pub use serve::{Gateway, Served};
pub use service::Service;
