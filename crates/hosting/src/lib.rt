//! What a server answers to the calls of nodes and witnesses on other hosts.
#![tactic(auto)]

mod bases;
mod host;
mod ready;
mod results;
mod unwritten;

pub use host::{Host, answer_request};
pub use ready::Ready;
pub use request_streams::Outcome;
pub use unwritten::{Progress, Unwritten};
