//! Connections on which requests are read and answered, in order, whoever answers them.
#![tactic(auto)]

mod answerer;
mod serve;

pub use answerer::{Answerer, Outcome};
pub use serve::{ServeEnd, ServeFault, serve_requests};
