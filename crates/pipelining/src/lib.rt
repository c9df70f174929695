//! Which call is sent over a connection, and whose answer is read, where several calls are in flight there.
#![tactic(auto)]

mod line;
mod loads;
mod turns;

pub use line::Pipeline;
pub use loads::Loads;
pub use turns::{Connection, Standing, Turn};
