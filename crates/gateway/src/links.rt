//! Links, each a way to a node: it carries a record there and brings the reply back. And clocks, which tell
//! the time of it.

mod clock;
mod fault;
mod link;

pub use clock::{Clock, FixedClock, ScriptedClock};
pub use fault::LinkFault;
pub use link::Link;
