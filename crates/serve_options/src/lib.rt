//! What a run of `nfsacc serve` may be asked, from the command line to the service.
#![tactic(auto)]

mod options;

pub use options::{Heights, ServeOptions};
