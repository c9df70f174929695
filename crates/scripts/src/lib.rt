//! Scripts of nodes, lies, forks and audits, with one witness.
#![tactic(auto)]

mod acts;
mod answer;
mod bases;
mod cursor;
mod line;
mod lines;
mod messages;
mod parties;
mod script;
mod stop;
mod watch;
mod witness;
mod words;

pub use script::{ScriptEnd, ScriptFault, ScriptFiles, run_script};
pub use witness_books::StartFault;
pub use witness_calls::Shelf;
