//! The process of a witness on a host of its own.
#![tactic(auto)]

mod account;
mod answering;
mod brought;
mod causes;
mod choosing;
mod context;
mod due;
mod elsewhere;
mod evidence;
mod filing;
mod going_on;
mod idle;
mod joining;
mod links;
mod meetings;
mod opened;
mod orders;
mod overlap;
mod printing;
mod rounds;
mod rows;
mod sets;
mod status;
mod times;
mod visits;
mod watch;
mod witness;

pub use choosing::{Search, choose_roster};
pub use orders::{Ending, KnownRoster, WatchedServer, WitnessOrder};
pub use watching::{NodeTold, Shelf};
pub use witness::run_witness;
pub use witness_books::Indication;
