//! The files of a party: its secret and what was begun with it, the rosters, its control socket, and how files
//! are put in their places.
#![tactic(auto)]

mod control;
mod rosters;
mod secret;
mod shelf;

pub use control::{Control, ControlFault, ask_status, report_control, tell_to_stop};
pub use rosters::{
    HeldRoster, RostersFault, digest_of, epochs_of, read_rosters, report_rosters, roster_name,
};
pub use secret::{HeldSecret, SecretFault, read_secret, report_secret, write_secret};
pub use shelf::{DurableShelf, FileShelf, PUBLIC_MODE, leads_to, stand_ins};
