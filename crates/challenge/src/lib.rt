//! Challenges to nodes, and evidence against them: its text, and whether it is accepted.
#![tactic(auto)]

mod base_file;
mod base_state;
mod based;
mod based_read;
mod case;
mod challenge;
mod charges;
mod check;
mod copies;
mod evidence;
mod fault;
mod find;
mod find_based;
mod finding;
mod good_base;
mod items;
pub mod laws;
mod read;
mod source;
mod write;

pub use base_file::check_base_file;
pub use based::BasedReplay;
pub use case::{Case, read_case, write_case};
pub use challenge::Challenge;
pub use check::check_evidence;
pub use evidence::{AuditedLog, Charge, Evidence, Fork};
pub use evidence_showings::{
    BaseText, EntryKind, MAX_KNOWN, Mark, Showing, ShownLink, accepted_evidence_proves,
};
pub use fault::EvidenceFault;
pub use find::{examine, one_finding};
pub use finding::{Finding, NotAccepted};
pub use good_base::{Base, check_base};
pub use read::read_evidence;
pub use replay::{
    Outcome, ReplayFault, SharedState, Verdict, opening_state, replay_entries, replay_outcome,
};
