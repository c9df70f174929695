//! Evidence, and the calls and replies in it, in words: facts that are shown as lines or as JSON.
#![tactic(auto)]

mod base;
mod call;
mod case;
mod comparison;
mod decoding;
mod draft;
mod entry;
mod facts;
mod fields;
mod file;
mod fork;
mod lack;
mod log;
mod names;
mod places;
mod procedures;
mod reply;
mod roster;
mod state;
mod text;

pub use call::add_call;
pub use case::{CLEARS_NOBODY, Detail, case_facts, no_case_facts, rejected_facts};
pub use decoding::first_undecodable;
pub use draft::Draft;
pub use facts::Facts;
pub use file::File;
pub use lack::{Lack, lack_of};
pub use reply::add_reply;
pub use roster::roster_facts;
pub use shown_names::VERSION;
pub use text::Text;
