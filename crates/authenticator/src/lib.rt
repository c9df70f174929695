//! Rosters, authenticators, and values that are checked to be signed.
#![tactic(auto)]

mod authenticator;
mod checked;
mod hash;
pub mod laws;
mod listed;
mod member;
mod number;
mod refusal;
mod roster;

pub use authenticator::{Authenticator, is_signed, is_signed_by, signed_digest};
pub use checked::{Checked, Signs, check};
pub use hash::is_same_hash;
pub use listed::ListedRoster;
pub use member::{Kind, LogVersion, MAX_NODE, Member};
pub use merkle_keys::Signature;
pub use number::{Number, Word};
pub use refusal::{Refusal, RosterFault};
pub use roster::{MAX_MEMBERS, Roster, SECOND_FORM};
