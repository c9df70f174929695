//! The keys of nodes on hosts of their own: lines that say a member's key, rosters made of such lines, and
//! what
//! was begun with a secret.
#![tactic(auto)]

mod begun;
mod choice;
mod member_line;
mod member_lines;
mod spent;
mod values;
mod words;

pub use begun::Begun;
pub use choice::{EpochRoster, LifeFault};
pub use member_line::MemberLine;
pub use member_lines::{Lacking, LineFault, MemberLines};
pub use spent::{Spent, SpentFault};
