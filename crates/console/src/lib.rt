//! The commands of `nfsacc`.
#![tactic(auto)]

mod bases;
mod checking;
mod fault;
mod input;
mod rosters;

pub use authenticator::{Checked, Refusal, Roster};
pub use bases::{BaseJudgement, check_base, read_base};
pub use challenge::Base;
pub use checking::{Format, Judgement, Reason, check, judge};
pub use explain::{Detail, Lack};
pub use fault::CheckFault;
pub use rosters::{read_roster, write_roster};
