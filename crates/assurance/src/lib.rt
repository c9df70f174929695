//! Up to which number of a server's log a witness answers for the replies that were handed out.
#![tactic(auto)]

mod assured;
mod assured_to;
mod exchanges;
mod keeper;
mod learned;
mod link;
mod replies;
mod shown;

pub use assured::Assurance;
pub use assured_to::AssuredTo;
pub use exchanges::{Exchanges, Seen};
pub use keeper::Keeper;
pub use learned::Learned;
pub use link::{LinkFault, Told, WitnessLink};
pub use shown::ShownOf;
