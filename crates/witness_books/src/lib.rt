//! The books of all members at a witness: whose step an event is, and the books that go on with it.
#![tactic(auto)]

mod books;
mod delivery;
pub mod laws;
mod note;
mod route;
mod runs;
mod start;

pub use authenticator::Roster;
pub use books::Books;
pub use delivery::{event_of, read_event};
pub use node_book::{
    Back, Base, Event, EventOf, Indication, JobVerdict, Question, Refusal, ReplayDone, ReplayJob,
    Reply, ReplyOf, SharedSegment,
};
pub use note::Note;
pub use route::refuse_event;
pub use runs::run;
pub use start::StartFault;
