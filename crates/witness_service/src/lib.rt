//! A witness's books under a lock: threads step them, and what each was told is checked against one history.
#![tactic(auto)]

mod admission;
mod beginning;
mod cache;
mod checking;
mod closing;
mod journal;
mod key;
mod pass;
mod shared;

pub use admission::admit;
pub use cache::SignatureCache;
pub use journal::Journal;
pub use pass::{Pass, Receipt};
pub use shared::{Closed, ReceiptFault, WitnessService};
pub use witness_books::{
    Back, Books, Event, EventOf, Indication, JobVerdict, Note, Question, Refusal, ReplayDone,
    ReplayJob, Reply, ReplyOf, SharedSegment, StartFault, run,
};
