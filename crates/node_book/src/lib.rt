//! One member's book at a witness: its events, replies and steps, and the replays that are
//! to be done and were done.
#![tactic(auto)]

mod book;
mod carry;
mod challenges;
mod decide;
mod decision;
mod event;
mod forks;
mod looking;
mod noted;
mod notes;
mod outbox;
mod refusal;
mod replayed;
mod reply;
mod replying;
mod room;
mod rows;
mod same_challenges;
mod same_events;
mod same_replies;
mod step;

pub use book::Book;
pub use challenge::{Base, Evidence};
pub use event::{Event, EventOf, PlainEvent, Question};
pub use refusal::Refusal;
pub use replay_jobs::{
    Back, JobVerdict, PlainDone, PlainJob, ReplayDone, ReplayJob, SharedSegment, SharedState,
    state_kind,
};
pub use reply::{Indication, PlainReply, Reply, ReplyOf};
pub use step::Step;
pub use witness_book_laws::laws::books_are_ready;
pub use witness_book_laws::{
    books_can_stand, evidence_proves, evidence_where_exposed, exposed_exactly_if,
    honest_is_never_exposed, journals_are_histories, left_out_changes_nothing, runs_are_histories,
    what_leaves_books,
};
