//! What a book of one node replies and holds, by the book alone: laws that this is what a witness may say.
#![tactic(auto)]

pub mod laws;

pub use witness_laws::books::{
    books_can_stand, journals_are_histories, runs_are_histories, what_leaves_books,
};
pub use witness_laws::evidence::laws::{evidence_proves, evidence_where_exposed};
pub use witness_laws::laws::{exposed_exactly_if, left_out_changes_nothing};
pub use witness_laws::trust::laws::honest_is_never_exposed;
