//! Showings: parts of a log that are shown by their links alone, closed by a signature.
#![tactic(auto)]

mod base_read;
mod base_text;
mod base_write;
mod chain;
mod closing;
mod copies;
mod kind;
mod link;
mod read;
mod showing;
mod worded;
mod write;

pub use base_read::{PlainBase, WordedBase, read_base};
pub use base_text::BaseText;
pub use base_write::write_base;
pub use closing::is_signed_in;
pub use evidence_spec::laws::accepted_evidence_proves;
pub use evidence_spec::{MAX_AUDITED, MAX_KNOWN, MAX_SKIPPED, MAX_STATE};
pub use kind::EntryKind;
pub use link::ShownLink;
pub use read::PlainShowing;
pub use secure_log::Mark;
pub use showing::Showing;
pub use worded::WordedShowing;
