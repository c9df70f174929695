//! What a witness's journal shows once it is closed: what was said of each member in the end, and how far the
//! members were audited. Nothing here waits.
#![tactic(auto)]

mod audits;
mod report;

pub use audits::{are_forwarded, was_filed_to, was_refused};
pub use node_book::Indication;
pub use report::{NodeReport, final_reports};
pub use witness_service::Note;
