//! Audits by a pass at a witness: a node's log is asked for segment by segment, replayed and filed, what it
//! shows of others is handed on, and in the end the witness is asked what it says of everybody.
#![tactic(auto)]

mod accounts;
mod audit;
mod finish;
mod lines;
mod output;
mod report;
mod trouble;

pub use accounts::{has_account, last_signed};
pub use audit::{AuditContext, Auditor, Audits};
pub use finish::LogToAudit;
pub use lines::{LineFault, write_reports, write_text};
pub use output::AuditOutput;
pub use report::put_evidence;
pub use trouble::Trouble;
pub use witness_calls::{
    Caller, Closed, Evidence, Pass, ReceiptFault, Shelf, WitnessService, close, open_witness,
};
pub use witness_reports::{NodeReport, are_forwarded, final_reports};
