//! Arguments and results of NFS version 2 (RFC 1094, sections 2.2 and 2.3).
#![tactic(auto)]

mod arguments;
pub mod laws;
mod limits;
mod reading;
pub mod result_texts;
mod results;
pub mod worked;

pub use arguments::{DirOpArgs, NfsArgs, NfsProcedure};
pub use limits::{MAXDATA, MAXNAMLEN, MAXPATHLEN, SHORT_ANSWER};
pub use reading::read_args;
pub use results::{DirOpOk, FsStats, NfsResult, Page, PageEntry, ReadOk};
