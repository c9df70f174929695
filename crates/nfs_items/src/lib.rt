//! The items that calls and answers of NFS version 2 are made of (RFC 1094, section 2.3), and who calls.
#![tactic(auto)]

mod attributes;
mod credential;
mod handle;
pub mod laws;
mod sattr;
mod stat;
mod time;
mod who;
pub mod worked;

pub use attributes::{Fattr, FileType};
pub use credential::read_credential;
pub use handle::{FileHandle, FileHandleRef};
pub use sattr::{RawTime, Sattr};
pub use stat::Stat;
pub use time::Time;
pub use who::{Groups, Who};
pub use xdr::{ReadFault, Reader, Writer, XdrFault, all_or_nothing};
