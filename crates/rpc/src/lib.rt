//! Calls and replies of ONC RPC (RFC 5531, section 9), the records that carry them (`records`), and the laws
//! of records (`record_laws`).
#![tactic(auto)]

mod call;
pub mod laws;
pub mod record_laws;
pub mod records;
mod reply;

pub use call::{Call, CallBody, CallFault, Header, OpaqueAuth, RPC_VERSION, read_call};
pub use reply::{AuthStat, Reply, ReplyBody, write_reply, write_success};
