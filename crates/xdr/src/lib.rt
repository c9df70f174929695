//! Items in bytes, as RFC 4506 lays them out.
#![tactic(auto)]

mod fault;
pub mod laws;
mod list;
mod reader;
pub mod texts;
mod writer;

pub use fault::XdrFault;
pub use list::{FromXdr, ReadFault, read_array};
pub use reader::{Reader, put_back_on_err};
pub use writer::{Writer, all_or_nothing};
