//! Records of ONC RPC in a stream (RFC 5531, section 11).

mod ahead;
mod counting;
mod fault;
pub mod laws;
mod record;
mod write;

pub use ahead::{Ahead, record_in_front};
pub use counting::Counting;
pub use fault::RecordFault;
pub use record::{MAX_FRAGMENTS, MAX_RECORD, RecordReader};
pub use write::{last_mark, write_bytes, write_front, write_record};
