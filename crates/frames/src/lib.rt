//! Records of ONC RPC in a stream (RFC 5531, section 11), of a bound that is handed in, read so that memory
//! grows with what came.
#![tactic(auto)]

mod bound;
mod fault;
mod pieces;
mod reader;
mod write;

pub use bound::{Bound, FRONT, SHORT, UpTo};
pub use fault::FrameFault;
pub use pieces::PIECE;
pub use reader::FrameReader;
pub use write::{MARK, mark_frame, write_frame};
