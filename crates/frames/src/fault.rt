//! Why no record could be read or written.

use thiserror::Error;

/// Why no record could be read or written.
#[derive(Clone, Copy, Debug, PartialEq, Eq, Error)]
pub enum FrameFault {
    /// There was no memory for what came.
    #[error("out of memory")]
    NoMemory,
    /// A record has more bytes than its bound, or more than 16,384 fragments.
    #[error("a record is too long")]
    TooLong,
    /// A call of the reader or the writer failed, or a write took nothing.
    #[error("the device failed")]
    Device,
    /// The stream ends within a record.
    #[error("the stream ends within a record")]
    EndInRecord,
}
