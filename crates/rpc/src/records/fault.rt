//! Why no record could be read or written.

ghost use Rattle.std.specs.Prelude.{◌≡◌};

use thiserror::Error;

/// Why no record could be read or written.
#[derive(Clone, Copy, Debug, PartialEq, Eq, Error)]
pub enum RecordFault {
    /// There was no memory for a record. Nothing was read.
    #[error("out of memory")]
    NoMemory,
    /// A record has more than `MAX_RECORD` bytes (12,288) or `MAX_FRAGMENTS` fragments (16,384).
    #[error("a record is too long")]
    RecordTooLong,
    /// A call of the reader or the writer failed, or a write took nothing.
    #[error("the device failed")]
    Device,
    /// The stream ends within a record.
    #[error("the stream ends within a record")]
    EndInRecord,
}

impl RecordFault {
    ghost use Rattle.rpc.specs.Records.Fault.{fault_number};

    /// The number of a fault of the stream: 3, 4 or 5. Being out of memory has none.
    pub fn number(self) -> Option<u32>
        ensures { result ≡ fault_number self }
    {
        match self {
            RecordFault::NoMemory => None,
            RecordFault::RecordTooLong => Some(3),
            RecordFault::Device => Some(4),
            RecordFault::EndInRecord => Some(5),
        }
    }
}
