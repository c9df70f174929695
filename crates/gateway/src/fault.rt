//! Why a stream came to an end before its records did.

ghost use Rattle.std.specs.Prelude.{◌≡◌};

use crate::links::LinkFault;
use rpc::records::RecordFault;
use thiserror::Error;

/// Why a stream came to an end before its records did.
#[derive(Clone, Copy, Debug, PartialEq, Eq, Error)]
pub enum StreamFault {
    /// A record has more than 12,288 bytes or 16,384 fragments.
    #[error("a record is too long")]
    RecordTooLong,
    /// A call of the reader or the writer failed, or a write took nothing.
    #[error("the device failed")]
    Device,
    /// The stream ends within a record.
    #[error("the stream ends within a record")]
    EndInRecord,
    /// The keys of the link's client or server are used up.
    #[error("keys used up")]
    KeysUsedUp,
    /// A growth was refused.
    #[error("out of memory")]
    NoMemory,
    /// The link has failed, or the gateway has.
    #[error("failed")]
    Failed,
}

impl StreamFault {
    ghost use Rattle.gateway.specs.Faults.{fault_number};

    /// The number that programs print: 3 RecordTooLong, 4 Device, 5 EndInRecord, 6 KeysUsedUp, 7 NoMemory,
    /// 8 Failed.
    pub fn number(self) -> u32
        ensures { result ≡ fault_number self }
    {
        match self {
            StreamFault::RecordTooLong => 3,
            StreamFault::Device => 4,
            StreamFault::EndInRecord => 5,
            StreamFault::KeysUsedUp => 6,
            StreamFault::NoMemory => 7,
            StreamFault::Failed => 8,
        }
    }
}

impl From<RecordFault> for StreamFault {
    ghost use Rattle.gateway.specs.Faults.{of_records};

    ghost from_gives = { λ f e. e ≡ of_records f };

    fn from(fault: RecordFault) -> StreamFault {
        match fault {
            RecordFault::NoMemory => StreamFault::NoMemory,
            RecordFault::RecordTooLong => StreamFault::RecordTooLong,
            RecordFault::Device => StreamFault::Device,
            RecordFault::EndInRecord => StreamFault::EndInRecord,
        }
    }
}

impl From<LinkFault> for StreamFault {
    ghost use Rattle.gateway.specs.Faults.{of_link};

    ghost from_gives = { λ f e. e ≡ of_link f };

    fn from(fault: LinkFault) -> StreamFault {
        match fault {
            LinkFault::KeysUsedUp => StreamFault::KeysUsedUp,
            LinkFault::NoMemory => StreamFault::NoMemory,
            LinkFault::Failed => StreamFault::Failed,
        }
    }
}
