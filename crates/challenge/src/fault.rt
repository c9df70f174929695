//! Why bytes are no evidence.

use std::alloc::AllocError;
use thiserror::Error;
use xdr::ReadFault;

/// Why evidence, or a file with it, could not be read.
#[derive(Clone, Copy, Debug, PartialEq, Eq, Error)]
pub enum EvidenceFault {
    /// The bytes are no text of that kind.
    #[error("garbage")]
    Garbage,
    /// A growth was refused.
    #[error("out of memory")]
    NoMemory,
}

impl From<ReadFault> for EvidenceFault {
    ghost use Rattle.std.specs.Prelude.{◌≡◌};
    ghost use Rattle.challenge.specs.Readings.{fault_of};

    ghost from_gives = { λ e f. f ≡ fault_of e };

    fn from(error: ReadFault) -> EvidenceFault {
        match error {
            ReadFault::NoMemory => EvidenceFault::NoMemory,
            ReadFault::Fault(_) => EvidenceFault::Garbage,
        }
    }
}

impl From<AllocError> for EvidenceFault {
    ghost use Rattle.std.specs.Prelude.{◌≡◌};
    ghost use Rattle.challenge.specs.declared.fault.EvidenceFault.TheVariants.{NoMemory};

    ghost from_gives = { λ e f. f ≡ NoMemory };

    fn from(_: AllocError) -> EvidenceFault {
        EvidenceFault::NoMemory
    }
}

impl EvidenceFault {
    ghost use Rattle.std.specs.Prelude.{◌≡◌};
    ghost use Rattle.challenge.specs.FaultNumbers.{fault_number};

    /// The number that programs print: 1 Garbage. Being out of memory has none.
    pub fn number(self) -> Option<u32>
        ensures { result ≡ fault_number self }
    {
        match self {
            EvidenceFault::Garbage => Some(1),
            EvidenceFault::NoMemory => None,
        }
    }
}
