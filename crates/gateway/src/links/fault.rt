//! Why a link brought no answer.

ghost use Rattle.std.specs.Prelude.{◌≡◌};

use thiserror::Error;

/// Why a link brought no answer.
#[derive(Clone, Copy, Debug, PartialEq, Eq, Error)]
pub enum LinkFault {
    /// The keys of the client or of the server are used up.
    #[error("keys used up")]
    KeysUsedUp,
    /// A growth was refused.
    #[error("out of memory")]
    NoMemory,
    /// The link has failed.
    #[error("failed")]
    Failed,
}

impl LinkFault {
    ghost use Rattle.gateway.specs.Links.FaultNumbers.{fault_number};

    /// The number that programs print: 6 KeysUsedUp, 7 NoMemory, 8 Failed.
    pub fn number(self) -> u32
        ensures { result ≡ fault_number self }
    {
        match self {
            LinkFault::KeysUsedUp => 6,
            LinkFault::NoMemory => 7,
            LinkFault::Failed => 8,
        }
    }
}
