//! Why nothing is said of a file.

ghost use Rattle.std.specs.Prelude.{◌≡◌};
ghost use Rattle.console.specs.declared.fault.CheckFault.TheVariants.{NoMemory};

use std::alloc::AllocError;
use std::io;
use thiserror::Error;

/// Why nothing is said of a file.
#[derive(Clone, Copy, Debug, Error)]
pub enum CheckFault {
    /// Memory was refused.
    #[error("out of memory")]
    NoMemory,
    /// A read failed.
    #[error("{0}")]
    Read(io::Error),
    /// A write failed.
    #[error("a write failed")]
    Write,
}

impl From<AllocError> for CheckFault {
    ghost from_gives = { λ _ e. e ≡ NoMemory };

    fn from(_e: AllocError) -> CheckFault {
        CheckFault::NoMemory
    }
}
