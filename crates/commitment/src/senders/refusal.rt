//! Why a message was not sent.

ghost use Rattle.std.specs.Prelude.{◌≡◌};
ghost use Rattle.commitment.specs.declared.senders.refusal.SendRefusal.TheVariants.{NoMemory};

use std::alloc::AllocError;
use thiserror::Error;

/// The first of these that applies. After each nothing has changed.
#[derive(Clone, Copy, Debug, PartialEq, Eq, Error)]
pub enum SendRefusal {
    /// No key is left.
    #[error("all keys are used up")]
    KeysUsedUp,
    /// In a log of version 2 its entry's number would pass 4,294,967,295.
    #[error("gap too wide")]
    GapTooWide,
    /// A growth was refused.
    #[error("out of memory")]
    NoMemory,
}

impl From<AllocError> for SendRefusal {
    ghost from_gives = { λ _ e. e ≡ NoMemory };

    fn from(_e: AllocError) -> SendRefusal {
        SendRefusal::NoMemory
    }
}
