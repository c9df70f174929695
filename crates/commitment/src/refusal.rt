//! Why a message was not sent or not received.

ghost use Rattle.std.specs.Prelude.{◌≡◌};
ghost use Rattle.commitment.specs.declared.refusal.Refusal.TheVariants.{NoMemory};
ghost use Rattle.commitment.specs.RefusalNumbers.{refusal_of};

use crate::senders::SendRefusal;
use std::alloc::AllocError;
use thiserror::Error;

/// The first of these that applies. After each nothing has changed.
#[derive(Clone, Copy, Debug, PartialEq, Eq, Error)]
pub enum Refusal {
    /// The bytes are no text of an envelope.
    #[error("garbage")]
    Garbage,
    /// The envelope is for another node, or from this one.
    #[error("not for me")]
    NotForMe,
    /// Its sender is no member, or didn't sign it.
    #[error("bad signature")]
    BadSignature,
    /// No key is left.
    #[error("all keys are used up")]
    KeysUsedUp,
    /// Numbers are to be skipped in a log of version 1.
    #[error("no gaps")]
    NoGaps,
    /// In a log of version 2 fewer than 1 or more than 64 numbers are to be skipped, or an entry's number would
    /// pass 4,294,967,295.
    #[error("gap too wide")]
    GapTooWide,
    /// A growth was refused.
    #[error("out of memory")]
    NoMemory,
}

impl Refusal {
    ghost use Rattle.std.specs.Prelude.{◌≡◌};
    ghost use Rattle.commitment.specs.RefusalNumbers.{refusal_number};

    /// The number that programs print, from 1 to 6 in the order above. Being out of memory has none.
    pub fn number(self) -> Option<u32>
        ensures { result ≡ refusal_number self }
    {
        match self {
            Refusal::Garbage => Some(1),
            Refusal::NotForMe => Some(2),
            Refusal::BadSignature => Some(3),
            Refusal::KeysUsedUp => Some(4),
            Refusal::NoGaps => Some(5),
            Refusal::GapTooWide => Some(6),
            Refusal::NoMemory => None,
        }
    }
}

impl From<AllocError> for Refusal {
    ghost from_gives = { λ _ e. e ≡ NoMemory };

    fn from(_e: AllocError) -> Refusal {
        Refusal::NoMemory
    }
}

impl From<SendRefusal> for Refusal {
    ghost from_gives = { λ s e. e ≡ refusal_of s };

    fn from(refused: SendRefusal) -> Refusal {
        match refused {
            SendRefusal::KeysUsedUp => Refusal::KeysUsedUp,
            SendRefusal::GapTooWide => Refusal::GapTooWide,
            SendRefusal::NoMemory => Refusal::NoMemory,
        }
    }
}
