//! Why an authenticator was not taken, and why members are no roster.

ghost use Rattle.authenticator.specs.declared.refusal.Refusal.TheVariants.{Garbage, NoMemory};

use thiserror::Error;

/// The first of Garbage, UnknownNode and BadSignature.
#[derive(Clone, Copy, Debug, PartialEq, Eq, Error)]
pub enum Refusal {
    /// The node that signs is no member.
    #[error("unknown node")]
    UnknownNode,
    /// The bytes are no text of an authenticator.
    #[error("garbage")]
    Garbage,
    /// The member that is named didn't sign this.
    #[error("bad signature")]
    BadSignature,
    /// A growth was refused.
    #[error("out of memory")]
    NoMemory,
}

impl Refusal {
    ghost use Rattle.std.specs.Prelude.{◌≡◌};
    ghost use Rattle.authenticator.specs.RefusalNumbers.{refusal_number};

    /// The number that programs print: 1 UnknownNode, 2 Garbage, 3 BadSignature. Being out of memory has
    /// none.
    pub fn number(self) -> Option<u32>
        ensures { result ≡ refusal_number self }
    {
        match self {
            Refusal::UnknownNode => Some(1),
            Refusal::Garbage => Some(2),
            Refusal::BadSignature => Some(3),
            Refusal::NoMemory => None,
        }
    }
}

/// Why members are no roster: `TooMany` before the others, which are of the first member that has a fault, in
/// this order.
#[derive(Clone, Copy, Debug, PartialEq, Eq, Error)]
pub enum RosterFault {
    /// There are more than 64 members.
    #[error("more than 64 members")]
    TooMany,
    /// A member's number isn't from 1 to 64.
    #[error("a number that isn't from 1 to 64")]
    BadNumber,
    /// A member's height isn't from 1 to 16.
    #[error("a height that isn't from 1 to 16")]
    BadHeight,
    /// A member's number isn't above the one before.
    #[error("numbers that don't rise")]
    NotRising,
}
