//! Why an item could not be read.

use thiserror::Error;

/// The first fault from left to right. Its number is the one that programs print.
#[derive(Clone, Copy, Debug, PartialEq, Eq, Error)]
pub enum XdrFault {
    /// The bytes end within an item.
    #[error("the bytes end within an item")]
    Short = 1,
    /// A byte after opaque data, up to a multiple of four, isn't zero (RFC 4506, section 4.9).
    #[error("padding is not zero")]
    Padding = 2,
    /// A bool is neither 0 nor 1 (RFC 4506, section 4.4).
    #[error("a bool is neither 0 nor 1")]
    BadBool = 3,
    /// A length or a count is above its bound (RFC 4506, sections 4.10, 4.11, 4.13).
    #[error("a length is above its bound")]
    TooLong = 4,
    /// An enum has no such value (RFC 4506, sections 4.3 and 4.15).
    #[error("an enum has no such value")]
    BadEnum = 5,
}

impl XdrFault {
    ghost use Rattle.std.specs.Prelude.{◌≡◌};
    ghost use Rattle.xdr.specs.Fault.{fault_number};

    /// The fault's number, from 1 to 5.
    pub fn number(self) -> u32
        ensures { result ≡ fault_number self }
    {
        self as u32
    }
}
