//! What a witness assures, in words.

ghost use Rattle.std.specs.Prelude.{◌≡◌, IfOk, None, string_bytes};
ghost use Rattle.assurance.specs.Assured.{assured_words};

use std::alloc::{AllocError, Global};
use std::marker::Model;

/// Up to which number of the server's log a witness answers for the replies that were handed out, if it does. One with a
/// number comes from `Exchanges::assured` alone.
#[derive(Clone, Copy, Debug, PartialEq, Eq)]
pub struct AssuredTo {
    number: Option<u64>,
}

impl Model for AssuredTo {
    ghost use Rattle.std.specs.Prelude.{Option, ℕ};

    ghost Value = { Option ℕ };

    ghost view = { λ a. a.number };

    ghost inverse = { λ n. record { number = n } };
}

impl AssuredTo {
    /// Of no reply.
    pub fn none() -> AssuredTo
        ensures { result ≡ None }
    {
        AssuredTo { number: None }
    }

    /// Up to this number, if there is one.
    pub(crate) fn new(number: Option<u64>) -> AssuredTo
        ensures { result ≡ number }
    {
        AssuredTo { number }
    }

    /// The number.
    pub fn number(self) -> Option<u64>
        ensures { result ≡ self }
    {
        self.number
    }

    /// `assured to 96`, or `assured of none`.
    pub fn words(self, alloc: Global) -> Result<String, AllocError>
        ensures { IfOk result (λ words. string_bytes words ≡ assured_words self) }
    {
        match self.number {
            Some(number) => format!(in alloc; "assured to {number}"),
            None => format!(in alloc; "assured of none"),
        }
    }
}
