//! Times.

ghost use Rattle.std.specs.Prelude.{◌≡◌, ◌<◌, ◌↔◌, IsSome, IfSome};

use std::marker::Model;

/// A time (RFC 1094, section 2.3.4): seconds since the start of 1970, and microseconds below 1,000,000.
#[derive(Clone, Copy, Debug, PartialEq, Eq)]
pub struct Time {
    seconds: u32,
    microseconds: u32,
}

impl Model for Time {
    ghost use Rattle.std.specs.Prelude.{◌<◌};
    ghost use Rattle.nfs_items.specs.Timeval.{Timeval, timeval_code};

    ghost Value = { Timeval };

    ghost coded = { timeval_code };

    ghost view = { λ t. record { seconds = t.seconds; microseconds = t.microseconds } };

    ghost invariant = { λ t. t.microseconds < 1000000 };

    ghost inverse = { λ v. record { seconds = v.seconds; microseconds = v.microseconds } };
}

impl Time {
    ghost use Rattle.nfs_items.specs.Timeval.{is_before, later};

    /// A time, or none where the microseconds are 1,000,000 or more.
    pub fn new(seconds: u32, microseconds: u32) -> Option<Time>
        ensures variant { IsSome result ↔ (microseconds < 1000000) }
        ensures value { IfSome result (λ t. t ≡ record { seconds = seconds; microseconds = microseconds }) }
    {
        if microseconds < 1_000_000 {
            Some(Time {
                seconds,
                microseconds,
            })
        } else {
            None
        }
    }

    /// The start of 1970.
    pub fn epoch() -> Time
        ensures { result ≡ record { seconds = 0; microseconds = 0 } }
    {
        Time {
            seconds: 0,
            microseconds: 0,
        }
    }

    /// Its whole seconds.
    pub fn seconds(self) -> u32
        ensures { result ≡ self.seconds }
    {
        let Time { seconds, .. } = self;
        seconds
    }

    /// Its microseconds within the second, below 1,000,000.
    pub fn microseconds(self) -> u32
        ensures value { result ≡ self.microseconds }
        ensures in_range { result < 1000000 }
    {
        let Time { microseconds, .. } = self;
        microseconds
    }

    /// Whether it is before another.
    pub fn is_before(self, other: Time) -> bool
        ensures { result ≡ is_before self other }
    {
        self.seconds < other.seconds
            || (self.seconds == other.seconds && self.microseconds < other.microseconds)
    }

    /// The later of two times.
    pub fn later(self, other: Time) -> Time
        ensures { result ≡ later self other }
    {
        if self.is_before(other) { other } else { self }
    }
}
