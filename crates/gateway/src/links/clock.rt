//! Clocks, and two that tell what they read.

ghost use Rattle.std.specs.Prelude.{◌≡◌, IfSome, Some, None, Option};
ghost use Rattle.gateway.specs.Links.Readings.{Readings, IsAfter, readings_of};

use nfs_items::Time;
use std::collections::VecDeque;

/// Tells the time. It may go back, and stand still.
///
/// Its ghost member `readings` is what it reads from now on, where that is known: of the system's clock it
/// isn't.
pub trait Clock {
    // What it reads from now on, where that is known.
    ghost readings: { Self → Option Readings } = { λ _. None };

    /// The time now: the next of its readings.
    fn now(&mut self) -> Time
        ensures reading { IfSome (readings self.old) (λ f. result ≡ f 0) }
        ensures rest { IfSome (readings self.old) (λ f. IsAfter 1 f (readings self.new)) };
}

/// A clock that stands still.
#[derive(Clone, Copy, Debug, PartialEq, Eq)]
pub struct FixedClock {
    /// What it reads.
    pub time: Time,
}

impl Clock for FixedClock {
    ghost readings = { λ c. Some (λ _. c.time) };

    fn now(&mut self) -> Time {
        self.time
    }
}

/// A clock that reads given times, one after the other, and the last of them from then on.
#[derive(Debug, Drop)]
pub struct ScriptedClock {
    /// What it reads next.
    pub next: Time,
    /// What it reads after that.
    pub later: VecDeque<Time>,
}

impl Clock for ScriptedClock {
    ghost readings = { λ c. Some (readings_of c.next c.later.items) };

    fn now(&mut self) -> Time {
        let time = self.next;
        if let Some(next) = self.later.pop_front() {
            self.next = next;
        }
        time
    }
}
