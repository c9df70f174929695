//! The time that a server logs.

ghost use Rattle.std.specs.Prelude.{◌≡◌, ◌<◌, ◌^◌, ◌/◌, ◌%◌, ◌↔◌, IfSome, IsSome};
ghost use Rattle.std.specs.Duration.{as_nanos};

use gateway::links::Clock;
use nfs_items::Time;
use std::time::Duration;

/// The system's time since 1970, in microseconds. Where the system's clock fails, or reads a time past 2^32
/// seconds, the last reading is given again; before the first that is 1970.
#[derive(Drop)]
pub struct SystemClock<'a, T> {
    source: &'a T,
    last: Time,
}

impl<'a, T: std::time::Clock> SystemClock<'a, T> {
    /// A clock that reads from `source`.
    pub fn new(source: &'a T) -> SystemClock<'a, T> {
        SystemClock {
            source,
            last: Time::epoch(),
        }
    }

    /// What the source reads, where it can be told.
    fn reading(&self) -> Option<Time> {
        time_at(self.source.since_1970().ok()?)
    }
}

/// The time so long after 1970 began, to the microsecond below: none from 2^32 seconds on.
fn time_at(since: Duration) -> Option<Time>
    ensures told { IsSome result ↔ (as_nanos since / 1_000_000_000 < 2 ^ 32) }
    ensures time { IfSome result (λ t. t ≡ record {
      seconds = as_nanos since / 1_000_000_000;
      microseconds = as_nanos since % 1_000_000_000 / 1_000;
    }) }
{
    let seconds = u32::try_from(since.as_secs()).ok()?;
    Time::new(seconds, since.subsec_micros())
}

impl<'a, T: std::time::Clock> Clock for SystemClock<'a, T> {
    fn now(&mut self) -> Time {
        if let Some(time) = self.reading() {
            self.last = time;
        }
        self.last
    }
}
