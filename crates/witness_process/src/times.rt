//! The time, as lines tell it.

use jiff::Timestamp;
use std::time::{Clock, Duration, SystemTime, UNIX_EPOCH};

/// The reading of a clock in whole seconds since 1970, or the last one where it fails.
pub(crate) fn seconds_now<T: Clock>(clock: &T, last: u64) -> u64 {
    match clock.since_1970() {
        Ok(since) => since.as_secs(),
        Err(_) => last,
    }
}

/// The time so many seconds after 1970 began, where it can be told: its `Display` is that of RFC 3339 in UTC, as
/// `2026-11-28T10:00:02Z`.
pub(crate) fn time_at(seconds: u64) -> Option<Timestamp> {
    let time: SystemTime = UNIX_EPOCH.checked_add(Duration::from_secs(seconds))?;
    Timestamp::try_from(time).ok()
}
