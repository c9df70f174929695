//! The time, as lines tell it.

use jiff::Timestamp;
use std::rt::Clock;
use std::time::{Duration, SystemTime, UNIX_EPOCH};

/// The time now, to the second below, where the clock tells one: its `Display` is that of RFC 3339 in UTC, as
/// `2026-11-28T10:00:02Z`.
pub fn time_now<R: Clock>(clock: &R) -> Option<Timestamp> {
    let since = clock.since_1970().ok()?;
    let now: SystemTime = UNIX_EPOCH.checked_add(Duration::from_secs(since.as_secs()))?;
    Timestamp::try_from(now).ok()
}
