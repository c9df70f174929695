//! How far a process is with its connections.

use std::sync::{Mutex, Wait};

/// How far a process is with its connections: it lies under a lock.
#[derive(Clone, Copy, Debug, PartialEq, Eq)]
pub enum Phase {
    /// Connections are accepted and served.
    Serving,
    /// The process was told to end: no connection is accepted, and those that stand end.
    Stopping,
    /// The keys of its node are used up, and it ends likewise.
    KeysUsedUp,
}

/// Whether the process still serves.
pub fn is_serving<R: Wait>(rt: &R, phase: &Mutex<Phase>) -> bool {
    *phase.lock(rt) == Phase::Serving
}

/// Ends the serving for this reason, unless it has ended for another.
pub fn end_serving<R: Wait>(rt: &R, phase: &Mutex<Phase>, reason: Phase) {
    let mut phase = phase.lock(rt);
    if *phase == Phase::Serving {
        *phase = reason;
    }
}
