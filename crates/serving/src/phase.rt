//! How far a run is with its connections.

/// How far a run is with its connections: it lies under a lock.
#[derive(Clone, Copy, Debug, PartialEq, Eq)]
pub(crate) enum Phase {
    /// Connections are accepted and served.
    Serving,
    /// The run was told to end: no connection is accepted, and those that stand end.
    Stopping,
    /// All connections have ended.
    Over,
}
