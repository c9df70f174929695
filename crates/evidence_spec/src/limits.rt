//! How much of a log is audited, and how much a base may have.

/// The most entries of a node that are audited.
pub const MAX_AUDITED: u32 = 65_536;

/// The most bytes that a base may have for a state.
pub const MAX_STATE: u32 = 67_108_864;

/// The most messages that the state of a base knows as received, and the most that it knows as sent.
pub const MAX_KNOWN: u32 = 65_536;
