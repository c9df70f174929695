//! What tells a message from others.

/// A message: its sender, its word in the sender's log, and the hash of that log after it. Messages are
/// ordered by these three, the word by its 64 bits.
#[derive(Clone, Copy, Debug, PartialEq, Eq, PartialOrd, Ord)]
pub struct Message {
    /// The sender.
    pub from: u32,
    /// The 64 bits of its word in the sender's log.
    pub seq: u64,
    /// The hash of the sender's log there.
    pub hash: [u8; 32],
}
