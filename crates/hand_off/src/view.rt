//! What a seat knows of its slot. No value of these types is made: they are for proofs alone.

use replay_jobs::PlainJob;

/// How many workers were made, how many of them are retired, and the word that was read since all are.
pub struct Workers {
    /// How many were made.
    pub made: u64,
    /// How many of them are retired.
    pub retired: u64,
    /// The word that the poster read after the last one was retired.
    pub noted: Option<u64>,
}

/// What a seat knows of its slot.
pub enum View {
    /// The poster: the job that it posted and hasn't collected, whether the slot is at home while it
    /// is empty, and the workers.
    Poster(Option<PlainJob>, bool, Workers),
    /// A worker, by its number, that holds nothing.
    Idle(u64),
    /// A worker that holds the slot, with its job.
    Holds(u64, PlainJob),
    /// A worker that was retired.
    Retired,
}
