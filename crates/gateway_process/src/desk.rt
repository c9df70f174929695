//! What threads that call leave for the one that reports to witnesses, and what that one brings back.

use assurance::AssuredTo;
use std::alloc::{AllocError, Global};
use std::mem;

/// What the last report to a witness brought.
#[derive(Drop)]
pub(crate) struct Assured {
    /// Where the witness listens.
    pub(crate) address: String,
    pub(crate) to: AssuredTo,
}

/// What threads that call leave for the one that reports to witnesses, and what its reports brought: it lies under a
/// lock.
#[derive(Drop)]
pub(crate) struct Desk {
    /// The numbers of the client's SENDs for which nothing came back that counts, oldest first.
    unanswered: Vec<u64>,
    /// Whether witnesses are to be told at once.
    is_urgent: bool,
    /// What the last report to each witness brought.
    assured: Vec<Assured>,
}

impl Desk {
    /// An empty one.
    pub(crate) fn new(alloc: Global) -> Desk {
        Desk {
            unanswered: Vec::new(alloc),
            is_urgent: false,
            assured: Vec::new(alloc),
        }
    }

    /// Keeps a SEND's number for witnesses, who are told at once. Without memory for it they aren't.
    pub(crate) fn keep_unanswered(&mut self, number: u64) {
        if self.unanswered.contains(&number) {
            return;
        }
        if self.unanswered.push(number).is_ok() {
            self.is_urgent = true;
        }
    }

    /// The numbers of the SENDs that were kept for witnesses, oldest first.
    pub(crate) fn unanswered(&self, alloc: Global) -> Result<Vec<u64>, AllocError> {
        self.unanswered.to_vec(alloc)
    }

    /// Whether witnesses are to be told at once; from now on they aren't.
    pub(crate) fn take_urgent(&mut self) -> bool {
        mem::replace(&mut self.is_urgent, false)
    }

    /// A report to a witness has brought this.
    pub(crate) fn note_assured(&mut self, assured: Assured) -> Result<(), AllocError> {
        self.assured
            .retain(|other| other.address != assured.address);
        match self.assured.push(assured) {
            Ok(()) => Ok(()),
            Err(_) => Err(AllocError),
        }
    }

    /// What the last report to each witness brought.
    pub(crate) fn assured(&self) -> &[Assured] {
        &self.assured
    }
}
