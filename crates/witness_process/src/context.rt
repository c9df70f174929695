//! What all threads of a witness are handed.

use crate::elsewhere::{Elsewhere, Told};
use crate::orders::KnownRoster;
use crate::watch::Watch;
use authenticator::Roster;
use peer_connections::{Output, Phase, end_serving, is_serving};
use std::alloc::{AllocError, Global};
use std::sync::{Mutex, MutexGuard, Wait};
use std::time::{Clock, Duration};

/// How many milliseconds pass between two looks at the phase.
const PAUSE: u64 = 100;

/// What a witness is told, as in its order.
#[derive(Clone, Copy)]
pub(crate) struct Settings<'a> {
    pub(crate) digest: [u8; 32],
    pub(crate) epoch: u32,
    pub(crate) known: &'a [KnownRoster],
    pub(crate) every: u32,
    pub(crate) patience: u32,
    pub(crate) overlap: u32,
    pub(crate) evidence: Option<&'a str>,
    pub(crate) workers: usize,
}

/// What all threads of a witness are handed.
pub(crate) struct Context<'a, R, T, W, E, S> {
    pub(crate) rt: &'a R,
    pub(crate) alloc: Global,
    pub(crate) clock: &'a T,
    pub(crate) roster: &'a Roster,
    pub(crate) settings: Settings<'a>,
    pub(crate) elsewhere: &'a Mutex<Elsewhere>,
    pub(crate) watch: &'a Mutex<Watch>,
    pub(crate) phase: &'a Mutex<Phase>,
    pub(crate) output: &'a Mutex<Output<W, E>>,
    pub(crate) shelf: &'a Mutex<S>,
}

impl<'a, R, T, W, E, S> Clone for Context<'a, R, T, W, E, S> {
    fn clone(&self) -> Result<Context<'a, R, T, W, E, S>, AllocError> {
        Ok(*self)
    }
}

impl<'a, R, T, W, E, S> Copy for Context<'a, R, T, W, E, S> {}

impl<'a, R: Wait, T: Clock, W, E, S> Context<'a, R, T, W, E, S> {
    /// What all threads share, with the clock read.
    pub(crate) fn lock(&self) -> MutexGuard<'a, Watch> {
        let mut watch = self.watch.lock(self.rt);
        watch.look(self.clock);
        watch
    }

    /// Whether the process still serves.
    pub(crate) fn is_serving(&self) -> bool {
        is_serving(self.rt, self.phase)
    }

    /// Waits a moment.
    pub(crate) fn pause(&self) {
        self.clock.sleep(Duration::from_millis(PAUSE));
    }

    /// Waits for some seconds, at least 1. Says whether the process still serves.
    pub(crate) fn wait(&self, seconds: u32) -> bool {
        wait_for(self.rt, self.clock, self.phase, seconds)
    }

    /// A server goes by a roster of a later epoch: the process is to end.
    pub(crate) fn end_by(&self, told: Told) {
        self.elsewhere.lock(self.rt).note(told);
        end_serving(self.rt, self.phase, Phase::Stopping);
    }
}

/// Waits for some seconds, at least 1, or until a process no longer serves. Says whether it still serves.
pub(crate) fn wait_for<R: Wait, T: Clock>(
    rt: &R,
    clock: &T,
    phase: &Mutex<Phase>,
    seconds: u32,
) -> bool {
    for _ in 0..u64::from(seconds.max(1)) * (1000 / PAUSE) {
        if !is_serving(rt, phase) {
            return false;
        }
        clock.sleep(Duration::from_millis(PAUSE));
    }
    is_serving(rt, phase)
}
