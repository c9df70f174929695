//! The places of a process's connections.

use places::{Holder, Places, Standing};
use std::alloc::Global;
use std::sync::{Mutex, Wait};
use std::time::{Clock, Instant};

/// The places of a process's connections, and the number of the next connection.
#[derive(Drop)]
struct Held {
    places: Places,
    next: u64,
}

/// The places of a process's connections, under a lock of their own: so many for strangers, for each member and for
/// audits that nobody holds others off (`places`).
#[derive(Drop)]
pub struct Seats {
    held: Mutex<Held>,
    /// When the process began, if there is a clock.
    begun: Option<Instant>,
}

impl Seats {
    /// No connection came.
    pub fn new<T: Clock>(alloc: Global, clock: &T) -> Seats {
        Seats {
            held: Mutex::new(Held {
                places: Places::new(alloc),
                next: 0,
            }),
            begun: Instant::now(clock).ok(),
        }
    }

    /// A connection comes, and takes a place: its number. None where a growth was refused.
    pub fn enter<R: Wait, T: Clock>(&self, rt: &R, clock: &T, standing: Standing) -> Option<u64> {
        let seen = self.seconds(clock);
        let mut held = self.held.lock(rt);
        let id = held.next;
        held.places.place(Holder { id, seen, standing }).ok()?;
        held.next = id.wrapping_add(1);
        Some(id)
    }

    /// A connection that holds a place takes another one, the last of those that stand so.
    pub fn show<R: Wait, T: Clock>(&self, rt: &R, clock: &T, id: u64, standing: Standing) {
        let seen = self.seconds(clock);
        let mut held = self.held.lock(rt);
        if held.places.holds(id, seen) {
            // Where a growth was refused it stays as it was.
            let _ = held.places.place(Holder { id, seen, standing });
        }
    }

    /// A connection has ended.
    pub fn leave<R: Wait>(&self, rt: &R, id: u64) {
        self.held.lock(rt).places.leave(id);
    }

    /// Whether a connection still holds its place.
    pub fn holds<R: Wait, T: Clock>(&self, rt: &R, clock: &T, id: u64) -> bool {
        let now = self.seconds(clock);
        self.held.lock(rt).places.holds(id, now)
    }

    /// How many seconds the process has run.
    fn seconds<T: Clock>(&self, clock: &T) -> u64 {
        match self.begun {
            Some(begun) => match begun.elapsed(clock) {
                Ok(elapsed) => elapsed.as_secs(),
                Err(_) => 0,
            },
            None => 0,
        }
    }
}
