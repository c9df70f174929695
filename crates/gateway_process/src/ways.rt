//! The ways to the server.

use crate::way::Way;
use pipelining::Loads;
use std::alloc::{AllocError, Global};
use std::sync::{Mutex, Wait};

/// How many connections to the server there are at most: as many as a server keeps of a member.
const WAYS: usize = 4;

/// The ways to the server, each of which carries any number of calls at a time.
#[derive(Drop)]
pub(crate) struct Ways {
    ways: Vec<Way>,
    /// How many calls each of them carries.
    loads: Mutex<Loads>,
}

impl Ways {
    /// Ways without connections.
    pub(crate) fn new(alloc: Global) -> Result<Ways, AllocError> {
        let mut ways = Vec::new(alloc);
        for _ in 0..WAYS {
            if ways.push(Way::new(alloc)).is_err() {
                return Err(AllocError);
            }
        }
        let loads = Mutex::new(Loads::new(alloc, WAYS)?);
        Ok(Ways { ways, loads })
    }

    /// All of them.
    pub(crate) fn all(&self) -> &[Way] {
        &self.ways
    }

    /// The one that carries the fewest calls, with its number: it carries one more until that is given to `leave`.
    pub(crate) fn choose<R: Wait>(&self, rt: &R) -> Option<(usize, &Way)> {
        let number = self.loads.lock(rt).choose()?;
        Some((number, self.ways.get(number)?))
    }

    /// The way with a number carries one call less.
    pub(crate) fn leave<R: Wait>(&self, rt: &R, number: usize) {
        self.loads.lock(rt).leave(number);
    }

    /// Whether there is a connection.
    pub(crate) fn is_open<R: Wait>(&self, rt: &R) -> bool {
        for way in &self.ways {
            if way.is_open(rt) {
                return true;
            }
        }
        false
    }
}
