//! Who has a segment of a log made and written.

use std::alloc::Global;
use std::net::IpAddr;
use std::sync::{Mutex, Wait};

/// How many have one written at once at most.
const MOST: usize = 2;

/// A connection that has a turn, and its peer's address.
#[derive(Clone, Copy)]
struct Turn {
    id: u64,
    address: IpAddr,
}

/// The turns of a process's connections at having a segment of a log made and written: two at a time, and one of an
/// address. So whoever reads slowly holds no more memory than that, and nobody holds both. They lie under a lock of
/// their own.
#[derive(Drop)]
pub struct SegmentTurns {
    turns: Mutex<Vec<Turn>>,
}

impl SegmentTurns {
    /// Nobody has a turn.
    pub fn new(alloc: Global) -> SegmentTurns {
        SegmentTurns {
            turns: Mutex::new(Vec::new(alloc)),
        }
    }

    /// Gives a connection a turn, where fewer than two have one, and none of its address: whether it has one now. Where
    /// a growth was refused it has none.
    pub fn take<R: Wait>(&self, rt: &R, id: u64, address: IpAddr) -> bool {
        let mut turns = self.turns.lock(rt);
        if turns.len() >= MOST || has_address(&turns, &address) {
            return false;
        }
        turns.push(Turn { id, address }).is_ok()
    }

    /// A connection's answer was written, or it has ended: its turn is over, if it had one.
    pub fn give_back<R: Wait>(&self, rt: &R, id: u64) {
        self.turns.lock(rt).retain(|turn| turn.id != id);
    }
}

/// Whether a connection of an address has a turn.
fn has_address(turns: &[Turn], address: &IpAddr) -> bool {
    for turn in turns {
        if turn.address == *address {
            return true;
        }
    }
    false
}
