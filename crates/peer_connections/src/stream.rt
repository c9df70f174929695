//! The stream of a peer.

use crate::phase::{Phase, is_serving};
use crate::seats::Seats;
use crate::turns::SegmentTurns;
use std::io::{self, Read, Write};
use std::net::TcpStream;
use std::sync::{Mutex, Wait};
use std::time::{Duration, Instant};

/// How many milliseconds a read or a write waits at once.
const LOOK: u64 = 250;

/// How many seconds pass between the first byte of a record and its last at most, and as many for one that is
/// written.
const WITHIN: u64 = 30;

/// How many seconds pass between two records at most.
const BETWEEN: u64 = 300;

/// Since when a peer is awaited, and what for.
#[derive(Clone, Copy)]
pub struct Waiting {
    /// Whether a byte of the record came.
    is_within: bool,
    /// When the record before it ended, or its first byte came.
    since: Option<Instant>,
    /// How many seconds pass between two records at most, if there is an end to it.
    between: Option<u64>,
    /// When the answer that is written was begun.
    answering: Option<Instant>,
}

impl Waiting {
    /// A peer of whom nothing came.
    pub fn new() -> Waiting {
        Waiting {
            is_within: false,
            since: None,
            between: Some(BETWEEN),
            answering: None,
        }
    }

    /// A peer of whom nothing came, and who may be silent for ever between records, also in one: a local program.
    pub fn without_end() -> Waiting {
        Waiting {
            is_within: false,
            since: None,
            between: None,
            answering: None,
        }
    }

    /// Another answer is begun, whose time is its own.
    pub fn begin_answer(&mut self) {
        self.answering = None;
    }

    /// How many seconds it may be silent, if there is an end to it.
    fn most(&self) -> Option<u64> {
        let between = self.between?;
        Some(if self.is_within { WITHIN } else { between })
    }
}

/// A connection among the places of its process, and the turns that it may have.
#[derive(Clone, Copy)]
struct Seat<'a> {
    seats: &'a Seats,
    turns: &'a SegmentTurns,
    id: u64,
}

/// A peer's stream. A read finds its end once the process is to end and no record has begun, where nothing came for
/// long between records, or once the connection has lost its place; it fails where a record takes too long. A write
/// fails where an answer takes too long. The last error is kept.
#[derive(Drop)]
pub struct PeerStream<'a, R, T> {
    rt: &'a R,
    clock: &'a T,
    stream: &'a TcpStream,
    phase: &'a Mutex<Phase>,
    waiting: &'a Mutex<Waiting>,
    seat: Option<Seat<'a>>,
    last: Option<io::Error>,
}

/// Has reads and writes of a stream wait a moment at most. Where it can't be set they wait for ever.
pub fn set_timeouts(stream: &TcpStream) {
    let look = Some(Duration::from_millis(LOOK));
    let _ = stream.set_read_timeout(look);
    let _ = stream.set_write_timeout(look);
}

impl<'a, R: Wait, T: std::time::Clock> PeerStream<'a, R, T> {
    /// A stream of a process in this phase.
    pub fn new(
        rt: &'a R,
        clock: &'a T,
        stream: &'a TcpStream,
        phase: &'a Mutex<Phase>,
        waiting: &'a Mutex<Waiting>,
    ) -> PeerStream<'a, R, T> {
        PeerStream {
            rt,
            clock,
            stream,
            phase,
            waiting,
            seat: None,
            last: None,
        }
    }

    /// The same of a connection with this number, which may lose its place. Whenever it is read, what was asked before is
    /// answered, and a turn that the connection had is over.
    pub fn among(
        mut self,
        seats: &'a Seats,
        turns: &'a SegmentTurns,
        id: u64,
    ) -> PeerStream<'a, R, T> {
        self.seat = Some(Seat { seats, turns, id });
        self
    }

    /// The last error, if there was one.
    pub fn last(&self) -> Option<io::Error> {
        self.last
    }

    /// Whether the connection has lost its place.
    fn is_displaced(&self) -> bool {
        match &self.seat {
            Some(seat) => !seat.seats.holds(self.rt, self.clock, seat.id),
            None => false,
        }
    }

    /// Gives back the turn that the connection had.
    fn give_back(&self) {
        if let Some(seat) = &self.seat {
            seat.turns.give_back(self.rt, seat.id);
        }
    }

    /// Keeps an error, and returns it.
    fn noted(&mut self, error: io::Error) -> io::Error {
        self.last = Some(error);
        error
    }

    /// Notes that bytes came.
    fn note_bytes(&self) {
        let mut waiting = self.waiting.lock(self.rt);
        if !waiting.is_within && waiting.between.is_some() {
            waiting.is_within = true;
            waiting.since = Instant::now(self.clock).ok();
        }
    }

    /// Notes that an answer is written: what comes next begins another record.
    fn note_answer(&self) {
        let mut waiting = self.waiting.lock(self.rt);
        waiting.is_within = false;
        waiting.since = Instant::now(self.clock).ok();
    }

    /// Notes that bytes of an answer are to be written, the first after a record that came: whether it is written for
    /// too long. A local program may take its time.
    fn is_late(&self) -> bool {
        let mut waiting = self.waiting.lock(self.rt);
        if waiting.is_within || waiting.answering.is_none() {
            waiting.is_within = false;
            waiting.answering = Instant::now(self.clock).ok();
        }
        match (waiting.between, waiting.answering) {
            (Some(_), Some(begun)) => match begun.elapsed(self.clock) {
                Ok(elapsed) => elapsed.as_secs() >= WITHIN,
                Err(_) => false,
            },
            _ => false,
        }
    }

    /// Whether a byte of a record came, and whether its peer is silent for too long.
    fn silence(&self) -> (bool, bool) {
        let mut waiting = self.waiting.lock(self.rt);
        let (Some(since), Some(most)) = (waiting.since, waiting.most()) else {
            waiting.since = Instant::now(self.clock).ok();
            return (waiting.is_within, false);
        };
        let is_late = match since.elapsed(self.clock) {
            Ok(elapsed) => elapsed.as_secs() >= most,
            Err(_) => false,
        };
        (waiting.is_within, is_late)
    }
}

impl<'a, R: Wait, T: std::time::Clock> Read for PeerStream<'a, R, T> {
    fn read(&mut self, buf: &mut [u8]) -> io::Result<usize> {
        self.give_back();
        for _ in 0..u64::MAX {
            let (is_within, is_late) = self.silence();
            if is_late && is_within {
                return Err(self.noted(io::Error::from(io::ErrorKind::TimedOut)));
            }
            if is_late || self.is_displaced() || (!is_within && !is_serving(self.rt, self.phase)) {
                return Ok(0);
            }
            match (&mut self.stream).read(buf) {
                Ok(count) => {
                    self.note_bytes();
                    return Ok(count);
                }
                Err(error) if error.kind() != io::ErrorKind::WouldBlock => {
                    return Err(self.noted(error));
                }
                Err(_) => {}
            }
        }
        Ok(0)
    }
}

impl<'a, R: Wait, T: std::time::Clock> Write for PeerStream<'a, R, T> {
    fn write(&mut self, bytes: &[u8]) -> io::Result<usize> {
        for _ in 0..WITHIN * 1000 / LOOK {
            if self.is_late() {
                break;
            }
            match (&mut self.stream).write(bytes) {
                Ok(count) => {
                    self.note_answer();
                    return Ok(count);
                }
                Err(error) if error.kind() != io::ErrorKind::WouldBlock => {
                    return Err(self.noted(error));
                }
                Err(_) => {}
            }
        }
        Err(self.noted(io::Error::from(io::ErrorKind::TimedOut)))
    }

    fn flush(&mut self) -> io::Result<()> {
        Ok(())
    }
}
