//! The stream of a connection, as its records are read and its replies written.

use crate::phase::Phase;
use std::io::{self, Read, Write};
use std::net::TcpStream;
use std::sync::{Mutex, Wait};
use std::time::Duration;

/// How many milliseconds a read or a write waits at once, in a run that can be told to stop.
const LOOK: u64 = 250;

/// How many such waits there are in a second.
const LOOKS_OF_A_SECOND: u64 = 4;

/// How many such waits a write has once the run is to end: ten seconds.
const LAST_LOOKS: u64 = 40;

/// How long a stream waits for bytes to read, and for room to write.
#[derive(Clone, Copy)]
pub(crate) struct Timeouts {
    /// How long the system waits at once; for ever if none is given.
    wait: Option<Duration>,
    /// How many times it waits so long.
    turns: u64,
}

impl Timeouts {
    /// The timeouts of a run whose connections may be silent for `idle` seconds, or for ever if none is
    /// given.
    /// Where the run can be told to stop, the stream looks for that four times a second.
    pub(crate) fn new(idle: Option<u32>, has_control: bool) -> Timeouts {
        let seconds = idle.map(u64::from);
        if has_control {
            return Timeouts {
                wait: Some(Duration::from_millis(LOOK)),
                turns: seconds.map_or(u64::MAX, |s| s.saturating_mul(LOOKS_OF_A_SECOND)),
            };
        }
        Timeouts {
            wait: seconds.map(Duration::from_secs),
            turns: 1,
        }
    }

    /// Sets the timeouts of a stream. Where they can't be set it waits for ever.
    pub(crate) fn set(self, stream: &TcpStream) {
        let _ = stream.set_read_timeout(self.wait);
        let _ = stream.set_write_timeout(self.wait);
    }
}

/// A client's stream. A read that times out finds the end of the stream, as does each read once the run is to
/// end. The last error of a read or a write is kept.
#[derive(Drop)]
pub(crate) struct ClientStream<'a, R> {
    rt: &'a R,
    stream: &'a TcpStream,
    phase: &'a Mutex<Phase>,
    timeouts: Timeouts,
    last: Option<io::Error>,
}

impl<'a, R: Wait> ClientStream<'a, R> {
    /// A stream of a run in this phase, with the timeouts that were set for it.
    pub(crate) fn new(
        rt: &'a R,
        stream: &'a TcpStream,
        phase: &'a Mutex<Phase>,
        timeouts: Timeouts,
    ) -> ClientStream<'a, R> {
        ClientStream {
            rt,
            stream,
            phase,
            timeouts,
            last: None,
        }
    }

    /// The last error, if there was one.
    pub(crate) fn last(&self) -> Option<io::Error> {
        self.last
    }

    /// Whether the run is to end.
    fn is_stopping(&self) -> bool {
        *self.phase.lock(self.rt) != Phase::Serving
    }

    /// Keeps an error, and returns it.
    fn noted(&mut self, error: io::Error) -> io::Error {
        self.last = Some(error);
        error
    }
}

impl<'a, R: Wait> Read for ClientStream<'a, R> {
    fn read(&mut self, buf: &mut [u8]) -> io::Result<usize> {
        for turn in 1..u64::MAX {
            if self.is_stopping() {
                return Ok(0);
            }
            match (&mut self.stream).read(buf) {
                Ok(count) => return Ok(count),
                Err(error) if error.kind() != io::ErrorKind::WouldBlock => {
                    return Err(self.noted(error));
                }
                Err(_) if turn >= self.timeouts.turns => return Ok(0),
                Err(_) => {}
            }
        }
        Ok(0)
    }
}

impl<'a, R: Wait> Write for ClientStream<'a, R> {
    fn write(&mut self, bytes: &[u8]) -> io::Result<usize> {
        for turn in 1..u64::MAX {
            match (&mut self.stream).write(bytes) {
                Ok(count) => return Ok(count),
                Err(error) if error.kind() != io::ErrorKind::WouldBlock => {
                    return Err(self.noted(error));
                }
                Err(_) if turn >= self.timeouts.turns => break,
                Err(_) if turn >= LAST_LOOKS && self.is_stopping() => break,
                Err(_) => {}
            }
        }
        Err(self.noted(io::Error::from(io::ErrorKind::TimedOut)))
    }

    fn flush(&mut self) -> io::Result<()> {
        Ok(())
    }
}
