//! Accepts connections until the process no longer serves.

use crate::output::Output;
use crate::phase::{Phase, is_serving};
use sockets::{AcceptTrouble, trouble_of};
use std::alloc::Global;
use std::io::{self, Write};
use std::net::{OpenListener, SocketAddr, TcpStream};
use std::sync::{Mutex, Wait};
use std::time::Duration;

/// How many milliseconds pass between two looks at a listener.
const PAUSE: u64 = 20;

/// Which of the listeners has accepted a connection.
#[derive(Clone, Copy, Debug, PartialEq, Eq)]
pub enum Place {
    First,
    Second,
}

/// Where a process listens, at one address or at two, and what it says of its listeners.
#[derive(Drop)]
pub struct Accepting<'a, R, T, L, W, E> {
    pub rt: &'a R,
    pub alloc: Global,
    pub clock: &'a T,
    pub phase: &'a Mutex<Phase>,
    pub output: &'a Mutex<Output<W, E>>,
    pub first: &'a L,
    pub second: Option<&'a L>,
}

impl<'a, R, T, L, W, E> Accepting<'a, R, T, L, W, E>
where
    R: Wait,
    T: std::time::Clock,
    L: OpenListener<Stream = TcpStream>,
    W: Write,
    E: Write,
{
    /// Has the listeners not wait, so that the process sees when it is to end.
    pub fn begin(&self) {
        let _ = self.first.set_nonblocking(true);
        if let Some(second) = self.second {
            let _ = second.set_nonblocking(true);
        }
    }

    /// Accepts the next connection: none once the process no longer serves, or where a listener fails, which is said.
    /// Where the system lacks files or memory, that is said once, and it is tried again until there is a connection.
    pub fn next(&self) -> Option<(TcpStream, SocketAddr, Place)> {
        let mut is_short = false;
        for _ in 0..u64::MAX {
            if !is_serving(self.rt, self.phase) {
                return None;
            }
            let error = match self.look() {
                Ok(connection) => return Some(connection),
                Err(error) => error,
            };
            match trouble_of(&error) {
                AcceptTrouble::Aborted => {}
                AcceptTrouble::Nobody => self.pause(),
                AcceptTrouble::Shortage => {
                    if !is_short {
                        self.say_shortage(&error);
                    }
                    is_short = true;
                    self.pause();
                }
                AcceptTrouble::Broken => {
                    self.say_broken(&error);
                    return None;
                }
            }
        }
        None
    }

    /// A connection at the first listener, or else at the second, or why there is none.
    fn look(&self) -> io::Result<(TcpStream, SocketAddr, Place)> {
        let error = match self.first.accept() {
            Ok((stream, address)) => return Ok((stream, address, Place::First)),
            Err(error) => error,
        };
        let Some(second) = self.second else {
            return Err(error);
        };
        if trouble_of(&error) != AcceptTrouble::Nobody {
            return Err(error);
        }
        let (stream, address) = second.accept()?;
        Ok((stream, address, Place::Second))
    }

    /// Waits a moment.
    fn pause(&self) {
        self.clock.sleep(Duration::from_millis(PAUSE));
    }

    /// Says that no connection is accepted for now.
    fn say_shortage(&self, error: &io::Error) {
        let line = format!(in self.alloc; "nfsacc: no connection is accepted for now: {error}\n");
        self.output.lock(self.rt).say(line);
    }

    /// Says that no connection is accepted any more.
    fn say_broken(&self, error: &io::Error) {
        let line = format!(in self.alloc; "nfsacc: no connection is accepted: {error}\n");
        self.output.lock(self.rt).say(line);
    }
}
