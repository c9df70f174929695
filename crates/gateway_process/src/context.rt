//! What all threads of a gateway share.

use crate::desk::Desk;
use crate::local_stream::LocalStream;
use crate::run::Ending;
use crate::tcp_courier::Route;
use peer_calls::Greeting;
use peer_connections::{Output, Phase, end_serving, is_serving};
use remote_sharing::{Flights, SharedClient};
use std::alloc::{AllocError, Global};
use std::io::Write;
use std::mem;
use std::sync::{Mutex, Wait};
use std::time::Instant;

/// What all threads of a gateway share, and its courier too.
pub(crate) struct Context<'a, R, T, W, E> {
    pub(crate) rt: &'a R,
    pub(crate) alloc: Global,
    pub(crate) clock: &'a T,
    pub(crate) phase: &'a Mutex<Phase>,
    pub(crate) output: &'a Mutex<Output<W, E>>,
    /// Why the serving is to end, where it isn't that the process is to stop or that keys are used up.
    pub(crate) ending: &'a Mutex<Ending>,
    /// Whether it was said that the server gives no answer.
    pub(crate) is_away: &'a Mutex<bool>,
    /// What witnesses are to be told, and what they answered.
    pub(crate) desk: &'a Mutex<Desk>,
    /// The calls that are in flight.
    pub(crate) flights: &'a Mutex<Flights<LocalStream>>,
    /// What the gateway says where it connects.
    pub(crate) greeting: Greeting,
    /// The epoch of its keys.
    pub(crate) epoch: u32,
    /// The number of the server that it calls.
    pub(crate) server: u32,
    /// How many seconds after its beginning a call is given up, if it ever is.
    pub(crate) give_up: Option<u64>,
    /// Whether it is said up to which number each witness answers for the replies.
    pub(crate) progress: bool,
}

impl<'a, R, T, W, E> Clone for Context<'a, R, T, W, E> {
    fn clone(&self) -> Result<Context<'a, R, T, W, E>, AllocError> {
        Ok(*self)
    }
}

impl<'a, R, T, W, E> Copy for Context<'a, R, T, W, E> {}

impl<'a, R: Wait, T: std::time::Clock, W: Write, E: Write> Context<'a, R, T, W, E> {
    /// The time, by which waits are counted: none where the clock can't be read.
    pub(crate) fn now(&self) -> Option<Instant> {
        Instant::now(self.clock).ok()
    }

    /// Whether so many seconds have passed since then. Where a time is unknown none have.
    pub(crate) fn is_past(&self, since: Option<Instant>, seconds: u64) -> bool {
        let Some(since) = since else {
            return false;
        };
        match since.elapsed(self.clock) {
            Ok(elapsed) => elapsed.as_secs() >= seconds,
            Err(_) => false,
        }
    }

    /// Whether a call that was begun then is given up.
    pub(crate) fn is_given_up(&self, begun: Option<Instant>) -> bool {
        match self.give_up {
            Some(seconds) => self.is_past(begun, seconds.max(1)),
            None => false,
        }
    }
}

impl<'a, R: Wait, T, W: Write, E: Write> Context<'a, R, T, W, E> {
    /// Notes whether the server gives no answer. What was noted before.
    pub(crate) fn set_away(&self, is_away: bool) -> bool {
        mem::replace(&mut *self.is_away.lock(self.rt), is_away)
    }

    /// Whether witnesses are to be told at once; from now on they aren't.
    pub(crate) fn has_urgent_news(&self) -> bool {
        self.desk.lock(self.rt).take_urgent()
    }

    /// Whether the local programs that made the call of these bytes have all gone.
    pub(crate) fn is_left(&self, bytes: &[u8]) -> bool {
        self.flights.lock(self.rt).are_left(bytes)
    }

    /// Says a line that is beside the process's own.
    pub(crate) fn say(&self, line: Result<String, AllocError>) {
        self.output.lock(self.rt).say(line);
    }

    /// Whether the process still serves.
    pub(crate) fn is_serving(&self) -> bool {
        is_serving(self.rt, self.phase)
    }

    /// Ends the serving by this ending, which no other one takes the place of. What it was to end by before.
    pub(crate) fn end_by(&self, ending: Ending) -> Ending {
        let mut kept = self.ending.lock(self.rt);
        let before = *kept;
        if before == Ending::Stopped {
            *kept = ending;
        }
        drop(kept);
        self.end(Phase::Stopping);
        before
    }

    /// Ends the serving for this reason, unless it has ended for another.
    pub(crate) fn end(&self, reason: Phase) {
        end_serving(self.rt, self.phase, reason);
    }
}

/// What all threads of a gateway share that use its client.
pub(crate) struct Shared<'a, R, T, W, E> {
    pub(crate) context: Context<'a, R, T, W, E>,
    /// The client, with its calls in flight.
    pub(crate) client: &'a Mutex<SharedClient>,
}

impl<'a, R, T, W, E> Clone for Shared<'a, R, T, W, E> {
    fn clone(&self) -> Result<Shared<'a, R, T, W, E>, AllocError> {
        Ok(*self)
    }
}

impl<'a, R, T, W, E> Copy for Shared<'a, R, T, W, E> {}

/// What serves local programs.
pub(crate) struct Serving<'a, R, T, W, E> {
    pub(crate) shared: Shared<'a, R, T, W, E>,
    /// How the server is reached.
    pub(crate) route: Route<'a>,
}

impl<'a, R, T, W, E> Clone for Serving<'a, R, T, W, E> {
    fn clone(&self) -> Result<Serving<'a, R, T, W, E>, AllocError> {
        Ok(*self)
    }
}

impl<'a, R, T, W, E> Copy for Serving<'a, R, T, W, E> {}
