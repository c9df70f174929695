//! How long the server is awaited.

use crate::context::Context;
use peer_connections::Meanwhile;
use std::io::Write;
use std::sync::Wait;
use std::time::Instant;

/// How many seconds a server may owe an answer.
const PATIENCE: u64 = 30;

/// How many seconds an answer is still awaited once the process is to end.
const GRACE: u64 = 2;

/// How long the server is awaited: for 30 seconds, as long as the call isn't given up, and for two once the process is
/// to end.
#[derive(Drop)]
pub(crate) struct Watch<'a, R, T, W, E> {
    context: Context<'a, R, T, W, E>,
    /// When the call was begun that is in hand, if one is.
    begun: Option<Instant>,
    /// Since when the server is awaited, if it is this thread's turn.
    since: Option<Instant>,
    /// Since when the process is to end.
    stopping: Option<Instant>,
}

impl<'a, R, T, W, E> Watch<'a, R, T, W, E>
where
    R: Wait,
    T: std::time::Clock,
    W: Write,
    E: Write,
{
    /// Until other threads have read the answers that come before: these watch how long the server owes them.
    pub(crate) fn in_turn(
        context: Context<'a, R, T, W, E>,
        begun: Option<Instant>,
    ) -> Watch<'a, R, T, W, E> {
        Watch {
            context,
            begun,
            since: None,
            stopping: None,
        }
    }

    /// From now on, for a call that was begun then, if one is in hand.
    pub(crate) fn new(
        context: Context<'a, R, T, W, E>,
        begun: Option<Instant>,
    ) -> Watch<'a, R, T, W, E> {
        Watch {
            context,
            begun,
            since: context.now(),
            stopping: None,
        }
    }
}

impl<'a, R, T, W, E> Meanwhile for Watch<'a, R, T, W, E>
where
    R: Wait,
    T: std::time::Clock,
    W: Write,
    E: Write,
{
    fn goes_on(&mut self) -> bool {
        if self.context.is_serving() {
            return !self.context.is_past(self.since, PATIENCE)
                && !self.context.is_given_up(self.begun);
        }
        if self.stopping.is_none() {
            self.stopping = self.context.now();
        }
        !self.context.is_past(self.stopping, GRACE)
    }
}
