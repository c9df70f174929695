//! The way to a server on another host.

use crate::client::Pending;
use std::alloc::Global;
use std::fmt;
use thiserror::Error;

/// What came back for a call.
#[derive(Clone, Copy, Debug, PartialEq, Eq)]
pub enum Carried {
    /// Bytes for an acknowledgement, and none for a reply.
    Acknowledged,
    /// Bytes for an acknowledgement, and for a reply.
    Answered,
}

/// Why nothing came back.
#[derive(Clone, Copy, Debug, PartialEq, Eq, Error)]
pub enum CourierFault {
    /// The server says that it has too few keys left.
    KeysUsedUp,
    /// The server says that it doesn't take what was brought.
    Refused,
    /// The server can't be reached.
    Lost,
    /// A growth was refused.
    NoMemory,
}

impl fmt::Display for CourierFault {
    fn fmt<W: fmt::Write>(&self, f: &mut fmt::Formatter<W>) -> fmt::Result {
        f.write_str(self.words())
    }
}

impl CourierFault {
    /// What is said of it.
    fn words(self) -> &'static str {
        match self {
            CourierFault::KeysUsedUp => "the server's keys are used up",
            CourierFault::Refused => "the server refuses",
            CourierFault::Lost => "the server can't be reached",
            CourierFault::NoMemory => "out of memory",
        }
    }
}

/// The way to a server on another host. Nothing is supposed of what it brings back: who calls by it checks
/// that.
pub trait Courier {
    /// Carries the text of a call's envelope to the server, and writes what comes back, in place of what the
    /// bytes were: what is to be an acknowledgement's text, and what is to be the text of a reply's envelope.
    /// A call that is carried again is to be answered as it was at first. What names the call, and its bytes
    /// without the envelope, are for a courier that waits.
    fn carry(
        &mut self,
        alloc: Global,
        pending: &Pending,
        bytes: &[u8],
        call: &[u8],
        ack: &mut Vec<u8>,
        reply: &mut Vec<u8>,
    ) -> Result<Carried, CourierFault>;

    /// Takes over the text of the acknowledgement of a reply, to carry it to the server, now or before the next
    /// call. After a fault it wasn't taken over. One that was carried before does no harm.
    fn acknowledge(&mut self, alloc: Global, receipt: &[u8]) -> Result<(), CourierFault>;
}
