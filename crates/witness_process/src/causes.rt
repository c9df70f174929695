//! Why a server can't be audited, or another witness met, and that this is said once.

use crate::context::Context;
use hex::encode;
use peer_calls::ResultsFault;
use peer_connections::{CallFault, Output};
use std::alloc::{AllocError, Global};
use std::io::{self, Write};
use std::sync::{Mutex, Wait};
use std::time::Clock;
use thiserror::Error;

/// Why a server can't be audited now, or another witness met.
#[derive(Clone, Copy, Debug, Error)]
pub(crate) enum Cause {
    /// A growth was refused.
    #[error("out of memory")]
    NoMemory,
    /// There is no connection.
    #[error("{0}")]
    NoConnection(io::Error),
    /// The connection ended, or brought nothing in time.
    #[error("the connection broke")]
    Broken,
    /// What came is no answer.
    #[error("an answer that is none to the call")]
    NoAnswer,
    /// Its log hasn't the part that is asked for.
    #[error("its log isn't shown from {first} to {last}")]
    NotShown { first: u64, last: u64 },
    /// What it showed isn't what it was asked for.
    #[error("what it showed isn't what it was asked for")]
    Refused,
    /// What it signed doesn't stand in its log, by its own word.
    #[error("its log was put back to an earlier one")]
    PutBack,
}

impl Cause {
    /// Whether it is that a log wasn't shown as it was asked for: the connection still stands.
    pub(crate) fn is_of_log(&self) -> bool {
        matches!(self, Cause::NotShown { .. } | Cause::Refused)
    }
}

impl From<AllocError> for Cause {
    fn from(_error: AllocError) -> Cause {
        Cause::NoMemory
    }
}

impl From<CallFault> for Cause {
    fn from(fault: CallFault) -> Cause {
        match fault {
            CallFault::NoMemory => Cause::NoMemory,
            CallFault::Broken => Cause::Broken,
            CallFault::NoSuccess => Cause::NoAnswer,
        }
    }
}

impl From<ResultsFault> for Cause {
    fn from(fault: ResultsFault) -> Cause {
        match fault {
            ResultsFault::NoMemory => Cause::NoMemory,
            ResultsFault::Garbage => Cause::NoAnswer,
        }
    }
}

/// What was said of a peer on the errors last, so that it isn't said again.
#[derive(Drop)]
pub(crate) struct LastSaid {
    line: Option<String>,
}

impl LastSaid {
    /// Nothing was said.
    pub(crate) fn nothing() -> LastSaid {
        LastSaid { line: None }
    }

    /// All is well: what is said next is said again.
    pub(crate) fn clear(&mut self) {
        self.line = None;
    }

    /// Says a line, once until another one is said. Where memory is refused nothing is said.
    pub(crate) fn say<R, T, W, E, S>(
        &mut self,
        context: Context<'_, R, T, W, E, S>,
        line: Result<String, AllocError>,
    )
    where
        R: Wait,
        T: Clock,
        W: Write,
        E: Write,
    {
        self.say_at(context.rt, context.alloc, context.output, line);
    }

    /// The same at an output.
    pub(crate) fn say_at<R: Wait, W: Write, E: Write>(
        &mut self,
        rt: &R,
        alloc: Global,
        output: &Mutex<Output<W, E>>,
        line: Result<String, AllocError>,
    ) {
        let Ok(line) = line else {
            return;
        };
        if let Some(said) = &self.line {
            if said.as_str() == line.as_str() {
                return;
            }
        }
        output.lock(rt).say(String::from_str(alloc, &line));
        self.line = Some(line);
    }
}

/// Why a server can't be audited.
pub(crate) fn server_line(
    alloc: Global,
    node: u32,
    address: &str,
    cause: &Cause,
) -> Result<String, AllocError> {
    match cause {
        Cause::PutBack => {
            format!(in alloc; "nfsacc: {node} has a log that was put back to an earlier one\n")
        }
        cause => format!(in alloc; "nfsacc: server {node} at {address}: {cause}\n"),
    }
}

/// That a server goes by a roster that the witness doesn't know, with the digest of that.
pub(crate) fn unknown_line(
    alloc: Global,
    node: u32,
    address: &str,
    digest: &[u8; 32],
) -> Result<String, AllocError> {
    let digest = encode(alloc, digest.as_slice())?;
    format!(in alloc;
        "nfsacc: server {node} at {address}: it goes by a roster that isn't known, sha256:{digest}\n"
    )
}

/// That another witness goes by another roster, with the digest of that.
pub(crate) fn roster_line(
    alloc: Global,
    address: &str,
    digest: &[u8; 32],
) -> Result<String, AllocError> {
    let digest = encode(alloc, digest.as_slice())?;
    format!(in alloc; "nfsacc: witness {address}: it goes by another roster, sha256:{digest}\n")
}

/// Why another witness can't be met.
pub(crate) fn witness_line(
    alloc: Global,
    address: &str,
    cause: &Cause,
) -> Result<String, AllocError> {
    format!(in alloc; "nfsacc: witness {address}: {cause}\n")
}
