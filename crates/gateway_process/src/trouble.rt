//! Why a server or a witness gave no answer.

use assurance::LinkFault;
use peer_calls::{Greeted, ResultsFault, read_greeted};
use peer_connections::CallFault;
use std::alloc::{AllocError, Global};
use std::{fmt, io};
use xdr::texts::TextFault;

/// Why a server or a witness gave no answer.
#[derive(Clone, Copy, Debug)]
pub(crate) enum Trouble {
    /// A growth was refused.
    NoMemory,
    /// There is no connection to it.
    Unreached(io::Error),
    /// The connection ended or failed, or nothing came in time.
    Broken,
    /// What came is no answer to what was asked.
    Garbage,
    /// It goes by the roster whose text has this digest.
    OtherRoster([u8; 32]),
    /// Its log was put back to an earlier one: it lacks what it has signed.
    PutBack,
    /// The gateway's own log was: it lacks what was signed before with this number, which it has.
    OwnPutBack(u64),
}

impl fmt::Display for Trouble {
    fn fmt<W: fmt::Write>(&self, f: &mut fmt::Formatter<W>) -> fmt::Result {
        match self {
            Trouble::NoMemory => write!(f, "out of memory"),
            Trouble::Unreached(error) => write!(f, "{error}"),
            Trouble::Broken => write!(f, "the connection broke"),
            Trouble::Garbage => write!(f, "what came is no answer"),
            Trouble::OtherRoster(_) => write!(f, "it greets another roster"),
            Trouble::PutBack => write!(f, "its log was put back to an earlier one"),
            Trouble::OwnPutBack(number) => write!(
                f,
                "the log was put back to an earlier one: number {number} was signed before"
            ),
        }
    }
}

impl From<AllocError> for Trouble {
    fn from(_error: AllocError) -> Trouble {
        Trouble::NoMemory
    }
}

impl From<CallFault> for Trouble {
    fn from(fault: CallFault) -> Trouble {
        match fault {
            CallFault::NoMemory => Trouble::NoMemory,
            CallFault::Broken => Trouble::Broken,
            CallFault::NoSuccess => Trouble::Garbage,
        }
    }
}

impl From<LinkFault> for Trouble {
    fn from(fault: LinkFault) -> Trouble {
        match fault {
            LinkFault::NoMemory => Trouble::NoMemory,
            LinkFault::Broken => Trouble::Broken,
            LinkFault::Garbage => Trouble::Garbage,
            LinkFault::OtherRoster(digest) => Trouble::OtherRoster(digest),
        }
    }
}

impl From<ResultsFault> for Trouble {
    fn from(fault: ResultsFault) -> Trouble {
        match fault {
            ResultsFault::NoMemory => Trouble::NoMemory,
            ResultsFault::Garbage => Trouble::Garbage,
        }
    }
}

impl From<TextFault> for Trouble {
    fn from(fault: TextFault) -> Trouble {
        match fault {
            TextFault::NoMemory => Trouble::NoMemory,
            TextFault::NotAText => Trouble::Garbage,
        }
    }
}

/// Reads what was answered to GREET. `OtherRoster` comes where the other goes by another roster.
pub(crate) fn check_greeted(alloc: Global, results: &[u8]) -> Result<(), Trouble> {
    match read_greeted(alloc, results)? {
        Greeted::Same => Ok(()),
        Greeted::Other(digest) => Err(Trouble::OtherRoster(digest)),
    }
}

/// The digest of a roster's text as it is said: `sha256:` and its digits.
pub(crate) fn spelled_digest(alloc: Global, digest: &[u8; 32]) -> Result<String, AllocError> {
    let digits = hex::encode(alloc, digest.as_slice())?;
    format!(in alloc; "sha256:{digits}")
}
