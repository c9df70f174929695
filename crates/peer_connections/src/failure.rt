//! Why a peer's requests came to an end before its stream did.

ghost use Rattle.std.specs.Prelude.{◌≡◌};

use frames::FrameFault;
use request_streams::ServeFault;
use std::{fmt, io};

/// Why a peer's requests came to an end before its stream did.
#[derive(Clone, Copy, Debug)]
pub struct ServeFailure {
    fault: ServeFault,
    /// The error that the connection reported, if it did.
    cause: Option<io::Error>,
}

impl ServeFailure {
    /// A fault, with the error that the connection reported last, if it did.
    pub fn new(fault: ServeFault, cause: Option<io::Error>) -> ServeFailure
        ensures fault { result.fault ≡ fault }
        ensures cause { result.cause ≡ cause }
    {
        ServeFailure { fault, cause }
    }

    /// The error that the connection reported, where that is the fault.
    fn of_connection(&self) -> Option<io::Error> {
        match self.fault {
            ServeFault::Reading(FrameFault::Device) | ServeFault::Writing => self.cause,
            _ => None,
        }
    }
}

impl From<ServeFault> for ServeFailure {
    fn from(fault: ServeFault) -> ServeFailure {
        ServeFailure { fault, cause: None }
    }
}

/// Whether an error says that the peer reset the connection: the system calls that a broken pipe where the peer had closed
/// its side before.
fn is_reset(error: &io::Error) -> bool {
    matches!(
        error.kind(),
        io::ErrorKind::ConnectionReset | io::ErrorKind::BrokenPipe
    )
}

impl fmt::Display for ServeFailure {
    fn fmt<W: fmt::Write>(&self, f: &mut fmt::Formatter<W>) -> fmt::Result {
        let fault = self.fault;
        match self.of_connection() {
            Some(error) if is_reset(&error) => write!(f, "connection reset"),
            Some(error) => write!(f, "{error}"),
            None => write!(f, "{fault}"),
        }
    }
}
