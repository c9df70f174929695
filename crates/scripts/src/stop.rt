//! Why a script stops before its end.

use crate::words::LineFault;
use std::alloc::{AllocError, AllocFailed, Global};
use std::io;
use witness_calls::StartFault;

/// Why a line isn't done.
#[derive(Drop)]
pub(crate) enum Stop {
    /// It is bad.
    Bad,
    /// A growth was refused.
    NoMemory,
    /// A read or a write failed.
    Device,
    /// A file with this name could not be put in its place.
    File(String, io::Error),
    /// No witness begins with the bases that were given; never `NoMemory`.
    Start(StartFault),
}

impl Stop {
    /// That a file could not be put in its place.
    pub(crate) fn of_file(alloc: Global, name: &str, error: io::Error) -> Stop {
        match String::from_str(alloc, name) {
            Ok(name) => Stop::File(name, error),
            Err(AllocError) => Stop::NoMemory,
        }
    }
}

impl From<AllocError> for Stop {
    fn from(_error: AllocError) -> Stop {
        Stop::NoMemory
    }
}

impl<T: Drop> From<AllocFailed<T>> for Stop {
    fn from(_error: AllocFailed<T>) -> Stop {
        Stop::NoMemory
    }
}

impl From<StartFault> for Stop {
    fn from(fault: StartFault) -> Stop {
        match fault {
            StartFault::NoMemory => Stop::NoMemory,
            StartFault::TwoBases | StartFault::OtherRoot => Stop::Start(fault),
        }
    }
}

impl From<LineFault> for Stop {
    fn from(fault: LineFault) -> Stop {
        match fault {
            LineFault::Bad => Stop::Bad,
            LineFault::NoMemory => Stop::NoMemory,
        }
    }
}
