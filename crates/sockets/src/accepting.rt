//! What an error of `accept` means.

use std::io;

/// The error numbers of a shortage, in which no connection is accepted for now: too many open files in the
/// system (23) or in the program (24), no memory (12), no room for buffers (105).
const SHORTAGES: [i32; 4] = [23, 24, 12, 105];

/// What an error of `accept` means.
#[derive(Clone, Copy, Debug, PartialEq, Eq)]
pub enum AcceptTrouble {
    /// A connection was aborted before it was accepted.
    Aborted,
    /// Nobody connects, to a listener that doesn't wait.
    Nobody,
    /// The system lacks files or memory for now.
    Shortage,
    /// The listener has failed.
    Broken,
}

/// What an error of `accept` means.
pub fn trouble_of(error: &io::Error) -> AcceptTrouble {
    match error.kind() {
        io::ErrorKind::ConnectionAborted
        | io::ErrorKind::ConnectionReset
        | io::ErrorKind::HostUnreachable
        | io::ErrorKind::NetworkDown
        | io::ErrorKind::NetworkUnreachable => AcceptTrouble::Aborted,
        io::ErrorKind::WouldBlock => AcceptTrouble::Nobody,
        _ if is_shortage(error) => AcceptTrouble::Shortage,
        _ => AcceptTrouble::Broken,
    }
}

/// Whether an error passes once others have closed their files or freed their memory.
fn is_shortage(error: &io::Error) -> bool {
    match error.raw_os_error() {
        Some(code) => SHORTAGES.contains(&code),
        None => false,
    }
}
