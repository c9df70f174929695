//! Why a local program's connection is closed.

use nodes::StreamFault;
use remote_sharing::CallFault;
use std::{fmt, io};

/// Why a local program's connection is closed before its end.
#[derive(Clone, Copy)]
pub(crate) enum Cause {
    /// Its stream has failed, and this is what the system reported, if it did.
    Stream(StreamFault, Option<io::Error>),
    /// Another connection has its call.
    Passed,
    /// Its call has failed.
    Call { server: u32, fault: CallFault },
    /// The server signed a reply that isn't this call's, with this number in its log.
    AnotherCall { server: u32, number: u64 },
}

impl fmt::Display for Cause {
    fn fmt<W: fmt::Write>(&self, f: &mut fmt::Formatter<W>) -> fmt::Result {
        match *self {
            Cause::Stream(StreamFault::Device, Some(error)) => write!(f, "{error}"),
            Cause::Stream(fault, _) => write!(f, "{fault}"),
            Cause::Passed => write!(f, "another connection has its call"),
            Cause::Call {
                server,
                fault: CallFault::NotBegun(fault),
            } => write!(f, "server {server} isn't called: {fault}"),
            Cause::Call {
                server,
                fault: CallFault::Uncarried(fault),
            } => write!(f, "server {server} gives no answer: {fault}"),
            Cause::Call {
                server,
                fault: CallFault::Refused(fault),
            } => write!(f, "server {server} gives no answer that counts: {fault}"),
            Cause::AnotherCall { server, number } => {
                write!(f, "server {server} answered another call: number {number}")
            }
        }
    }
}
