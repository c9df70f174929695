//! What a witness watches.

use authenticator::Roster;
use peer_connections::Commands;
use std::alloc::{AllocError, Global};

/// A server that is audited.
#[derive(Clone, Copy, Debug)]
pub struct WatchedServer<'a> {
    /// Its number in the roster.
    pub node: u32,
    /// Where it answers audits, as HOST:PORT.
    pub address: &'a str,
}

/// A roster that a witness knows.
#[derive(Clone, Copy, Debug, PartialEq, Eq)]
pub struct KnownRoster {
    /// The digest of its text.
    pub digest: [u8; 32],
    /// Its epoch.
    pub epoch: u32,
}

/// What a witness watches.
#[derive(Drop)]
pub struct WitnessOrder<'a, L, S> {
    /// The members of the service.
    pub roster: Roster,
    /// The digest of the roster's text.
    pub digest: [u8; 32],
    /// The epoch of the roster.
    pub epoch: u32,
    /// The rosters that the witness knows: where a server goes by one of a later epoch, the witness ends.
    pub known: &'a [KnownRoster],
    /// The servers that are audited.
    pub servers: &'a [WatchedServer<'a>],
    /// Where other witnesses listen, as HOST:PORT.
    pub witnesses: &'a [&'a str],
    /// The seconds between two rounds, and between two meetings with another witness, at least 1.
    pub every: u32,
    /// A node is called suspected once a challenge to it has been open for more than so many seconds.
    pub patience: u32,
    /// The seconds for which the books from which others went on by a base stand beside these, unless each client's log
    /// showed the signatures that it has before.
    pub overlap: u32,
    /// The folder where evidence is put, if it is to be put anywhere.
    pub evidence: Option<&'a str>,
    /// Where files are put.
    pub shelf: S,
    /// Where gateways and others connect.
    pub listener: L,
    /// Where the process can be told to stop, and asked how it is.
    pub control: Option<Commands<'a>>,
    /// How many threads replay at once, 1 to 16; another number counts as the nearest of these.
    pub workers: usize,
    /// Whether the servers are asked first for the bases from which their logs are audited, in place of the beginning.
    pub join: bool,
}

/// Why a witness no longer runs.
#[derive(Clone, Copy, Debug, PartialEq, Eq)]
pub enum Ending {
    /// It was told to stop, or the listener failed.
    Stopped,
    /// Memory was refused for its books or its rounds, or for a replay that was to go back to the books.
    NoMemory,
    /// A server goes by a roster of this epoch, which is later than that of the witness.
    EpochBegun { node: u32, epoch: u32 },
}

/// The numbers of servers.
pub(crate) fn servers_of(
    alloc: Global,
    servers: &[WatchedServer<'_>],
) -> Result<Vec<u32>, AllocError> {
    let mut nodes = Vec::new(alloc);
    for server in servers {
        nodes.push(server.node)?;
    }
    Ok(nodes)
}
