//! The options of a run.

use authenticator::LogVersion;

/// The heights of the trees of keys: a tree of height n has 2^n keys. A call takes two keys of its client,
/// and two of the server.
#[derive(Clone, Copy, Debug, PartialEq, Eq)]
pub struct Heights {
    /// The server's, from 1 to 15; 12 where none is named.
    pub server: u32,
    /// Each client's, from 1 to 15; 10 where none is named.
    pub client: u32,
}

/// The options of a run of the service.
#[derive(Clone, Copy, Debug, PartialEq, Eq)]
pub struct ServeOptions<'a> {
    /// How many connections are served, from 1 to 16: each is a client of its own.
    pub connections: u32,
    /// The heights of the trees of keys.
    pub heights: Heights,
    /// The name of the file that the roster's text goes to, if one is named.
    pub roster_out: Option<&'a str>,
    /// The name of the folder that evidence goes to, if one is named.
    pub evidence: Option<&'a str>,
    /// Whether progress on keys and audits is told.
    pub progress: bool,
    /// How many seconds a connection may be silent, from 1 to 86,400; for ever where none is given.
    pub idle: Option<u32>,
    /// The name of the folder that bases go to, if one is named.
    pub base_out: Option<&'a str>,
    /// After how many calls, from 1 to 16,384, the server logs a CHECK; it logs none where no number is given.
    pub check_every: Option<u32>,
    /// The version of the logs that the server and all clients keep; 1 where none is named.
    pub log_version: LogVersion,
}
