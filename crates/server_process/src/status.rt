//! How a server is.

ghost use Rattle.std.specs.Prelude.{◌≡◌, None, Some};

use crate::held::Held;
use nodes::HonestServer;
use peer_calls::{
    NODE_PROGRAM, NodeRequest, Segment, judge_call, read_node_request, read_results, read_segment,
};
use peer_connections::Teller;
use secure_log::log_entries::Entry;
use std::alloc::{AllocError, Global};
use std::sync::{Mutex, Wait};

/// SEGMENT.
const SEGMENT: u32 = 5;

/// What a server's process counts beside its log.
#[derive(Clone, Copy, Debug)]
pub(crate) struct Tally {
    /// The epoch of its keys.
    epoch: u32,
    /// How many connections are open.
    connections: u64,
    /// The number of the last entry of the segment that was given out last, if one was.
    audited: Option<u64>,
}

impl Tally {
    /// That of a process that has no connection yet.
    pub(crate) fn new(epoch: u32) -> Tally
        ensures epoch { result.epoch ≡ epoch }
        ensures connections { result.connections ≡ 0 }
        ensures audited { result.audited ≡ None }
    {
        Tally {
            epoch,
            connections: 0,
            audited: None,
        }
    }

    /// A connection was opened.
    pub(crate) fn opened(&mut self) {
        self.connections = self.connections.saturating_add(1);
    }

    /// A connection has ended.
    pub(crate) fn closed(&mut self) {
        self.connections = self.connections.saturating_sub(1);
    }

    /// A segment was given out whose last entry has this number.
    pub(crate) fn audited(&mut self, last: u64)
        ensures audited { self.new.audited ≡ Some last }
        ensures epoch { self.new.epoch ≡ self.old.epoch }
        ensures connections { self.new.connections ≡ self.old.connections }
    {
        self.audited = Some(last);
    }
}

/// The number of the last entry of the segment that an answer has; none where no segment was asked for, or
/// none was given.
pub(crate) fn audited_to(alloc: Global, request: &[u8], answer: &[u8]) -> Option<u64> {
    let asked = judge_call(NODE_PROGRAM, request).ok()?;
    if asked.procedure != SEGMENT {
        return None;
    }
    let NodeRequest::Segment(numbers) = read_node_request(alloc, SEGMENT, asked.arguments).ok()?
    else {
        return None;
    };
    match read_segment(read_results(asked.xid, answer)?) {
        Ok(Segment::Answered(_)) => Some(numbers.last),
        _ => None,
    }
}

/// How many messages were received, by the entries of a log.
pub(crate) fn count_received(entries: &[Entry]) -> u64 {
    let mut count = 0_u64;
    for entry in entries {
        if let Entry::Recv { .. } = entry {
            count = count.saturating_add(1);
        }
    }
    count
}

/// Who knows how a server is.
#[derive(Drop)]
pub(crate) struct ServerTeller<'a, R> {
    rt: &'a R,
    held: &'a Mutex<Held>,
    tally: &'a Mutex<Tally>,
}

impl<'a, R: Wait> ServerTeller<'a, R> {
    /// Who knows how this server is.
    pub(crate) fn new(
        rt: &'a R,
        held: &'a Mutex<Held>,
        tally: &'a Mutex<Tally>,
    ) -> ServerTeller<'a, R> {
        ServerTeller { rt, held, tally }
    }
}

impl<R: Wait> Teller for ServerTeller<'_, R> {
    fn tell(&self, alloc: Global) -> Result<String, AllocError> {
        let Tally {
            epoch,
            connections,
            audited,
        } = *self.tally.lock(self.rt);
        let (node, left, calls) = numbers_of(self.held.lock(self.rt).server());
        let mut text = format!(in alloc; "kind: server\nnode: {node}\nepoch: {epoch}\n")?;
        let counts = format!(in alloc;
            "keys left: {left}\ncalls: {calls}\nconnections: {connections}\n"
        )?;
        text.push_str(&counts)?;
        if let Some(last) = audited {
            let line = format!(in alloc; "audited to: {last}\n")?;
            text.push_str(&line)?;
        }
        Ok(text)
    }
}

/// The number of a server, its keys that are left, and how many messages it received.
fn numbers_of(server: &HonestServer) -> (u32, u32, u64) {
    let server = server.server();
    let log = server.node();
    (
        server.number(),
        log.left(),
        count_received(log.log().entries()),
    )
}
