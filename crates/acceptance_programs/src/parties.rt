//! A server and a client of it, and what they do that they shouldn't.

use acceptance_helpers::{client, roster_of, server};
use authenticator::{LogVersion, Roster};
use commitment::senders::Sender;
use envelopes::Envelope;
use nfs_items::Time;
use nodes::exchanges::exchange;
use nodes::{ClientNode, ServerNode};
use secure_log::log_entries::Body;
use std::alloc::Global;

pub const SERVER: u32 = 1;

pub const CLIENT: u32 = 2;

const SERVER_MASTER: [u8; 32] = [1; 32];

const CLIENT_MASTER: [u8; 32] = [2; 32];

const HEIGHT: u32 = 3;

/// The NULL call of NFS version 2 with the transaction 1.
const CALL: [u8; 40] = [
    0, 0, 0, 1, 0, 0, 0, 0, 0, 0, 0, 2, 0, 1, 0x86, 0xa3, 0, 0, 0, 2, 0, 0, 0, 0, 0, 0, 0, 0, 0, 0,
    0, 0, 0, 0, 0, 0, 0, 0, 0, 0,
];

/// A server, and a client of it.
#[derive(Drop)]
pub struct Parties {
    pub roster: Roster,
    pub server: ServerNode,
    pub client: ClientNode,
}

/// The root of a node's keys.
fn root(alloc: Global, node: u32, master: [u8; 32]) -> Option<[u8; 32]> {
    let keys = Sender::new(alloc, node, LogVersion::One, master, HEIGHT).ok()?;
    Some(keys.root())
}

/// The roster of the two.
fn roster(alloc: Global) -> Option<Roster> {
    let one = root(alloc, SERVER, SERVER_MASTER)?;
    let two = root(alloc, CLIENT, CLIENT_MASTER)?;
    roster_of(alloc, &[server(one, HEIGHT), client(two, HEIGHT)])
}

/// A roster in which each has the other's key.
pub fn exchanged_roster(alloc: Global) -> Option<Roster> {
    let one = root(alloc, SERVER, SERVER_MASTER)?;
    let two = root(alloc, CLIENT, CLIENT_MASTER)?;
    roster_of(alloc, &[server(two, HEIGHT), client(one, HEIGHT)])
}

/// The server, who has logged nothing.
fn new_server(alloc: Global) -> Option<ServerNode> {
    match roster(alloc) {
        Some(roster) => ServerNode::new(
            alloc,
            roster,
            SERVER,
            LogVersion::One,
            SERVER_MASTER,
            HEIGHT,
        )
        .ok(),
        None => None,
    }
}

/// The client, as the server.
fn new_client(alloc: Global) -> Option<ClientNode> {
    match roster(alloc) {
        Some(roster) => ClientNode::new(
            alloc,
            roster,
            CLIENT,
            LogVersion::One,
            CLIENT_MASTER,
            HEIGHT,
        )
        .ok(),
        None => None,
    }
}

/// The two, who have logged nothing.
pub fn new_parties(alloc: Global) -> Option<Parties> {
    let nodes = new_server(alloc).zip(new_client(alloc));
    let (roster, (server, client)) = roster(alloc).zip(nodes)?;
    Some(Parties {
        roster,
        server,
        client,
    })
}

/// A value with what was made beside it, if it was. Their types are parameters, as in `holds_of`.
pub fn paired<T: Drop, U>(value: T, made: Option<U>) -> Option<(T, U)> {
    match made {
        Some(other) => Some((value, other)),
        None => None,
    }
}

/// A message's body.
fn body(alloc: Global) -> Option<Body> {
    Vec::from_slice(alloc, &CALL).ok().map(Body::new)
}

impl Parties {
    /// A call, which the server answers as it should.
    pub fn call(&mut self, alloc: Global) -> bool {
        let mut text = Vec::new(alloc);
        exchange(
            &mut self.client,
            &mut self.server,
            &mut text,
            alloc,
            Time::epoch(),
            &CALL,
        )
        .is_ok()
    }

    /// A call, which the server answers wrongly.
    pub fn lie(&mut self, alloc: Global) -> bool {
        self.server.lie();
        self.call(alloc)
    }

    /// Two messages of the client under one number, of which it logs the first alone: the second.
    pub fn fork(&mut self, alloc: Global) -> Option<Envelope> {
        let first = body(alloc)?;
        let second = Body::new(Vec::new(alloc));
        self.client.fork(SERVER, first, second).ok()?.second
    }

    /// The server receives a message, and logs it.
    pub fn receive(&mut self, alloc: Global, envelope: &Envelope) -> bool {
        let mut text = Vec::new(alloc);
        envelope.view().write(&mut text).is_ok()
            && self.server.receive(alloc, Time::epoch(), &text).is_ok()
    }
}
