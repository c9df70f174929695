//! A client and a server, and what they write. Each function is small, and gives none or false where memory
//! is refused: the proof of a function takes its time by how much of a node is in it at how many exits. So
//! `holds_of` and `of_both` own the nodes of most tests, and are handed what is tried of them.

ghost use Rattle.std.specs.Prelude.{◌≤◌};

use acceptance_helpers::{client, roster_of, server};
use authenticator::{LogVersion, Roster};
use commitment::senders::Sender;
use nodes::{ClientNode, Direct, NodeLog, ServerNode};
use secure_log::log_entries::Body;
use std::alloc::Global;

/// The numbers of the two.
pub const SERVER: u32 = 1;

pub const CLIENT: u32 = 2;

const SERVER_MASTER: [u8; 32] = [1; 32];

const CLIENT_MASTER: [u8; 32] = [2; 32];

/// The NULL call of NFS version 2 with the transaction 1.
pub const CALL: [u8; 40] = [
    0, 0, 0, 1, 0, 0, 0, 0, 0, 0, 0, 2, 0, 1, 0x86, 0xa3, 0, 0, 0, 2, 0, 0, 0, 0, 0, 0, 0, 0, 0, 0,
    0, 0, 0, 0, 0, 0, 0, 0, 0, 0,
];

/// The root of a node's keys.
fn root(alloc: Global, node: u32, master: [u8; 32], height: u32) -> Option<[u8; 32]>
    requires some { 1 ≤ height }
    requires low { height ≤ 16 }
{
    match Sender::new(alloc, node, LogVersion::One, master, height) {
        Ok(sender) => Some(sender.root()),
        Err(_) => None,
    }
}

/// The roster of the two.
fn roster(alloc: Global, height: u32) -> Option<Roster>
    requires some { 1 ≤ height }
    requires low { height ≤ 16 }
{
    let one = root(alloc, SERVER, SERVER_MASTER, height)?;
    let two = root(alloc, CLIENT, CLIENT_MASTER, height)?;
    roster_of(alloc, &[server(one, height), client(two, height)])
}

/// The server, with 2 to the height keys and nothing logged.
pub fn new_server(alloc: Global, height: u32) -> Option<ServerNode>
    requires some { 1 ≤ height }
    requires low { height ≤ 16 }
{
    match roster(alloc, height) {
        Some(roster) => ServerNode::new(
            alloc,
            roster,
            SERVER,
            LogVersion::One,
            SERVER_MASTER,
            height,
        )
        .ok(),
        None => None,
    }
}

/// The client, as the server.
pub fn new_client(alloc: Global, height: u32) -> Option<ClientNode>
    requires some { 1 ≤ height }
    requires low { height ≤ 16 }
{
    match roster(alloc, height) {
        Some(roster) => ClientNode::new(
            alloc,
            roster,
            CLIENT,
            LogVersion::One,
            CLIENT_MASTER,
            height,
        )
        .ok(),
        None => None,
    }
}

/// Both, joined.
pub fn joined(alloc: Global, height: u32) -> Option<Direct>
    requires some { 1 ≤ height }
    requires low { height ≤ 16 }
{
    let (client, server) = new_client(alloc, height).zip(new_server(alloc, height))?;
    Direct::join(alloc, client, server).ok()
}

/// Whether a function holds of a value, where there is one. The value's type is a parameter, so that the
/// proof knows nothing of what it owns.
pub fn holds_of<T: Drop, F: FnOnce(Global, &mut T) -> bool>(
    alloc: Global,
    value: Option<T>,
    holds: F,
) -> bool
    requires { F.IsAlwaysCallable holds }
{
    match value {
        Some(mut value) => holds(alloc, &mut value),
        None => false,
    }
}

/// What a function gives of two values, where both are there.
pub fn of_both<A: Drop, B: Drop, T: Copy, F: FnOnce(Global, &mut A, &mut B) -> T>(
    alloc: Global,
    one: Option<A>,
    two: Option<B>,
    told: F,
) -> Option<T>
    requires { F.IsAlwaysCallable told }
{
    match (one, two) {
        (Some(mut one), Some(mut two)) => Some(told(alloc, &mut one, &mut two)),
        _ => None,
    }
}

/// The text of the envelope of a node's SEND.
pub fn envelope_text(alloc: Global, node: &NodeLog, number: u64) -> Option<Vec<u8>> {
    let mut text = Vec::new(alloc);
    match node.envelope(number) {
        Some(envelope) => match envelope.write(&mut text) {
            Ok(()) => Some(text),
            Err(_) => None,
        },
        None => None,
    }
}

/// The text of the acknowledgement that a node's RECV makes.
pub fn ack_text(alloc: Global, node: &NodeLog, number: u64) -> Option<Vec<u8>> {
    let mut text = Vec::new(alloc);
    match node.ack(number) {
        Some(ack) => match ack.write(&mut text) {
            Ok(()) => Some(text),
            Err(_) => None,
        },
        None => None,
    }
}

/// The client calls the server. Gives the envelope's text.
pub fn called(alloc: Global, client: &mut ClientNode) -> Option<Vec<u8>> {
    let Ok(body) = Vec::from_slice(alloc, &CALL) else {
        return None;
    };
    match client.call(SERVER, Body::new(body)) {
        Ok(number) => envelope_text(alloc, client.node(), number.get()),
        Err(_) => None,
    }
}
