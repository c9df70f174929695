//! Exchanges between two clients and one server, by turns.

ghost use Rattle.std.specs.Prelude.{◌≡◌, IfSome};

use crate::parties::CALL;
use acceptance_helpers::{client, roster_of, server};
use authenticator::{Kind, LogVersion, Member, Roster};
use merkle_keys::Signer;
use nfs_items::Time;
use nodes::exchanges::exchange;
use nodes::{ClientNode, ServerNode};
use std::alloc::Global;

/// The height of each node's keys, of which there are eight.
const HEIGHT: u32 = 3;

/// A signer of a node's own keys.
fn signer(alloc: Global, node: u8) -> Option<Signer>
    ensures fresh { IfSome result (λ s. s.used ≡ 0) }
    ensures height { IfSome result (λ s. s.height ≡ 3) }
{
    match Signer::new(alloc, [node; 32], HEIGHT) {
        Ok(signer) => Some(signer),
        Err(_) => None,
    }
}

/// The roster of a server, 1, and two clients, 2 and 3.
fn roster(alloc: Global) -> Option<Roster> {
    let one = signer(alloc, 1)?.root();
    let two = signer(alloc, 2)?.root();
    let three = Member {
        node: 3,
        kind: Kind::Client,
        root: signer(alloc, 3)?.root(),
        height: HEIGHT,
        log_version: LogVersion::One,
    };
    roster_of(alloc, &[server(one, HEIGHT), client(two, HEIGHT), three])
}

/// The server.
pub fn new_server(alloc: Global) -> Option<ServerNode> {
    match signer(alloc, 1) {
        Some(keys) => ServerNode::with_signer(
            alloc,
            roster(alloc)?,
            1,
            LogVersion::One,
            keys,
            HEIGHT,
        ).ok(),
        None => None,
    }
}

/// A client.
pub fn new_client(alloc: Global, node: u8) -> Option<ClientNode> {
    match signer(alloc, node) {
        Some(keys) => {
            ClientNode::with_signer(
                alloc,
                roster(alloc)?,
                node as u32,
                LogVersion::One,
                keys,
                HEIGHT,
            )
            .ok()
        }
        None => None,
    }
}

/// Whether a client gets a reply of 24 bytes to a call.
fn is_answered(
    alloc: Global,
    client: &mut ClientNode,
    server: &mut ServerNode,
    text: &mut Vec<u8>,
) -> bool {
    match exchange(client, server, text, alloc, Time::epoch(), &CALL) {
        Ok(Some(reply)) => reply.len() == 24,
        _ => false,
    }
}

/// Whether two clients are answered by turns, and each has three entries for each of its calls.
fn answers_by_turns(
    alloc: Global,
    one: &mut ClientNode,
    two: &mut ClientNode,
    server: &mut ServerNode,
) -> bool {
    let mut text = Vec::new(alloc);
    is_answered(alloc, one, server, &mut text)
        && is_answered(alloc, two, server, &mut text)
        && is_answered(alloc, one, server, &mut text)
        && one.node().log().entries().len() == 6
        && two.node().log().entries().len() == 3
        && server.node().log().entries().len() == 12
}

/// Whether a function holds of three values, where all are there: of two of a type, and one of another.
fn three_hold<A: Drop, B: Drop, F: FnOnce(Global, &mut A, &mut A, &mut B) -> bool>(
    alloc: Global,
    one: Option<A>,
    two: Option<A>,
    other: Option<B>,
    hold: F,
) -> bool
    requires { F.IsAlwaysCallable hold }
{
    match (one, two, other) {
        (Some(mut one), Some(mut two), Some(mut other)) => {
            hold(alloc, &mut one, &mut two, &mut other)
        }
        _ => false,
    }
}

#[test]
fn two_clients_are_answered_by_turns(rt: HostRuntime) {
    let alloc = rt.alloc();
    let (one, two) = (new_client(alloc, 2), new_client(alloc, 3));
    assert!(rt; three_hold(alloc, one, two, new_server(alloc), answers_by_turns));
}
