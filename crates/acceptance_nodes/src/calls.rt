//! A call, its reply and their acknowledgements, and what comes again.

use crate::parties::{
    CALL, SERVER, ack_text, called, envelope_text, holds_of, joined, new_client, new_server,
    of_both,
};
use authenticator::{LogVersion, Number};
use commitment::{Received, Refusal};
use nfs_items::Time;
use nodes::{AckTaken, ClientNode, Direct, Link, LinkFault, NodeLog, Receipt, ServerNode};
use secure_log::log_entries::{Body, Entry};
use secure_log::{SegmentFault, check_segment};
use std::alloc::Global;

/// What a server answers its first call: it is acknowledged at 1, and its reply is sent at 3.
fn receipt() -> Receipt {
    Receipt {
        ack: Number::new(1),
        reply: Some(Number::new(3)),
    }
}

/// Whether a server answers a text so, at so many seconds.
fn receives(
    alloc: Global,
    server: &mut ServerNode,
    seconds: u32,
    text: &[u8],
    answer: Received<Receipt>,
) -> bool {
    match Time::new(seconds, 0) {
        Some(time) => server.receive(alloc, time, text) == Ok(answer),
        None => false,
    }
}

/// Whether a log is RECV, CLOCK and SEND, so many keys are left, and the clock has so many seconds.
fn is_after_call(node: &NodeLog, left: u32, seconds: u32) -> bool {
    node.left() == left
        && node.state().clock().seconds() == seconds
        && match node.log().entries() {
            [Entry::Recv { .. }, Entry::Clock { .. }, Entry::Send { .. }] => true,
            _ => false,
        }
}

/// Whether a node acknowledges its first entry by this text.
fn acknowledges(alloc: Global, node: &NodeLog, ack: &[u8]) -> bool {
    match ack_text(alloc, node, 1) {
        Some(text) => text.as_slice() == ack,
        None => false,
    }
}

/// Whether a call that comes again changes nothing, and has the same acknowledgement.
fn is_repeated(alloc: Global, server: &mut ServerNode, text: &[u8], ack: &[u8]) -> bool {
    receives(alloc, server, 2, text, Received::Repeat(receipt()))
        && is_after_call(server.node(), 6, 1)
        && acknowledges(alloc, server.node(), ack)
}

/// Whether a call is logged, and logged once, by two of eight keys.
fn is_received_once(alloc: Global, server: &mut ServerNode, text: &[u8]) -> bool {
    let is_new = receives(alloc, server, 1, text, Received::New(receipt()))
        && is_after_call(server.node(), 6, 1);
    match ack_text(alloc, server.node(), 1) {
        Some(ack) => is_new && is_repeated(alloc, server, text, &ack),
        None => false,
    }
}

/// Whether the envelope of a call of 40 bytes has 16,580 bytes, and is received once.
fn is_called_once(alloc: Global, client: &mut ClientNode, server: &mut ServerNode) -> bool {
    match called(alloc, client) {
        Some(text) => text.len() == 16_580 && is_received_once(alloc, server, &text),
        None => false,
    }
}

/// Whether the client takes the server's acknowledgement once, and the server doesn't take it.
fn is_acknowledged_once(alloc: Global, client: &mut ClientNode, server: &mut ServerNode) -> bool {
    match ack_text(alloc, server.node(), 1) {
        Some(ack) => {
            client.take_ack(alloc, &ack) == Ok(AckTaken::Logged(Number::new(2)))
                && client.take_ack(alloc, &ack) == Ok(AckTaken::Already)
                && client.take_reply(alloc, &ack) == Err(Refusal::Garbage)
                && server.take_ack(alloc, &ack) == Err(Refusal::NotForMe)
        }
        None => false,
    }
}

/// Whether the client takes the server's reply once, and doesn't take its own call.
fn is_replied_once(alloc: Global, client: &mut ClientNode, server: &ServerNode) -> bool {
    match envelope_text(alloc, server.node(), 3) {
        Some(reply) => {
            client.take_reply(alloc, &reply) == Ok(Received::New(Number::new(3)))
                && client.take_reply(alloc, &reply) == Ok(Received::Repeat(Number::new(3)))
                && client.take_ack(alloc, &reply) == Err(Refusal::Garbage)
                && client.node().left() == 6
        }
        None => false,
    }
}

/// Whether the server takes the client's acknowledgement of its reply.
fn is_reply_acknowledged(alloc: Global, client: &ClientNode, server: &mut ServerNode) -> bool {
    match ack_text(alloc, client.node(), 3) {
        Some(ack) => server.take_ack(alloc, &ack) == Ok(AckTaken::Logged(Number::new(4))),
        None => false,
    }
}

/// The first step of a call and its reply that goes wrong.
fn wrong_step(alloc: Global, client: &mut ClientNode, server: &mut ServerNode) -> &'static str {
    if !is_called_once(alloc, client, server) {
        "the call"
    } else if !is_acknowledged_once(alloc, client, server) {
        "its acknowledgement"
    } else if !is_replied_once(alloc, client, server) {
        "the reply"
    } else if !is_reply_acknowledged(alloc, client, server) {
        "the reply's acknowledgement"
    } else if !is_challenged(alloc, server) {
        "the challenge"
    } else {
        ""
    }
}

#[test]
fn each_step_is_logged_once(rt: HostRuntime) {
    let alloc = rt.alloc();
    let step = of_both(
        alloc,
        new_client(alloc, 3),
        new_server(alloc, 3),
        wrong_step,
    );
    let step = step.unwrap_or("memory");
    assert!(rt; step.is_empty(), "{step}");
}

/// Whether a text is that of a segment of so many entries whose signature is right.
fn is_closed(alloc: Global, node: &NodeLog, text: &[u8], count: usize) -> bool {
    match check_segment(alloc, node.roster(), LogVersion::One, text) {
        Ok(closed) => closed.segment().entries().len() == count,
        Err(_) => false,
    }
}

/// Whether a node answers a challenge with so many entries; with none where it refuses as out of its range.
fn answers(alloc: Global, node: &NodeLog, first: u64, last: u64, count: usize) -> bool {
    match node.answer_challenge(alloc, first, last) {
        Ok(text) => is_closed(alloc, node, &text, count),
        Err(fault) => count == 0 && fault == SegmentFault::OutOfRange,
    }
}

/// Whether a server that logged RECV, CLOCK, SEND, ACK and now CHECK answers challenges where something was
/// signed, and nowhere else.
fn is_challenged(alloc: Global, server: &mut ServerNode) -> bool {
    server.checkpoint(alloc).is_ok()
        && answers(alloc, server.node(), 1, 3, 3)
        && answers(alloc, server.node(), 3, 3, 1)
        && answers(alloc, server.node(), 1, 2, 0)
        && answers(alloc, server.node(), 1, 5, 0)
        && answers(alloc, server.node(), 0, 3, 0)
        && answers(alloc, server.node(), 3, 1, 0)
        && answers(alloc, server.node(), 1, 6, 0)
}

/// Whether a client calls, or why it doesn't.
fn refusal(alloc: Global, client: &mut ClientNode) -> Option<Refusal> {
    match Vec::from_slice(alloc, &CALL) {
        Ok(body) => client.call(SERVER, Body::new(body)).err(),
        Err(_) => Some(Refusal::NoMemory),
    }
}

/// Whether a client with two keys calls twice.
fn calls_with_each_key(alloc: Global, client: &mut ClientNode) -> bool {
    refusal(alloc, client) == None
        && refusal(alloc, client) == None
        && refusal(alloc, client) == Some(Refusal::KeysUsedUp)
}

#[test]
fn a_client_calls_with_each_key(rt: HostRuntime) {
    assert!(rt; holds_of(rt.alloc(), new_client(rt.alloc(), 1), calls_with_each_key));
}

/// The length of the reply to a call, or the fault.
fn exchanged(alloc: Global, link: &mut Direct) -> Result<usize, LinkFault> {
    match link.exchange(alloc, Time::epoch(), &CALL) {
        Ok(Some(reply)) => Ok(reply.len()),
        Ok(None) => Ok(0),
        Err(fault) => Err(fault),
    }
}

/// Whether four keys of each serve two calls.
fn is_used_up(alloc: Global, link: &mut Direct) -> bool {
    exchanged(alloc, link) == Ok(24)
        && exchanged(alloc, link) == Ok(24)
        && link.client().node().log().entries().len() == 6
        && link.server().node().log().entries().len() == 8
        && link.server().node().left() == 0
        && exchanged(alloc, link) == Err(LinkFault::KeysUsedUp)
        && exchanged(alloc, link) == Err(LinkFault::Failed)
}

#[test]
fn calls_are_answered_until_the_keys_are_used_up(rt: HostRuntime) {
    assert!(rt; holds_of(rt.alloc(), joined(rt.alloc(), 2), is_used_up));
}

/// Whether a client and a server have so many keys left.
fn have_left(client: &ClientNode, server: &ServerNode, of_client: u32, of_server: u32) -> bool {
    client.node().left() == of_client && server.node().left() == of_server
}

/// Whether a client has a key left that has called, and a server two.
fn have_called(_: Global, nodes: &mut (ClientNode, ServerNode)) -> bool {
    have_left(&nodes.0, &nodes.1, 1, 2)
}

/// Whether a client calls, and then it and a server come back from a join as they were.
fn come_back(alloc: Global, mut client: ClientNode, server: ServerNode) -> bool {
    let refusal = refusal(alloc, &mut client);
    holds_of(
        alloc,
        Direct::join(alloc, client, server).err(),
        have_called,
    ) && refusal == None
}

/// The same of a new client and a new server.
fn both_come_back(alloc: Global) -> bool {
    match new_client(alloc, 1).zip(new_server(alloc, 1)) {
        Some((client, server)) => come_back(alloc, client, server),
        None => false,
    }
}

#[test]
fn nodes_that_are_not_joined_come_back(rt: HostRuntime) {
    assert!(rt; both_come_back(rt.alloc()));
}

/// Whether each has two of four keys left.
fn have_exchanged(_: Global, nodes: &mut (ClientNode, ServerNode)) -> bool {
    have_left(&nodes.0, &nodes.1, 2, 2)
}

/// Whether a call is answered, and both have two of four keys left when they are taken apart.
fn is_taken_apart(alloc: Global, mut link: Direct) -> bool {
    let answer = exchanged(alloc, &mut link);
    holds_of(alloc, Some(link.into_nodes()), have_exchanged) && answer == Ok(24)
}

/// The same of a new client and a new server, with four keys each.
fn are_taken_apart(alloc: Global) -> bool {
    match joined(alloc, 2) {
        Some(link) => is_taken_apart(alloc, link),
        None => false,
    }
}

#[test]
fn joined_nodes_are_taken_apart_after_a_call(rt: HostRuntime) {
    assert!(rt; are_taken_apart(rt.alloc()));
}
