//! A server gives the base at its last CHECK, once something is signed after it.

use crate::parties::{called, new_client, new_server, of_both};
use commitment::Received;
use nfs_items::Time;
use nodes::{BaseFault, ClientNode, ServerNode};
use std::alloc::Global;

/// How the base at a first entry begins (RFC 4506): version 1, node 1, first number 1, 32 zeros, two links,
/// of which the first is a CHECK.
const FRONT: [u8; 56] = [
    0, 0, 0, 1, 0, 0, 0, 1, 0, 0, 0, 0, 0, 0, 0, 1, 0, 0, 0, 0, 0, 0, 0, 0, 0, 0, 0, 0, 0, 0, 0, 0,
    0, 0, 0, 0, 0, 0, 0, 0, 0, 0, 0, 0, 0, 0, 0, 0, 0, 0, 0, 2, 0, 0, 0, 5,
];

/// Of the second link that it is a RECV.
const SECOND: [u8; 4] = [0, 0, 0, 2];

/// Whether a server gives no base at a number.
fn refuses(alloc: Global, server: &ServerNode, at: u64) -> bool {
    match server.base(alloc, at) {
        Ok(_) => false,
        Err(fault) => fault == BaseFault::OutOfRange,
    }
}

/// Whether a base begins so.
fn begins(text: &[u8]) -> bool {
    text.len() >= 92 && text.starts_with(&FRONT) && text[88..].starts_with(&SECOND)
}

/// Whether it gives the base at its first entry.
fn gives_the_first(alloc: Global, server: &ServerNode) -> bool {
    match server.base(alloc, 1) {
        Ok(text) => begins(&text),
        Err(_) => false,
    }
}

/// Whether a server takes a text as a new message.
fn is_new(alloc: Global, server: &mut ServerNode, text: &[u8]) -> bool {
    match server.receive(alloc, Time::epoch(), text) {
        Ok(Received::New(_)) => true,
        _ => false,
    }
}

/// Whether a server gives the base at its first entry, a CHECK, from the call after it on, up to its next
/// CHECK.
fn gives_bases(alloc: Global, client: &mut ClientNode, server: &mut ServerNode) -> bool {
    match called(alloc, client) {
        Some(text) => {
            refuses(alloc, server, 1)
                && server.checkpoint(alloc).is_ok()
                && refuses(alloc, server, 1)
                && is_new(alloc, server, &text)
                && gives_the_first(alloc, server)
                && refuses(alloc, server, 2)
                && server.checkpoint(alloc).is_ok()
                && refuses(alloc, server, 1)
                && refuses(alloc, server, 5)
        }
        None => false,
    }
}

#[test]
fn a_server_gives_bases(rt: HostRuntime) {
    let alloc = rt.alloc();
    let (client, server) = (new_client(alloc, 2), new_server(alloc, 2));
    assert!(rt; of_both(alloc, client, server, gives_bases) == Some(true));
}
