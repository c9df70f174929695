//! A server whose log is long takes a message all the same: its log has no length at which it is full.

use crate::parties::{called, new_client, new_server, of_both};
use commitment::Received;
use nfs_items::Time;
use nodes::{ClientNode, ServerNode};
use std::alloc::Global;

/// How many CHECKs the log has, which take no key.
const CHECKS: usize = 20_001;

/// Whether a server logs so many CHECKs.
fn logs_checks(alloc: Global, server: &mut ServerNode) -> bool {
    for _ in 0..CHECKS {
        if server.checkpoint(alloc).is_err() {
            return false;
        }
    }
    server.node().log().entries().len() == CHECKS
}

/// Whether a server takes a text as a new message.
fn is_new(alloc: Global, server: &mut ServerNode, text: &[u8]) -> bool {
    match server.receive(alloc, Time::epoch(), text) {
        Ok(Received::New(_)) => true,
        _ => false,
    }
}

/// Whether it takes the client's call after them, and logs it with its clock and the reply.
fn takes_a_call(alloc: Global, client: &mut ClientNode, server: &mut ServerNode) -> bool {
    match called(alloc, client) {
        Some(text) => {
            logs_checks(alloc, server)
                && is_new(alloc, server, &text)
                && server.node().log().entries().len() == CHECKS + 3
        }
        None => false,
    }
}

#[test]
fn a_long_log_takes_a_message(rt: HostRuntime) {
    let alloc = rt.alloc();
    let (client, server) = (new_client(alloc, 2), new_server(alloc, 2));
    assert!(rt; of_both(alloc, client, server, takes_a_call) == Some(true));
}
