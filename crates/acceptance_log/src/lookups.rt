//! What is looked up by number.

use crate::nodes::{new_client, sent};
use authenticator::Number;
use commitment::senders::Sender;
use secure_log::log_entries::Entry;
use std::alloc::Global;

/// Logs a CLOCK, with memory reserved for it and a number.
fn reads_clock(client: &mut Sender) -> bool {
    let ready = client.reserve(1, 0).is_ok() && !client.lacks_numbers(1);
    if ready {
        client.append_unsigned(Entry::Clock {
            seconds: 1,
            microseconds: 0,
        });
    }
    ready
}

/// Logs a SEND, a CLOCK and a SEND.
fn sends_twice(alloc: Global, client: &mut Sender) -> bool {
    sent(alloc, client, 1, 1).is_some()
        && reads_clock(client)
        && sent(alloc, client, 1, 2).is_some()
}

/// Whether there is an authenticator at a number, or none, as is said.
fn is_authenticated(alloc: Global, client: &Sender, number: u64, signed: bool) -> bool {
    match client.authenticator(alloc, number) {
        Ok(authenticator) => authenticator.is_some() == signed,
        Err(_) => false,
    }
}

/// Whether an authenticator, a signature and an envelope are found at the numbers of what was signed, and
/// nothing else.
fn are_found(alloc: Global, client: &Sender) -> bool {
    for (number, signed) in [(0, false), (1, true), (2, false), (3, true), (4, false)] {
        if !is_authenticated(alloc, client, number, signed)
            || client.signature(number).is_some() != signed
            || client.envelope(number).is_some() != signed
            || client.ack(number).is_some()
        {
            return false;
        }
    }
    true
}

/// Whether the last that was signed is found after each number.
fn is_last_found(client: &Sender) -> bool {
    for (after, number) in [
        (0, Some(Number::new(3))),
        (2, Some(Number::new(3))),
        (3, None),
        (u64::MAX, None),
    ] {
        if client.signed_after(after) != number {
            return false;
        }
    }
    client.left() == 6
}

/// Whether both hold of a new client with a SEND, a CLOCK and a SEND.
fn are_all_found(alloc: Global) -> bool {
    match new_client(alloc) {
        Some(mut client) => {
            sends_twice(alloc, &mut client) && are_found(alloc, &client) && is_last_found(&client)
        }
        None => false,
    }
}

#[test]
fn what_was_signed_is_found(rt: HostRuntime) {
    assert!(rt; are_all_found(rt.alloc()));
}
