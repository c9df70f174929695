//! Envelopes, sent and received.

use crate::hostile::{self, Kind, is_garbage_cut, is_refused_changed};
use crate::nodes::{body, flip, new_client, new_server, sent};
use authenticator::{Refusal as Unchecked, Roster};
use commitment::senders::Sender;
use commitment::{Receiver, Refusal};
use sha2::{Digest, Sha256};
use std::alloc::Global;

/// The digest of the text of an envelope from node 2 to node 1 of 40 bytes 7, at number 1.
const ENVELOPE: [u8; 32] = [
    0x55, 0x7b, 0xdf, 0x33, 0x4b, 0xb3, 0x3c, 0xc9, 0x2a, 0xfc, 0x04, 0x6b, 0x36, 0x8c, 0xe2, 0x9f,
    0xf5, 0x07, 0xda, 0x75, 0x8d, 0x7b, 0x4d, 0xce, 0x27, 0x00, 0x73, 0xa8, 0x74, 0x87, 0x3f, 0x35,
];

/// What is tried with a new client and a new server.
#[derive(Clone, Copy)]
enum Trial {
    /// An envelope's text is another program's, and no other bytes are taken for it.
    EnvelopesText,
    /// The server has two keys: it logs two messages, and knows them again when both are used.
    ReceivedOnce,
    /// The first messages of a client and of one that begins its log anew, under one number, are two.
    TwoBeginnings,
    /// Keys are used to their end.
    KeysUsedUp,
    /// A message to a third node, and one of the client to itself, are not for the server.
    Elsewhere,
    /// A changed envelope is refused.
    Changed,
}

/// Whether a text is the first envelope's as another program has it, and refused where it is cut, or changed
/// before the secrets of its signature.
fn is_another_programs(alloc: Global, roster: &Roster, text: &mut [u8]) -> bool {
    text.len() == 16_580
        && Sha256::digest(&*text) == ENVELOPE
        && hostile::refusal(alloc, Kind::Envelope, roster, text) == None
        && is_garbage_cut(alloc, Kind::Envelope, roster, text)
        && is_refused_changed(alloc, Kind::Envelope, roster, text, 96)
}

/// Whether a message's RECV has this number, and it is new or not as is said.
fn is_received(alloc: Global, server: &mut Receiver, text: &[u8], number: u64, new: bool) -> bool {
    match server.receive(alloc, text) {
        Ok(received) => received.number().get() == number && received.is_new() == new,
        Err(_) => false,
    }
}

fn are_received_once(alloc: Global, server: &mut Receiver, first: &[u8], second: &[u8]) -> bool {
    is_received(alloc, server, first, 1, true)
        && is_received(alloc, server, first, 1, false)
        && is_received(alloc, server, second, 2, true)
        && is_received(alloc, server, first, 1, false)
        && server.sender().log().entries().len() == 2
}

/// Whether the client's first message and a second are received once each.
fn is_received_once(
    alloc: Global,
    client: &mut Sender,
    server: &mut Receiver,
    first: &[u8],
) -> bool {
    match sent(alloc, client, 1, 7) {
        Some(second) => are_received_once(alloc, server, first, &second),
        None => false,
    }
}

/// The first message of another new client.
fn other_beginning(alloc: Global) -> Option<Vec<u8>> {
    match new_client(alloc) {
        Some(mut client) => sent(alloc, &mut client, 1, 8),
        None => None,
    }
}

/// Whether the client's first message and that of another new client are two.
fn are_two_beginnings(alloc: Global, server: &mut Receiver, first: &[u8]) -> bool {
    match other_beginning(alloc) {
        Some(second) => {
            is_received(alloc, server, first, 1, true)
                && is_received(alloc, server, &second, 2, true)
        }
        None => false,
    }
}

/// Why the server doesn't take a text.
fn refusal(alloc: Global, server: &mut Receiver, text: &[u8]) -> Option<Refusal> {
    server.receive(alloc, text).err()
}

/// Why the server doesn't send a message.
fn unsent(alloc: Global, server: &mut Receiver) -> Option<Refusal> {
    match body(alloc, 1) {
        Some(body) => server.send(2, body).err(),
        None => Some(Refusal::NoMemory),
    }
}

/// Whether the server sends by its two keys, and then neither sends nor receives.
fn uses_keys_up(alloc: Global, server: &mut Receiver, text: &[u8]) -> bool {
    unsent(alloc, server) == None
        && unsent(alloc, server) == None
        && unsent(alloc, server) == Some(Refusal::KeysUsedUp)
        && refusal(alloc, server, text) == Some(Refusal::KeysUsedUp)
}

/// Whether the client's message to another node isn't for the server, and gets this refusal of a check.
fn is_elsewhere(
    alloc: Global,
    client: &mut Sender,
    server: &mut Receiver,
    to: u32,
    unchecked: Unchecked,
) -> bool {
    match sent(alloc, client, to, 7) {
        Some(text) => {
            refusal(alloc, server, &text) == Some(Refusal::NotForMe)
                && hostile::refusal(alloc, Kind::Envelope, server.roster(), &text)
                    == Some(unchecked)
        }
        None => false,
    }
}

/// Why the server doesn't take a text with these bits of a byte changed.
fn refusal_changed(
    alloc: Global,
    server: &mut Receiver,
    text: &mut [u8],
    place: usize,
    bits: u8,
) -> Option<Refusal> {
    flip(text, place, bits);
    let refused = refusal(alloc, server, text);
    flip(text, place, bits);
    refused
}

// In turn a secret that is shown, the sender, who is no member then, the receiver, the sender, who is the
// server then, the number, the body's length, the body, and nothing.
fn is_refused_by_field(alloc: Global, server: &mut Receiver, text: &mut [u8]) -> bool {
    let bad = Some(Refusal::BadSignature);
    for (place, bits, refusal) in [
        (100, 1, bad),
        (3, 11, bad),
        (4, 1, Some(Refusal::NotForMe)),
        (3, 3, Some(Refusal::NotForMe)),
        (8, 0xff, bad),
        (51, 1, Some(Refusal::Garbage)),
        (52, 1, bad),
        (0, 0, None),
    ] {
        if refusal_changed(alloc, server, text, place, bits) != refusal {
            return false;
        }
    }
    true
}

/// Whether a trial goes as it should, where the client has sent this text.
fn goes_well(
    alloc: Global,
    trial: Trial,
    client: &mut Sender,
    server: &mut Receiver,
    text: &mut [u8],
) -> bool {
    match trial {
        Trial::EnvelopesText => is_another_programs(alloc, server.roster(), text),
        Trial::ReceivedOnce => is_received_once(alloc, client, server, text),
        Trial::TwoBeginnings => are_two_beginnings(alloc, server, text),
        Trial::KeysUsedUp => uses_keys_up(alloc, server, text),
        Trial::Elsewhere => {
            is_elsewhere(alloc, client, server, 3, Unchecked::UnknownNode)
                && is_elsewhere(alloc, client, server, 2, Unchecked::Garbage)
        }
        Trial::Changed => is_refused_by_field(alloc, server, text),
    }
}

/// The same of a client and a server to which nothing was sent.
fn goes_well_from_first(
    alloc: Global,
    trial: Trial,
    client: &mut Sender,
    server: &mut Receiver,
) -> bool {
    match sent(alloc, client, 1, 7) {
        Some(mut text) => goes_well(alloc, trial, client, server, &mut text),
        None => false,
    }
}

/// The same of a new client.
fn goes_well_of_client(alloc: Global, trial: Trial, server: &mut Receiver) -> bool {
    match new_client(alloc) {
        Some(mut client) => goes_well_from_first(alloc, trial, &mut client, server),
        None => false,
    }
}

/// The same of a new client and a new server.
fn goes_well_of_both(alloc: Global, trial: Trial) -> bool {
    match new_server(alloc) {
        Some(mut server) => goes_well_of_client(alloc, trial, &mut server),
        None => false,
    }
}

#[test]
fn messages_are_received_as_owed(rt: HostRuntime) {
    assert!(rt; goes_well_of_both(rt.alloc(), Trial::EnvelopesText));
    assert!(rt; goes_well_of_both(rt.alloc(), Trial::ReceivedOnce));
    assert!(rt; goes_well_of_both(rt.alloc(), Trial::TwoBeginnings));
    assert!(rt; goes_well_of_both(rt.alloc(), Trial::KeysUsedUp));
    assert!(rt; goes_well_of_both(rt.alloc(), Trial::Elsewhere));
    assert!(rt; goes_well_of_both(rt.alloc(), Trial::Changed));
}
