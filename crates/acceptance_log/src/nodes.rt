//! A client and a server, and what they write. Each function is small, and gives none where memory is
//! refused: the proof of a function takes its time by what it owns at how many exits.

use acceptance_helpers::{MASTER, client, roster_of, server};
use authenticator::{LogVersion, Roster};
use commitment::Receiver;
use commitment::senders::Sender;
use secure_log::log_entries::Body;
use std::alloc::Global;

/// The master secret of the client's keys: 31 zero bytes and a two.
const CLIENT: [u8; 32] = [
    0, 0, 0, 0, 0, 0, 0, 0, 0, 0, 0, 0, 0, 0, 0, 0, 0, 0, 0, 0, 0, 0, 0, 0, 0, 0, 0, 0, 0, 0, 0, 2,
];

/// The client, node 2, with eight keys.
pub fn new_client(alloc: Global) -> Option<Sender> {
    Sender::new(alloc, 2, LogVersion::One, CLIENT, 3).ok()
}

/// The roster of a server with this root, and the client.
fn roster_with(alloc: Global, root: [u8; 32]) -> Option<Roster> {
    match new_client(alloc) {
        Some(sender) => roster_of(alloc, &[server(root, 1), client(sender.root(), 3)]),
        None => None,
    }
}

/// The server, node 1, with two keys, which receives from the client.
pub fn new_server(alloc: Global) -> Option<Receiver> {
    match Sender::new(alloc, 1, LogVersion::One, MASTER, 1) {
        Ok(sender) => match roster_with(alloc, sender.root()) {
            Some(roster) => Some(Receiver::new(alloc, sender, roster)),
            None => None,
        },
        Err(_) => None,
    }
}

/// A body of 40 bytes, all the same.
pub fn body(alloc: Global, byte: u8) -> Option<Body> {
    match Vec::from_slice(alloc, &[byte; 40]) {
        Ok(bytes) => Some(Body::new(bytes)),
        Err(_) => None,
    }
}

/// The text of the envelope that a sender has at a number.
fn envelope_text(alloc: Global, sender: &Sender, number: u64) -> Option<Vec<u8>> {
    let mut text = Vec::new(alloc);
    match sender.envelope(number) {
        Some(envelope) => match envelope.write(&mut text) {
            Ok(()) => Some(text),
            Err(_) => None,
        },
        None => None,
    }
}

/// The text of the envelope of a new message to a node, 40 bytes all the same.
pub fn sent(alloc: Global, sender: &mut Sender, to: u32, byte: u8) -> Option<Vec<u8>> {
    match body(alloc, byte) {
        Some(body) => match sender.send(to, body) {
            Ok(number) => envelope_text(alloc, sender, number.get()),
            Err(_) => None,
        },
        None => None,
    }
}

/// The text of the acknowledgement that a sender has at a number.
pub fn ack_text(alloc: Global, sender: &Sender, number: u64) -> Option<Vec<u8>> {
    let mut text = Vec::new(alloc);
    match sender.ack(number) {
        Some(ack) => match ack.write(&mut text) {
            Ok(()) => Some(text),
            Err(_) => None,
        },
        None => None,
    }
}

/// Changes these bits of a text's byte, where it has one there.
pub fn flip(text: &mut [u8], place: usize, bits: u8) {
    if let Some(byte) = text.get_mut(place) {
        *byte ^= bits;
    }
}
