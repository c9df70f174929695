//! Acknowledgements.

use crate::hostile::{Kind, is_garbage_cut, is_refused_changed, refusal_changed};
use crate::nodes::{ack_text, new_client, new_server, sent};
use authenticator::{Refusal, Roster, Word};
use commitment::Receiver;
use commitment::senders::Sender;
use envelopes::{Ack, Message, check_ack, check_envelope};
use sha2::{Digest, Sha256};
use std::alloc::Global;

/// The digest of the text of the acknowledgement, at number 1, of node 2's first message to node 1, which is
/// 40 bytes 7.
const ACK: [u8; 32] = [
    0xd1, 0x70, 0x59, 0xd8, 0x6d, 0xe1, 0x25, 0x02, 0x12, 0x0c, 0x43, 0xa9, 0x50, 0xcf, 0xd5, 0x0e,
    0xb5, 0x8a, 0x04, 0x1e, 0xa0, 0x50, 0x18, 0x54, 0x50, 0x7e, 0x81, 0x00, 0x2e, 0x80, 0x46, 0x8d,
];

/// The acknowledgement of the client's message, received.
fn acknowledged(alloc: Global, server: &mut Receiver, text: &[u8]) -> Option<Vec<u8>> {
    if server.receive(alloc, text).is_ok() {
        ack_text(alloc, server.sender(), 1)
    } else {
        None
    }
}

/// A message by its envelope's text.
fn message_of(alloc: Global, roster: &Roster, text: &[u8]) -> Option<Message> {
    match check_envelope(alloc, roster, text) {
        Ok(envelope) => Some(envelope.value().message()),
        Err(_) => None,
    }
}

/// Whether an acknowledgement is of the client's message 1, and not with another word or another digest of
/// the signature.
fn matches_first(client: &Sender, mut ack: Ack) -> bool {
    let first = client.matches_ack(&ack);
    ack.seq = Word::new(2);
    let second = client.matches_ack(&ack);
    ack.seq = Word::new(1);
    ack.signature_hash = [0; 32];
    first && !second && !client.matches_ack(&ack)
}

/// Whether an acknowledgement is of this message, and of the client's first, beside which it sent another.
fn is_of_first(
    alloc: Global,
    roster: &Roster,
    client: &mut Sender,
    text: &[u8],
    ack: &[u8],
) -> bool {
    let message = message_of(alloc, roster, text);
    let again = sent(alloc, client, 1, 7).is_some();
    match check_ack(alloc, roster, ack) {
        Ok(ack) => {
            let ack: Ack = ack.into_value();
            again && Some(ack.message()) == message && matches_first(client, ack)
        }
        Err(_) => false,
    }
}

/// Whether an acknowledgement's text with fields changed is refused as it should be: in turn nothing; who
/// acknowledges, the number, the hash before, the sender, its number, the hash before there, the body, the
/// signature and the own signature's leaf; and who acknowledges, to one who is no member.
fn is_refused_by_field(alloc: Global, roster: &Roster, ack: &mut [u8]) -> bool {
    let bad = Some(Refusal::BadSignature);
    for (place, bits, refusal) in [
        (0, 0, None),
        (3, 3, bad),
        (11, 2, bad),
        (12, 1, bad),
        (47, 1, bad),
        (55, 2, bad),
        (56, 1, bad),
        (88, 1, bad),
        (120, 1, bad),
        (155, 1, bad),
        (3, 8, Some(Refusal::UnknownNode)),
    ] {
        if refusal_changed(alloc, Kind::Ack, roster, ack, place, bits) != refusal {
            return false;
        }
    }
    true
}

/// The first that doesn't hold of the acknowledgement of the client's message; empty where all holds.
fn wrong_of_ack(
    alloc: Global,
    roster: &Roster,
    client: &mut Sender,
    text: &[u8],
    ack: &mut [u8],
) -> &'static str {
    if Sha256::digest(&*ack) != ACK {
        "another program's"
    } else if !is_of_first(alloc, roster, client, text, ack) {
        "of its message"
    } else if !is_garbage_cut(alloc, Kind::Ack, roster, ack) {
        "garbage where it is cut"
    } else if !is_refused_by_field(alloc, roster, ack) {
        "refused with a field changed"
    } else if !is_refused_changed(alloc, Kind::Ack, roster, ack, 156) {
        "refused with a byte changed"
    } else {
        ""
    }
}

/// The same of the client's message, received.
fn wrong_of_message(
    alloc: Global,
    client: &mut Sender,
    server: &mut Receiver,
    text: &[u8],
) -> &'static str {
    match acknowledged(alloc, server, text) {
        Some(mut ack) => wrong_of_ack(alloc, server.roster(), client, text, &mut ack),
        None => "memory",
    }
}

/// The same of the client's first message.
fn wrong_of(alloc: Global, client: &mut Sender, server: &mut Receiver) -> &'static str {
    match sent(alloc, client, 1, 7) {
        Some(text) => wrong_of_message(alloc, client, server, &text),
        None => "memory",
    }
}

/// The same of a new client.
fn wrong_of_client(alloc: Global, server: &mut Receiver) -> &'static str {
    match new_client(alloc) {
        Some(mut client) => wrong_of(alloc, &mut client, server),
        None => "memory",
    }
}

/// The same of a new client and a new server.
fn wrong_of_both(alloc: Global) -> &'static str {
    match new_server(alloc) {
        Some(mut server) => wrong_of_client(alloc, &mut server),
        None => "memory",
    }
}

#[test]
fn an_acknowledgement_is_of_its_message_alone(rt: HostRuntime) {
    let wrong = wrong_of_both(rt.alloc());
    assert!(rt; wrong.is_empty(), "{wrong}");
}
