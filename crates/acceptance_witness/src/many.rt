//! Sixty-four nodes: what is learned of some of them leaves room for each of the others.

use crate::answers::{Answer, answers, learns, tells};
use crate::logs::{learn, learn_packet};
use crate::members::{CLIENT, books_of, delivered, keys, member};
use acceptance_helpers::signed;
use authenticator::{Authenticator, Number, Roster};
use merkle_keys::Signer;
use std::alloc::Global;
use witness_service::{Books, Indication, Refusal};

/// The height of each node's keys. All nodes have the same ones, so that few are made.
const HEIGHT: u32 = 8;

/// How many authenticators are kept of a node.
const KEPT: u32 = 256;

/// The node that is exposed.
const EXPOSED: u32 = 63;

/// The node of which others are learned last.
const LAST: u32 = 64;

/// How often the exposed node is learned again.
const AGAIN: u32 = 20_000;

/// Clients 1 to 64, all with this root.
fn all_clients(alloc: Global, root: [u8; 32]) -> Option<Roster> {
    let mut members = Vec::new(alloc);
    for node in 1..65 {
        if members.push(member(node, root, HEIGHT)).is_err() {
            return None;
        }
    }
    Roster::new(members).ok()
}

/// What a node signs for a number.
fn at_number(signer: &mut Signer, node: u32, number: u32) -> Option<Authenticator> {
    signed(signer, node, Number::new(number as u64), [1; 32])
}

/// Whether what a node signs for a number is noted.
fn notes(alloc: Global, books: &mut Books, signer: &mut Signer, node: u32, number: u32) -> bool {
    match at_number(signer, node, number) {
        Some(authenticator) => learns(alloc, books, &authenticator, Answer::Noted),
        None => false,
    }
}

/// Whether as many as are kept of a node are noted, by new keys of its.
fn fills(alloc: Global, books: &mut Books, node: u32) -> bool {
    let Some(mut signer) = keys(alloc, CLIENT, HEIGHT) else {
        return false;
    };
    for number in 1..KEPT + 1 {
        if !notes(alloc, books, &mut signer, node, number) {
            return false;
        }
    }
    true
}

/// Whether that goes for each node before the exposed one.
fn fills_all(alloc: Global, books: &mut Books) -> bool {
    for node in 1..EXPOSED {
        if !fills(alloc, books, node) {
            return false;
        }
    }
    true
}

/// Whether a packet is noted again and again.
fn notes_again(alloc: Global, books: &mut Books, packet: &[u8]) -> bool {
    for _ in 0..AGAIN {
        let Some(event) = delivered(alloc, packet) else {
            return false;
        };
        if !answers(alloc, books, event, Answer::Noted) {
            return false;
        }
    }
    true
}

/// Whether a second hash at a number exposes a node, and is noted again and again from then on.
fn exposes(alloc: Global, books: &mut Books, one: &Authenticator, two: &Authenticator) -> bool {
    let packet = learn_packet(alloc, two);
    learns(alloc, books, one, Answer::Noted)
        && learns(alloc, books, two, Answer::Noted)
        && tells(alloc, books, EXPOSED, Indication::Exposed)
        && match packet {
            Some(packet) => notes_again(alloc, books, &packet),
            None => false,
        }
}

/// The same of two hashes of the node that is exposed.
fn exposes_one(alloc: Global, books: &mut Books, signer: &mut Signer) -> bool {
    let one = at_number(signer, EXPOSED, 1);
    let two = signed(signer, EXPOSED, Number::new(1), [2; 32]);
    match (one, two) {
        (Some(one), Some(two)) => exposes(alloc, books, &one, &two),
        _ => false,
    }
}

/// Whether what the last node signs is noted where it is handed in as bytes.
fn notes_bytes(alloc: Global, books: &mut Books, signer: &mut Signer, number: u32) -> bool {
    match learn(alloc, signer, LAST, number, [1; 32]) {
        Some(packet) => match delivered(alloc, &packet) {
            Some(event) => answers(alloc, books, event, Answer::Noted),
            None => false,
        },
        None => false,
    }
}

/// Whether of the last node as many are noted as are kept, checked before and as bytes by turns, by new keys
/// of its.
fn fills_last(alloc: Global, books: &mut Books) -> bool {
    let Some(mut signer) = keys(alloc, CLIENT, HEIGHT) else {
        return false;
    };
    for number in 1..KEPT + 1 {
        let is_noted = if number % 2 == 0 {
            notes(alloc, books, &mut signer, LAST, number)
        } else {
            notes_bytes(alloc, books, &mut signer, number)
        };
        if !is_noted {
            return false;
        }
    }
    true
}

/// Whether of the last node no more are noted than are kept.
fn is_full(alloc: Global, books: &mut Books, signer: &mut Signer) -> bool {
    match at_number(signer, LAST, KEPT + 1) {
        Some(further) => learns(
            alloc,
            books,
            &further,
            Answer::Refused(Refusal::LearnedFull),
        ),
        None => false,
    }
}

/// Whether all nodes before are full or exposed, and of the last one as many are noted all the same.
fn leaves_room(alloc: Global, books: &mut Books, signer: &mut Signer) -> bool {
    fills_all(alloc, books)
        && exposes_one(alloc, books, signer)
        && fills_last(alloc, books)
        && is_full(alloc, books, signer)
}

/// The same of new books.
fn leaves_room_for_each(alloc: Global) -> bool {
    let Some(mut signer) = keys(alloc, CLIENT, HEIGHT) else {
        return false;
    };
    match books_of(alloc, all_clients(alloc, signer.root())) {
        Some(mut books) => leaves_room(alloc, &mut books, &mut signer),
        None => false,
    }
}

#[test]
fn what_others_are_learned_of_takes_no_room(rt: HostRuntime) {
    assert!(rt; leaves_room_for_each(rt.alloc()));
}
