//! Messages of a client and a server, logs made by hand, what closes them and the texts
//! of their segments, and packets of what is signed. Each function is small, and gives none where memory is
//! refused.

use acceptance_helpers::{of_words, signed};
use authenticator::{Authenticator, LogVersion, Number, Word, signed_digest};
use envelopes::Envelope;
use merkle_keys::Signer;
use packets::{write_answer_text, write_challenge, write_learn};
use secure_log::Log;
use secure_log::log_entries::{Body, Entry, SignatureText, message_hash};
use std::alloc::Global;

/// A body of these words, ten at most.
fn body(alloc: Global, words: &[u32]) -> Option<Body> {
    match of_words(alloc, words) {
        Some(bytes) if bytes.len() <= 40 => Some(Body::new(bytes)),
        _ => None,
    }
}

/// NULL of NFS version 2 with this transaction.
pub fn call_body(alloc: Global, transaction: u32) -> Option<Body> {
    body(alloc, &[transaction, 0, 2, 0x186a3, 2, 0, 0, 0, 0, 0])
}

/// Its reply with this last word, which is 0 in the one that is owed.
pub fn reply_body(alloc: Global, transaction: u32, last: u32) -> Option<Body> {
    body(alloc, &[transaction, 1, 0, 0, 0, last])
}

/// A node's signature of a message to another, which its log has at a word after a hash of zeros.
fn message_signature(
    signer: &mut Signer,
    from: u32,
    to: u32,
    seq: Word,
    body: &Body,
) -> Option<SignatureText> {
    let hash = message_hash(to, seq, &[0; 32], &body.digest());
    match signer.sign(&signed_digest(from, seq, &hash)) {
        Ok(signature) => Some(SignatureText::new(signature)),
        Err(_) => None,
    }
}

/// That message.
pub fn message(signer: &mut Signer, from: u32, to: u32, seq: Word, body: Body) -> Option<Envelope> {
    match message_signature(signer, from, to, seq, &body) {
        Some(signature) => Some(Envelope {
            from,
            to,
            seq,
            prev: [0; 32],
            body,
            signature,
        }),
        None => None,
    }
}

/// The client's first message, a call with this transaction.
pub fn first_call(alloc: Global, client: &mut Signer, transaction: u32) -> Option<Envelope> {
    match call_body(alloc, transaction) {
        Some(body) => message(client, 2, 1, Word::new(1), body),
        None => None,
    }
}

/// A message's text.
pub fn message_text(alloc: Global, message: &Envelope) -> Option<Vec<u8>> {
    let mut text = Vec::new(alloc);
    match message.write(&mut text) {
        Ok(()) => Some(text),
        Err(_) => None,
    }
}

/// A message as its receiver logs it.
pub fn recv_of(message: Envelope) -> Entry {
    let Envelope {
        from,
        to: _,
        seq,
        prev,
        body,
        signature,
    } = message;
    Entry::Recv {
        from,
        seq,
        prev,
        body,
        signature,
    }
}

/// Whether a reading of a clock is appended.
pub fn reads_clock(log: &mut Log, seconds: u32) -> bool {
    let entry = Entry::Clock {
        seconds,
        microseconds: 0,
    };
    appends(log, entry)
}

/// Whether an entry is appended to a log of version 1.
pub fn appends(log: &mut Log, entry: Entry) -> bool {
    match log.log_version() {
        LogVersion::One => log.append(0, entry).is_ok(),
        LogVersion::Two => false,
    }
}

/// Whether so many are, from 0 seconds on.
pub fn reads_clocks(log: &mut Log, count: u32) -> bool {
    for seconds in 0..count {
        if !reads_clock(log, seconds) {
            return false;
        }
    }
    true
}

/// Whether a message is appended as received.
pub fn receives(log: &mut Log, message: Option<Envelope>) -> bool {
    match message {
        Some(message) => appends(log, recv_of(message)),
        None => false,
    }
}

/// Whether a message to node 2 with this body is appended as sent.
fn sends(log: &mut Log, body: Option<Body>) -> bool {
    match body {
        Some(body) => appends(log, Entry::Send { to: 2, body }),
        None => false,
    }
}

/// Whether the server logs the client's first call with this transaction, its clock, and the reply with this
/// last word.
pub fn answers_call(
    alloc: Global,
    log: &mut Log,
    client: &mut Signer,
    transaction: u32,
    last: u32,
) -> bool {
    receives(log, first_call(alloc, client, transaction))
        && reads_clock(log, 1)
        && sends(log, reply_body(alloc, transaction, last))
}

/// What the log's node signs for one of its numbers.
pub fn closing_at(log: &Log, signer: &mut Signer, number: u32) -> Option<Authenticator> {
    match log.hash_at(number as u64) {
        Some(hash) => signed(signer, log.node(), Number::new(number as u64), hash),
        None => None,
    }
}

/// The text of the log's segment from a number to this authenticator's.
pub fn segment_text(
    alloc: Global,
    log: &Log,
    first: u64,
    closing: &Authenticator,
) -> Option<Vec<u8>> {
    let mut text = Vec::new(alloc);
    match log.segment(first, closing.word.number(LogVersion::One).get()) {
        Ok(segment) => match segment.write(closing, &mut text) {
            Ok(()) => Some(text),
            Err(_) => None,
        },
        Err(_) => None,
    }
}

/// An authenticator's text.
pub fn authenticator_text(alloc: Global, authenticator: &Authenticator) -> Option<Vec<u8>> {
    let mut text = Vec::new(alloc);
    match authenticator.write(&mut text) {
        Ok(()) => Some(text),
        Err(_) => None,
    }
}

/// The packet of an authenticator.
pub fn learn_packet(alloc: Global, authenticator: &Authenticator) -> Option<Vec<u8>> {
    let mut bytes = Vec::new(alloc);
    match write_learn(authenticator, &mut bytes) {
        Ok(()) => Some(bytes),
        Err(_) => None,
    }
}

/// The packet of what a node signs for a hash at a number.
pub fn learn(
    alloc: Global,
    signer: &mut Signer,
    node: u32,
    number: u32,
    hash: [u8; 32],
) -> Option<Vec<u8>> {
    match signed(signer, node, Number::new(number as u64), hash) {
        Some(authenticator) => learn_packet(alloc, &authenticator),
        None => None,
    }
}

/// The packet of a segment's text.
pub fn answer_packet(alloc: Global, text: &[u8]) -> Option<Vec<u8>> {
    let mut bytes = Vec::new(alloc);
    match write_answer_text(LogVersion::One, text, &mut bytes) {
        Ok(()) => Some(bytes),
        Err(_) => None,
    }
}

/// The packet by which a message's receiver is challenged to acknowledge it.
pub fn challenge_packet(alloc: Global, message: &Envelope) -> Option<Vec<u8>> {
    let mut bytes = Vec::new(alloc);
    match write_challenge(&message.view(), &mut bytes) {
        Ok(()) => Some(bytes),
        Err(_) => None,
    }
}

/// A packet with the lowest bit of its last byte changed.
pub fn changed(packet: Option<Vec<u8>>) -> Option<Vec<u8>> {
    let mut bytes = packet?;
    if let Some(last) = bytes.last_mut() {
        *last ^= 1;
    }
    Some(bytes)
}
