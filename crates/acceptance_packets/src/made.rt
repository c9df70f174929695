//! Packets of node 1, made by hand, each signed by its first key, and node 2 alone. Each function is small,
//! and gives none where memory is refused: the proof of a function takes its time by what it owns at how many
//! exits.

use acceptance_helpers::{MASTER, client, roster_of, server, signed};
use authenticator::{Authenticator, LogVersion, Number, Roster, Word, signed_digest};
use envelopes::{Ack, Envelope};
use merkle_keys::{Signature, Signer};
use packets::{write_ack, write_answer_text, write_challenge, write_learn};
use secure_log::Log;
use secure_log::log_entries::{Body, Entry, Receipt, SignatureText, message_hash, receipt_hash};
use std::alloc::Global;

/// What a packet holds.
#[derive(Clone, Copy, Debug)]
pub enum Content {
    /// An authenticator of number 1 and a hash of zeros, to be learned.
    Learn,
    /// A challenge of a node to acknowledge a first message to it, 40 bytes 7.
    Challenge { of: u32 },
    /// The segment of a log whose one entry is CLOCK (1, 0), in answer to an audit.
    Answer,
    /// An acknowledgement of node 2's first message, its body's digest 32 bytes 7, its signature's 32 bytes
    /// 8.
    Acknowledgement,
}

/// The keys of node 2 alone, a client, of height 1: two signatures.
pub fn keys_of_two(alloc: Global) -> Option<Signer> {
    match Signer::new(alloc, [1; 32], 1) {
        Ok(signer) => Some(signer),
        Err(_) => None,
    }
}

/// The roster of it with these keys.
pub fn roster_of_two(alloc: Global, signer: &Signer) -> Option<Roster> {
    roster_of(alloc, &[client(signer.root(), 1)])
}

/// A packet's bytes, and the roster of nodes 1 and 2 under which they are taken.
#[derive(Drop)]
pub struct Made {
    pub roster: Roster,
    pub bytes: Vec<u8>,
}

/// A packet with this content.
pub fn packet_of(alloc: Global, content: Content) -> Option<Made> {
    let Ok(mut signer) = Signer::new(alloc, MASTER, 1) else {
        return None;
    };
    let bytes = bytes_of(alloc, &mut signer, content)?;
    let root = signer.root();
    let roster = roster_of(alloc, &[server(root, 1), client(root, 1)])?;
    Some(Made { roster, bytes })
}

fn bytes_of(alloc: Global, signer: &mut Signer, content: Content) -> Option<Vec<u8>> {
    match content {
        Content::Learn => learn(alloc, signer),
        Content::Challenge { of } => challenge(alloc, signer, of),
        Content::Answer => answer(alloc, signer),
        Content::Acknowledgement => acknowledgement(alloc, signer),
    }
}

/// Node 1's signature that its log has this hash at the word 1.
fn signature_of(signer: &mut Signer, hash: &[u8; 32]) -> Option<Signature> {
    signer.sign(&signed_digest(1, Word::new(1), hash)).ok()
}

fn learn(alloc: Global, signer: &mut Signer) -> Option<Vec<u8>> {
    let authenticator = signed(signer, 1, Number::new(1), [0; 32])?;
    let mut bytes = Vec::new(alloc);
    match write_learn(&authenticator, &mut bytes) {
        Ok(()) => Some(bytes),
        Err(_) => None,
    }
}

/// An envelope of a first message to this node.
fn envelope_to(alloc: Global, signer: &mut Signer, to: u32) -> Option<Envelope> {
    let Ok(bytes) = Vec::from_slice(alloc, &[7; 40]) else {
        return None;
    };
    let body = Body::new(bytes);
    let seq = Word::new(1);
    let hash = message_hash(to, seq, &[0; 32], &body.digest());
    match signature_of(signer, &hash) {
        Some(signature) => Some(Envelope {
            from: 1,
            to,
            seq,
            prev: [0; 32],
            body,
            signature: SignatureText::new(signature),
        }),
        None => None,
    }
}

fn challenge(alloc: Global, signer: &mut Signer, of: u32) -> Option<Vec<u8>> {
    let envelope = envelope_to(alloc, signer, of)?;
    let mut bytes = Vec::new(alloc);
    match write_challenge(&envelope.view(), &mut bytes) {
        Ok(()) => Some(bytes),
        Err(_) => None,
    }
}

/// Appends CLOCK (1, 0) to a log.
pub fn reads_clock(log: &mut Log) -> bool {
    let entry = Entry::Clock {
        seconds: 1,
        microseconds: 0,
    };
    match log.log_version() {
        LogVersion::One => log.append(0, entry).is_ok(),
        LogVersion::Two => false,
    }
}

/// The text of the segment of a log, with the authenticator that closes it.
fn segment_text(alloc: Global, log: &Log, closing: &Authenticator) -> Option<Vec<u8>> {
    let mut text = Vec::new(alloc);
    match log.segment(1, closing.word.number(LogVersion::One).get()) {
        Ok(segment) => match segment.write(closing, &mut text) {
            Ok(()) => Some(text),
            Err(_) => None,
        },
        Err(_) => None,
    }
}

/// The text of the segment of a node's log from its first entry to this one, closed there.
pub fn closed_text(
    alloc: Global,
    signer: &mut Signer,
    node: u32,
    log: &Log,
    last: Number,
) -> Option<Vec<u8>> {
    let hash = log.hash_at(last.get())?;
    match signed(signer, node, last, hash) {
        Some(closing) => segment_text(alloc, log, &closing),
        None => None,
    }
}

fn answer_of(alloc: Global, text: &[u8]) -> Option<Vec<u8>> {
    let mut bytes = Vec::new(alloc);
    match write_answer_text(LogVersion::One, text, &mut bytes) {
        Ok(()) => Some(bytes),
        Err(_) => None,
    }
}

/// The answer of this log.
fn answer_with(alloc: Global, signer: &mut Signer, log: &Log) -> Option<Vec<u8>> {
    match closed_text(alloc, signer, 1, log, Number::new(1)) {
        Some(text) => answer_of(alloc, &text),
        None => None,
    }
}

/// The answer of a log whose one entry is CLOCK (1, 0).
fn answer(alloc: Global, signer: &mut Signer) -> Option<Vec<u8>> {
    let mut log = Log::new(alloc, 1, LogVersion::One);
    if reads_clock(&mut log) {
        answer_with(alloc, signer, &log)
    } else {
        None
    }
}

/// What node 1 acknowledges.
fn receipt() -> Receipt {
    Receipt {
        from: 2,
        seq: Word::new(1),
        sender_prev: [0; 32],
        body: [7; 32],
        signature: [8; 32],
    }
}

/// Its acknowledgement.
fn ack_of(signer: &mut Signer) -> Option<Ack> {
    let receipt = receipt();
    let hash = receipt_hash(&receipt, Word::new(1), &[0; 32]);
    match signature_of(signer, &hash) {
        Some(signature) => Some(Ack {
            by: 1,
            number: Word::new(1),
            prev: [0; 32],
            from: receipt.from,
            seq: receipt.seq,
            sender_prev: receipt.sender_prev,
            body_hash: receipt.body,
            signature_hash: receipt.signature,
            signature: SignatureText::new(signature),
        }),
        None => None,
    }
}

fn acknowledgement(alloc: Global, signer: &mut Signer) -> Option<Vec<u8>> {
    let ack = ack_of(signer)?;
    let mut bytes = Vec::new(alloc);
    match write_ack(&ack.view(), &mut bytes) {
        Ok(()) => Some(bytes),
        Err(_) => None,
    }
}
