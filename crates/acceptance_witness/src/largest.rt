//! The largest answer that the formats allow is admitted: 4,096 messages received, with the longest bodies
//! and signatures. Whoever admits it looks at its chain and at its closing's signature, so all are one
//! message.
//! Its tree of keys has the greatest height: one of two leaves, under siblings of zeros.

use crate::admitted::{Admission, admitted_as};
use crate::logs::{answer_packet, appends, authenticator_text, closing_at, segment_text};
use crate::members::{CLIENT, keys, member};
use acceptance_helpers::{roster_of, signed};
use authenticator::{Authenticator, LogVersion, Number, Roster, Word, check};
use merkle_keys::Signer;
use secure_log::Log;
use secure_log::log_entries::{Body, Entry, SignatureText};
use sha2::{Digest, Sha256};
use std::alloc::Global;
use witness_service::SignatureCache;

/// The greatest height of a tree of keys.
const HEIGHT: u32 = 16;

/// The most entries of a segment.
const ENTRIES: u32 = 4096;

/// How many bytes the longest body has.
const BODY: usize = 12_288;

/// The text of the largest segment, in bytes.
const LARGEST: usize = 119_800_420;

/// Where an authenticator's text has the last byte of its path's length.
const PATH_LENGTH: usize = 16_435;

/// The root of the tree of the greatest height whose lowest leaves have this root.
fn higher_root(root: [u8; 32]) -> [u8; 32] {
    let mut own = root;
    for _ in 1..HEIGHT {
        let mut text = Sha256::new();
        text.update([1u8]);
        text.update(&own);
        text.update([0u8; 32]);
        own = text.finalize();
    }
    own
}

/// The text of an authenticator with the path in that tree.
fn higher_text(alloc: Global, low: &Authenticator) -> Option<Vec<u8>> {
    let mut text = authenticator_text(alloc, low)?;
    *text.get_mut(PATH_LENGTH)? = HEIGHT as u8;
    for _ in 1..HEIGHT {
        if text.extend_from_slice(&[0; 32]).is_err() {
            return None;
        }
    }
    Some(text)
}

/// The authenticator, checked under that tree's root.
fn higher(alloc: Global, roster: &Roster, low: Option<Authenticator>) -> Option<Authenticator> {
    let text = higher_text(alloc, &low?)?;
    match check(alloc, roster, &text) {
        Ok(checked) => Some(checked.into_value()),
        Err(_) => None,
    }
}

/// The longest body.
fn longest_body(alloc: Global) -> Option<Body> {
    match vec![in alloc; 7; BODY] {
        Ok(bytes) if bytes.len() <= BODY => Some(Body::new(bytes)),
        _ => None,
    }
}

/// A message as received, with this body and this signature.
fn received(alloc: Global, body: &Body, signature: &SignatureText) -> Option<Entry> {
    match (body.try_clone(alloc), signature.try_clone(alloc)) {
        (Ok(body), Ok(signature)) => Some(Entry::Recv {
            from: 6,
            seq: Word::new(1),
            prev: [0; 32],
            body,
            signature,
        }),
        _ => None,
    }
}

/// Whether a message is appended.
fn receives(alloc: Global, log: &mut Log, body: &Body, signature: &SignatureText) -> bool {
    match received(alloc, body, signature) {
        Some(entry) => appends(log, entry),
        None => false,
    }
}

/// Node 5's log of a message, as often as a segment may have it.
fn log_of(alloc: Global, body: &Body, signature: &SignatureText) -> Option<Log> {
    let mut log = Log::new(alloc, 5, LogVersion::One);
    for _ in 0..ENTRIES {
        if !receives(alloc, &mut log, body, signature) {
            return None;
        }
    }
    Some(log)
}

/// The same of the longest body, with the signature that an authenticator shows.
fn long_log(alloc: Global, shown: Authenticator) -> Option<Log> {
    let Authenticator { signature, .. } = shown;
    let signature = SignatureText::digested(signature);
    match longest_body(alloc) {
        Some(body) => log_of(alloc, &body, &signature),
        None => None,
    }
}

/// The text of that log, closed.
fn closed_text(alloc: Global, roster: &Roster, log: &Log, signer: &mut Signer) -> Option<Vec<u8>> {
    match higher(alloc, roster, closing_at(log, signer, ENTRIES)) {
        Some(closing) => segment_text(alloc, log, 1, &closing),
        None => None,
    }
}

/// The text of the largest segment: of its log nothing is kept.
fn largest_text(alloc: Global, roster: &Roster, signer: &mut Signer) -> Option<Vec<u8>> {
    let shown = higher(alloc, roster, signed(signer, 5, Number::new(1), [1; 32]));
    match long_log(alloc, shown?) {
        Some(log) => closed_text(alloc, roster, &log, signer),
        None => None,
    }
}

/// The packet of the largest segment, if it is as large as said: of its text nothing is kept.
fn largest_packet(alloc: Global, roster: &Roster, signer: &mut Signer) -> Option<Vec<u8>> {
    match largest_text(alloc, roster, signer) {
        Some(text) if text.len() == LARGEST => answer_packet(alloc, &text),
        _ => None,
    }
}

/// Whether the packet is admitted as an answer.
fn admits_largest(alloc: Global, roster: &Roster, signer: &mut Signer) -> bool {
    match largest_packet(alloc, roster, signer) {
        Some(packet) => {
            let mut cache = SignatureCache::new(1);
            admitted_as(alloc, roster, &mut cache, &packet) == Admission::Answer
        }
        None => false,
    }
}

/// The same with new keys.
fn largest_is_admitted(alloc: Global) -> bool {
    let Some(mut signer) = keys(alloc, CLIENT, 1) else {
        return false;
    };
    match roster_of(alloc, &[member(5, higher_root(signer.root()), HEIGHT)]) {
        Some(roster) => admits_largest(alloc, &roster, &mut signer),
        None => false,
    }
}

#[test]
fn the_largest_answer_is_admitted(rt: HostRuntime) {
    assert!(rt; largest_is_admitted(rt.alloc()));
}
