//! What is admitted, and why a packet isn't; and what a cache of signatures keeps of packets that are
//! admitted or refused: the authenticators that envelopes and acknowledgements of node 5 show among them.

use crate::answers::spend;
use crate::logs::{authenticator_text, challenge_packet};
use crate::members::{HEIGHT, Handed, all_handed, keys_of};
use acceptance_helpers::signed;
use authenticator::{Authenticator, Number, Roster, Word};
use envelopes::{Ack, Envelope};
use packets::write_ack;
use secure_log::log_entries::{Body, Receipt, SignatureText, message_hash, receipt_hash};
use std::alloc::Global;
use witness_service::{Event, EventOf, Refusal, SignatureCache, admit};

/// A packet of node 5, and the text of the authenticator that it shows.
#[derive(Drop)]
pub struct Showing {
    pub packet: Vec<u8>,
    pub text: Vec<u8>,
}

/// What node 5 signs for a hash at its number 3.
fn signed_by_five(alloc: Global, hash: [u8; 32]) -> Option<Authenticator> {
    let mut signer = keys_of(alloc, 5)?;
    signed(&mut signer, 5, Number::new(3), hash)
}

/// A message's body.
fn body(alloc: Global) -> Option<Body> {
    match Vec::from_slice(alloc, &[7; 40]) {
        Ok(bytes) => Some(Body::new(bytes)),
        Err(_) => None,
    }
}

/// The packet of a message to node 1 with this signature.
fn packet_of(alloc: Global, body: Body, authenticator: Authenticator) -> Option<Vec<u8>> {
    let Authenticator { signature, .. } = authenticator;
    let envelope = Envelope {
        from: 5,
        to: 1,
        seq: Word::new(3),
        prev: [9; 32],
        body,
        signature: SignatureText::new(signature),
    };
    challenge_packet(alloc, &envelope)
}

/// Both, where they are there.
fn joined(packet: Option<Vec<u8>>, text: Option<Vec<u8>>) -> Option<Showing> {
    match (packet, text) {
        (Some(packet), Some(text)) => Some(Showing { packet, text }),
        _ => None,
    }
}

/// A message of node 5 to node 1 with this body.
fn sent_with(alloc: Global, body: Body) -> Option<Showing> {
    let hash = message_hash(1, Word::new(3), &[9; 32], &body.digest());
    match signed_by_five(alloc, hash) {
        Some(authenticator) => {
            let text = authenticator_text(alloc, &authenticator);
            joined(packet_of(alloc, body, authenticator), text)
        }
        None => None,
    }
}

/// A message of node 5 to node 1.
pub fn sent(alloc: Global) -> Option<Showing> {
    match body(alloc) {
        Some(body) => sent_with(alloc, body),
        None => None,
    }
}

/// The packet of an acknowledgement.
fn acknowledgement(alloc: Global, ack: &Ack) -> Option<Vec<u8>> {
    let mut packet = Vec::new(alloc);
    match write_ack(&ack.view(), &mut packet) {
        Ok(()) => Some(packet),
        Err(_) => None,
    }
}

/// The packet by which node 5 acknowledges a message of node 1, with this signature.
fn ack_packet(alloc: Global, receipt: &Receipt, authenticator: Authenticator) -> Option<Vec<u8>> {
    let Authenticator { signature, .. } = authenticator;
    let ack = Ack {
        by: 5,
        number: Word::new(3),
        prev: [9; 32],
        from: receipt.from,
        seq: receipt.seq,
        sender_prev: receipt.sender_prev,
        body_hash: receipt.body,
        signature_hash: receipt.signature,
        signature: SignatureText::new(signature),
    };
    acknowledgement(alloc, &ack)
}

/// An acknowledgement by node 5 of a message of node 1.
pub fn acknowledged(alloc: Global) -> Option<Showing> {
    let receipt = Receipt {
        from: 1,
        seq: Word::new(1),
        sender_prev: [8; 32],
        body: [7; 32],
        signature: [6; 32],
    };
    let hash = receipt_hash(&receipt, Word::new(3), &[9; 32]);
    match signed_by_five(alloc, hash) {
        Some(authenticator) => {
            let text = authenticator_text(alloc, &authenticator);
            joined(ack_packet(alloc, &receipt, authenticator), text)
        }
        None => None,
    }
}

/// What a packet is admitted as.
#[derive(Clone, Copy, PartialEq, Eq)]
pub enum Admission {
    Learn,
    Answer,
    Other,
    Refused(Refusal),
}

/// What an event is. It is spent.
fn kind_of(event: Event) -> Admission {
    match event {
        EventOf::Learn(_) => Admission::Learn,
        EventOf::Answer(_) => Admission::Answer,
        event => {
            spend(event);
            Admission::Other
        }
    }
}

/// What a packet is admitted as under a roster.
pub fn admitted_as(
    alloc: Global,
    roster: &Roster,
    cache: &mut SignatureCache,
    bytes: &[u8],
) -> Admission {
    match admit(alloc, roster, cache, bytes) {
        Ok(event) => kind_of(event),
        Err(refusal) => Admission::Refused(refusal),
    }
}

/// What a packet is admitted as under the roster.
pub fn taken(
    alloc: Global,
    handed: &Handed,
    cache: &mut SignatureCache,
    bytes: &[u8],
) -> Admission {
    admitted_as(alloc, &handed.roster, cache, bytes)
}

/// Whether all packets are admitted or not as they should.
fn admits(alloc: Global, handed: &Handed, cache: &mut SignatureCache) -> bool {
    let cases: [(&[u8], Admission); 5] = [
        (&handed.own.first, Admission::Learn),
        (&handed.own.last, Admission::Learn),
        (&handed.own.answer, Admission::Answer),
        (&handed.forged, Admission::Refused(Refusal::BadSignature)),
        (&[0; 7], Admission::Refused(Refusal::Garbage)),
    ];
    for (bytes, wanted) in cases {
        if taken(alloc, handed, cache, bytes) != wanted {
            return false;
        }
    }
    true
}

/// The same twice, with one cache for so many signatures.
fn admits_with(alloc: Global, handed: &Handed, capacity: usize) -> bool {
    let mut cache = SignatureCache::new(capacity);
    admits(alloc, handed, &mut cache) && admits(alloc, handed, &mut cache)
}

/// The same of packets that are made first, with caches for none, one, and more than all.
fn packets_are_admitted(alloc: Global) -> bool {
    match all_handed(alloc) {
        Some(handed) => {
            admits_with(alloc, &handed, 0)
                && admits_with(alloc, &handed, 1)
                && admits_with(alloc, &handed, 4)
        }
        None => false,
    }
}

#[test]
fn packets_are_admitted_or_refused(rt: HostRuntime) {
    assert!(rt; packets_are_admitted(rt.alloc()));
}

/// What a packet delivers, after the number of its kind.
fn text_of(packet: &[u8]) -> &[u8] {
    match packet.split_at_checked(4) {
        Some((_, text)) => text,
        None => packet,
    }
}

/// Whether a cache keeps an authenticator of node 5, if memory is enough to tell.
fn known(alloc: Global, cache: &SignatureCache, text: &[u8]) -> Option<bool> {
    let root = keys_of(alloc, 5)?.root();
    cache.known(alloc, &root, HEIGHT, text).ok()
}

/// Whether a cache keeps node 5's first and second authenticators.
fn keeps(
    alloc: Global,
    handed: &Handed,
    cache: &SignatureCache,
    first: bool,
    second: bool,
) -> bool {
    known(alloc, cache, text_of(&handed.own.first)) == Some(first)
        && known(alloc, cache, text_of(&handed.own.last)) == Some(second)
}

/// Whether a cache keeps an authenticator under no other root and height, and no other bytes.
fn keeps_that_alone(alloc: Global, cache: &SignatureCache, text: &[u8]) -> bool {
    let Some(signer) = keys_of(alloc, 5) else {
        return false;
    };
    cache.known(alloc, &[0; 32], HEIGHT, text) == Ok(false)
        && cache.known(alloc, &signer.root(), HEIGHT + 1, text) == Ok(false)
        && cache.known(alloc, &signer.root(), HEIGHT, &[]) == Ok(false)
}

/// The second packet of node 5 with one bit of its hash changed.
fn with_another_hash(alloc: Global, handed: &Handed) -> Option<Vec<u8>> {
    match Vec::from_slice(alloc, &handed.own.last) {
        Ok(mut bytes) => {
            if let Some(byte) = bytes.get_mut(16) {
                *byte ^= 1;
            }
            Some(bytes)
        }
        Err(_) => None,
    }
}

/// Whether a cache for one signature keeps the one that was admitted last, and neither keeps a forged one nor
/// takes it for the one that it keeps.
fn keeps_the_last(alloc: Global, handed: &Handed, forged: &[u8]) -> bool {
    let mut cache = SignatureCache::new(1);
    keeps(alloc, handed, &cache, false, false)
        && taken(alloc, handed, &mut cache, &handed.own.first) == Admission::Learn
        && keeps(alloc, handed, &cache, true, false)
        && taken(alloc, handed, &mut cache, &handed.own.last) == Admission::Learn
        && keeps(alloc, handed, &cache, false, true)
        && taken(alloc, handed, &mut cache, forged) == Admission::Refused(Refusal::BadSignature)
        && keeps(alloc, handed, &cache, false, true)
        && keeps_that_alone(alloc, &cache, text_of(&handed.own.last))
        && taken(alloc, handed, &mut cache, &handed.own.last) == Admission::Learn
}

/// Whether of two signatures the one that wasn't used for longest makes room, and asking
/// for one is no use of it.
fn keeps_what_was_used(alloc: Global, handed: &Handed) -> bool {
    let mut cache = SignatureCache::new(2);
    taken(alloc, handed, &mut cache, &handed.own.first) == Admission::Learn
        && taken(alloc, handed, &mut cache, &handed.own.last) == Admission::Learn
        && taken(alloc, handed, &mut cache, &handed.own.first) == Admission::Learn
        && keeps(alloc, handed, &cache, true, true)
        && taken(alloc, handed, &mut cache, &handed.sixth) == Admission::Learn
        && keeps(alloc, handed, &cache, true, false)
}

/// Whether a cache for none keeps none.
fn keeps_none(alloc: Global, handed: &Handed) -> bool {
    let mut cache = SignatureCache::new(0);
    taken(alloc, handed, &mut cache, &handed.own.first) == Admission::Learn
        && keeps(alloc, handed, &cache, false, false)
}

/// Whether what closes an answer is kept.
fn keeps_a_closing(alloc: Global, handed: &Handed) -> bool {
    let mut cache = SignatureCache::new(1);
    taken(alloc, handed, &mut cache, &handed.own.answer) == Admission::Answer
        && keeps(alloc, handed, &cache, false, true)
}

/// Whether the authenticator that a packet shows is kept once the packet is admitted, and not before.
fn keeps_what_is_shown(alloc: Global, handed: &Handed, showing: &Showing) -> bool {
    let mut cache = SignatureCache::new(1);
    known(alloc, &cache, &showing.text) == Some(false)
        && taken(alloc, handed, &mut cache, &showing.packet) == Admission::Other
        && known(alloc, &cache, &showing.text) == Some(true)
        && taken(alloc, handed, &mut cache, &showing.packet) == Admission::Other
}

/// The same of an envelope and an acknowledgement.
fn keeps_both(alloc: Global, handed: &Handed) -> bool {
    match (sent(alloc), acknowledged(alloc)) {
        (Some(sent), Some(acknowledged)) => {
            keeps_what_is_shown(alloc, handed, &sent)
                && keeps_what_is_shown(alloc, handed, &acknowledged)
        }
        _ => false,
    }
}

/// Whether a cache for one signature keeps so, with a packet of another hash for the forged one.
fn keeps_no_forged(alloc: Global, handed: &Handed) -> bool {
    match with_another_hash(alloc, handed) {
        Some(forged) => keeps_the_last(alloc, handed, &forged),
        None => false,
    }
}

/// Whether caches keep what they should of packets that are made first.
fn caches_keep(alloc: Global) -> bool {
    match all_handed(alloc) {
        Some(handed) => {
            keeps_no_forged(alloc, &handed)
                && keeps_what_was_used(alloc, &handed)
                && keeps_none(alloc, &handed)
                && keeps_a_closing(alloc, &handed)
                && keeps_both(alloc, &handed)
        }
        None => false,
    }
}

#[test]
fn a_cache_keeps_what_was_used_last(rt: HostRuntime) {
    assert!(rt; caches_keep(rt.alloc()));
}
