//! Copies of what packets and evidence hold: each is the same as what it was made of, by the exact equality
//! of its type.

use crate::evidence::{Content as Charged, Made as MadeEvidence, holds_of};
use crate::made::{Content, packet_of};
use authenticator::{Checked, Roster, Signs, Word};
use challenge::{AuditedLog, BaseText, BasedReplay, Charge, Evidence, Fork, Showing};
use envelopes::Envelope;
use packets::{Packet, read_packet};
use secure_log::log_entries::{Body, Entry, SignatureText, are_same_entries, copies_of};
use secure_log::{BoundedSegment, ClosedSegment, MAX_ENTRIES, copy_of};
use std::alloc::Global;

fn roster_is_copied(alloc: Global, roster: &Roster) -> bool {
    match roster.try_clone(alloc) {
        Ok(copy) => copy.is_same(roster),
        Err(_) => false,
    }
}

/// Of an authenticator, an envelope or an acknowledgement.
fn value_is_copied<T: Signs>(alloc: Global, value: &T) -> bool {
    match value.try_clone(alloc) {
        Ok(copy) => copy.is_same(value),
        Err(_) => false,
    }
}

/// The same of a checked one, and of its value alone.
fn checked_is_copied<T: Signs>(alloc: Global, checked: &Checked<T>) -> bool {
    match checked.try_clone(alloc) {
        Ok(copy) => copy.is_same(checked) && value_is_copied(alloc, checked.value()),
        Err(_) => false,
    }
}

fn body_is_copied(alloc: Global, body: &Body) -> bool {
    match body.try_clone(alloc) {
        Ok(copy) => copy.is_same(body),
        Err(_) => false,
    }
}

fn signature_text_is_copied(alloc: Global, text: &SignatureText) -> bool {
    match text.try_clone(alloc) {
        Ok(copy) => copy.is_same(text),
        Err(_) => false,
    }
}

fn signature_is_copied(alloc: Global, text: &SignatureText) -> bool {
    match text.signature().try_clone(alloc) {
        Ok(copy) => copy.is_same(text.signature()),
        Err(_) => false,
    }
}

fn entry_is_copied(alloc: Global, entry: &Entry) -> bool {
    match entry.try_clone(alloc) {
        Ok(copy) => copy.is_same(entry),
        Err(_) => false,
    }
}

/// Whether the RECV of an envelope is, which has its body and its signature.
fn recv_is_copied(alloc: Global, body: Option<Body>, signature: Option<SignatureText>) -> bool {
    let (Some(body), Some(signature)) = (body, signature) else {
        return false;
    };
    let entry = Entry::Recv {
        from: 2,
        seq: Word::new(1),
        prev: [0; 32],
        body,
        signature,
    };
    entry_is_copied(alloc, &entry)
}

/// Whether the parts of an envelope are, and the entry that they make.
fn parts_are_copied(alloc: Global, envelope: &Envelope) -> bool {
    let body = envelope.body.try_clone(alloc).ok();
    let signature = envelope.signature.try_clone(alloc).ok();
    body_is_copied(alloc, &envelope.body)
        && signature_text_is_copied(alloc, &envelope.signature)
        && signature_is_copied(alloc, &envelope.signature)
        && recv_is_copied(alloc, body, signature)
}

fn entries_are_copied(alloc: Global, entries: &[Entry]) -> bool {
    match copies_of(alloc, entries) {
        Ok(copies) => are_same_entries(&copies, entries),
        Err(_) => false,
    }
}

fn segment_is_copied(alloc: Global, segment: &BoundedSegment<MAX_ENTRIES>) -> bool {
    match segment.try_clone(alloc) {
        Ok(copy) => copy.is_same(segment),
        Err(_) => false,
    }
}

fn closing_is_copied(alloc: Global, segment: &BoundedSegment<MAX_ENTRIES>) -> bool {
    match copy_of(alloc, segment.closing()) {
        Ok(copy) => copy.is_same(segment.closing()),
        Err(_) => false,
    }
}

fn closed_is_copied(alloc: Global, closed: &ClosedSegment) -> bool {
    match closed.try_clone(alloc) {
        Ok(copy) => copy.is_same(closed),
        Err(_) => false,
    }
}

fn showing_is_copied(alloc: Global, showing: &Showing) -> bool {
    match showing.try_clone(alloc) {
        Ok(copy) => copy.is_same(showing),
        Err(_) => false,
    }
}

/// Whether what a closed segment shows is.
fn shown_is_copied(alloc: Global, closed: &ClosedSegment) -> bool {
    match Showing::of_segment(alloc, closed) {
        Ok(showing) => showing_is_copied(alloc, &showing),
        Err(_) => false,
    }
}

/// Whether a closed segment is, with its parts and what it shows.
fn answer_is_copied(alloc: Global, closed: &ClosedSegment) -> bool {
    closed_is_copied(alloc, closed)
        && segment_is_copied(alloc, closed.segment())
        && closing_is_copied(alloc, closed.segment())
        && entries_are_copied(alloc, closed.segment().entries())
        && shown_is_copied(alloc, closed)
}

/// Whether what a packet holds is.
fn content_is_copied(alloc: Global, packet: &Packet) -> bool {
    match packet {
        Packet::Learn(checked) => checked_is_copied(alloc, checked),
        Packet::SendChallenge(checked) => {
            checked_is_copied(alloc, checked) && parts_are_copied(alloc, checked.value())
        }
        Packet::Answer(closed) => answer_is_copied(alloc, closed),
        Packet::AckIn(checked) => checked_is_copied(alloc, checked),
    }
}

/// Whether what the bytes of a packet hold is.
fn bytes_are_copied(alloc: Global, roster: &Roster, bytes: &[u8]) -> bool {
    match read_packet(alloc, roster, bytes) {
        Ok(packet) => content_is_copied(alloc, &packet),
        Err(_) => false,
    }
}

/// Whether what a packet with this content holds is, and its roster.
fn packet_is_copied(alloc: Global, content: Content) -> bool {
    match packet_of(alloc, content) {
        Some(made) => {
            roster_is_copied(alloc, &made.roster)
                && bytes_are_copied(alloc, &made.roster, &made.bytes)
        }
        None => false,
    }
}

#[test]
fn packets_are_copied(rt: HostRuntime) {
    for content in [
        Content::Learn,
        Content::Challenge { of: 2 },
        Content::Answer,
        Content::Acknowledgement,
    ] {
        let copied = packet_is_copied(rt.alloc(), content);
        assert!(rt; copied, "{content:?}");
    }
}

fn fork_is_copied(alloc: Global, fork: &Fork) -> bool {
    match fork.try_clone(alloc) {
        Ok(copy) => copy.is_same(fork),
        Err(_) => false,
    }
}

fn audited_is_copied(alloc: Global, log: &AuditedLog) -> bool {
    match log.try_clone(alloc) {
        Ok(copy) => copy.is_same(log),
        Err(_) => false,
    }
}

fn base_is_copied(alloc: Global, base: &BaseText) -> bool {
    match base.try_clone(alloc) {
        Ok(copy) => copy.is_same(base),
        Err(_) => false,
    }
}

fn based_is_copied(alloc: Global, based: &BasedReplay) -> bool {
    match based.try_clone(alloc) {
        Ok(copy) => copy.is_same(based) && base_is_copied(alloc, based.base()),
        Err(_) => false,
    }
}

/// Whether what a charge holds is.
fn charged_is_copied(alloc: Global, charge: &Charge) -> bool {
    match charge {
        Charge::Fork(fork) => fork_is_copied(alloc, fork),
        Charge::Replay(log) => audited_is_copied(alloc, log),
        Charge::Based(based) => based_is_copied(alloc, based),
    }
}

fn charge_is_copied(alloc: Global, charge: &Charge) -> bool {
    match charge.try_clone(alloc) {
        Ok(copy) => copy.is_same(charge) && charged_is_copied(alloc, charge),
        Err(_) => false,
    }
}

fn evidence_is_copied(alloc: Global, evidence: &Evidence) -> bool {
    match evidence.try_clone(alloc) {
        Ok(copy) => copy.is_same(evidence) && charge_is_copied(alloc, evidence.charge()),
        Err(_) => false,
    }
}

/// Whether evidence that was made is.
fn made_is_copied(alloc: Global, made: &MadeEvidence) -> bool {
    evidence_is_copied(alloc, &made.evidence)
}

#[test]
fn evidence_is_copied_whole(rt: HostRuntime) {
    for content in [
        Charged::TwoHashes,
        Charged::AtZero(1),
        Charged::Clock(1_000_000),
        Charged::ClockAfterBase(1_000_000),
    ] {
        let copied = holds_of(rt.alloc(), content, made_is_copied);
        assert!(rt; copied, "{content:?}");
    }
}
