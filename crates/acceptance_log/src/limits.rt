//! That nothing runs out of memory below the limits of its types, which no contract can say: whole
//! keys, whole bodies, and segments of the most entries.

ghost use Rattle.std.specs.Prelude.{◌≤◌};

use crate::closed::{ClosedText, closed_text};
use crate::logs::{appends, has_length};
use acceptance_helpers::MASTER;
use authenticator::LogVersion;
use merkle_keys::{SignFault, Signer, verify};
use secure_log::log_entries::{Body, Entry};
use secure_log::{ClosedSegment, Log, check_segment};
use std::alloc::Global;
use xdr::{FromXdr, ReadFault, Reader, XdrFault};

/// How often a key signs a digest before it is used up, each time by the next leaf.
fn signings(signer: &mut Signer, height: u32) -> Option<u32> {
    let root = signer.root();
    for leaf in 0..=65_536 {
        match signer.sign(&MASTER) {
            Ok(signature) => {
                if signature.leaf() != leaf || !verify(&root, height, &MASTER, &signature) {
                    return None;
                }
            }
            Err(SignFault::KeysUsedUp) => return Some(leaf),
            Err(SignFault::NoMemory) => return None,
        }
    }
    None
}

/// The same of a new key of a height.
fn signings_at(alloc: Global, height: u32) -> Option<u32>
    requires some { 1 ≤ height }
    requires low { height ≤ 16 }
{
    match Signer::new(alloc, MASTER, height) {
        Ok(mut signer) => signings(&mut signer, height),
        Err(_) => None,
    }
}

#[test]
fn whole_keys_sign(rt: HostRuntime) {
    assert!(rt; signings_at(rt.alloc(), 1) == Some(2));
    assert!(rt; signings_at(rt.alloc(), 5) == Some(32));
    assert!(rt; signings_at(rt.alloc(), 10) == Some(1_024));
}

/// A SEND with a body of this many bytes, at most 12,288.
fn send_of(alloc: Global, len: usize) -> Option<Entry> {
    let bytes = [7; 12_288];
    let bytes = bytes.get(..len)?;
    match Vec::from_slice(alloc, bytes) {
        Ok(bytes) => Some(Entry::Send {
            to: 2,
            body: Body::new(bytes),
        }),
        Err(_) => None,
    }
}

/// Whether the text of a SEND with a body of so many bytes has this length, and reads back.
fn is_read_back(alloc: Global, len: usize, length: usize) -> bool {
    match send_of(alloc, len) {
        Some(entry) => has_length(alloc, &entry, length),
        None => false,
    }
}

#[test]
fn whole_bodies_are_read_back(rt: HostRuntime) {
    for (len, length) in [
        (0, 12),
        (64, 76),
        (65, 80),
        (12_287, 12_300),
        (12_288, 12_300),
    ] {
        let read = is_read_back(rt.alloc(), len, length);
        assert!(rt; read, "of {len} bytes");
    }
}

/// The text of a SEND with a body of 12,289 bytes and three of padding.
fn longer_text(alloc: Global) -> Option<Vec<u8>> {
    let mut text = Vec::new(alloc);
    let head = text.extend_from_slice(&[0, 0, 0, 1, 0, 0, 0, 2, 0, 0, 0x30, 1]);
    if head.is_err() || text.resize(12 + 12_292, 0).is_err() {
        return None;
    }
    Some(text)
}

/// Whether a text is too long for an entry's.
fn is_too_long(alloc: Global, text: &[u8]) -> bool {
    match Entry::read(alloc, &mut Reader::new(text)) {
        Ok(_) => false,
        Err(error) => matches!(&error, ReadFault::Fault(XdrFault::TooLong)),
    }
}

/// Whether that one is.
fn is_longer_too_long(alloc: Global) -> bool {
    match longer_text(alloc) {
        Some(text) => is_too_long(alloc, &text),
        None => false,
    }
}

#[test]
fn a_longer_body_is_none(rt: HostRuntime) {
    assert!(rt; is_longer_too_long(rt.alloc()));
}

/// A log of this many SENDs with bodies of this many bytes.
fn log_of_sends(alloc: Global, count: u32, body: usize) -> Option<Log> {
    let mut log = Log::new(alloc, 1, LogVersion::One);
    for _ in 0..count {
        if !appends(&mut log, send_of(alloc, body)) {
            return None;
        }
    }
    Some(log)
}

/// Whether a segment is written as this text.
fn is_written(alloc: Global, closed: &ClosedSegment, text: &[u8]) -> bool {
    let mut again = Vec::new(alloc);
    closed.segment().write(&mut again).is_ok() && again.as_slice() == text
}

/// Whether a check takes a text of this length and gives a segment with the same text.
fn is_checked(alloc: Global, closed: &ClosedText, length: usize) -> bool {
    closed.text.len() == length
        && match check_segment(alloc, &closed.roster, LogVersion::One, &closed.text) {
            Ok(segment) => is_written(alloc, &segment, &closed.text),
            Err(_) => false,
        }
}

/// Whether that holds of a log, closed at its end.
fn is_closed(alloc: Global, log: &Log, count: u32, length: usize) -> bool {
    match closed_text(alloc, log, count) {
        Some(closed) => is_checked(alloc, &closed, length),
        None => false,
    }
}

/// Whether that holds of a log of this many SENDs with bodies of this many bytes.
fn are_closed(alloc: Global, count: u32, body: usize, length: usize) -> bool {
    match log_of_sends(alloc, count, body) {
        Some(log) => is_closed(alloc, &log, count, length),
        None => false,
    }
}

#[test]
fn whole_segments_are_closed_and_checked(rt: HostRuntime) {
    assert!(rt; are_closed(rt.alloc(), 1, 0, 16_528));
    assert!(rt; are_closed(rt.alloc(), 4_096, 64, 327_812));
    assert!(rt; are_closed(rt.alloc(), 4_096, 12_288, 50_397_316));
}
