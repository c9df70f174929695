//! Hashes of logs, texts of entries and parts of logs, against an independent program's and the rules.

use authenticator::{LogVersion, Word};
use secure_log::log_entries::{Body, Entry, SignatureText};
use secure_log::{Log, SegmentFault};
use std::alloc::Global;
use xdr::{FromXdr, Reader};

/// The hash of a log at a first entry CLOCK (1, 0).
const FIRST_HASH: [u8; 32] = [
    0x20, 0xaf, 0xc9, 0x01, 0x70, 0x9e, 0xda, 0x91, 0xa3, 0x89, 0x3e, 0xca, 0x3a, 0xe0, 0x63, 0x0d,
    0x4e, 0x09, 0x99, 0x9f, 0x45, 0xf6, 0x5d, 0xc7, 0x5d, 0x19, 0xc8, 0xfc, 0x6f, 0xb2, 0x6f, 0xff,
];

/// The hash of a log at the fifth of the entries below.
const FIFTH_HASH: [u8; 32] = [
    0x05, 0x22, 0x6a, 0x47, 0xfd, 0x5f, 0xa5, 0xec, 0x8c, 0x2b, 0xd8, 0xf3, 0x07, 0xfd, 0x85, 0x9e,
    0xa4, 0x93, 0x1f, 0xa0, 0x62, 0xc7, 0xac, 0x2e, 0xf1, 0x42, 0x5d, 0x45, 0x65, 0x33, 0xd5, 0xcb,
];

/// The hash of a log at its entry 9,100, where each entry is CLOCK (its number, 0).
const LAST_HASH: [u8; 32] = [
    0x6f, 0x18, 0xfa, 0xd8, 0x18, 0x77, 0x94, 0x11, 0x67, 0xbc, 0x8e, 0x71, 0xcc, 0x69, 0xf3, 0x9c,
    0x85, 0xac, 0xb1, 0x8d, 0x3f, 0x48, 0xd1, 0xab, 0x54, 0xa3, 0x61, 0x39, 0x39, 0x5e, 0xbc, 0xa6,
];

fn clock(seconds: u32) -> Entry {
    Entry::Clock {
        seconds,
        microseconds: 0,
    }
}

/// A log of this many entries, each a CLOCK with its number in seconds.
pub fn log_of_clocks(alloc: Global, count: u32) -> Option<Log> {
    let mut log = Log::new(alloc, 1, LogVersion::One);
    for number in 1..=count {
        if !appends(&mut log, Some(clock(number))) {
            return None;
        }
    }
    Some(log)
}

/// Whether a log of 9,100 clocks has another program's hashes.
fn has_hashes(log: &Log) -> bool {
    for (number, hash) in [
        (0, Some([0; 32])),
        (1, Some(FIRST_HASH)),
        (9_100, Some(LAST_HASH)),
        (9_101, None),
        (u64::MAX, None),
    ] {
        if log.hash_at(number) != hash {
            return false;
        }
    }
    true
}

/// Whether it has its parts, and no others.
fn has_parts(log: &Log) -> bool {
    for (first, last, fault) in [
        (0, 1, Some(SegmentFault::OutOfRange)),
        (3, 2, Some(SegmentFault::OutOfRange)),
        (1, 9_101, Some(SegmentFault::OutOfRange)),
        (1, 4_097, Some(SegmentFault::TooLong)),
        (1, 4_096, None),
        (5_005, 9_100, None),
        (9_100, 9_100, None),
    ] {
        if log.segment(first, last).err() != fault {
            return false;
        }
    }
    true
}

/// Whether both hold: an append beyond any number of entries succeeds.
fn is_long_log(alloc: Global) -> bool {
    match log_of_clocks(alloc, 9_100) {
        Some(log) => has_hashes(&log) && has_parts(&log),
        None => false,
    }
}

#[test]
fn a_long_log(rt: HostRuntime) {
    assert!(rt; is_long_log(rt.alloc()));
}

/// Whether three entries are appended where they are reserved for at once, as a server does for a call's
/// RECV, CLOCK and SEND.
fn appends_reserved(log: &mut Log) -> bool {
    if log.reserve(3).is_err() {
        return false;
    }
    for number in 2..=4 {
        if log.spare() == 0 {
            return false;
        }
        match log.log_version() {
            LogVersion::One => log.append_reserved(0, clock(number)),
            LogVersion::Two => return false,
        }
    }
    log.spare() == 0
}

/// Whether a log has the hash of four clocks.
fn is_of_four(alloc: Global, log: &Log) -> bool {
    match log_of_clocks(alloc, 4) {
        Some(four) => log.hash_at(4) == four.hash_at(4),
        None => false,
    }
}

/// Whether a log with three reserved entries is as one with appended ones.
fn is_reserved(alloc: Global) -> bool {
    match log_of_clocks(alloc, 1) {
        Some(mut log) => appends_reserved(&mut log) && is_of_four(alloc, &log),
        None => false,
    }
}

#[test]
fn reserved_entries_are_appended(rt: HostRuntime) {
    assert!(rt; is_reserved(rt.alloc()));
}

/// A signature of zeros with an empty path.
fn signature(alloc: Global) -> Option<SignatureText> {
    let text = [0; 16_392];
    SignatureText::read(alloc, &mut Reader::new(&text)).ok()
}

fn body(alloc: Global) -> Option<Body> {
    match Vec::from_slice(alloc, b"abc") {
        Ok(bytes) => Some(Body::new(bytes)),
        Err(_) => None,
    }
}

fn send(alloc: Global) -> Option<Entry> {
    let body = body(alloc)?;
    Some(Entry::Send { to: 2, body })
}

fn recv(alloc: Global) -> Option<Entry> {
    let body = body(alloc)?;
    let signature = signature(alloc)?;
    Some(Entry::Recv {
        from: 2,
        seq: Word::new(7),
        prev: [1; 32],
        body,
        signature,
    })
}

fn ack(alloc: Global) -> Option<Entry> {
    let signature = signature(alloc)?;
    Some(Entry::Ack {
        to: 2,
        seq: Word::new(1),
        mine: [1; 32],
        number: Word::new(8),
        prev: [2; 32],
        signature,
    })
}

/// Appends an entry, where there is one.
pub fn appends(log: &mut Log, entry: Option<Entry>) -> bool {
    match entry {
        Some(entry) => adds(log, entry),
        None => false,
    }
}

/// Appends an entry to a log of version 1.
fn adds(log: &mut Log, entry: Entry) -> bool {
    match log.log_version() {
        LogVersion::One => log.append(0, entry).is_ok(),
        LogVersion::Two => false,
    }
}

/// Appends an entry of each kind.
fn appends_each_kind(alloc: Global, log: &mut Log) -> bool {
    appends(log, send(alloc))
        && appends(log, recv(alloc))
        && appends(log, ack(alloc))
        && appends(log, Some(clock(1)))
        && appends(log, Some(Entry::Check { digest: [2; 32] }))
}

fn text_of(alloc: Global, entry: &Entry) -> Option<Vec<u8>> {
    let mut text = Vec::new(alloc);
    match entry.write(&mut text) {
        Ok(()) => Some(text),
        Err(_) => None,
    }
}

/// Whether an entry has this text.
fn has_text(alloc: Global, entry: &Entry, text: &[u8]) -> bool {
    let mut again = Vec::new(alloc);
    entry.write(&mut again).is_ok() && again.as_slice() == text
}

/// Whether a text is an entry's that has the same text.
fn reads_back(alloc: Global, text: &[u8]) -> bool {
    match Entry::read(alloc, &mut Reader::new(text)) {
        Ok(entry) => has_text(alloc, &entry, text),
        Err(_) => false,
    }
}

/// Whether an entry's text has this length, and reads back as an entry with the same text.
pub fn has_length(alloc: Global, entry: &Entry, length: usize) -> bool {
    match text_of(alloc, entry) {
        Some(text) => text.len() == length && reads_back(alloc, &text),
        None => false,
    }
}

/// Whether the entries of a log of each kind have texts of these lengths.
fn have_lengths(alloc: Global, log: &Log) -> bool {
    for (place, length) in [(0, 16), (1, 16_448), (2, 16_480), (3, 12), (4, 36)] {
        match log.entries().get(place) {
            Some(entry) if has_length(alloc, entry, length) => {}
            _ => return false,
        }
    }
    true
}

/// Whether a log with an entry of each kind has another program's hash, and its entries read back.
fn is_of_each_kind(alloc: Global) -> bool {
    let mut log = Log::new(alloc, 1, LogVersion::One);
    appends_each_kind(alloc, &mut log)
        && log.hash_at(5) == Some(FIFTH_HASH)
        && have_lengths(alloc, &log)
}

#[test]
fn each_kind_is_hashed_and_read_back(rt: HostRuntime) {
    assert!(rt; is_of_each_kind(rt.alloc()));
}

/// The hash of a log whose first entry is CLOCK (1, 0), before which numbers 1 to 5 are skipped.
const SIXTH_HASH: [u8; 32] = [
    0xdb, 0xc6, 0x1d, 0x45, 0xe1, 0xaa, 0x35, 0x9c, 0x59, 0x52, 0xa3, 0x52, 0xc5, 0xea, 0x8a, 0xfa,
    0x1a, 0xe4, 0xcd, 0xbd, 0x38, 0x27, 0xc2, 0x20, 0xbc, 0xef, 0x9b, 0xce, 0xd5, 0xe8, 0x3a, 0x98,
];

/// Whether a log whose first entry has number 6 has another program's hash there, and none at the numbers that
/// it skips.
fn is_of_sixth(alloc: Global) -> bool {
    let mut log = Log::new(alloc, 1, LogVersion::Two);
    log.append(5, clock(1)).is_ok()
        && log.last_number().get() == 6
        && log.hash_at(6) == Some(SIXTH_HASH)
        && log.hash_at(5).is_none()
        && log.segment(1, 6).is_ok()
        && log.segment(4, 6).err() == Some(SegmentFault::OutOfRange)
}

#[test]
fn a_log_with_a_gap_has_its_hash(rt: HostRuntime) {
    assert!(rt; is_of_sixth(rt.alloc()));
}
