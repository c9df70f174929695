//! Packets that are taken, against another program's, and written back; and those that are not, since they
//! are cut, have a byte more, a bit changed, or are an envelope to another.

use crate::made::{Content, Made, packet_of};
use authenticator::{Refusal, Roster};
use packets::{Packet, read_packet};
use sha2::{Digest, Sha256};
use std::alloc::Global;

/// The digest of an authenticator's packet, as another program makes it.
const LEARN: [u8; 32] = [
    0xd3, 0x5c, 0x62, 0x38, 0x8a, 0xcb, 0x64, 0x07, 0x7c, 0x86, 0x15, 0xb4, 0x92, 0x04, 0xe8, 0xe6,
    0x8a, 0xe1, 0x0a, 0xe8, 0x8f, 0x36, 0xcd, 0x1f, 0xc5, 0x9d, 0x3e, 0xa5, 0x34, 0x90, 0x9b, 0xe1,
];

/// The digest of a challenge, as another program makes it.
const CHALLENGE: [u8; 32] = [
    0xfb, 0xc0, 0x7e, 0x8f, 0x37, 0x1f, 0x12, 0xc0, 0x52, 0x45, 0xdf, 0x33, 0x9e, 0xe0, 0x5d, 0x64,
    0xbb, 0xc9, 0x24, 0xf8, 0x96, 0xfc, 0xcb, 0x70, 0xba, 0x0c, 0xc7, 0x86, 0x9d, 0x03, 0x09, 0x2a,
];

/// The digest of an answer to an audit, as another program makes it.
const ANSWER: [u8; 32] = [
    0xd4, 0x1c, 0x47, 0xe7, 0x7a, 0x15, 0xfd, 0x7e, 0x75, 0xda, 0xac, 0xae, 0x98, 0x7f, 0x6c, 0xcd,
    0xff, 0x5e, 0x0e, 0x9b, 0xed, 0x96, 0x9b, 0x82, 0xab, 0xae, 0x06, 0xa2, 0x86, 0x2a, 0xd7, 0x4f,
];

/// The digest of an acknowledgement's packet, as another program makes it.
const ACK: [u8; 32] = [
    0xa1, 0xe2, 0xdd, 0xdd, 0x92, 0x84, 0x28, 0x9f, 0x2d, 0x6f, 0x61, 0x7c, 0x9a, 0x28, 0xc8, 0x57,
    0xd1, 0xd2, 0x1a, 0xef, 0x13, 0xbc, 0x13, 0x70, 0x69, 0x3b, 0xab, 0x09, 0x98, 0x7d, 0x49, 0x14,
];

/// Whether a packet's bytes are as another program's: so many, with this digest.
fn is_made(made: &Made, len: usize, digest: &[u8; 32]) -> bool {
    made.bytes.len() == len && Sha256::digest(&made.bytes).as_slice() == digest.as_slice()
}

/// Whether a packet is written as these bytes.
fn is_written(alloc: Global, packet: &Packet, bytes: &[u8]) -> bool {
    let mut again = Vec::new(alloc);
    packet.write(&mut again).is_ok() && again.as_slice() == bytes
}

/// Whether a packet is taken, as a step of this node, and written back as it was.
fn is_taken(alloc: Global, made: &Made, node: u32) -> bool {
    match read_packet(alloc, &made.roster, &made.bytes) {
        Ok(packet) => packet.node() == node && is_written(alloc, &packet, &made.bytes),
        Err(_) => false,
    }
}

/// Whether a packet with this content is as another program's, and taken.
fn is_as_owed(alloc: Global, content: Content, len: usize, digest: &[u8; 32], node: u32) -> bool {
    match packet_of(alloc, content) {
        Some(made) => is_made(&made, len, digest) && is_taken(alloc, &made, node),
        None => false,
    }
}

#[test]
fn packets_are_taken(rt: HostRuntime) {
    for (content, len, digest, node) in [
        (Content::Learn, 16_472, LEARN, 1),
        (Content::Challenge { of: 2 }, 16_520, CHALLENGE, 2),
        (Content::Answer, 16_532, ANSWER, 1),
        (Content::Acknowledgement, 16_580, ACK, 1),
    ] {
        let owed = is_as_owed(rt.alloc(), content, len, &digest, node);
        assert!(rt; owed, "{content:?}");
    }
}

/// Whether bytes aren't taken as garbage.
fn is_garbage(alloc: Global, roster: &Roster, bytes: &[u8]) -> bool {
    read_packet(alloc, roster, bytes).err() == Some(Refusal::Garbage)
}

/// Whether a packet is garbage that is cut at any length.
fn is_garbage_cut(alloc: Global, made: &Made) -> bool {
    for len in 0..made.bytes.len() {
        if !is_garbage(alloc, &made.roster, &made.bytes[..len]) {
            return false;
        }
    }
    true
}

/// Whether a packet is garbage with a byte more after it.
fn is_garbage_with_more(alloc: Global, made: &mut Made) -> bool {
    made.bytes.push(0).is_ok() && is_garbage(alloc, &made.roster, &made.bytes)
}

/// Whether both hold of a packet with this content.
fn is_garbage_changed(alloc: Global, content: Content) -> bool {
    match packet_of(alloc, content) {
        Some(mut made) => is_garbage_cut(alloc, &made) && is_garbage_with_more(alloc, &mut made),
        None => false,
    }
}

#[test]
fn a_packet_cut_or_with_more_is_garbage(rt: HostRuntime) {
    for content in [
        Content::Learn,
        Content::Challenge { of: 2 },
        Content::Answer,
        Content::Acknowledgement,
    ] {
        let garbage = is_garbage_changed(rt.alloc(), content);
        assert!(rt; garbage, "{content:?}");
    }
}

/// Whether a packet isn't taken, by the refusal with this number.
fn is_refused(alloc: Global, made: &Made, number: u32) -> bool {
    match read_packet(alloc, &made.roster, &made.bytes).err() {
        Some(refusal) => refusal.number() == Some(number),
        None => false,
    }
}

/// Whether a packet isn't taken with the lowest bit of a byte changed, by the refusal with this number.
fn is_refused_changed(alloc: Global, made: &mut Made, place: usize, number: u32) -> bool {
    if place >= made.bytes.len() {
        return false;
    }
    made.bytes[place] ^= 1;
    let refused = is_refused(alloc, made, number);
    made.bytes[place] ^= 1;
    refused
}

/// The number of the refusal owed to an authenticator's packet that is changed at a place: its number is
/// none, then its node no member, then it isn't signed.
fn owed(place: usize) -> u32 {
    if place < 4 {
        2
    } else if place < 8 {
        1
    } else {
        3
    }
}

/// The first place at which a changed packet gets another refusal than is owed.
fn first_other(alloc: Global, made: &mut Made) -> Option<usize> {
    for place in 0..52 {
        if !is_refused_changed(alloc, made, place, owed(place)) {
            return Some(place);
        }
    }
    None
}

/// Whether that of an authenticator is none.
fn are_refused(alloc: Global) -> bool {
    match packet_of(alloc, Content::Learn) {
        Some(mut made) => first_other(alloc, &mut made) == None,
        None => false,
    }
}

#[test]
fn a_changed_authenticator_is_refused(rt: HostRuntime) {
    assert!(rt; are_refused(rt.alloc()));
}

/// Whether a challenge of a node isn't taken, by this refusal.
fn is_challenge_refused(alloc: Global, of: u32, refusal: Refusal) -> bool {
    match packet_of(alloc, Content::Challenge { of }) {
        Some(made) => read_packet(alloc, &made.roster, &made.bytes).err() == Some(refusal),
        None => false,
    }
}

// In turn of its sender, and of a stranger.
#[test]
fn a_challenge_of_another_is_refused(rt: HostRuntime) {
    for (of, refusal) in [(1, Refusal::Garbage), (3, Refusal::UnknownNode)] {
        let refused = is_challenge_refused(rt.alloc(), of, refusal);
        assert!(rt; refused, "of {of}");
    }
}
