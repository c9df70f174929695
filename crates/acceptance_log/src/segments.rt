//! What a check of a segment answers for its text, cut and changed.

use crate::closed::{ClosedText, closed_text};
use crate::logs::log_of_clocks;
use crate::nodes::flip;
use authenticator::{LogVersion, Roster};
use secure_log::{SegmentFault, check_segment};
use std::alloc::Global;

/// The text of node 1's log of one entry, a CLOCK, closed.
fn one_clock(alloc: Global) -> Option<ClosedText> {
    match log_of_clocks(alloc, 1) {
        Some(log) => closed_text(alloc, &log, 1),
        None => None,
    }
}

/// Whether a text is garbage where it is cut.
fn is_garbage_cut(alloc: Global, roster: &Roster, text: &[u8]) -> bool {
    for len in 0..text.len() {
        let fault = check_segment(alloc, roster, LogVersion::One, &text[..len]).err();
        if fault != Some(SegmentFault::Garbage) {
            return false;
        }
    }
    true
}

/// What a check answers for a text with these bits of a byte changed, if it refuses that.
fn fault_changed(
    alloc: Global,
    roster: &Roster,
    text: &mut [u8],
    place: usize,
    bits: u8,
) -> Option<SegmentFault> {
    flip(text, place, bits);
    let fault = check_segment(alloc, roster, LogVersion::One, text).err();
    flip(text, place, bits);
    fault
}

/// Whether a text is refused as it should be with a bit changed of the node, the first number, the opening,
/// the count, the kind, the seconds, the closing's node, its number, its hash and its leaf in turn, and is
/// taken with none.
fn is_refused_changed(alloc: Global, roster: &Roster, text: &mut [u8]) -> bool {
    for (place, bits, fault) in [
        (0, 0, None),
        (3, 1, Some(SegmentFault::BrokenChain)),
        (10, 1, Some(SegmentFault::BrokenChain)),
        (11, 1, Some(SegmentFault::Garbage)),
        (12, 1, Some(SegmentFault::BrokenChain)),
        (47, 1, Some(SegmentFault::Garbage)),
        (51, 1, Some(SegmentFault::Garbage)),
        (55, 1, Some(SegmentFault::BrokenChain)),
        (63, 1, Some(SegmentFault::BrokenChain)),
        (71, 1, Some(SegmentFault::BrokenChain)),
        (72, 1, Some(SegmentFault::BrokenChain)),
        (107, 1, Some(SegmentFault::BadSignature)),
    ] {
        if fault_changed(alloc, roster, text, place, bits) != fault {
            return false;
        }
    }
    true
}

/// Whether a text of node 9, who is no member, is refused.
fn is_unknown(alloc: Global, roster: &Roster, text: &mut [u8]) -> bool {
    flip(text, 3, 1 ^ 9);
    let fault = fault_changed(alloc, roster, text, 63, 1 ^ 9);
    flip(text, 3, 1 ^ 9);
    fault == Some(SegmentFault::UnknownNode)
}

/// The first that doesn't hold of a segment's text; empty where all holds.
fn wrong_of_text(alloc: Global, roster: &Roster, text: &mut [u8]) -> &'static str {
    if text.len() != 16_528 || !is_garbage_cut(alloc, roster, text) {
        "garbage where it is cut"
    } else if !is_refused_changed(alloc, roster, text) {
        "refused where it is changed"
    } else if !is_unknown(alloc, roster, text) {
        "refused of a stranger"
    } else {
        ""
    }
}

/// The same of a segment of one CLOCK.
fn wrong_of_one(alloc: Global) -> &'static str {
    match one_clock(alloc) {
        Some(mut closed) => wrong_of_text(alloc, &closed.roster, &mut closed.text),
        None => "memory",
    }
}

#[test]
fn a_changed_segment_is_refused(rt: HostRuntime) {
    let wrong = wrong_of_one(rt.alloc());
    assert!(rt; wrong.is_empty(), "{wrong}");
}
