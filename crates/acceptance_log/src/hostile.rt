//! Envelopes and acknowledgements that are cut at each byte or changed at each.

use crate::nodes::flip;
use authenticator::{Refusal, Roster};
use envelopes::{check_ack, check_envelope};
use std::alloc::Global;

/// What a text is checked as.
#[derive(Clone, Copy)]
pub enum Kind {
    Envelope,
    Ack,
}

/// Why a check doesn't take a text.
pub fn refusal(alloc: Global, kind: Kind, roster: &Roster, text: &[u8]) -> Option<Refusal> {
    match kind {
        Kind::Envelope => check_envelope(alloc, roster, text).err(),
        Kind::Ack => check_ack(alloc, roster, text).err(),
    }
}

/// Whether a text is garbage that is cut at any length.
pub fn is_garbage_cut(alloc: Global, kind: Kind, roster: &Roster, text: &[u8]) -> bool {
    for len in 0..text.len() {
        if refusal(alloc, kind, roster, &text[..len]) != Some(Refusal::Garbage) {
            return false;
        }
    }
    true
}

/// Why a check doesn't take a text with these bits of a byte changed.
pub fn refusal_changed(
    alloc: Global,
    kind: Kind,
    roster: &Roster,
    text: &mut [u8],
    place: usize,
    bits: u8,
) -> Option<Refusal> {
    flip(text, place, bits);
    let refused = refusal(alloc, kind, roster, text);
    flip(text, place, bits);
    refused
}

/// Whether a text gets a refusal with a number when the lowest bit of any of its first bytes is changed. So
/// many stand before the secrets of its signature.
pub fn is_refused_changed(
    alloc: Global,
    kind: Kind,
    roster: &Roster,
    text: &mut [u8],
    places: usize,
) -> bool {
    for place in 0..places {
        match refusal_changed(alloc, kind, roster, text, place, 1) {
            Some(refusal) if refusal.number().is_some() => {}
            _ => return false,
        }
    }
    true
}
