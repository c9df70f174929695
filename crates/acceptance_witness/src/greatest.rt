//! Entries at the greatest numbers of a log of version 2, which it has where its first entry skips nearly all: as
//! a segment, as authenticators, and as a fork.

use crate::answers::{Answer, answers, refuses};
use crate::gaps::{is_exposed_by, learns_claim};
use crate::members::{CLIENT, keys};
use crate::words::{
    Claim, EntryWord, Part, ZEROS, books_with_gaps, fork_text, hash_after_all, shown_alone, sign,
};
use authenticator::{Authenticator, LogVersion, Roster, check};
use merkle_keys::Signer;
use secure_log::log_entries::Entry;
use secure_log::{Log, check_segment};
use std::alloc::Global;
use witness_service::{Books, EventOf, Refusal};

/// The greatest number.
const LAST: u32 = u32::MAX;

/// The words of the two entries.
const WORDS: [EntryWord; 2] = [(LAST - 2, LAST - 1), (0, LAST)];

fn clock() -> Entry {
    Entry::Clock {
        seconds: 1,
        microseconds: 0,
    }
}

/// Whether one more entry is appended, next after the last one.
fn goes_on(log: &mut Log) -> bool {
    match log.log_version() {
        LogVersion::One => false,
        LogVersion::Two => {
            log.last_number().get() < u64::from(LAST) && log.append(0, clock()).is_ok()
        }
    }
}

/// The client's log of these entries.
fn greatest_log(alloc: Global) -> Option<Log> {
    let mut log = Log::new(alloc, 2, LogVersion::Two);
    if log.append(LAST - 2, clock()).is_ok() && goes_on(&mut log) {
        Some(log)
    } else {
        None
    }
}

/// Whether the log has the hashes of these words, and none where it skips a number or ends.
fn has_hashes(log: &Log) -> bool {
    let last = u64::from(LAST);
    log.last_number().get() == last
        && log.hash_at(last) == Some(hash_after_all(&ZEROS, &WORDS))
        && log.hash_at(last - 1) == Some(hash_after_all(&ZEROS, &WORDS[..1]))
        && log.hash_at(last - 2).is_none()
        && log.hash_at(last + 1).is_none()
}

/// The last entry, after the one before it.
fn last_part(words: &[EntryWord]) -> Part<'_> {
    Part {
        from: LAST - 1,
        opening: hash_after_all(&ZEROS, &WORDS[..1]),
        words,
    }
}

/// The text of the log's last entry as a segment that an authenticator closes.
fn text_with(alloc: Global, log: &Log, closing: &Authenticator) -> Option<Vec<u8>> {
    let open = log.segment(u64::from(LAST), u64::from(LAST)).ok()?;
    let mut text = Vec::new(alloc);
    match open.write(closing, &mut text) {
        Ok(()) => Some(text),
        Err(_) => None,
    }
}

/// The same of a claim.
fn segment_text(alloc: Global, roster: &Roster, log: &Log, closing: &Claim) -> Option<Vec<u8>> {
    match check(alloc, roster, &closing.text) {
        Ok(checked) => text_with(alloc, log, checked.value()),
        Err(_) => None,
    }
}

/// Whether a packet has this text after its number.
fn has_segment(packet: &[u8], text: &[u8]) -> bool {
    match packet.get(4..) {
        Some(rest) => rest == text,
        None => false,
    }
}

/// Whether that text is the one that the formats' description has, and is taken; its packet isn't asked for.
fn is_a_segment(alloc: Global, books: &mut Books, text: &[u8], closing: &Claim) -> bool {
    match last_part(&[(0, LAST)]).answer(alloc, closing) {
        Some(packet) => {
            has_segment(&packet, text)
                && check_segment(alloc, books.roster(), LogVersion::Two, text).is_ok()
                && refuses(alloc, books, EventOf::Deliver(packet), Refusal::NotAsked)
        }
        None => false,
    }
}

/// Whether the log is right, and its last entry as a segment.
fn is_logged(alloc: Global, books: &mut Books, closing: &Claim) -> bool {
    let Some(log) = greatest_log(alloc) else {
        return false;
    };
    match segment_text(alloc, books.roster(), &log, closing) {
        Some(text) => has_hashes(&log) && is_a_segment(alloc, books, &text, closing),
        None => false,
    }
}

/// Whether no entry comes after the last one: its number would be the one after, which no word has.
fn ends(alloc: Global, books: &mut Books, closing: &Claim) -> bool {
    match last_part(&[(0, LAST), (0, 0)]).answer(alloc, closing) {
        Some(packet) => refuses(alloc, books, EventOf::Deliver(packet), Refusal::Garbage),
        None => false,
    }
}

/// Whether both authenticators of the last number are noted, no audit reaches it, and both are a fork.
fn is_forked(alloc: Global, books: &mut Books, one: &Claim, other: &Claim) -> bool {
    let (Some(a), Some(b)) = (shown_alone(alloc, one), shown_alone(alloc, other)) else {
        return false;
    };
    let Some(text) = fork_text(alloc, LAST, &a, &b) else {
        return false;
    };
    learns_claim(alloc, books, one, Answer::Noted)
        && refuses(alloc, books, EventOf::Audit(2), Refusal::TooFar)
        && learns_claim(alloc, books, other, Answer::Noted)
        && is_exposed_by(alloc, books, text)
}

/// What the client signs at the last number: its log's hash, and another one behind a gap.
#[derive(Drop)]
struct Claims {
    own: Claim,
    other: Claim,
}

fn new_claims(alloc: Global, client: &mut Signer) -> Option<Claims> {
    let hash = hash_after_all(&ZEROS, &WORDS);
    let own = sign(alloc, client, 2, (0, LAST), hash)?;
    let other = sign(alloc, client, 2, (64, LAST), [7; 32])?;
    Some(Claims { own, other })
}

/// Whether all of it holds in these books.
fn holds(alloc: Global, books: &mut Books, claims: &Claims) -> bool {
    is_logged(alloc, books, &claims.own)
        && ends(alloc, books, &claims.own)
        && is_forked(alloc, books, &claims.own, &claims.other)
}

/// The same in new books of a client with this root, whose tree of keys has height 1.
fn holds_of(alloc: Global, root: &[u8; 32], claims: &Claims) -> bool {
    match books_with_gaps(alloc, (&[1; 32], 1), (root, 1)) {
        Some(mut books) => holds(alloc, &mut books, claims),
        None => false,
    }
}

/// The same of new keys.
fn greatest_numbers_hold(alloc: Global) -> bool {
    let Some(mut client) = keys(alloc, CLIENT, 1) else {
        return false;
    };
    let root = client.root();
    match new_claims(alloc, &mut client) {
        Some(claims) => holds_of(alloc, &root, &claims),
        None => false,
    }
}

#[test]
fn the_greatest_numbers_are_shown_learned_and_forked(rt: HostRuntime) {
    assert!(rt; greatest_numbers_hold(rt.alloc()));
}
