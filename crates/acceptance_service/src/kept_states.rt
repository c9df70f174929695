//! States that are kept: how many digests of files are missing after each call, and that the state's digest
//! is that of the same state read from its text; a state that several own, with memory at hand, is made,
//! given to one more, and read.

use crate::state_texts::none_wrong;
use acceptance_helpers::push_text;
use checkpoint::{SharedState, State, read_state, renew, state_digest, state_text};
use nfs_items::Time;
use std::alloc::Global;

/// AUTH_SYS with a body of 24 bytes: stamp 0, the machine `m`, user 0, group 0, no further groups.
const SUPERUSER: &str = "1 18 0 1 6d000000 0 0 0";

/// What a record says before the procedure's number.
const CALL_OF_NFS: &str = "1 0 2 186a3 2";

/// Calls of NFS by user 0, in turn. A row is what the call is, the procedure's number, the arguments, and
/// after `->` the stat of its reply, and how many digests are missing after it.
const CALLS: &str = "
READ /hello: 6: 1 2 0*6 0 2000 0 -> 0: 0
WRITE of one byte to /hello: 8: 1 2 0*6 0 0 0 1 78000000 -> 0: 1
WRITE of no bytes: 8: 1 2 0*6 0 0 0 0 -> 0: 0
CREATE /x: 9: 1 1 0*6 1 78000000 ffffffff*8 -> 0: 2
MKDIR /a: e: 1 1 0*6 1 61000000 ffffffff*8 -> 0: 2
MKDIR /a/b: e: 1 4 0*6 1 62000000 ffffffff*8 -> 0: 2
CREATE /a/b/c: 9: 1 5 0*6 1 63000000 ffffffff*8 -> 0: 2
RENAME /a to /d: b: 1 1 0*6 1 61000000 1 1 0*6 1 64000000 -> 0: 2
RENAME /d to itself: b: 1 1 0*6 1 64000000 1 1 0*6 1 64000000 -> 0: 0
RENAME of what isn't there: b: 1 1 0*6 1 61000000 1 1 0*6 1 64000000 -> 2: 0
SETATTR of nothing: 2: 1 2 0*6 ffffffff*8 -> 0: 0
SETATTR of a mode: 2: 1 2 0*6 1ff ffffffff*7 -> 0: 1
CREATE of a size over /x: 9: 1 1 0*6 1 78000000 ffffffff*3 4 ffffffff*4 -> 0: 1
LINK /x as /d/y: c: 1 3 0*6 1 4 0*6 1 79000000 -> 0: 2
REMOVE /x: a: 1 1 0*6 1 78000000 -> 0: 2
REMOVE /d/y, its last name: a: 1 4 0*6 1 79000000 -> 0: 1
SYMLINK /s: d: 1 1 0*6 1 73000000 1 74000000 ffffffff*8 -> 0: 2
READLINK /s: 5: 1 7 0*6 -> 0: 0
RENAME /d/b/c over /hello: b: 1 5 0*6 1 63000000 1 1 0*6 5 68656c6c 6f000000 -> 0: 3
RMDIR /d/b: f: 1 4 0*6 1 62000000 -> 0: 1
LINK /hello as /h: c: 1 6 0*6 1 1 0*6 1 68000000 -> 0: 2
CREATE /z: 9: 1 1 0*6 1 7a000000 ffffffff*8 -> 0: 2
RENAME /z over /h, which has another name: b: 1 1 0*6 1 7a000000 1 1 0*6 1 68000000 -> 0: 3
LOOKUP /d: 4: 1 1 0*6 1 64000000 -> 0: 0
READDIR /: 10: 1 1 0*6 0 2000 -> 0: 0
STATFS: 11: 1 1 0*6 -> 0: 0
GETATTR /: 1: 1 1 0*6 -> 0: 0
";

/// Whether two states have the same digest.
fn have_one_digest(alloc: Global, state: &State, read: &State) -> bool {
    match (state_digest(alloc, state), state_digest(alloc, read)) {
        (Ok(own), Ok(other)) => own == other,
        _ => false,
    }
}

/// Whether a state's digest is that of the state of a text, which keeps none.
fn has_digest_of(alloc: Global, state: &State, text: &[u8]) -> bool {
    match read_state(alloc, text) {
        Ok(read) => have_one_digest(alloc, state, &read),
        Err(_) => false,
    }
}

/// The same of its own text.
fn has_its_digest(alloc: Global, state: &State) -> bool {
    match state_text(alloc, state) {
        Ok(text) => has_digest_of(alloc, state, &text),
        Err(_) => false,
    }
}

/// Whether so many digests are missing, and none once they were computed; the state's digest is right before
/// and after.
fn misses(alloc: Global, state: &mut State, count: u32) -> bool {
    if !has_its_digest(alloc, state) {
        return false;
    }
    match (renew(alloc, state), renew(alloc, state)) {
        (Ok(first), Ok(again)) => { first == count && again == 0 && has_its_digest(alloc, state) }
        _ => false,
    }
}

/// The record of a call of NFS.
fn record_of(alloc: Global, procedure: &str, arguments: &str) -> Option<Vec<u8>> {
    let mut record = Vec::new(alloc);
    for part in [CALL_OF_NFS, procedure, SUPERUSER, "0 0", arguments] {
        if !push_text(&mut record, part) {
            return None;
        }
    }
    Some(record)
}

/// The stat of the reply to a record, after the reply's own six words.
fn stat_of(alloc: Global, state: &mut State, record: &[u8]) -> Option<u32> {
    let reply = state.answer(alloc, Time::epoch(), record).ok()??;
    let word = reply.get(24..28)?.first_chunk::<4>()?;
    Some(u32::from_be_bytes(*word))
}

/// The stat of the reply to a call of NFS.
fn answered(alloc: Global, state: &mut State, procedure: &str, arguments: &str) -> Option<u32> {
    match record_of(alloc, procedure, arguments) {
        Some(record) => stat_of(alloc, state, &record),
        None => None,
    }
}

/// Whether a row's call is answered with its stat, and leaves so many digests missing.
fn holds(alloc: Global, state: &mut State, row: &str) -> Option<bool> {
    let (call, owed) = row.split_once(" -> ")?;
    let (_, call) = call.split_once(": ")?;
    let (procedure, arguments) = call.split_once(": ")?;
    let (stat, count) = owed.split_once(": ")?;
    let is_answered = answered(alloc, state, procedure, arguments)? == stat.parse().ok()?;
    Some(is_answered && misses(alloc, state, count.parse().ok()?))
}

/// The first row that doesn't hold.
fn first_wrong(alloc: Global, state: &mut State) -> Option<&'static str> {
    for row in CALLS.lines() {
        if !row.is_empty() && holds(alloc, state, row) != Some(true) {
            return Some(row);
        }
    }
    None
}

/// What is wrong first of a state that begins with two files.
fn first_of_two(alloc: Global, state: &mut State) -> Option<&'static str> {
    if misses(alloc, state, 2) {
        first_wrong(alloc, state)
    } else {
        Some("the opening")
    }
}

/// The same of a new server's.
fn first_of_opening(alloc: Global) -> Option<&'static str> {
    match State::opening_server(alloc, 1) {
        Ok(mut state) => first_of_two(alloc, &mut state),
        Err(_) => Some("no state"),
    }
}

/// A state begins with no digest kept: two files. Each call leaves those missing of the files that it changes
/// and makes, and no others.
#[test]
fn calls_drop_the_digests_of_what_they_change(rt: HostRuntime) {
    none_wrong(&rt, first_of_opening(rt.alloc()));
}

/// A client has no files.
#[test]
fn a_client_misses_none(rt: HostRuntime) {
    let mut state = State::opening_client(rt.alloc(), 2);
    assert!(rt; misses(rt.alloc(), &mut state, 0));
}

/// The state that the server of a number begins with, to be shared.
fn opening(alloc: Global, node: u32) -> Option<SharedState> {
    let state = State::opening_server(alloc, node).ok()?;
    SharedState::new(alloc, &state).ok()
}

/// Whether one owner more has the same state.
fn is_cloned(state: &SharedState) -> bool {
    match state.try_clone() {
        Ok(other) => other.is_same(state),
        Err(_) => false,
    }
}

/// Whether the state that is read has this state's text.
fn is_written(alloc: Global, state: &State, shared: &SharedState) -> bool {
    match state_text(alloc, state) {
        Ok(text) => text.as_slice() == shared.text(),
        Err(_) => false,
    }
}

/// Whether the state is read, and is the one that is shared.
fn is_read(alloc: Global, shared: &SharedState) -> bool {
    match shared.state(alloc) {
        Ok(state) => is_written(alloc, &state, shared),
        Err(_) => false,
    }
}

/// Whether a state is the one that a server begins with.
fn is_opening(alloc: Global, state: &SharedState, node: u32) -> Option<bool> {
    match opening(alloc, node) {
        Some(other) => Some(state.is_same(&other)),
        None => None,
    }
}

/// Whether a state is shared, made again the same one, and another than the next server's.
fn is_shared(alloc: Global) -> bool {
    match opening(alloc, 1) {
        Some(state) => {
            is_opening(alloc, &state, 1) == Some(true)
                && is_opening(alloc, &state, 2) == Some(false)
                && is_cloned(&state)
                && is_read(alloc, &state)
        }
        None => false,
    }
}

#[test]
fn a_state_is_shared(rt: HostRuntime) {
    assert!(rt; is_shared(rt.alloc()));
}
