//! Texts of states from outside: each is a state that is written as it was read, Garbage, or NotAState. In
//! each row a name stands before the words of the text.

use acceptance_helpers::of_text;
use checkpoint::{State, StateFault, read_state, state_digest, state_text};
use std::alloc::Global;
use std::process::Abort;

/// The state that the server of node 1 begins with.
const OPENING: &str = "1 1 1 0*5 3 0 2
    1 2 1ff 0*8 4 1 5 68656c6c 6f000000 2 3
    2 1 1a4 0*8 6 68656c6c 6f0a0000";

/// The digest of its text, each file's digest in the place of the file, as another program gives it.
const OPENING_DIGEST: &str =
    "f7682842 7b61afa0 d539d5f3 cb0c584a 77a911f1 e87222bb 1ba03c81 48b496fe";

/// Rows of whole texts.
const STATES: &str = "
a client: 1 2 2 0*5
a client of any node, and any words: 1 ffffffff 2 ffffffff f423f 1 ffffffff*11 1 ffffffff*19 0
two received: 1 1 2 0 0 2 1 0 1 0*8 1 0 1 0*7 1 0 0
two sent: 1 1 2 0*3 2 0 1 2 0*16 0 2 2 0*16 0
the root alone: 1 1 1 0*5 2 0 1 1 2 1ff 0*8 3 0
the last number is next: 1 1 1 0*5 ffffffff 0 1 1 2 1ff 0*8 ffffffff 0
a call was heard: 1 1 1 0*4 1 7 3 61626300 2 0 1 1 2 1ff 0*8 3 0
a reply is owed: 1 1 1 0*4 2 7 0 2 0 1 1 2 1ff 0*8 3 0
a mount: 1 1 1 0*5 2 1 1 6d000000 1 2f000000 1 1 2 1ff 0*8 3 0
two mounts: 1 1 1 0*5 2 2 0 1 2f000000 1 6d000000 1 2f000000 1 1 2 1ff 0*8 3 0
a directory in the root: 1 1 1 0*5 3 0 2 1 2 1ff 0*8 4 1 1 61000000 2 3 2 2 fff 0*8 3 0
a link in the root: 1 1 1 0*5 3 0 2 1 2 1ff 0*8 4 1 1 61000000 2 3 2 5 0 0*8 1 78000000
a file under two names: 1 1 1 0*5 9 0 2 1 2 0 0*8 9 2 1 61000000 8 3 1 62000000 8 8 8 1 0 0*8 0
a name of 255 bytes: 1 1 1 0*5 3 0 2 1 2 0 0*8 4 1 ff 61616161*63 61616100 2 3 2 1 0 0*8 0
a target of 1,024 bytes: 1 1 1 0*5 3 0 2 1 2 0 0*8 4 1 1 61000000 2 3 2 5 0 0*8 400 61616161*256
a file of 1,048,576 bytes: 1 1 1 0*5 3 0 2 1 2 0 0*8 4 1 1 61000000 2 3 2 1 0 0*8 100000 0*262144
a body of 12,288 bytes: 1 1 1 0*4 1 7 3000 0*3072 2 0 1 1 2 1ff 0*8 3 0
a host of 255 bytes: 1 1 1 0*5 2 1 ff 61616161*63 61616100 1 2f000000 1 1 2 1ff 0*8 3 0
";

/// Each breaks one rule: of orders, limits, mounts or the tree.
const NO_STATES: &str = "
the clock's microseconds: 1 1 1 0 f4240 0*3 2 0 1 1 2 1ff 0*8 3 0
a client's clock: 1 1 2 0 f4240 0*3
received twice: 1 1 2 0 0 2 1 0 1 0*8 1 0 1 0*8 0 0
received in another order: 1 1 2 0 0 2 1 0 1 0*7 1 1 0 1 0*8 0 0
sent twice: 1 1 2 0*3 2 0 1 2 0*16 0 1 2 0*16 0
sent in another order: 1 1 2 0*3 2 0 2 2 0*16 0 1 2 0*16 0
a mount of another directory: 1 1 1 0*5 2 1 1 6d000000 2 2f610000 1 1 2 1ff 0*8 3 0
a mount of a directory of 1,024 bytes: 1 1 1 0*5 2 1 1 6d000000 400 2f2f2f2f*256 1 1 2 1ff 0*8 3 0
a mount twice: 1 1 1 0*5 2 2 1 6d000000 1 2f000000 1 6d000000 1 2f000000 1 1 2 1ff 0*8 3 0
no files: 1 1 1 0*5 2 0 0
the root is a file: 1 1 1 0*5 2 0 1 1 1 1ff 0*8 0
the root is a link: 1 1 1 0*5 2 0 1 1 5 1ff 0*8 0
the root is named: 1 1 1 0*5 2 0 1 1 2 1ff 0*8 4 1 1 61000000 1 3
an entry to a number that isn't there: 1 1 1 0*5 3 0 1 1 2 1ff 0*8 4 1 1 61000000 2 3
a file without a name: 1 1 1 0*5 3 0 2 1 2 1ff 0*8 3 0 2 1 0 0*8 0
a directory without a name: 1 1 1 0*5 3 0 2 1 2 1ff 0*8 3 0 2 2 0 0*8 3 0
a directory named twice: 1 1 1 0*5 3 0 2 1 2 0 0*8 5 2 1 61000000 2 3 1 62000000 2 4 2 2 0 0*8 3 0
a directory named by itself: 1 1 1 0*5 3 0 2 1 2 0 0*8 3 0 2 2 0 0*8 4 1 1 61000000 2 3
a ring: 1 1 1 0*5 4 0 3 1 2 0 0*8 3 0 2 2 0 0*8 4 1 1 61000000 3 3 3 2 0 0*8 4 1 1 61000000 2 3
a file in a ring: 1 1 1 0*5 4 0 3 1 2 0 0*8 3 0 2 2 0 0*8 5 2 1 61000000 2 3 1 62000000 3 4 3 1 0 0*8 0
a name twice: 1 1 1 0*5 4 0 3 1 2 0 0*8 5 2 1 61000000 2 3 1 61000000 3 4 2 1 0 0*8 0 3 1 0 0*8 0
a slash in a name: 1 1 1 0*5 3 0 2 1 2 0 0*8 4 1 1 2f000000 2 3 2 1 0 0*8 0
a zero in a name: 1 1 1 0*5 3 0 2 1 2 0 0*8 4 1 2 61000000 2 3 2 1 0 0*8 0
the name of one dot: 1 1 1 0*5 3 0 2 1 2 0 0*8 4 1 1 2e000000 2 3 2 1 0 0*8 0
the name of two dots: 1 1 1 0*5 3 0 2 1 2 0 0*8 4 1 2 2e2e0000 2 3 2 1 0 0*8 0
an empty name: 1 1 1 0*5 3 0 2 1 2 0 0*8 4 1 0 2 3 2 1 0 0*8 0
a cookie below 3: 1 1 1 0*5 3 0 2 1 2 0 0*8 4 1 1 61000000 2 2 2 1 0 0*8 0
a cookie that is next: 1 1 1 0*5 3 0 2 1 2 0 0*8 3 1 1 61000000 2 3 2 1 0 0*8 0
a cookie twice: 1 1 1 0*5 3 0 2 1 2 0 0*8 5 2 1 61000000 2 3 1 62000000 2 3 2 1 0 0*8 0
cookies in another order: 1 1 1 0*5 3 0 2 1 2 0 0*8 6 2 1 61000000 2 4 1 62000000 2 3 2 1 0 0*8 0
a next cookie of 2: 1 1 1 0*5 2 0 1 1 2 1ff 0*8 2 0
a number that is next: 1 1 1 0*5 2 0 2 1 2 0 0*8 4 1 1 61000000 2 3 2 1 0 0*8 0
the root's number is next: 1 1 1 0*5 1 0 1 1 2 1ff 0*8 3 0
the number 0: 1 1 1 0*5 2 0 2 0 1 0 0*8 0 1 2 0 0*8 4 1 1 61000000 0 3
a number twice: 1 1 1 0*5 3 0 3 1 2 0 0*8 4 1 1 61000000 2 3 2 1 0 0*8 0 2 1 0 0*8 0
a mode of 4096: 1 1 1 0*5 2 0 1 1 2 1000 0*8 3 0
a file's atime: 1 1 1 0*5 2 0 1 1 2 1ff 0*3 f4240 0*4 3 0
a file's mtime: 1 1 1 0*5 2 0 1 1 2 1ff 0*5 f4240 0*2 3 0
a file's ctime: 1 1 1 0*5 2 0 1 1 2 1ff 0*7 f4240 3 0
";

/// None is spelled as a state is.
const GARBAGE: &str = "
nothing:
version 0: 0 2 2 0*5
version 2: 2 2 2 0*5
kind 0: 1 2 0 0*5
kind 3: 1 2 3 0*5
a client's stage: 1 2 2 0*4 1
a stage of 3: 1 1 1 0*4 3 7 0 2 0 1 1 2 1ff 0*8 3 0
a file type of 3: 1 1 1 0*5 2 0 1 1 3 1ff 0*8 0
a file type of 0: 1 1 1 0*5 2 0 1 1 0 1ff 0*8 0
a word more: 1 2 2 0*6
a word less: 1 2 2 0*4
padding: 1 1 1 0*4 1 7 1 61000001 2 0 1 1 2 1ff 0*8 3 0
a name of 256 bytes: 1 1 1 0*5 3 0 2 1 2 0 0*8 4 1 100 61616161*64 2 3 2 1 0 0*8 0
a target of 1,025 bytes: 1 1 1 0*5 3 0 2 1 2 0 0*8 4 1 1 61000000 2 3 2 5 0 0*8 401 61616161*256 61000000
a file of 1,048,577 bytes: 1 1 1 0*5 3 0 2 1 2 0 0*8 4 1 1 61000000 2 3 2 1 0 0*8 100001 0*262145
a body of 12,289 bytes: 1 1 1 0*4 1 7 3001 0*3073 2 0 1 1 2 1ff 0*8 3 0
a host of 256 bytes: 1 1 1 0*5 2 1 100 61616161*64 1 2f000000 1 1 2 1ff 0*8 3 0
a directory of 1,025 bytes: 1 1 1 0*5 2 1 1 6d000000 401 2f2f2f2f*256 2f000000 1 1 2 1ff 0*8 3 0
";

/// Whether a state is written so.
fn is_written(alloc: Global, state: &State, bytes: &[u8]) -> bool {
    match state_text(alloc, state) {
        Ok(text) => text.as_slice() == bytes,
        Err(_) => false,
    }
}

/// Whether a state has this digest.
fn has_digest(alloc: Global, state: &State, digest: &[u8]) -> bool {
    match state_digest(alloc, state) {
        Ok(own) => own.as_slice() == digest,
        Err(_) => false,
    }
}

/// Whether a text is a state that is written as it was read, or is refused so.
fn is_read(alloc: Global, bytes: &[u8], fault: Option<StateFault>) -> bool {
    match read_state(alloc, bytes) {
        Ok(state) => fault.is_none() && is_written(alloc, &state, bytes),
        Err(error) => fault == Some(error),
    }
}

/// The same of a text that there is.
pub fn is_given(alloc: Global, bytes: Option<Vec<u8>>, fault: Option<StateFault>) -> bool {
    match bytes {
        Some(bytes) => is_read(alloc, &bytes, fault),
        None => false,
    }
}

/// The first row whose text isn't read or refused so.
fn first_wrong(
    alloc: Global,
    rows: &'static str,
    fault: Option<StateFault>,
) -> Option<&'static str> {
    for row in rows.lines() {
        if let Some((_, words)) = row.split_once(':') {
            if !is_given(alloc, of_text(alloc, words), fault) {
                return Some(row);
            }
        }
    }
    None
}

/// Whether a state has a text and a digest, each a text of words.
fn is_known(alloc: Global, state: &State, text: &str, digest: &str) -> bool {
    match (of_text(alloc, text), of_text(alloc, digest)) {
        (Some(text), Some(digest)) => {
            text.len() == 172
                && is_written(alloc, state, &text)
                && has_digest(alloc, state, &digest)
        }
        _ => false,
    }
}

/// Whether the state that a server begins with has this text and this digest.
fn opens(alloc: Global) -> bool {
    match State::opening_server(alloc, 1) {
        Ok(state) => is_known(alloc, &state, OPENING, OPENING_DIGEST),
        Err(_) => false,
    }
}

/// Asserts that nothing is wrong.
pub fn none_wrong(rt: &impl Abort, wrong: Option<&str>) {
    assert!(rt; wrong.is_none(), "{}", wrong.unwrap_or_default());
}

#[test]
fn the_opening_state(rt: HostRuntime) {
    assert!(rt; opens(rt.alloc()));
    assert!(rt; is_given(rt.alloc(), of_text(rt.alloc(), OPENING), None));
}

/// That text with another cookie of its entry.
const ANOTHER_COOKIE: &str = "1 1 1 0*5 3 0 2
    1 2 1ff 0*8 4 1 5 68656c6c 6f000000 2 4
    2 1 1a4 0*8 6 68656c6c 6f0a0000";

/// That text with its files exchanged.
const EXCHANGED: &str = "1 1 1 0*5 3 0 2
    2 1 1a4 0*8 6 68656c6c 6f0a0000
    1 2 1ff 0*8 4 1 5 68656c6c 6f000000 2 3";

/// These are no states.
#[test]
fn the_opening_state_changed(rt: HostRuntime) {
    let none = Some(StateFault::NotAState);
    assert!(rt; is_given(rt.alloc(), of_text(rt.alloc(), ANOTHER_COOKIE), none));
    assert!(rt; is_given(rt.alloc(), of_text(rt.alloc(), EXCHANGED), none));
}

/// The first bytes of that text, or the text and zeros.
fn opening_of(alloc: Global, len: usize) -> Option<Vec<u8>> {
    let mut bytes = of_text(alloc, OPENING)?;
    match bytes.resize(len, 0) {
        Ok(()) => Some(bytes),
        Err(_) => None,
    }
}

/// That text a byte shorter or a byte longer is Garbage.
#[test]
fn the_opening_state_cut(rt: HostRuntime) {
    let garbage = Some(StateFault::Garbage);
    assert!(rt; is_given(rt.alloc(), opening_of(rt.alloc(), 171), garbage));
    assert!(rt; is_given(rt.alloc(), opening_of(rt.alloc(), 173), garbage));
}

#[test]
fn states_are_written_as_they_were_read(rt: HostRuntime) {
    none_wrong(&rt, first_wrong(rt.alloc(), STATES, None));
}

#[test]
fn each_rule_is_looked_at(rt: HostRuntime) {
    let fault = Some(StateFault::NotAState);
    none_wrong(&rt, first_wrong(rt.alloc(), NO_STATES, fault));
}

#[test]
fn other_bytes_are_garbage(rt: HostRuntime) {
    let fault = Some(StateFault::Garbage);
    none_wrong(&rt, first_wrong(rt.alloc(), GARBAGE, fault));
}
