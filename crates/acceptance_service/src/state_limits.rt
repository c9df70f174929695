//! States at each limit on messages, mounts, files, entries and blocks, and one past it.

use crate::state_texts::is_given;
use acceptance_helpers::{of_text, push_text, push_words};
use checkpoint::StateFault;
use std::alloc::Global;

/// The bytes of a name of four, another for each number below 65,536.
fn name(k: u32) -> u32 {
    let nibbles = (k & 0xf) | (k & 0xf0) << 4 | (k & 0xf00) << 8 | (k & 0xf000) << 12;
    0x40404040 | nibbles
}

/// The bytes, if all of them were appended.
fn given(bytes: Vec<u8>, is_whole: bool) -> Option<Vec<u8>> {
    if is_whole { Some(bytes) } else { None }
}

/// Appends messages that a client received.
fn push_received(out: &mut Vec<u8>, count: u32) -> bool {
    for number in 0..count {
        if !push_words(out, &[1, 0, number, 0, 0, 0, 0, 0, 0, 0, 0]) {
            return false;
        }
    }
    true
}

/// The text of a client that received messages.
fn received(alloc: Global, count: u32) -> Option<Vec<u8>> {
    let mut out = of_text(alloc, "1 2 2 0*2")?;
    let is_whole = push_words(&mut out, &[count])
        && push_received(&mut out, count)
        && push_text(&mut out, "0*2");
    given(out, is_whole)
}

/// Appends messages that a client sent.
fn push_sent(out: &mut Vec<u8>, count: u32) -> bool {
    for number in 0..count {
        let message = [0, number, 1, 0, 0, 0, 0, 0, 0, 0, 0, 0, 0, 0, 0, 0, 0, 0, 0];
        if !push_words(out, &message) {
            return false;
        }
    }
    true
}

/// The text of a client that sent messages.
fn sent(alloc: Global, count: u32) -> Option<Vec<u8>> {
    let mut out = of_text(alloc, "1 2 2 0*3")?;
    let is_whole = push_words(&mut out, &[count])
        && push_sent(&mut out, count)
        && push_text(&mut out, "0");
    given(out, is_whole)
}

/// Appends mounts.
fn push_mounts(out: &mut Vec<u8>, count: u32) -> bool {
    for number in 0..count {
        if !push_words(out, &[4, name(number), 1, 0x2f00_0000]) {
            return false;
        }
    }
    true
}

/// The text of a server with mounts.
fn mounted(alloc: Global, count: u32) -> Option<Vec<u8>> {
    let mut out = of_text(alloc, "1 1 1 0*5 2")?;
    let is_whole = push_words(&mut out, &[count])
        && push_mounts(&mut out, count)
        && push_text(&mut out, "1 1 2 1ff 0*8 3 0");
    given(out, is_whole)
}

/// The entries of a directory: how many they are, the number of the file that the first names, and how much
/// greater each next one is.
#[derive(Clone, Copy)]
struct EntryRange {
    count: u32,
    first: u32,
    step: u32,
}

impl EntryRange {
    /// So many entries of one file.
    fn of_one(count: u32, file: u32) -> EntryRange {
        EntryRange {
            count,
            first: file,
            step: 0,
        }
    }

    /// So many entries of files from number 2 on.
    fn of_each(count: u32) -> EntryRange {
        EntryRange {
            count,
            first: 2,
            step: 1,
        }
    }

    /// Appends each of them.
    fn push(self, out: &mut Vec<u8>) -> bool {
        for at in 0..self.count {
            let named = self.first.wrapping_add(at.wrapping_mul(self.step));
            if !push_words(out, &[4, name(at), named, at.wrapping_add(3)]) {
                return false;
            }
        }
        true
    }

    /// Appends the directory of a number that has them.
    fn push_directory(self, out: &mut Vec<u8>, number: u32) -> bool {
        push_words(out, &[number])
            && push_text(out, "2 1ed 0*8")
            && push_words(out, &[self.count.wrapping_add(3), self.count])
            && self.push(out)
    }
}

/// Appends empty files of numbers from 2 on.
fn push_files(out: &mut Vec<u8>, count: u32) -> bool {
    for number in 2..count.wrapping_add(1) {
        if !(push_words(out, &[number]) && push_text(out, "1 1a4 0*9")) {
            return false;
        }
    }
    true
}

/// The text of a server with files, all empty and in the root.
fn files(alloc: Global, count: u32) -> Option<Vec<u8>> {
    let mut out = of_text(alloc, "1 1 1 0*5")?;
    let entries = EntryRange::of_each(count.wrapping_sub(1));
    let is_whole = push_words(&mut out, &[count.wrapping_add(1), 0, count])
        && entries.push_directory(&mut out, 1)
        && push_files(&mut out, count);
    given(out, is_whole)
}

/// The text of a server whose root has entries, all of one file.
fn entries(alloc: Global, count: u32) -> Option<Vec<u8>> {
    let mut out = of_text(alloc, "1 1 1 0*5 3 0 2")?;
    let is_whole = EntryRange::of_one(count, 2).push_directory(&mut out, 1)
        && push_text(&mut out, "2 1 1a4 0*9");
    given(out, is_whole)
}

/// The text of a server with 16,383 entries in the root, all but one of one file, and more in the directory
/// that the last of them names.
fn entries_below(alloc: Global, count: u32) -> Option<Vec<u8>> {
    let mut out = of_text(alloc, "1 1 1 0*5 4 0 3 1 2 1ed 0*8 4002 3fff")?;
    let is_whole = EntryRange::of_one(16_382, 2).push(&mut out)
        && push_words(&mut out, &[4, name(16_382), 3, 16_385])
        && push_text(&mut out, "2 1 1a4 0*9")
        && EntryRange::of_one(count, 2).push_directory(&mut out, 3);
    given(out, is_whole)
}

/// Appends sixteen files of 1,048,576 bytes.
fn push_long_files(out: &mut Vec<u8>) -> bool {
    for number in 2..18 {
        if !(push_words(out, &[number]) && push_text(out, "1 1a4 0*8 100000 0*262144")) {
            return false;
        }
    }
    true
}

/// The text of a server with sixteen files of 1,048,576 bytes, and a last one, which is given as a text.
fn blocks(alloc: Global, last: &str) -> Option<Vec<u8>> {
    let mut out = of_text(alloc, "1 1 1 0*5 13 0 12")?;
    let is_whole = EntryRange::of_each(17).push_directory(&mut out, 1)
        && push_long_files(&mut out)
        && push_text(&mut out, "12 1 1a4 0*8")
        && push_text(&mut out, last);
    given(out, is_whole)
}

/// No fault, and the two that there are.
const A_STATE: Option<StateFault> = None;

const GARBAGE: Option<StateFault> = Some(StateFault::Garbage);

const NO_STATE: Option<StateFault> = Some(StateFault::NotAState);

/// Each limit on messages at its bound, and one past it.
#[test]
fn limits_on_messages(rt: HostRuntime) {
    assert!(rt; is_given(rt.alloc(), received(rt.alloc(), 131_072), A_STATE));
    assert!(rt; is_given(rt.alloc(), received(rt.alloc(), 131_073), GARBAGE));
    assert!(rt; is_given(rt.alloc(), sent(rt.alloc(), 131_072), A_STATE));
    assert!(rt; is_given(rt.alloc(), sent(rt.alloc(), 131_073), GARBAGE));
}

/// The limits on mounts and files at their bounds, and one past each.
#[test]
fn limits_on_mounts_and_files(rt: HostRuntime) {
    assert!(rt; is_given(rt.alloc(), mounted(rt.alloc(), 40), A_STATE));
    assert!(rt; is_given(rt.alloc(), mounted(rt.alloc(), 41), GARBAGE));
    assert!(rt; is_given(rt.alloc(), files(rt.alloc(), 8_192), A_STATE));
    assert!(rt; is_given(rt.alloc(), files(rt.alloc(), 8_193), GARBAGE));
}

/// The limit on entries at its bound and one past it, in one directory and in two.
#[test]
fn limits_on_entries(rt: HostRuntime) {
    assert!(rt; is_given(rt.alloc(), entries(rt.alloc(), 16_384), A_STATE));
    assert!(rt; is_given(rt.alloc(), entries(rt.alloc(), 16_385), GARBAGE));
    assert!(rt; is_given(rt.alloc(), entries_below(rt.alloc(), 1), A_STATE));
    assert!(rt; is_given(rt.alloc(), entries_below(rt.alloc(), 2), NO_STATE));
}

/// The limit on blocks at its bound, and a byte past it.
#[test]
fn limits_on_blocks(rt: HostRuntime) {
    assert!(rt; is_given(rt.alloc(), blocks(rt.alloc(), "0"), A_STATE));
    assert!(rt; is_given(rt.alloc(), blocks(rt.alloc(), "1 0"), NO_STATE));
}
