//! Streams of calls through a gateway, and their replies byte for byte (RFC 5531, RFC 1094). In each row the
//! record of a call is followed after `->` by that of its reply, both as texts of words.

use crate::parties::{holds_of, joined};
use acceptance_helpers::push_text;
use nfs_items::Time;
use nodes::{Direct, FixedClock, Gateway};
use rpc::records::{Counting, RecordReader};
use std::alloc::Global;

/// NULL, once in two fragments; GETATTR of the root; LOOKUP of `hello` in it, and with other padding; then
/// what is mounted.
const ROWS: &str = "
80000028 1 0 2 186a3 2 0*5 -> 80000018 1 1 0*4
4 1 80000024 0 2 186a3 2 0*5 -> 80000018 1 1 0*4
80000048 2 0 2 186a3 2 1 0*4 1 1 0*6 -> 80000060 2 1 0*5 2 41ff 2 0*2 200*2 0 1*3 0*6
80000054 3 0 2 186a3 2 4 0*4 1 1 0*6 5 68656c6c 6f000000 -> 80000080 3 1 0*5 1 2 0*6 1 81a4 1 0*2 6 200 0 1*2 2 0*6
80000054 3 0 2 186a3 2 4 0*4 1 1 0*6 5 68656c6c 6f000001 -> 80000018 3 1 0*3 4
80000030 7 0 2 186a5 1 1 0*4 1 2f000000 -> 80000014 7 1 1 1 5
80000048 8 0 2 186a5 1 1 1 18 0 1 6d000000 0*3 0*2 1 2f000000 -> 8000003c 8 1 0*5 1 1 0*6
80000048 8 0 2 186a5 1 1 1 18 0 1 6d000000 0*3 0*2 1 2f000000 -> 8000003c 8 1 0*5 1 1 0*6
80000028 9 0 2 186a5 1 2 0*4 -> 80000030 9 1 0*4 1 1 6d000000 1 2f000000 0
8000004c a 0 2 186a5 1 1 1 18 0 1 6d000000 0*3 0*2 6 2f68656c 6c6f0000 -> 8000001c a 1 0*4 d
80000048 b 0 2 186a5 1 1 1 18 0 1 6d000000 0*3 0*2 3 2f6e6f00 -> 8000001c b 1 0*4 2
80000028 c 0 2 186a5 1 5 0*4 -> 8000002c c 1 0*4 1 1 2f000000 0 0
80000048 d 0 2 186a5 1 3 1 18 0 1 6d000000 0*3 0*2 1 2f000000 -> 80000018 d 1 0*4
80000028 e 0 2 186a5 1 2 0*4 -> 8000001c e 1 0*4 0
80000048 f 0 2 186a5 1 1 1 18 0 1 6d000000 0*3 0*2 1 2f000000 -> 8000003c f 1 0*5 1 1 0*6
80000040 10 0 2 186a5 1 4 1 18 0 1 6d000000 0*3 0*2 -> 80000018 10 1 0*4
80000028 11 0 2 186a5 1 2 0*4 -> 8000001c 11 1 0*4 0
";

/// Records, and what is owed to them.
#[derive(Drop)]
struct Rows {
    calls: Vec<u8>,
    replies: Vec<u8>,
}

/// The bytes of rows.
fn parsed(alloc: Global, text: &str) -> Option<Rows> {
    let mut calls = Vec::new(alloc);
    let mut replies = Vec::new(alloc);
    for row in text.lines() {
        if let Some((call, reply)) = row.split_once("->") {
            if !push_text(&mut calls, call) || !push_text(&mut replies, reply) {
                return None;
            }
        }
    }
    Some(Rows { calls, replies })
}

/// What a gateway writes for a stream over a link, if no fault comes.
fn served(alloc: Global, link: &mut Direct, input: &[u8]) -> Option<Vec<u8>> {
    let mut clock = FixedClock {
        time: Time::epoch(),
    };
    let mut reader = RecordReader::new(Counting::new(input));
    let mut writer = Counting::new(Vec::new(alloc));
    match Gateway::new().serve_stream(alloc, link, &mut clock, &mut reader, &mut writer) {
        Ok(_) => Some(writer.into_inner()),
        Err(_) => None,
    }
}

/// Whether the replies to the calls of rows are those that are owed, byte for byte.
fn is_served(alloc: Global, link: &mut Direct, rows: &Rows) -> bool {
    match served(alloc, link, &rows.calls) {
        Some(written) => written.as_slice() == rows.replies.as_slice(),
        None => false,
    }
}

/// Whether those to the calls of all rows are.
fn all_are_served(alloc: Global, link: &mut Direct) -> bool {
    match parsed(alloc, ROWS) {
        Some(rows) => is_served(alloc, link, &rows),
        None => false,
    }
}

#[test]
fn calls_are_answered_byte_for_byte(rt: HostRuntime) {
    assert!(rt; holds_of(rt.alloc(), joined(rt.alloc(), 6), all_are_served));
}
