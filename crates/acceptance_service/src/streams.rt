//! Four records and the replies to them, streams of records over memory, and what is written to them.

use acceptance_helpers::{of_words, push_words};
use nfs_items::Time;
use rpc::records::{Counting, MAX_RECORD, RecordFault, RecordReader};
use rpc_streams::{Service, run_rpc};
use std::alloc::Global;
use std::io::BufReader;

/// Records one after the other, and where each of them ends.
#[derive(Drop)]
pub struct Stream {
    pub bytes: Vec<u8>,
    pub ends: [usize; 4],
}

/// A record of a call of NULL, and the record of the reply to it.
pub const NULL: [u32; 11] = [0x80000028, 1, 0, 2, 100003, 2, 0, 0, 0, 0, 0];

pub const NULL_REPLY: [u32; 7] = [0x80000018, 1, 1, 0, 0, 0, 0];

const NULL_IN_TWO_FRAGMENTS: [u32; 12] = [4, 1, 0x80000024, 0, 2, 100003, 2, 0, 0, 0, 0, 0];

/// GETATTR of the root.
const GETATTR: [u32; 19] = [
    0x80000048, 2, 0, 2, 100003, 2, 1, 0, 0, 0, 0, 1, 1, 0, 0, 0, 0, 0, 0,
];

const GETATTR_REPLY: [u32; 25] = [
    0x80000060, 2, 1, 0, 0, 0, 0, 0, 2, 0o40777, 2, 0, 0, 512, 512, 0, 1, 1, 1, 0, 0, 0, 0, 0, 0,
];

/// LOOKUP of `hello` in the root.
const LOOKUP: [u32; 22] = [
    0x80000054, 3, 0, 2, 100003, 2, 4, 0, 0, 0, 0, 1, 1, 0, 0, 0, 0, 0, 0, 5, 0x68656c6c,
    0x6f000000,
];

const LOOKUP_REPLY: [u32; 33] = [
    0x80000080, 3, 1, 0, 0, 0, 0, 0, 1, 2, 0, 0, 0, 0, 0, 0, 1, 0o100644, 1, 0, 0, 6, 512, 0, 1, 1,
    2, 0, 0, 0, 0, 0, 0,
];

/// Four texts, joined.
fn stream_of(alloc: Global, texts: [&[u32]; 4]) -> Option<Stream> {
    let mut bytes = Vec::new(alloc);
    let mut ends = [0; 4];
    for i in 0..4 {
        if !push_words(&mut bytes, texts[i]) {
            return None;
        }
        ends[i] = bytes.len();
    }
    Some(Stream { bytes, ends })
}

impl Stream {
    pub fn of_calls(alloc: Global) -> Option<Stream> {
        stream_of(alloc, [&NULL, &NULL_IN_TWO_FRAGMENTS, &GETATTR, &LOOKUP])
    }

    pub fn of_replies(alloc: Global) -> Option<Stream> {
        stream_of(
            alloc,
            [&NULL_REPLY, &NULL_REPLY, &GETATTR_REPLY, &LOOKUP_REPLY],
        )
    }

    /// How many records end within the first bytes, so many of them.
    pub fn count_within(&self, len: usize) -> usize {
        self.ends.iter().filter(|end| **end <= len).count()
    }

    /// The first records, so many of them.
    pub fn first(&self, count: usize) -> &[u8] {
        let end = self.ends.iter().take(count).last().map_or(0, |end| *end);
        &self.bytes[..end.min(self.bytes.len())]
    }
}

/// Calls, and the replies to them.
#[derive(Drop)]
pub struct Streams {
    pub calls: Stream,
    pub replies: Stream,
}

impl Streams {
    pub fn new(alloc: Global) -> Option<Streams> {
        let calls = Stream::of_calls(alloc)?;
        let replies = Stream::of_replies(alloc)?;
        Some(Streams { calls, replies })
    }

    /// The replies that are owed where so many bytes of the calls are read.
    pub fn owed_within(&self, read: usize) -> &[u8] {
        self.replies.first(self.calls.count_within(read))
    }

    /// How many bytes of the calls are after the one to which a reply begins after so many bytes.
    pub fn left_after(&self, written: usize) -> usize {
        let call = self.replies.count_within(written).min(3);
        self.calls.bytes.len().saturating_sub(self.calls.ends[call])
    }
}

/// Whether a stream from memory ends so, with these bytes written, and no read or write counted as refused.
fn serves(alloc: Global, input: &[u8], done: Result<u64, RecordFault>, owed: &[u8]) -> bool {
    let mut reader = RecordReader::new(Counting::new(input));
    let mut writer = Counting::new(Vec::new(alloc));
    run_rpc(alloc, &mut reader, &mut writer) == done
        && reader.get_ref().count() == 0
        && writer.count() == 0
        && writer.get_ref().as_slice() == owed
}

/// Whether the four calls and these bytes after them end so, with the four replies written.
fn ends_after(alloc: Global, more: &[u8], done: Result<u64, RecordFault>) -> bool {
    match Streams::new(alloc) {
        Some(mut streams) => {
            streams.calls.bytes.extend_from_slice(more).is_ok()
                && serves(alloc, &streams.calls.bytes, done, &streams.replies.bytes)
        }
        None => false,
    }
}

/// Each record is answered, and what stands after them decides how the stream ends.
#[test]
fn records_are_answered_up_to_the_end_or_a_fault(rt: HostRuntime) {
    let too_long = Err(RecordFault::RecordTooLong);
    assert!(rt; ends_after(rt.alloc(), &[], Ok(4)));
    assert!(rt; ends_after(rt.alloc(), &[0x80, 0, 0x30, 1], too_long));
    assert!(rt; ends_after(rt.alloc(), &[0x80], Err(RecordFault::EndInRecord)));
}

/// The bytes of words, so many times over.
fn repeated(alloc: Global, words: &[u32], times: u32) -> Option<Vec<u8>> {
    let mut out = Vec::new(alloc);
    for _ in 0..times {
        if !push_words(&mut out, words) {
            return None;
        }
    }
    Some(out)
}

/// Whether 20,000 calls of NULL are answered.
fn serves_many(alloc: Global) -> bool {
    match (
        repeated(alloc, &NULL, 20_000),
        repeated(alloc, &NULL_REPLY, 20_000),
    ) {
        (Some(input), Some(owed)) => serves(alloc, &input, Ok(20_000), &owed),
        _ => false,
    }
}

/// A stream isn't given up after some number of records.
#[test]
fn many_records_are_answered(rt: HostRuntime) {
    assert!(rt; serves_many(rt.alloc()));
}

/// Whether the four calls are answered by a buffered reader of them.
fn serves_buffered(alloc: Global, buffered: BufReader<&[u8]>, owed: &[u8]) -> bool {
    let mut reader = RecordReader::new(Counting::new(buffered));
    let mut writer = Counting::new(Vec::new(alloc));
    run_rpc(alloc, &mut reader, &mut writer) == Ok(4) && writer.get_ref().as_slice() == owed
}

/// Whether they are with so many bytes read ahead.
fn serves_ahead(alloc: Global, streams: &Streams, read_ahead: usize) -> bool {
    match BufReader::with_capacity(alloc, read_ahead, streams.calls.bytes.as_slice()) {
        Ok(buffered) => serves_buffered(alloc, buffered, &streams.replies.bytes),
        Err(_) => false,
    }
}

/// Whether they are with each amount, up to one byte more than there are.
fn serves_with_each(alloc: Global) -> bool {
    let Some(streams) = Streams::new(alloc) else {
        return false;
    };
    for read_ahead in 1..streams.calls.bytes.len() + 2 {
        if !serves_ahead(alloc, &streams, read_ahead) {
            return false;
        }
    }
    true
}

/// The replies are the same, however much is read ahead.
#[test]
fn records_are_answered_however_they_are_read(rt: HostRuntime) {
    assert!(rt; serves_with_each(rt.alloc()));
}

/// Whether the next record's room is that of the longest.
fn takes_room(alloc: Global, reader: &mut RecordReader<&[u8]>) -> bool {
    match reader.next(alloc) {
        Ok(Some(record)) => record.capacity() == MAX_RECORD,
        _ => false,
    }
}

/// Whether it is for each of the four calls.
fn take_room(alloc: Global) -> bool {
    match Streams::new(alloc) {
        Some(streams) => {
            let input = streams.calls.bytes.as_slice();
            let mut reader = RecordReader::new(Counting::new(input));
            takes_room(alloc, &mut reader)
                && takes_room(alloc, &mut reader)
                && takes_room(alloc, &mut reader)
                && takes_room(alloc, &mut reader)
        }
        None => false,
    }
}

/// The room of a record is taken at once, whatever its length and its fragments.
#[test]
fn a_record_takes_the_room_of_the_longest(rt: HostRuntime) {
    assert!(rt; take_room(rt.alloc()));
}

/// Whether a record is answered, or isn't.
fn is_answered(alloc: Global, service: &mut Service, record: &[u8], answered: bool) -> bool {
    match service.answer(alloc, Time::epoch(), record) {
        Ok(reply) => reply.is_some() == answered,
        Err(_) => false,
    }
}

/// Whether the first bytes of a call of NULL are answered exactly where they are 40.
fn whole_alone(alloc: Global, service: &mut Service, call: &[u8]) -> bool {
    for len in 0..call.len() {
        if !is_answered(alloc, service, &call[..len], false) {
            return false;
        }
    }
    call.len() == 40 && is_answered(alloc, service, call, true)
}

/// The same of a new server.
fn answers_whole_alone(alloc: Global) -> bool {
    match (Service::opening(alloc, 1), of_words(alloc, &NULL[1..])) {
        (Ok(mut service), Some(call)) => whole_alone(alloc, &mut service, &call),
        _ => false,
    }
}

/// A call that is cut within its header has no reply.
#[test]
fn a_whole_header_has_a_reply(rt: HostRuntime) {
    assert!(rt; answers_whole_alone(rt.alloc()));
}
