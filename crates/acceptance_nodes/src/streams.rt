//! Three calls over a server as the link, by readers and writers that give and take a byte a call, and what
//! is left after a fault.

use acceptance_helpers::{Refusal, SlowReader, SlowWriter, of_words, push_words};
use nfs_items::Time;
use nodes::{
    Clock, FixedClock, Gateway, Link, LinkFault, ScriptedClock, Served, Service, StreamFault,
};
use rpc::records::{Counting, RecordReader};
use std::alloc::Global;
use std::collections::VecDeque;

/// NULL, GETATTR of the root and LOOKUP of `hello` in it, each as a record.
const CALLS: [u32; 52] = [
    0x80000028, 1, 0, 2, 100003, 2, 0, 0, 0, 0, 0, // NULL
    0x80000048, 2, 0, 2, 100003, 2, 1, 0, 0, 0, 0, 1, 1, 0, 0, 0, 0, 0, 0, // GETATTR
    0x80000054, 3, 0, 2, 100003, 2, 4, 0, 0, 0, 0, 1, 1, 0, 0, 0, 0, 0, 0, 5, 0x68656c6c,
    0x6f000000, // LOOKUP
];

/// The replies to them.
const REPLIES: [u32; 65] = [
    0x80000018, 1, 1, 0, 0, 0, 0, // NULL
    0x80000060, 2, 1, 0, 0, 0, 0, 0, 2, 0o40777, 2, 0, 0, 512, 512, 0, 1, 1, 1, 0, 0, 0, 0, 0, 0,
    0x80000080, 3, 1, 0, 0, 0, 0, 0, 1, 2, 0, 0, 0, 0, 0, 0, 1, 0o100644, 1, 0, 0, 6, 512, 0, 1, 1,
    2, 0, 0, 0, 0, 0, 0,
];

/// A server that answers so many records, and then a fault.
#[derive(Drop)]
struct ShortLink {
    service: Service,
    left: u32,
    fault: LinkFault,
}

impl Link for ShortLink {
    fn exchange(
        &mut self,
        alloc: Global,
        time: Time,
        bytes: &[u8],
    ) -> Result<Option<Vec<u8>>, LinkFault> {
        if self.left == 0 {
            return Err(self.fault);
        }
        self.left -= 1;
        self.service.exchange(alloc, time, bytes)
    }
}

/// A clock that reads seconds 1, 2, 3 and 4.
fn seconds(alloc: Global) -> Option<ScriptedClock> {
    let mut later = VecDeque::new(alloc);
    for second in 2..5 {
        let time = Time::new(second, 0)?;
        if later.push_back(time).is_err() {
            return None;
        }
    }
    let next = Time::new(1, 0)?;
    Some(ScriptedClock { next, later })
}

/// Calls, and the replies to them.
#[derive(Drop)]
struct Streams {
    calls: Vec<u8>,
    replies: Vec<u8>,
}

impl Streams {
    /// The reply to NULL.
    fn first_reply(&self) -> &[u8] {
        &self.replies[..self.replies.len().min(28)]
    }
}

/// Those of the three calls.
fn three_calls(alloc: Global) -> Option<Streams> {
    let calls = of_words(alloc, &CALLS)?;
    let replies = of_words(alloc, &REPLIES)?;
    Some(Streams { calls, replies })
}

/// Whether a device was asked once for each of its bytes, and once for the end.
fn was_read_once(device: &SlowReader<'_>, bytes: usize) -> bool {
    device.calls == (bytes as u64).saturating_add(1)
}

/// Whether a writer took three replies, each by one call.
fn took_each(writer: &SlowWriter, replies: &[u8]) -> bool {
    writer.taken.as_slice() == replies && writer.calls == 3
}

/// Whether calls that come a byte at a time are answered by a server, at the times that a clock reads: each
/// reply by one write, since by two a connection would wait for the other side between them.
fn is_answered(
    alloc: Global,
    link: &mut Service,
    clock: &mut ScriptedClock,
    streams: &Streams,
) -> bool {
    let mut reader = RecordReader::new(Counting::new(SlowReader::new(&streams.calls, 0)));
    let mut writer = Counting::new(SlowWriter::new(alloc, usize::MAX, 0, Refusal::Error));
    let done = Gateway::new().serve_stream(alloc, link, clock, &mut reader, &mut writer);
    done == Ok(Served { records: 3 })
        && was_read_once(reader.get_ref().get_ref(), streams.calls.len())
        && took_each(writer.get_ref(), &streams.replies)
}

/// Whether they are by a new server, whose clock is at the last call then.
fn is_answered_in_time(alloc: Global, streams: &Streams) -> bool {
    match (Service::opening(alloc, 1), seconds(alloc)) {
        (Ok(mut link), Some(mut clock)) => {
            is_answered(alloc, &mut link, &mut clock, streams)
                && clock.now().seconds() == 4
                && link.clock().seconds() == 3
        }
        _ => false,
    }
}

/// Whether the three calls are.
fn are_answered(alloc: Global) -> bool {
    match three_calls(alloc) {
        Some(streams) => is_answered_in_time(alloc, &streams),
        None => false,
    }
}

#[test]
fn calls_are_answered_by_the_byte(rt: HostRuntime) {
    assert!(rt; are_answered(rt.alloc()));
}

/// How many calls one stream has at least.
const MANY: u64 = 20_000;

/// So many calls of NULL.
fn many_calls(alloc: Global) -> Option<Vec<u8>> {
    let mut calls = Vec::new(alloc);
    for _ in 0..MANY {
        if !push_words(&mut calls, &CALLS[..11]) {
            return None;
        }
    }
    Some(calls)
}

/// Whether a server answers them in one stream.
fn answers_many(alloc: Global, link: &mut Service, calls: &[u8]) -> bool {
    let mut clock = FixedClock {
        time: Time::epoch(),
    };
    let mut reader = RecordReader::new(Counting::new(calls));
    let mut writer = Counting::new(Vec::new(alloc));
    let done = Gateway::new().serve_stream(alloc, link, &mut clock, &mut reader, &mut writer);
    done == Ok(Served { records: MANY }) && writer.get_ref().len() as u64 == 28 * MANY
}

/// Whether a new server does.
fn many_are_answered(alloc: Global) -> bool {
    match (Service::opening(alloc, 1), many_calls(alloc)) {
        (Ok(mut link), Some(calls)) => answers_many(alloc, &mut link, &calls),
        _ => false,
    }
}

/// A stream isn't given up after some number of records.
#[test]
fn many_calls_are_answered(rt: HostRuntime) {
    assert!(rt; many_are_answered(rt.alloc()));
}

/// Whether a writer took these bytes a byte a call, and refused the call after them.
fn took(writer: &Counting<SlowWriter>, written: &[u8]) -> bool {
    let device = writer.get_ref();
    device.taken.as_slice() == written
        && device.calls == (written.len() as u64).saturating_add(1)
        && writer.count() == 1
}

/// Whether a stream over a server ends by its writer, and stays so with nothing read.
fn ends_by_writer(
    alloc: Global,
    link: &mut Service,
    reader: &mut RecordReader<&[u8]>,
    writer: &mut Counting<SlowWriter>,
) -> bool {
    let mut clock = FixedClock {
        time: Time::epoch(),
    };
    let mut gateway = Gateway::new();
    let done = gateway.serve_stream(alloc, link, &mut clock, reader, writer);
    let left = reader.get_ref().get_ref().len();
    let again = gateway.serve_stream(alloc, link, &mut clock, reader, writer);
    done == Err(StreamFault::Device)
        && again == Err(StreamFault::Failed)
        && reader.get_ref().get_ref().len() == left
}

/// Whether a stream whose writer takes these bytes, one a call, and then fails, ends with no more written,
/// and stays so with nothing read or written.
fn ends_after(alloc: Global, calls: &[u8], written: &[u8]) -> bool {
    let Ok(mut link) = Service::opening(alloc, 1) else {
        return false;
    };
    let fails_at = (written.len() as u64).saturating_add(1);
    let mut reader = RecordReader::new(Counting::new(calls));
    let mut writer = Counting::new(SlowWriter::new(alloc, 1, fails_at, Refusal::Error));
    ends_by_writer(alloc, &mut link, &mut reader, &mut writer) && took(&writer, written)
}

/// Whether it does after each number of bytes of the replies to three calls.
fn ends_after_each(alloc: Global) -> bool {
    let Some(streams) = three_calls(alloc) else {
        return false;
    };
    let replies = streams.replies.as_slice();
    for written in 0..replies.len() {
        if !ends_after(alloc, &streams.calls, &replies[..written]) {
            return false;
        }
    }
    true
}

#[test]
fn a_failed_write_ends_all(rt: HostRuntime) {
    assert!(rt; ends_after_each(rt.alloc()));
}

/// A server that answers one record, and then this fault.
fn short_link(alloc: Global, fault: LinkFault) -> Option<ShortLink> {
    let service = Service::opening(alloc, 1).ok()?;
    Some(ShortLink {
        service,
        left: 1,
        fault,
    })
}

/// Whether a stream over a link ends by this fault, with the reply to its first record written and its last
/// not read, and stays so.
fn ends_by_link(
    alloc: Global,
    link: &mut ShortLink,
    clock: &mut ScriptedClock,
    streams: &Streams,
    fault: StreamFault,
) -> bool {
    let mut reader = RecordReader::new(Counting::new(streams.calls.as_slice()));
    let mut writer = Counting::new(Vec::new(alloc));
    let mut gateway = Gateway::new();
    let done = gateway.serve_stream(alloc, link, clock, &mut reader, &mut writer);
    let left = reader.get_ref().get_ref().len();
    let again = gateway.serve_stream(alloc, link, clock, &mut reader, &mut writer);
    done == Err(fault)
        && again == Err(StreamFault::Failed)
        && left == 88
        && writer.get_ref().as_slice() == streams.first_reply()
}

/// Whether the three calls over a link that answers one record and then a fault end by this one, the clock
/// having been read for two.
fn is_ended(alloc: Global, fault: LinkFault, owed: StreamFault) -> bool {
    match (short_link(alloc, fault), seconds(alloc), three_calls(alloc)) {
        (Some(mut link), Some(mut clock), Some(streams)) => {
            ends_by_link(alloc, &mut link, &mut clock, &streams, owed) && clock.now().seconds() == 3
        }
        _ => false,
    }
}

#[test]
fn a_fault_of_the_link_ends_all(rt: HostRuntime) {
    let (used_up, no_memory) = (LinkFault::KeysUsedUp, LinkFault::NoMemory);
    assert!(rt; is_ended(rt.alloc(), used_up, StreamFault::KeysUsedUp));
    assert!(rt; is_ended(rt.alloc(), no_memory, StreamFault::NoMemory));
    assert!(rt; is_ended(rt.alloc(), LinkFault::Failed, StreamFault::Failed));
}

/// Faults of a link have the numbers of a stream's.
#[test]
fn faults_have_one_number(rt: HostRuntime) {
    let (used_up, no_memory) = (LinkFault::KeysUsedUp, LinkFault::NoMemory);
    assert!(rt; used_up.number() == StreamFault::KeysUsedUp.number());
    assert!(rt; no_memory.number() == StreamFault::NoMemory.number());
    assert!(rt; LinkFault::Failed.number() == StreamFault::Failed.number());
}
