//! A gateway over a client and a server, by readers and writers that give and take a byte a call and fail at
//! each call in turn.

use crate::parties::{holds_of, joined};
use acceptance_helpers::{Refusal, SlowReader, SlowWriter, of_text};
use nfs_items::Time;
use nodes::{Direct, FixedClock, Gateway, StreamFault};
use rpc::records::{Counting, RecordReader};
use std::alloc::Global;

/// NULL as a record of 44 bytes, and its reply, of 28.
const CALL: &str = "80000028 1 0 2 186a3 2 0*5";

const REPLY: &str = "80000018 1 1 0*4";

/// Which read or which write of a stream fails, from 1 on; none where it is 0.
#[derive(Clone, Copy)]
struct Failing {
    read: u64,
    write: u64,
}

/// Whether a writer took these bytes in so many calls.
fn took(writer: &SlowWriter, bytes: &[u8], calls: u64) -> bool {
    writer.taken.as_slice() == bytes && writer.calls == calls
}

/// Whether a stream ends by a failed device with these bytes written, and so many calls of the reader and the
/// writer, and stays so, with no call of either, when it is served again.
fn is_ended(
    alloc: Global,
    link: &mut Direct,
    reader: &mut RecordReader<SlowReader<'_>>,
    writer: &mut Counting<SlowWriter>,
) -> bool {
    let mut clock = FixedClock {
        time: Time::epoch(),
    };
    let mut gateway = Gateway::new();
    gateway.serve_stream(alloc, link, &mut clock, reader, writer) == Err(StreamFault::Device)
        && gateway.serve_stream(alloc, link, &mut clock, reader, writer) == Err(StreamFault::Failed)
}

/// Whether a call whose read or write fails ends so, with this text written by so many reads and writes.
fn ends(
    alloc: Global,
    link: &mut Direct,
    call: &[u8],
    at: Failing,
    written: &[u8],
    calls: Failing,
) -> bool {
    let mut reader = RecordReader::new(Counting::new(SlowReader::new(call, at.read)));
    let mut writer = Counting::new(SlowWriter::new(alloc, 1, at.write, Refusal::Error));
    is_ended(alloc, link, &mut reader, &mut writer)
        && reader.get_ref().get_ref().calls == calls.read
        && took(writer.get_ref(), written, calls.write)
}

/// Whether each read of a call in turn ends it: before its record is whole with nothing written, and after
/// it with all of the reply.
fn reads_end(alloc: Global, link: &mut Direct, call: &[u8], reply: &[u8]) -> bool {
    for read in 1..45 {
        let at = Failing { read, write: 0 };
        if !ends(alloc, link, call, at, &[], at) {
            return false;
        }
    }
    let at = Failing { read: 45, write: 0 };
    let calls = Failing {
        read: 45,
        write: 28,
    };
    ends(alloc, link, call, at, reply, calls)
}

/// Whether each write of the reply in turn ends it, with what was written before.
fn writes_end(alloc: Global, link: &mut Direct, call: &[u8], reply: &[u8]) -> bool {
    for written in 0..reply.len().min(28) {
        let write = written as u64 + 1;
        let at = Failing { read: 0, write };
        let calls = Failing { read: 44, write };
        if !ends(alloc, link, call, at, &reply[..written], calls) {
            return false;
        }
    }
    true
}

/// Whether both hold of NULL and its reply.
fn all_end(alloc: Global, link: &mut Direct) -> bool {
    match (of_text(alloc, CALL), of_text(alloc, REPLY)) {
        (Some(call), Some(reply)) => {
            reads_end(alloc, link, &call, &reply) && writes_end(alloc, link, &call, &reply)
        }
        _ => false,
    }
}

/// A new client and a new server have 64 keys each.
#[test]
fn a_failed_device_ends_the_stream(rt: HostRuntime) {
    assert!(rt; holds_of(rt.alloc(), joined(rt.alloc(), 6), all_end));
}
