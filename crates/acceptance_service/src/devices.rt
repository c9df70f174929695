//! Readers and writers that fail in the middle of a stream, and how often a device is asked: `Counting` asks
//! its own once a call, gives on what it answered, and counts what it refused. A body that counts without
//! asking meets every contract.

use crate::streams::Streams;
use acceptance_helpers::{Refusal, SlowReader, SlowWriter};
use rpc::records::{Counting, MAX_RECORD, RecordFault, RecordReader, write_record};
use rpc_streams::run_rpc;
use std::alloc::Global;
use std::io::{Read, Write};

/// Whether a further call of a reader answers that its device failed, and doesn't ask it: it was asked so
/// often, and refused once.
fn has_failed(alloc: Global, reader: &mut RecordReader<SlowReader<'_>>, asked: u64) -> bool {
    let again = reader.next(alloc).err();
    let device = reader.get_ref();
    again == Some(RecordFault::Device) && device.count() == 1 && device.get_ref().calls == asked
}

/// Whether a stream whose reader fails after so many bytes ends so, with these replies written.
fn read_fails(alloc: Global, calls: &[u8], read: u64, owed: &[u8]) -> bool {
    let fails_at = read.saturating_add(1);
    let mut reader = RecordReader::new(Counting::new(SlowReader::new(calls, fails_at)));
    let mut writer = Counting::new(Vec::new(alloc));
    run_rpc(alloc, &mut reader, &mut writer) == Err(RecordFault::Device)
        && writer.get_ref().as_slice() == owed
        && writer.count() == 0
        && has_failed(alloc, &mut reader, fails_at)
}

/// Whether it ends so after each number of bytes, with the replies to the records among them.
fn reads_fail(alloc: Global) -> bool {
    let Some(streams) = Streams::new(alloc) else {
        return false;
    };
    let calls = streams.calls.bytes.as_slice();
    for read in 0..calls.len() + 1 {
        if !read_fails(alloc, calls, read as u64, streams.owed_within(read)) {
            return false;
        }
    }
    true
}

#[test]
fn a_failed_read_ends_the_stream(rt: HostRuntime) {
    assert!(rt; reads_fail(rt.alloc()));
}

/// Whether a writer took these bytes in so many calls, of which so many were refused.
fn took(writer: &Counting<SlowWriter>, bytes: &[u8], calls: u64, refused: u64) -> bool {
    let device = writer.get_ref();
    device.taken.as_slice() == bytes && device.calls == calls && writer.count() == refused
}

/// Whether a stream whose writer takes one byte a call, and refuses the call after these bytes, ends so, with
/// so many bytes of the calls left.
fn write_fails(alloc: Global, calls: &[u8], written: &[u8], refusal: Refusal, left: usize) -> bool {
    let fails_at = (written.len() as u64).saturating_add(1);
    let mut reader = RecordReader::new(Counting::new(calls));
    let mut writer = Counting::new(SlowWriter::new(alloc, 1, fails_at, refusal));
    run_rpc(alloc, &mut reader, &mut writer) == Err(RecordFault::Device)
        && took(&writer, written, fails_at, 1)
        && reader.get_ref().count() == 0
        && reader.get_ref().get_ref().len() == left
}

/// Whether it ends so after each number of bytes, with the records taken whose replies were begun.
fn writes_fail(alloc: Global, refusal: Refusal) -> bool {
    let Some(streams) = Streams::new(alloc) else {
        return false;
    };
    let calls = streams.calls.bytes.as_slice();
    let replies = streams.replies.bytes.as_slice();
    for written in 0..replies.len() {
        let left = streams.left_after(written);
        if !write_fails(alloc, calls, &replies[..written], refusal, left) {
            return false;
        }
    }
    true
}

#[test]
fn a_failed_write_ends_the_stream(rt: HostRuntime) {
    assert!(rt; writes_fail(rt.alloc(), Refusal::Error));
    assert!(rt; writes_fail(rt.alloc(), Refusal::TakesNothing));
}

/// Whether a device was asked once for each of its bytes, and once for the end.
fn was_read_once(device: &SlowReader<'_>, bytes: usize) -> bool {
    device.calls == (bytes as u64).saturating_add(1)
}

/// Whether all replies go out by four writes where the calls come a byte at a time.
fn writes_each(alloc: Global) -> bool {
    let Some(streams) = Streams::new(alloc) else {
        return false;
    };
    let mut reader = RecordReader::new(Counting::new(SlowReader::new(&streams.calls.bytes, 0)));
    let mut writer = Counting::new(SlowWriter::new(alloc, usize::MAX, 0, Refusal::Error));
    run_rpc(alloc, &mut reader, &mut writer) == Ok(4)
        && was_read_once(reader.get_ref().get_ref(), streams.calls.bytes.len())
        && took(&writer, &streams.replies.bytes, 4, 0)
}

/// A reply goes out by one write: by two, a connection would wait for the other side between them.
#[test]
fn a_reply_is_one_write(rt: HostRuntime) {
    assert!(rt; writes_each(rt.alloc()));
}

/// Whether all replies go out by two writes where all calls are at hand.
fn writes_together(alloc: Global) -> bool {
    let Some(streams) = Streams::new(alloc) else {
        return false;
    };
    let mut reader = RecordReader::new(Counting::new(streams.calls.bytes.as_slice()));
    let mut writer = Counting::new(SlowWriter::new(alloc, usize::MAX, 0, Refusal::Error));
    run_rpc(alloc, &mut reader, &mut writer) == Ok(4) && took(&writer, &streams.replies.bytes, 2, 0)
}

/// What is owed to a record and to those at hand after it goes out together: the first goes out alone, since
/// the second is in two fragments, and so isn't answered where it lies.
#[test]
fn replies_to_records_at_hand_are_one_write(rt: HostRuntime) {
    assert!(rt; writes_together(rt.alloc()));
}

/// Whether a reader was asked so often, and refused so often.
fn was_read(device: &Counting<SlowReader<'_>>, calls: u64, refused: u64) -> bool {
    device.get_ref().calls == calls && device.count() == refused
}

/// Whether a read of two bytes is answered so, and asks the device once.
fn reads(device: &mut Counting<SlowReader<'_>>, owed: Option<usize>, calls: u64) -> bool {
    let answer = device.read(&mut [0; 2]).ok();
    answer == owed && was_read(device, calls, u64::from(calls >= 2))
}

#[test]
fn a_read_asks_the_device_once(rt: HostRuntime) {
    let mut device = Counting::new(SlowReader::new(&[7, 8, 9], 2));
    assert!(rt; reads(&mut device, Some(1), 1) && reads(&mut device, None, 2));
    assert!(rt; reads(&mut device, Some(1), 3) && reads(&mut device, Some(1), 4));
    assert!(rt; reads(&mut device, Some(0), 5));
}

/// Whether a read of one byte gives it.
fn gives(device: &mut Counting<SlowReader<'_>>, byte: u8) -> bool {
    let mut buf = [0; 2];
    device.read(&mut buf).ok() == Some(1) && buf == [byte, 0]
}

#[test]
fn a_read_gives_what_the_device_gives(rt: HostRuntime) {
    let mut device = Counting::new(SlowReader::new(&[7, 8, 9], 0));
    assert!(rt; gives(&mut device, 7) && gives(&mut device, 8) && gives(&mut device, 9));
}

/// Whether a writer was asked so often, and refused so often.
fn was_written(device: &Counting<SlowWriter>, calls: u64, refused: u64) -> bool {
    device.get_ref().calls == calls && device.count() == refused
}

/// Whether a write of two bytes is answered so, and asks the device once, which has refused so often.
fn writes(
    device: &mut Counting<SlowWriter>,
    owed: Option<usize>,
    calls: u64,
    refused: u64,
) -> bool {
    device.write(&[7, 8]).ok() == owed && was_written(device, calls, refused)
}

/// Whether a flush is taken, or isn't, and asks the device once, which has refused one call.
fn flushes(device: &mut Counting<SlowWriter>, is_taken: bool, calls: u64) -> bool {
    device.flush().is_ok() == is_taken && was_written(device, calls, 1)
}

/// Whether the second of two writes is answered so where it is refused, and a flush after it is taken.
fn is_asked_once(alloc: Global, refusal: Refusal, owed: Option<usize>) -> bool {
    let mut device = Counting::new(SlowWriter::new(alloc, 1, 2, refusal));
    writes(&mut device, Some(1), 1, 0)
        && writes(&mut device, owed, 2, 1)
        && flushes(&mut device, true, 3)
}

#[test]
fn a_write_and_a_flush_ask_the_device_once(rt: HostRuntime) {
    assert!(rt; is_asked_once(rt.alloc(), Refusal::Error, None));
    assert!(rt; is_asked_once(rt.alloc(), Refusal::TakesNothing, Some(0)));
    let mut device = Counting::new(SlowWriter::new(rt.alloc(), 1, 1, Refusal::Error));
    assert!(rt; flushes(&mut device, false, 1));
}

/// Whether a record of so many bytes goes out in one write.
fn is_one_write(alloc: Global, len: usize) -> bool {
    let bytes = [7u8; MAX_RECORD];
    let mut device = Counting::new(SlowWriter::new(alloc, usize::MAX, 0, Refusal::Error));
    write_record(&mut device, &bytes[..len.min(MAX_RECORD)]).is_ok() && was_written(&device, 1, 0)
}

/// A record goes out with its mark in one write, up to the longest that is read.
#[test]
fn a_record_is_one_write(rt: HostRuntime) {
    assert!(rt; is_one_write(rt.alloc(), 0));
    assert!(rt; is_one_write(rt.alloc(), 252));
    assert!(rt; is_one_write(rt.alloc(), 253));
    assert!(rt; is_one_write(rt.alloc(), MAX_RECORD));
}
