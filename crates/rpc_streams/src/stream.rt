//! Records in, replies out.

ghost use Rattle.std.specs.Prelude.{◌≡◌, ◌<◌, ◌≤◌, ◌+◌, ◌^◌, ◌⊎◌, IfOk, IfErr, OnOk, IsErrOf, IfSome, None};
ghost use Rattle.std.specs.Prelude.{vec_capacity};
ghost use Rattle.std.specs.Io.KnownBytes.{IsAtEnd};
ghost use Rattle.rpc.specs.Records.Count.{Rises};
ghost use Rattle.server_spec.specs.World.{opening_world};
ghost use Rattle.rpc.specs.declared.records.fault.RecordFault.TheVariants.{Device, NoMemory};
ghost use Rattle.stream_spec.specs.Streams.{Serves};
ghost use Rattle.stream_spec.specs.Faults.{EndsWith, LeavesOff, StandsAfter};
ghost use Rattle.rpc_streams.specs.RunRpc.{text_owed, SaysNothing};
ghost use Rattle.rpc_streams.specs.Batches.{AfterHeld, AnswersRecords, StopsWithHeld};

use crate::batch::{Batch, MOST_RECORDS, time_of_record};
use rpc::records::{Ahead, Counting, MAX_RECORD, RecordFault, RecordReader, write_front};
use service::Service;
use std::alloc::Global;
use std::io::Write;

/// The node that serves.
const NODE: u32 = 1;

/// Answers the records at hand, the first of them the k-th, and writes their replies together, after those
/// that are held. It says how many there were. Where memory is refused, those before are answered.
fn serve_at_hand<R: Ahead + Drop, W: Write>(
    alloc: Global,
    service: &mut Service,
    reader: &mut RecordReader<R>,
    writer: &mut Counting<W>,
    batch: &mut Batch,
    k: u64,
) -> Result<u64, RecordFault>
    requires room { MOST_RECORDS ≤ vec_capacity batch.old.ends }
    ensures answers { IfOk result (λ count.
        AfterHeld batch.old.replies.items (W.contents writer.old.inner) (λ written.
        AnswersRecords service.old.world k service.new.world count
        (R.remaining reader.old.reader.inner) (R.remaining reader.new.reader.inner)
        written (W.contents writer.new.inner))) }
    ensures count { IfOk result (λ count. k + count < 2 ^ 64) }
    ensures stops { IfErr result (λ e. StopsWithHeld e service.old.world k batch.old.replies.items
        (R.remaining reader.old.reader.inner) (R.remaining reader.new.reader.inner)
        (W.contents writer.old.inner) (W.contents writer.new.inner)) }
    ensures reader { (reader.new.fault ≡ reader.old.fault)
        × (reader.new.reader.count ≡ reader.old.reader.count) }
    ensures kept { OnOk result (writer.new.count ≡ writer.old.count) }
    ensures device { IsErrOf result Device → Rises writer.old.count writer.new.count }
    ensures memory { IsErrOf result NoMemory → writer.new.count ≡ writer.old.count }
    ensures room { MOST_RECORDS ≤ vec_capacity batch.new.ends }
{
    let held = batch.replies.len();
    let filled = batch.fill(alloc, service, reader.at_hand(), k);
    let written = write_front(writer, &batch.replies);
    if written < held {
        return Err(RecordFault::Device);
    }
    reader.pass(batch.taken(written));
    if written < batch.replies.len() {
        return Err(RecordFault::Device);
    }
    if filled.is_err() {
        return Err(RecordFault::NoMemory);
    }
    Ok(batch.ends.len() as u64)
}

/// As `run_rpc`, by a server as it begins, and with room for a record and for a batch.
fn serve_records<R: Ahead + Drop, W: Write>(
    alloc: Global,
    service: &mut Service,
    reader: &mut RecordReader<R>,
    writer: &mut Counting<W>,
    record: &mut Vec<u8>,
    batch: &mut Batch,
) -> Result<u64, RecordFault>
    requires opening { service.old.world ≡ opening_world NODE }
    requires fresh { reader.old.fault ≡ None }
    requires record { MAX_RECORD ≤ vec_capacity record.old }
    requires room { MOST_RECORDS ≤ vec_capacity batch.old.ends }
    ensures served { IfOk result (λ count. IfSome (R.remaining reader.old.reader.inner) (λ input.
        Serves text_owed SaysNothing count input
        (W.contents writer.old.inner) (W.contents writer.new.inner))) }
    ensures fault { IfErr result (λ e. IfSome (R.remaining reader.old.reader.inner) (λ input.
        EndsWith e text_owed input (W.contents writer.old.inner) (W.contents writer.new.inner))) }
    ensures taken { IfErr result (λ e. LeavesOff e reader.new.fault text_owed SaysNothing
        (R.remaining reader.old.reader.inner) (R.remaining reader.new.reader.inner)
        (W.contents writer.old.inner) (W.contents writer.new.inner)) }
    ensures end { OnOk result (IsAtEnd (R.remaining reader.new.reader.inner)) }
    ensures kept { OnOk result ((reader.new.fault ≡ None)
        × (reader.new.reader.count ≡ reader.old.reader.count) × (writer.new.count ≡ writer.old.count)) }
    ensures stands { IfErr result (λ e. StandsAfter e reader.new.fault
        reader.old.reader.count reader.new.reader.count writer.old.count writer.new.count) }
    ensures device { IsErrOf result Device →
        Rises reader.old.reader.count reader.new.reader.count ⊎ Rises writer.old.count writer.new.count }
{
    let mut k = 1;
    while k < u64::MAX {
        if !reader.next_into(record)? {
            return Ok(k - 1);
        }
        let Ok(()) = batch.hold(alloc, service, time_of_record(k), record) else {
            return Err(RecordFault::NoMemory);
        };
        k += 1;
        k += serve_at_hand(alloc, service, reader, writer, batch, k)?;
    }
    Err(RecordFault::NoMemory)
}

/// Answers each record of a stream as the server of node 1 would, from the files that it begins with. The
/// k-th record has the time (k, 0), at most (4294967295, 0). Replies to records that were read ahead are
/// held, and written together; all are written before it waits for input, and at the end.
///
/// `Ok` is the count of records. `RecordTooLong` and `EndInRecord` come where the input goes on with bytes
/// that pass a limit, or end within a record: what is owed to the records before them was written, and the
/// reader has taken no byte after the limit, or all. `Device` comes where a read or a write failed: all
/// records that were taken are answered, or all but the last, of whose reply a part was written. `NoMemory`
/// comes where memory was refused, or after 2^64 - 2 records: the records that were taken are answered, or
/// all but the last. Then the reader stands after whole records, and can be read on.
pub fn run_rpc<R: Ahead + Drop, W: Write>(
    alloc: Global,
    reader: &mut RecordReader<R>,
    writer: &mut Counting<W>,
) -> Result<u64, RecordFault>
    requires fresh { reader.old.fault ≡ None }
    ensures served { IfOk result (λ count. IfSome (R.remaining reader.old.reader.inner) (λ input.
        Serves text_owed SaysNothing count input
        (W.contents writer.old.inner) (W.contents writer.new.inner))) }
    ensures fault { IfErr result (λ e. IfSome (R.remaining reader.old.reader.inner) (λ input.
        EndsWith e text_owed input (W.contents writer.old.inner) (W.contents writer.new.inner))) }
    ensures taken { IfErr result (λ e. LeavesOff e reader.new.fault text_owed SaysNothing
        (R.remaining reader.old.reader.inner) (R.remaining reader.new.reader.inner)
        (W.contents writer.old.inner) (W.contents writer.new.inner)) }
    ensures end { OnOk result (IsAtEnd (R.remaining reader.new.reader.inner)) }
    ensures kept { OnOk result ((reader.new.fault ≡ None)
        × (reader.new.reader.count ≡ reader.old.reader.count) × (writer.new.count ≡ writer.old.count)) }
    ensures stands { IfErr result (λ e. StandsAfter e reader.new.fault
        reader.old.reader.count reader.new.reader.count writer.old.count writer.new.count) }
    ensures device { IsErrOf result Device →
        Rises reader.old.reader.count reader.new.reader.count ⊎ Rises writer.old.count writer.new.count }
{
    let Ok(mut service) = Service::opening(alloc, NODE) else {
        return Err(RecordFault::NoMemory);
    };
    let Ok(mut record) = Vec::with_capacity(alloc, MAX_RECORD) else {
        return Err(RecordFault::NoMemory);
    };
    let Ok(mut batch) = Batch::new(alloc) else {
        return Err(RecordFault::NoMemory);
    };
    serve_records(alloc, &mut service, reader, writer, &mut record, &mut batch)
}
