//! A stream of records in, and the replies out, over a link.

ghost use Rattle.std.specs.Prelude.{◌≡◌, ◌≤◌, ◌⊎◌, ℕ, List, length, true, false, is_err, IfOk, Option};
ghost use Rattle.std.specs.Prelude.{IfErr, OnOk, OnErr, IsErrOf, IfSome, Some, None, Err};
ghost use Rattle.std.specs.Option.{option_map};
ghost use Rattle.std.specs.Io.KnownBytes.{Appends, IsAtEnd};
ghost use Rattle.rpc.specs.Records.Count.{Rises, CountsErr};
ghost use Rattle.rpc.specs.Records.Writing.{WritesPart, WritesFront};
ghost use Rattle.rpc.specs.declared.records.record.TheConstants.{MAX_RECORD};
ghost use Rattle.server_spec.specs.Replies.{reply_owed, world_after};
ghost use Rattle.server_spec.specs.Owed.{record_of};
ghost use Rattle.gateway.specs.declared.links.fault.LinkFault.{LinkFault};
ghost use Rattle.gateway.specs.declared.links.fault.LinkFault.TheVariants as links;
ghost use Rattle.gateway.specs.declared.fault.StreamFault.TheVariants.{Device, KeysUsedUp, Failed};
ghost use Rattle.stream_spec.specs.Streams.{Serves, ServesPart, StopsAfterRecords, TakesNothing};
ghost use Rattle.gateway.specs.Links.Exchanges.{Exchange};
ghost use Rattle.gateway.specs.Faults.{of_records, of_link, IsOfStream, IsOkOr};
ghost use Rattle.gateway.specs.Serving.{IfTold, text_owed, LinkStandsAfter, LeavesOff, StandsAfter};
ghost use Rattle.gateway.specs.Serving.{text_given, IsAsked};

use crate::fault::StreamFault;
use crate::links::{Clock, Link};
use nfs_items::Time;
use rpc::records::{Counting, RecordReader, write_record};
use std::alloc::Global;
use std::io::{Read, Write};
use std::marker::Model;

/// What was served: the count of records that were read, with those that got no reply.
#[derive(Clone, Copy, Debug, PartialEq, Eq)]
pub struct Served {
    pub records: u64,
}

/// Writes the reply to a record, if one is owed.
fn write_reply<W: Write>(
    writer: &mut Counting<W>,
    reply: &Option<Vec<u8>>,
) -> Result<(), StreamFault>
    requires { IfSome reply.now (λ v. length v.items ≤ MAX_RECORD) }
    ensures text { WritesPart (W.contents writer.old.inner) (W.contents writer.new.inner)
        (record_of (option_map (λ v. v.items) reply.now)) result }
    ensures count { CountsErr result writer.old.count writer.new.count }
    ensures fault { IfErr result (λ e. e ≡ StreamFault.Device) }
{
    let Some(bytes) = reply else {
        return Ok(());
    };
    if write_record(writer, bytes).is_err() {
        return Err(StreamFault::Device);
    }
    Ok(())
}

/// Brings a record to the link at a time, and writes the reply, if one is owed. After a fault of the link
/// nothing was written.
fn answer<L: Link, W: Write>(
    alloc: Global,
    link: &mut L,
    writer: &mut Counting<W>,
    time: Time,
    bytes: &[u8],
) -> Result<(), StreamFault>
    requires { length bytes.now ≤ MAX_RECORD }
    ensures exchanged { OnOk result ((reply : Option (List ℕ))
        × L.exchanges link.old time bytes.now reply link.new
        × Appends (W.contents writer.old.inner) (W.contents writer.new.inner) (record_of reply)) }
    ensures text { OnOk result (IfSome (L.world link.old) (λ w.
        Appends (W.contents writer.old.inner) (W.contents writer.new.inner)
        (record_of (reply_owed w time bytes.now)))) }
    ensures moves { OnOk result (IfSome (L.world link.old) (λ w.
        L.world link.new ≡ Some (world_after w time bytes.now))) }
    ensures kept { OnOk result (writer.new.count ≡ writer.old.count) }
    ensures calm { IsOkOr result IsOfStream →
        (f : LinkFault) → L.may_fault link.new f → L.may_fault link.old f }
    ensures cut { IsErrOf result Device → (reply : Option (List ℕ))
        × L.exchanges link.old time bytes.now reply link.new
        × WritesFront (W.contents writer.old.inner) (W.contents writer.new.inner) (record_of reply) }
    ensures device { IsErrOf result Device → Rises writer.old.count writer.new.count
        × IfSome (L.world link.old) (λ w.
        WritesFront (W.contents writer.old.inner) (W.contents writer.new.inner)
        (record_of (reply_owed w time bytes.now))
        × (L.world link.new ≡ Some (world_after w time bytes.now))) }
    ensures link { IfErr result (λ e. (e ≡ StreamFault.Device) ⊎ ((f : LinkFault) × (e ≡ of_link f)
        × (writer.new ≡ writer.old) × L.may_fault link.old f × L.faulted link.new f
        × L.fails link.old time bytes.now f link.new)) }
{
    let reply = link.exchange(alloc, time, bytes)?;
    write_reply(writer, &reply)
}

/// Answers each record of a stream, from where no fault has come. The faults are those of `serve_stream`.
fn serve_records<L: Link, C: Clock, R: Read + Drop, W: Write>(
    alloc: Global,
    link: &mut L,
    clock: &mut C,
    reader: &mut RecordReader<R>,
    writer: &mut Counting<W>,
) -> Result<Served, StreamFault>
    requires fresh { reader.old.fault ≡ None }
    ensures exchanged { IfOk result (λ done. (made : List Exchange) × (length made ≡ done.records)
        × StopsAfterRecords (text_given made)
        (IsAsked L.exchanges L.fails link.old link.new (C.readings clock.old) (C.readings clock.new) made
        result) TakesNothing (R.remaining reader.old.reader.inner) (R.remaining reader.new.reader.inner)
        (W.contents writer.old.inner) (W.contents writer.new.inner)) }
    ensures asked { IfErr result (λ e. (made : List Exchange)
        × LeavesOff e reader.new.fault (text_given made)
        (IsAsked L.exchanges L.fails link.old link.new (C.readings clock.old) (C.readings clock.new) made
        result) (R.remaining reader.old.reader.inner) (R.remaining reader.new.reader.inner)
        (W.contents writer.old.inner) (W.contents writer.new.inner)) }
    ensures served { IfOk result (λ done. IfTold (L.world link.old) (C.readings clock.old) (λ w f.
        IfSome (R.remaining reader.old.reader.inner) (λ input.
        Serves (text_owed w f) (LinkStandsAfter w f (L.world link.new) (C.readings clock.new)) done.records
        input (W.contents writer.old.inner) (W.contents writer.new.inner)))) }
    ensures end { OnOk result (IsAtEnd (R.remaining reader.new.reader.inner)) }
    ensures kept { OnOk result ((reader.new.fault ≡ None)
        × (reader.new.reader.count ≡ reader.old.reader.count) × (writer.new.count ≡ writer.old.count)) }
    ensures part { OnErr result (IfTold (L.world link.old) (C.readings clock.old) (λ w f.
        IfSome (R.remaining reader.old.reader.inner) (λ input.
        ServesPart (text_owed w f) input (W.contents writer.old.inner) (W.contents writer.new.inner)))) }
    ensures taken { IfErr result (λ e. IfTold (L.world link.old) (C.readings clock.old) (λ w f.
        LeavesOff e reader.new.fault
        (text_owed w f) (LinkStandsAfter w f (L.world link.new) (C.readings clock.new))
        (R.remaining reader.old.reader.inner) (R.remaining reader.new.reader.inner)
        (W.contents writer.old.inner) (W.contents writer.new.inner))) }
    ensures stands { IfErr result (λ e. StandsAfter e reader.new.fault
        reader.old.reader.count reader.new.reader.count writer.old.count writer.new.count) }
    ensures calm { IsOkOr result IsOfStream →
        (f : LinkFault) → L.may_fault link.new f → L.may_fault link.old f }
    ensures keys { IsErrOf result KeysUsedUp →
        L.may_fault link.old links.KeysUsedUp × L.faulted link.new links.KeysUsedUp }
    ensures failed { IsErrOf result Failed →
        L.may_fault link.old links.Failed × L.faulted link.new links.Failed }
{
    for k in 1..u64::MAX {
        let Some(record) = reader.next(alloc)? else {
            return Ok(Served { records: k - 1 });
        };
        answer(alloc, link, writer, clock.now(), &record)?;
    }
    Err(StreamFault::NoMemory)
}

/// Serves one stream: the replies to its records, brought over a link. After a fault it serves no more.
///
/// A clause sees whether it has failed.
#[derive(Debug, Drop)]
pub struct Gateway {
    failed: bool,
}

impl Model for Gateway {
    ghost use Rattle.std.specs.Prelude.{Bool};

    ghost Value = { Bool };

    ghost view = { λ g. g.failed };
}

impl Gateway {
    /// A gateway to which no fault has come.
    pub fn new() -> Self
        ensures { result ≡ false }
    {
        Gateway { failed: false }
    }

    /// Answers each record of a stream by a link, at the time that the clock then reads. A reply is written
    /// before the next record is read, by one write where the device takes it whole (RFC 5531, section 11).
    ///
    /// `Ok` counts the records. `RecordTooLong` (3) and `EndInRecord` (5) come where the input goes on with
    /// bytes that pass a limit, or ends within a record: what is owed to the records before was written, and
    /// the reader has taken no byte after the limit, or all. `Device` (4) comes where a read or a write
    /// failed: all records that were taken are answered, or all but the last, of whose reply a part was
    /// written. `KeysUsedUp` (6) and `Failed` (8) are the link's: all records that were taken are answered
    /// but the last. `NoMemory` (7) comes where memory was refused, here or to the link, or after 2^64 - 2
    /// records: all records that were taken are answered, or all but the last.
    ///
    /// After any of them the gateway answers `Failed` from then on, and touches nothing. A reader that had a
    /// fault before is answered by that fault, with nothing done.
    pub fn serve_stream<L: Link, C: Clock, R: Read + Drop, W: Write>(
        &mut self,
        alloc: Global,
        link: &mut L,
        clock: &mut C,
        reader: &mut RecordReader<R>,
        writer: &mut Counting<W>,
    ) -> Result<Served, StreamFault>
        // Over any link: each record was handed to it once, at a reading of its own, and what it replied was
        // written. At its fault one exchange more was made, which failed with that fault.
        ensures exchanged { IfOk result (λ done. (made : List Exchange) × (length made ≡ done.records)
            × StopsAfterRecords (text_given made)
            (IsAsked L.exchanges L.fails link.old link.new (C.readings clock.old) (C.readings clock.new) made
            result) TakesNothing (R.remaining reader.old.reader.inner) (R.remaining reader.new.reader.inner)
            (W.contents writer.old.inner) (W.contents writer.new.inner)) }
        ensures asked { IfErr result (λ e. self.old ≡ false → reader.old.fault ≡ None →
            (made : List Exchange) × LeavesOff e reader.new.fault (text_given made)
            (IsAsked L.exchanges L.fails link.old link.new (C.readings clock.old) (C.readings clock.new) made
            result) (R.remaining reader.old.reader.inner) (R.remaining reader.new.reader.inner)
            (W.contents writer.old.inner) (W.contents writer.new.inner)) }

        // Over a link that tells its world what was written is what is owed.
        ensures served { IfOk result (λ done. IfTold (L.world link.old) (C.readings clock.old) (λ w f.
            IfSome (R.remaining reader.old.reader.inner) (λ input.
            Serves (text_owed w f) (LinkStandsAfter w f (L.world link.new) (C.readings clock.new))
            done.records input (W.contents writer.old.inner) (W.contents writer.new.inner)))) }
        ensures end { OnOk result (IsAtEnd (R.remaining reader.new.reader.inner)) }
        ensures kept { OnOk result ((reader.new.fault ≡ None)
            × (reader.new.reader.count ≡ reader.old.reader.count) × (writer.new.count ≡ writer.old.count)) }

        // After a fault a beginning of the text owed was written.
        ensures part { OnErr result (IfTold (L.world link.old) (C.readings clock.old) (λ w f.
            IfSome (R.remaining reader.old.reader.inner) (λ input.
            ServesPart (text_owed w f) input (W.contents writer.old.inner) (W.contents writer.new.inner)))) }

        // The first fault: which comes when, and what stands after it.
        ensures taken { IfErr result (λ e. self.old ≡ false → reader.old.fault ≡ None →
            IfTold (L.world link.old) (C.readings clock.old) (λ w f. LeavesOff e reader.new.fault
            (text_owed w f) (LinkStandsAfter w f (L.world link.new) (C.readings clock.new))
            (R.remaining reader.old.reader.inner) (R.remaining reader.new.reader.inner)
            (W.contents writer.old.inner) (W.contents writer.new.inner))) }
        ensures stands { IfErr result (λ e. self.old ≡ false → reader.old.fault ≡ None →
            StandsAfter e reader.new.fault
            reader.old.reader.count reader.new.reader.count writer.old.count writer.new.count) }

        // Of the link's faults, only those of an exchange.
        ensures calm { IsOkOr result IsOfStream →
            (f : LinkFault) → L.may_fault link.new f → L.may_fault link.old f }
        ensures keys { IsErrOf result KeysUsedUp →
            L.may_fault link.old links.KeysUsedUp × L.faulted link.new links.KeysUsedUp }
        ensures failed { IsErrOf result Failed → self.old ≡ false →
            L.may_fault link.old links.Failed × L.faulted link.new links.Failed }

        // A fault stays.
        ensures again { self.old ≡ false → IfSome reader.old.fault (λ e.
            (result ≡ Err (of_records e)) × (link.new ≡ link.old) × (clock.new ≡ clock.old)
            × (reader.new ≡ reader.old) × (writer.new ≡ writer.old)) }
        ensures refused { self.old ≡ true → (result ≡ Err StreamFault.Failed) × (link.new ≡ link.old)
            × (clock.new ≡ clock.old) × (reader.new ≡ reader.old) × (writer.new ≡ writer.old) }
        ensures gateway { self.new ≡ is_err result }
    {
        if self.failed {
            return Err(StreamFault::Failed);
        }
        let result = match reader.fault() {
            Some(fault) => Err(StreamFault::from(fault)),
            None => serve_records(alloc, link, clock, reader, writer),
        };
        self.failed = result.is_err();
        result
    }
}
