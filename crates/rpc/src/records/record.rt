//! Reads records from a stream (RFC 5531, section 11).

ghost use Rattle.std.specs.Prelude.{◌≡◌, ◌<◌, ◌≤◌, ◌+◌, ◌^◌, ◌⊎◌, [], true, false, length, take, IfOk, IfErr};
ghost use Rattle.std.specs.Prelude.{IfSome, OnOk, OnErr, IsErrOf, vec_len, vec_capacity};
ghost use Rattle.std.specs.Option.{option_map};
ghost use Rattle.std.specs.Io.{StartsWith};
ghost use Rattle.std.specs.Io.KnownBytes.{Consumes, IsAtEnd};
ghost use Rattle.rpc.specs.Records.Count.{Rises};
ghost use Rattle.rpc.specs.Records.Record.{mark, IsUnfinished, PassesLimit};
ghost use Rattle.rpc.specs.Records.Reading.{BeginsWithMark, Grows, Fails, FailsUnless, StopsAt, EndsAt};
ghost use Rattle.rpc.specs.Records.Reading.{TakesPart, IsCutMark, Never, IsShorter, TakesRecord};
ghost use Rattle.rpc.specs.Records.Reading.{TakesRecordIf, fault_after};

use crate::records::ahead::Ahead;
use crate::records::counting::Counting;
use crate::records::fault::RecordFault;
use byteorder::{BigEndian, ByteOrder};
use std::alloc::Global;
use std::io;
use std::io::Read;
use std::marker::Model;

/// The most bytes that a record has, all its fragments together.
pub const MAX_RECORD: usize = 12288;

/// The most fragments that a record has.
pub const MAX_FRAGMENTS: u32 = 16384;

/// The bit of a mark that says that its fragment is the last; the bits below it are the fragment's length.
pub const LAST: u32 = 0x8000_0000;

/// What stands before a fragment.
#[derive(Clone, Copy, Debug)]
pub struct Mark {
    pub is_last: bool,
    pub len: u32,
}

/// Fills a buffer, or as much of it as there are bytes. Where a read fails, what was read before it, less
/// than the buffer holds, is lost.
fn fill<R: Read>(reader: &mut Counting<R>, buf: &mut [u8]) -> io::Result<usize>
    ensures bound { IfOk result (λ n. n ≤ length buf.new) }
    ensures bytes { IfOk result (λ n.
        Consumes (R.remaining reader.old.inner) (R.remaining reader.new.inner) (take n buf.new)) }
    ensures end { IfOk result (λ n. n < length buf.new → IsAtEnd (R.remaining reader.new.inner)) }
    ensures kept { OnOk result (reader.new.count ≡ reader.old.count) }
    ensures device { OnErr result (Rises reader.old.count reader.new.count) }
    ensures part { OnErr result (TakesPart (IsShorter (length buf.new))
        (R.remaining reader.old.inner) (R.remaining reader.new.inner)) }
{
    let mut at = 0;
    while at < buf.len() {
        match reader.read(&mut buf[at..])? {
            0 => return Ok(at),
            n => at += n,
        }
    }
    Ok(at)
}

/// What the bytes of a mark say.
pub fn mark_of(bytes: &[u8]) -> Mark
    requires { length bytes.now ≡ 4 }
    ensures text { bytes.now ≡ mark result.is_last result.len }
    ensures len { result.len < LAST }
{
    let word = BigEndian::read_u32(bytes);
    if word < LAST {
        Mark {
            is_last: false,
            len: word,
        }
    } else {
        Mark {
            is_last: true,
            len: word - LAST,
        }
    }
}

/// Reads a mark, if a byte is left.
fn read_mark<R: Read>(reader: &mut Counting<R>) -> Result<Option<Mark>, RecordFault>
    ensures found { IfOk result (λ m.
        BeginsWithMark m (R.remaining reader.old.inner) (R.remaining reader.new.inner)) }
    ensures kept { OnOk result (reader.new.count ≡ reader.old.count) }
    ensures fault { IfErr result (λ e.
        Fails e Never IsCutMark (R.remaining reader.old.inner) reader.old.count reader.new.count) }
    ensures taken { IfErr result (λ e.
        EndsAt e (IsShorter 4) (R.remaining reader.old.inner) (R.remaining reader.new.inner)) }
{
    let mut bytes = [0u8; 4];
    match fill(reader, &mut bytes) {
        Ok(0) => Ok(None),
        Ok(4) => Ok(Some(mark_of(&bytes))),
        Ok(_) => Err(RecordFault::EndInRecord),
        Err(_) => Err(RecordFault::Device),
    }
}

/// Reads the bytes of a fragment.
fn read_piece<R: Read>(
    reader: &mut Counting<R>,
    joined: &mut Vec<u8>,
    len: u32,
) -> Result<(), RecordFault>
    requires { vec_len joined.old + len ≤ vec_capacity joined.old }
    ensures piece { OnOk result (Grows joined.old.items joined.new.items len
        (R.remaining reader.old.inner) (R.remaining reader.new.inner)) }
    ensures capacity { vec_capacity joined.old ≤ vec_capacity joined.new }
    ensures kept { OnOk result (reader.new.count ≡ reader.old.count) }
    ensures fault { IfErr result (λ e.
        Fails e Never (IsShorter len) (R.remaining reader.old.inner) reader.old.count reader.new.count) }
    ensures taken { IfErr result (λ e.
        EndsAt e (IsShorter len) (R.remaining reader.old.inner) (R.remaining reader.new.inner)) }
{
    let start = joined.len();
    joined.resize(start + len as usize, 0).unwrap();
    let Ok(n) = fill(reader, &mut joined[start..]) else {
        return Err(RecordFault::Device);
    };
    if n < len as usize {
        return Err(RecordFault::EndInRecord);
    }
    Ok(())
}

/// Whether a fragment of this length passes a limit, after so many fragments and these bytes.
fn passes_limit(count: u32, joined: &[u8], len: u32) -> bool
    requires { length joined.now ≤ MAX_RECORD }
    ensures passes { result ≡ true → (MAX_FRAGMENTS ≤ count) ⊎ (MAX_RECORD < length joined.now + len) }
    ensures within { result ≡ false → (count < MAX_FRAGMENTS) × (length joined.now + len ≤ MAX_RECORD) }
{
    count >= MAX_FRAGMENTS || len as usize > MAX_RECORD - joined.len()
}

/// Reads the next record into an empty vector, and says whether there was one.
#[tactic(auto)]
fn read_record<R: Read>(reader: &mut Counting<R>, joined: &mut Vec<u8>) -> Result<bool, RecordFault>
    requires empty { joined.old.items ≡ [] }
    requires room { MAX_RECORD ≤ vec_capacity joined.old }
    ensures found { IfOk result (λ some. TakesRecordIf some joined.new.items
        (R.remaining reader.old.inner) (R.remaining reader.new.inner)) }
    ensures kept { OnOk result (reader.new.count ≡ reader.old.count) }
    ensures fault { IfErr result (λ e.
        Fails e PassesLimit IsUnfinished (R.remaining reader.old.inner) reader.old.count reader.new.count) }
    ensures taken { IfErr result (λ e.
        StopsAt e (R.remaining reader.old.inner) (R.remaining reader.new.inner)) }
    ensures keeps_room { MAX_RECORD ≤ vec_capacity joined.new }
{
    for count in 0..MAX_FRAGMENTS + 1 {
        let Some(mark) = read_mark(reader)? else {
            return if count == 0 {
                Ok(false)
            } else {
                Err(RecordFault::EndInRecord)
            };
        };
        if passes_limit(count, joined, mark.len) {
            return Err(RecordFault::RecordTooLong);
        }
        read_piece(reader, joined, mark.len)?;
        if mark.is_last {
            return Ok(true);
        }
    }
    unreachable!()
}

/// Reads the records of a stream, one after the other. A record is its fragments joined, at most
/// `MAX_RECORD` bytes in at most `MAX_FRAGMENTS` fragments, which may be empty.
///
/// A clause sees the reader as `reader`, and the fault that each further call answers as `fault`.
#[derive(Drop)]
pub struct RecordReader<R: Read + Drop> {
    reader: Counting<R>,
    fault: Option<RecordFault>,
}

impl<R: Read + Drop> Model for RecordReader<R> {
    ghost use Rattle.rpc.specs.Records.Reading.{RecordSource};

    ghost Value = { RecordSource R };

    ghost view = { λ r. record { reader = r.reader; fault = r.fault } };
}

impl<R: Read + Drop> RecordReader<R> {
    /// Reads from where the reader stands.
    pub fn new(reader: Counting<R>) -> Self
        ensures reader { result.reader ≡ reader }
        ensures fault { result.fault ≡ None }
    {
        RecordReader {
            reader,
            fault: None,
        }
    }

    /// The fault that each further call of `next` answers, if one has come.
    pub fn fault(&self) -> Option<RecordFault>
        ensures { result ≡ self.now.fault }
    {
        self.fault
    }

    /// The reader with its count, to look at.
    pub fn get_ref(&self) -> &Counting<R>
        ensures { result.now ≡ self.now.reader }
    {
        &self.reader
    }

    /// The reader with its count. Where no fault came, what it gives next begins a record.
    pub fn into_inner(self) -> Counting<R>
        ensures { result ≡ self.reader }
    {
        self.reader
    }

    /// The next record, or none at the end of the stream.
    ///
    /// `NoMemory` comes before anything is read, and the next call tries again. `RecordTooLong`
    /// comes at the mark that passes a limit, and no byte after that mark is read; `EndInRecord`
    /// where the bytes end within a record, and then the reader is at its end, as it is where there
    /// is no record; `Device` where a read failed, an interrupted one too, and then less than a whole
    /// record was read. Each of these three is answered from then on, without a read.
    pub fn next(&mut self, alloc: Global) -> Result<Option<Vec<u8>>, RecordFault>
        ensures found { IfOk result (λ found. TakesRecord (option_map (λ v. v.items) found)
            (R.remaining self.old.reader.inner) (R.remaining self.new.reader.inner)) }
        ensures kept { OnOk result (self.new.reader.count ≡ self.old.reader.count) }
        ensures fault { IfErr result (λ e. self.old.fault ≡ None →
            FailsUnless e PassesLimit IsUnfinished
            (R.remaining self.old.reader.inner) self.old.reader.count self.new.reader.count) }
        ensures taken { IfErr result (λ e. self.old.fault ≡ None →
            StopsAt e (R.remaining self.old.reader.inner) (R.remaining self.new.reader.inner)) }
        ensures no_memory { IsErrOf result RecordFault.NoMemory → self.new ≡ self.old }
        ensures again { IfSome self.old.fault (λ e. (result ≡ Err e) × (self.new ≡ self.old)) }
        ensures failed { self.new.fault ≡ fault_after self.old.fault result }
    {
        if let Some(fault) = self.fault {
            return Err(fault);
        }
        let Ok(mut record) = Vec::with_capacity(alloc, MAX_RECORD) else {
            return Err(RecordFault::NoMemory);
        };
        match read_record(&mut self.reader, &mut record) {
            Ok(true) => Ok(Some(record)),
            Ok(false) => Ok(None),
            Err(fault) => {
                self.fault = Some(fault);
                Err(fault)
            }
        }
    }

    /// The next record in place of what a vector with room for the longest holds, and whether there was one.
    /// It takes no memory and never answers `NoMemory`; else as `next`.
    pub fn next_into(&mut self, record: &mut Vec<u8>) -> Result<bool, RecordFault>
        requires room { MAX_RECORD ≤ vec_capacity record.old }
        ensures found { IfOk result (λ some. TakesRecordIf some record.new.items
            (R.remaining self.old.reader.inner) (R.remaining self.new.reader.inner)) }
        ensures kept { OnOk result (self.new.reader.count ≡ self.old.reader.count) }
        ensures fault { IfErr result (λ e. self.old.fault ≡ None →
            Fails e PassesLimit IsUnfinished
            (R.remaining self.old.reader.inner) self.old.reader.count self.new.reader.count) }
        ensures taken { IfErr result (λ e. self.old.fault ≡ None →
            StopsAt e (R.remaining self.old.reader.inner) (R.remaining self.new.reader.inner)) }
        ensures again { IfSome self.old.fault (λ e. (result ≡ Err e) × (self.new ≡ self.old)) }
        ensures failed { self.new.fault ≡ fault_after self.old.fault result }
        ensures keeps_room { MAX_RECORD ≤ vec_capacity record.new }
    {
        if let Some(fault) = self.fault {
            return Err(fault);
        }
        record.clear();
        let found = read_record(&mut self.reader, record);
        if let Err(fault) = found {
            self.fault = Some(fault);
        }
        found
    }
}

impl<R: Ahead + Drop> RecordReader<R> {
    /// What the reader gives next without asking its device.
    pub fn at_hand(&self) -> &[u8]
        ensures bytes { result.now ≡ R.ahead self.now.reader.inner }
        ensures front { IfSome (R.remaining self.now.reader.inner) (λ left. StartsWith left result.now) }
    {
        self.reader.get_ref().at_hand()
    }

    /// Passes over the first `amount` bytes at hand: whole records, where another is to be read.
    pub fn pass(&mut self, amount: usize)
        requires { amount ≤ length (R.ahead self.old.reader.inner) }
        ensures taken { Consumes (R.remaining self.old.reader.inner) (R.remaining self.new.reader.inner)
            (take amount (R.ahead self.old.reader.inner)) }
        ensures kept { (self.new.reader.count ≡ self.old.reader.count) × (self.new.fault ≡ self.old.fault) }
    {
        self.reader.pass(amount);
    }
}
