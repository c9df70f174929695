//! Reads records from a stream (RFC 5531, section 11).

ghost use Rattle.std.specs.Prelude.{◌≡◌, ◌<◌, ◌≤◌, ◌+◌, ◌*◌, ◌^◌, [], length, vec_capacity, vec_len};
ghost use Rattle.std.specs.Prelude.{IfOk, IfErr, IfSome, OnOk};
ghost use Rattle.std.specs.Option.{option_map};
ghost use Rattle.rpc.specs.Records.Record.{mark};
ghost use Rattle.rpc.specs.Records.Reading.{Grows, TakesPart, IsCutMark, IsShorter};
ghost use Rattle.frames.specs.Frame.{most_bytes, IsPartOfPiece, PassesBound};
ghost use Rattle.frames.specs.Steps.{Stops, BeginsWithMark, IsJudged};
ghost use Rattle.frames.specs.Reading.{StopsAt, TakesRecord, TakesRecordIf, fault_after};

use crate::bound::{Bound, FRONT, SHORT};
use crate::fault::FrameFault;
use crate::pieces::{PIECE, fill, read_bytes};
use byteorder::{BigEndian, ByteOrder};
use rpc::records::{Counting, MAX_FRAGMENTS};
use std::alloc::Global;
use std::io::Read;
use std::marker::Model;

/// The bit of a mark that says that its fragment is the last; the bits below it are the fragment's length.
const LAST: u32 = 1 << 31;

/// What stands before a fragment.
#[derive(Clone, Copy, Debug)]
pub struct Mark {
    is_last: bool,
    len: u32,
}

/// What the bytes of a mark say.
fn mark_in(bytes: &[u8]) -> Mark
    requires { length bytes.now ≡ 4 }
    ensures text { bytes.now ≡ mark result.is_last result.len }
    ensures len { result.len < 2 ^ 31 }
{
    let word = BigEndian::read_u32(bytes);
    match word.checked_sub(LAST) {
        Some(len) => Mark { is_last: true, len },
        None => Mark {
            is_last: false,
            len: word,
        },
    }
}

/// Reads a mark, if a byte is left.
fn read_mark<R: Read>(reader: &mut Counting<R>) -> Result<Option<Mark>, FrameFault>
    ensures found { IfOk result (λ m.
        BeginsWithMark m (R.remaining reader.old.inner) (R.remaining reader.new.inner)) }
    ensures kept { OnOk result (reader.new.count ≡ reader.old.count) }
    ensures stopped { IfErr result (λ e. Stops e (IsShorter 4) IsCutMark ⊥
        (R.remaining reader.old.inner) (R.remaining reader.new.inner) reader.old.count reader.new.count) }
{
    let mut bytes = [0; 4];
    match fill(reader, &mut bytes) {
        Ok(0) => Ok(None),
        Ok(4) => Ok(Some(mark_in(&bytes))),
        Ok(_) => Err(FrameFault::EndInRecord),
        Err(_) => Err(FrameFault::Device),
    }
}

/// Judges a fragment by its length, after what came of its record. Where the record is above `SHORT`, what is
/// missing of its first `FRONT` bytes is read before. Gives how many bytes were read.
fn judge<R: Read, B: Bound>(
    reader: &mut Counting<R>,
    joined: &mut Vec<u8>,
    bound: &B,
    len: u32,
) -> Result<usize, FrameFault>
    requires small { length joined.old.items < 2 ^ 32 }
    requires within { vec_capacity joined.old ≤ 2 * length joined.old.items + PIECE }
    ensures front { IfOk result (λ n. Grows joined.old.items joined.new.items n
        (R.remaining reader.old.inner) (R.remaining reader.new.inner)) }
    ensures part { IfOk result (λ n. n ≤ len) }
    ensures judged { OnOk result
        (IsJudged (B.most bound.now) joined.new.items (length joined.old.items + len)) }
    ensures small { OnOk result (length joined.old.items + len < 2 ^ 32) }
    ensures kept { OnOk result (reader.new.count ≡ reader.old.count) }
    ensures stopped { IfErr result (λ e. Stops e
        (IsPartOfPiece (B.most bound.now) joined.old.items len)
        (IsPartOfPiece (B.most bound.now) joined.old.items len)
        (TakesPart (PassesBound (B.most bound.now) joined.old.items len)
        (R.remaining reader.old.inner) (R.remaining reader.new.inner))
        (R.remaining reader.old.inner) (R.remaining reader.new.inner) reader.old.count reader.new.count) }
    ensures within { OnOk result (vec_capacity joined.new ≤ 2 * length joined.new.items + PIECE) }
{
    let size = joined.len() + len as usize;
    if size <= SHORT {
        return Ok(0);
    }
    let missing = FRONT.saturating_sub(joined.len());
    read_bytes(reader, joined, missing)?;
    if size > bound.most(joined.split_at(FRONT).0) as usize {
        return Err(FrameFault::TooLong);
    }
    Ok(missing)
}

/// Reads the bytes of a fragment, if they don't pass the bound.
fn read_fragment<R: Read, B: Bound>(
    reader: &mut Counting<R>,
    joined: &mut Vec<u8>,
    bound: &B,
    len: u32,
) -> Result<(), FrameFault>
    requires small { length joined.old.items < 2 ^ 32 }
    requires within { vec_capacity joined.old ≤ 2 * length joined.old.items + PIECE }
    ensures piece { OnOk result (Grows joined.old.items joined.new.items len
        (R.remaining reader.old.inner) (R.remaining reader.new.inner)) }
    ensures fits { OnOk result
        (length joined.new.items ≤ most_bytes (B.most bound.now) joined.new.items) }
    ensures small { OnOk result (length joined.new.items < 2 ^ 32) }
    ensures kept { OnOk result (reader.new.count ≡ reader.old.count) }
    ensures stopped { IfErr result (λ e. Stops e
        (IsPartOfPiece (B.most bound.now) joined.old.items len)
        (IsPartOfPiece (B.most bound.now) joined.old.items len)
        (TakesPart (PassesBound (B.most bound.now) joined.old.items len)
        (R.remaining reader.old.inner) (R.remaining reader.new.inner))
        (R.remaining reader.old.inner) (R.remaining reader.new.inner) reader.old.count reader.new.count) }
    ensures within { OnOk result (vec_capacity joined.new ≤ 2 * length joined.new.items + PIECE) }
{
    let read = judge(reader, joined, bound, len)?;
    read_bytes(reader, joined, len as usize - read)
}

/// Reads the next record into an empty vector, and says whether there was one.
fn read_record<R: Read, B: Bound>(
    reader: &mut Counting<R>,
    joined: &mut Vec<u8>,
    bound: &B,
) -> Result<bool, FrameFault>
    requires empty { joined.old.items ≡ [] }
    requires within { vec_capacity joined.old ≤ PIECE }
    ensures found { IfOk result (λ some. TakesRecordIf (B.most bound.now) some joined.new.items
        (R.remaining reader.old.inner) (R.remaining reader.new.inner)) }
    ensures kept { OnOk result (reader.new.count ≡ reader.old.count) }
    ensures stopped { IfErr result (λ e. StopsAt (B.most bound.now) e
        (R.remaining reader.old.inner) (R.remaining reader.new.inner) reader.old.count reader.new.count) }
    ensures within { OnOk result (vec_capacity joined.new ≤ 2 * length joined.new.items + PIECE) }
{
    for count in 0..MAX_FRAGMENTS + 1 {
        let Some(mark) = read_mark(reader)? else {
            let is_first = count == 0;
            return if is_first {
                Ok(false)
            } else {
                Err(FrameFault::EndInRecord)
            };
        };
        if count == MAX_FRAGMENTS {
            return Err(FrameFault::TooLong);
        }
        read_fragment(reader, joined, bound, mark.len)?;
        if mark.is_last {
            return Ok(true);
        }
    }
    unreachable!()
}

/// Reads the records of a stream, one after the other. A record is its fragments joined, at most 16,384
/// (`rpc::records::MAX_FRAGMENTS`), of which any may be empty.
///
/// A record of at most `SHORT` bytes (29,288) is always taken. A longer one is taken where it has at most as
/// many bytes as a `Bound` gives it by its first `FRONT` bytes (48).
///
/// Memory grows with what came, and never by a length that was only said: a vector that holds `n` bytes of a
/// record has room for at most `2 n + PIECE` (65,536).
///
/// A clause sees the reader as `reader`, and the fault that each further call answers as `fault`.
#[derive(Drop)]
pub struct FrameReader<R: Read + Drop> {
    reader: Counting<R>,
    fault: Option<FrameFault>,
}

impl<R: Read + Drop> Model for FrameReader<R> {
    ghost use Rattle.frames.specs.Reading.{FrameSource};

    ghost Value = { FrameSource R };

    ghost view = { λ r. record { reader = r.reader; fault = r.fault } };
}

impl<R: Read + Drop> FrameReader<R> {
    /// Reads from where the reader stands.
    pub fn new(reader: Counting<R>) -> Self
        ensures reader { result.reader ≡ reader }
        ensures fault { result.fault ≡ None }
    {
        FrameReader {
            reader,
            fault: None,
        }
    }

    /// The fault that each further call of `next` answers, if one has come.
    pub fn fault(&self) -> Option<FrameFault>
        ensures { result ≡ self.now.fault }
    {
        self.fault
    }

    /// The reader with its count, to look at.
    pub fn get_ref(&self) -> &Counting<R>
        ensures { result.now ≡ self.now.reader }
    {
        &self.reader
    }

    /// The next record, or none at the end of the stream.
    ///
    /// `TooLong` comes at the mark that passes the bound or the 16,384 fragments: nothing after it was read,
    /// but what was missing of the record's first `FRONT` bytes where they are to tell the bound.
    /// `EndInRecord` comes where the bytes end within a record, and then the reader is at its end, as it is
    /// where there is no record; `Device` where a read failed, an interrupted one too; `NoMemory` where a
    /// growth was refused. With the last two less than a whole record was read. Each fault is answered from
    /// then on, without a read.
    pub fn next<B: Bound>(
        &mut self,
        alloc: Global,
        bound: &B,
    ) -> Result<Option<Vec<u8>>, FrameFault>
        ensures found { IfOk result (λ found. TakesRecord (B.most bound.now) (option_map (λ v. v.items) found)
            (R.remaining self.old.reader.inner) (R.remaining self.new.reader.inner)) }
        ensures memory { IfOk result (λ found. IfSome found (λ v. vec_capacity v ≤ 2 * vec_len v + PIECE)) }
        ensures kept { OnOk result (self.new.reader.count ≡ self.old.reader.count) }
        ensures stopped { IfErr result (λ e. self.old.fault ≡ None → StopsAt (B.most bound.now) e
            (R.remaining self.old.reader.inner) (R.remaining self.new.reader.inner)
            self.old.reader.count self.new.reader.count) }
        ensures again { IfSome self.old.fault (λ e. (result ≡ Err e) × (self.new ≡ self.old)) }
        ensures failed { self.new.fault ≡ fault_after self.old.fault result }
    {
        if let Some(fault) = self.fault {
            return Err(fault);
        }
        let mut joined = Vec::new(alloc);
        match read_record(&mut self.reader, &mut joined, bound) {
            Ok(true) => Ok(Some(joined)),
            Ok(false) => Ok(None),
            Err(fault) => {
                self.fault = Some(fault);
                Err(fault)
            }
        }
    }
}
