//! Writes a record to a device (RFC 5531, section 11).

ghost use Rattle.std.specs.Prelude.{◌≡◌, ◌<◌, ◌≤◌, ◌+◌, ◌++◌, ◌^◌, length, take, true, IfErr};
ghost use Rattle.std.specs.Int.{w32, to_be_bytes};
ghost use Rattle.std.specs.Io.KnownBytes.{Appends};
ghost use Rattle.rpc.specs.Records.Count.{CountsErr, Rises};
ghost use Rattle.rpc.specs.Records.Record.{mark, fragment};
ghost use Rattle.rpc.specs.Records.Writing.{WritesPart};

use crate::records::counting::Counting;
use crate::records::fault::RecordFault;
use crate::records::record::{LAST, MAX_RECORD};
use std::io::Write;

/// The bytes of a mark.
const MARK: usize = 4;

/// The most bytes of a short record with its mark, which is put together in few bytes.
const SHORT: usize = 256;

/// The bytes of the longest record with its mark.
const LONG: usize = MARK + MAX_RECORD;

/// Writes bytes, and says how many were written. An interrupted write ends it, and so does one that takes
/// nothing: then fewer than all were written, and the writer's count rose by one.
pub fn write_front<W: Write>(writer: &mut Counting<W>, bytes: &[u8]) -> usize
    ensures bound { result ≤ length bytes.now }
    ensures text { Appends (W.contents writer.old.inner) (W.contents writer.new.inner)
        (take result bytes.now) }
    ensures whole { result ≡ length bytes.now → writer.new.count ≡ writer.old.count }
    ensures cut { result < length bytes.now → Rises writer.old.count writer.new.count }
{
    let mut at = 0;
    while at < bytes.len() {
        match writer.write(&bytes[at..]) {
            Ok(0) | Err(_) => return at,
            Ok(n) => at += n,
        }
    }
    at
}

/// Writes bytes, or answers `Device`.
pub fn write_bytes<W: Write>(writer: &mut Counting<W>, bytes: &[u8]) -> Result<(), RecordFault>
    ensures text { WritesPart (W.contents writer.old.inner) (W.contents writer.new.inner) bytes.now result }
    ensures count { CountsErr result writer.old.count writer.new.count }
    ensures fault { IfErr result (λ e. e ≡ RecordFault.Device) }
{
    if write_front(writer, bytes) < bytes.len() {
        return Err(RecordFault::Device);
    }
    Ok(())
}

/// The number that the mark of a last fragment spells.
#[tactic(auto, unfolding(crate::specs::Records::Record::mark))]
pub fn last_mark(len: u32) -> u32
    requires { len < 2 ^ 31 }
    ensures { to_be_bytes w32 result ≡ mark true len }
{
    len + LAST
}

/// Puts a mark and the front of a record together, at the front of a buffer.
fn put_together(buf: &mut [u8], word: u32, head: &[u8])
    requires { MARK + length head.now ≤ length buf.old }
    ensures { take (MARK + length head.now) buf.new ≡ to_be_bytes w32 word ++ head.now }
{
    buf[..MARK].copy_from_slice(&word.to_be_bytes());
    buf[MARK..MARK + head.len()].copy_from_slice(head);
}

/// Writes a mark and bytes. What of them has room in the buffer goes in one write.
fn write_marked<W: Write>(
    writer: &mut Counting<W>,
    buf: &mut [u8],
    word: u32,
    bytes: &[u8],
) -> Result<(), RecordFault>
    requires { MARK ≤ length buf.old }
    ensures text { WritesPart (W.contents writer.old.inner) (W.contents writer.new.inner)
        (to_be_bytes w32 word ++ bytes.now) result }
    ensures count { CountsErr result writer.old.count writer.new.count }
    ensures fault { IfErr result (λ e. e ≡ RecordFault.Device) }
{
    let (head, rest) = bytes.split_at(bytes.len().min(buf.len() - MARK));
    put_together(buf, word, head);
    write_bytes(writer, &buf[..MARK + head.len()])?;
    write_bytes(writer, rest)
}

/// Writes a record as one fragment, the last. A record of at most `MAX_RECORD` bytes goes in one write with
/// its mark; of a longer one its first `MAX_RECORD` bytes do.
///
/// The one fault is `Device`. Then the writer's count rose, and a beginning of the text was written,
/// but not all of it.
pub fn write_record<W: Write>(writer: &mut Counting<W>, bytes: &[u8]) -> Result<(), RecordFault>
    requires { length bytes.now < 2 ^ 31 }
    ensures text { WritesPart (W.contents writer.old.inner) (W.contents writer.new.inner)
        (fragment true bytes.now) result }
    ensures count { CountsErr result writer.old.count writer.new.count }
    ensures fault { IfErr result (λ e. e ≡ RecordFault.Device) }
{
    let word = last_mark(bytes.len() as u32);
    if bytes.len() <= SHORT - MARK {
        write_marked(writer, &mut [0; SHORT], word, bytes)
    } else {
        write_marked(writer, &mut [0; LONG], word, bytes)
    }
}
