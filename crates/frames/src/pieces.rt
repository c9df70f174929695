//! Reads bytes into a vector that grows by what came.

ghost use Rattle.std.specs.Prelude.{◌≡◌, ◌+◌, ◌*◌, ◌<◌, ◌≤◌, ◌++◌, length, replicate, vec_capacity};
ghost use Rattle.std.specs.Prelude.{IfOk, IfErr, OnOk, OnErr};
ghost use Rattle.rpc.specs.Records.Count.{Rises};
ghost use Rattle.rpc.specs.Records.Reading.{Grows, IsShorter, TakesPart};
ghost use Rattle.frames.specs.Steps.{Fills, StepStops};

use crate::fault::FrameFault;
use rpc::records::Counting;
use std::alloc::AllocError;
use std::io;
use std::io::Read;

/// The most bytes that are read at once, and room made for before any of them came.
pub const PIECE: usize = 65_536;

/// Fills a buffer, or as much of it as there are bytes.
pub fn fill<R: Read>(reader: &mut Counting<R>, buf: &mut [u8]) -> io::Result<usize>
    ensures filled { IfOk result (λ n.
        Fills n buf.new (R.remaining reader.old.inner) (R.remaining reader.new.inner)) }
    ensures kept { OnOk result (reader.new.count ≡ reader.old.count) }
    ensures part { OnErr result (TakesPart (IsShorter (length buf.new))
        (R.remaining reader.old.inner) (R.remaining reader.new.inner)) }
    ensures device { OnErr result (Rises reader.old.count reader.new.count) }
{
    let mut at = 0;
    while at < buf.len() {
        match reader.read(&mut buf[at..])? {
            0 => return Ok(at),
            n => at += n,
        }
    }
    Ok(at)
}

/// Makes room after what came: for so many bytes, or for as many as came.
fn make_room(joined: &mut Vec<u8>, more: usize) -> Result<(), AllocError>
    requires piece { more ≤ PIECE }
    requires within { vec_capacity joined.old ≤ 2 * length joined.old.items + PIECE }
    ensures items { joined.new.items ≡ joined.old.items }
    ensures room { OnOk result (length joined.new.items + more ≤ vec_capacity joined.new) }
    ensures full { OnErr result (vec_capacity joined.old < length joined.old.items + more) }
    ensures within { vec_capacity joined.new ≤ 2 * length joined.old.items + PIECE }
{
    let len = joined.len();
    if more <= joined.capacity() - len {
        return Ok(());
    }
    joined.try_reserve_exact(more.max(len))
}

/// Puts zeros after what came, for a read to fill.
fn lengthen(joined: &mut Vec<u8>, more: usize) -> Result<(), AllocError>
    requires piece { more ≤ PIECE }
    requires within { vec_capacity joined.old ≤ 2 * length joined.old.items + PIECE }
    ensures zeros { OnOk result (joined.new.items ≡ joined.old.items ++ replicate more 0) }
    ensures full { OnErr result (vec_capacity joined.old < length joined.old.items + more) }
    ensures within { vec_capacity joined.new ≤ 2 * length joined.old.items + PIECE }
{
    make_room(joined, more)?;
    for _ in 0..more {
        joined.push_reserved(0);
    }
    Ok(())
}

/// Reads so many bytes, one piece at most, and puts them after what came.
fn read_piece<R: Read>(
    reader: &mut Counting<R>,
    joined: &mut Vec<u8>,
    len: usize,
) -> Result<(), FrameFault>
    requires piece { len ≤ PIECE }
    requires within { vec_capacity joined.old ≤ 2 * length joined.old.items + PIECE }
    ensures piece { OnOk result (Grows joined.old.items joined.new.items len
        (R.remaining reader.old.inner) (R.remaining reader.new.inner)) }
    ensures kept { OnOk result (reader.new.count ≡ reader.old.count) }
    ensures stopped { IfErr result (λ e. StepStops e (IsShorter len)
        (R.remaining reader.old.inner) (R.remaining reader.new.inner) reader.old.count reader.new.count) }
    ensures within { vec_capacity joined.new ≤ 2 * length joined.old.items + PIECE }
{
    let start = joined.len();
    if lengthen(joined, len).is_err() {
        return Err(FrameFault::NoMemory);
    }
    match fill(reader, &mut joined[start..]) {
        Err(_) => Err(FrameFault::Device),
        Ok(n) if n < len => Err(FrameFault::EndInRecord),
        Ok(_) => Ok(()),
    }
}

/// Reads so many bytes, piece by piece, and puts them after what came.
pub fn read_bytes<R: Read>(
    reader: &mut Counting<R>,
    joined: &mut Vec<u8>,
    len: usize,
) -> Result<(), FrameFault>
    requires within { vec_capacity joined.old ≤ 2 * length joined.old.items + PIECE }
    ensures bytes { OnOk result (Grows joined.old.items joined.new.items len
        (R.remaining reader.old.inner) (R.remaining reader.new.inner)) }
    ensures kept { OnOk result (reader.new.count ≡ reader.old.count) }
    ensures stopped { IfErr result (λ e. StepStops e (IsShorter len)
        (R.remaining reader.old.inner) (R.remaining reader.new.inner) reader.old.count reader.new.count) }
    ensures within { OnOk result (vec_capacity joined.new ≤ 2 * length joined.new.items + PIECE) }
{
    let mut left = len;
    while left > 0 {
        let more = left.min(PIECE);
        read_piece(reader, joined, more)?;
        left -= more;
    }
    Ok(())
}
