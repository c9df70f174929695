//! Writes a record to a device (RFC 5531, section 11).

ghost use Rattle.std.specs.Prelude.{◌≡◌, ◌<◌, ◌≤◌, ◌+◌, ◌^◌, true, length, drop, IfErr};
ghost use Rattle.rpc.specs.Records.Count.{CountsErr};
ghost use Rattle.rpc.specs.Records.Record.{fragment};
ghost use Rattle.rpc.specs.Records.Writing.{WritesPart};

use crate::fault::FrameFault;
use rpc::records::{Counting, last_mark, write_record};
use std::io::Write;

/// The bytes of a mark.
pub const MARK: usize = 4;

/// Writes a record as one fragment, the last: one of at most 12,288 bytes in one write with its mark, a
/// longer one in two.
///
/// The one fault is `Device`. Then the writer's count rose, and a beginning of the text was written, but not
/// all of it.
pub fn write_frame<W: Write>(writer: &mut Counting<W>, bytes: &[u8]) -> Result<(), FrameFault>
    requires { length bytes.now < 2 ^ 31 }
    ensures text { WritesPart (W.contents writer.old.inner) (W.contents writer.new.inner)
        (fragment true bytes.now) result }
    ensures count { CountsErr result writer.old.count writer.new.count }
    ensures fault { IfErr result (λ e. e ≡ FrameFault.Device) }
{
    match write_record(writer, bytes) {
        Ok(()) => Ok(()),
        Err(_) => Err(FrameFault::Device),
    }
}

/// Puts the mark into the first `MARK` bytes of a buffer that has a record after them, so that a record of
/// any length goes out in one write (`rpc::records::write_bytes`).
pub fn mark_frame(frame: &mut [u8])
    requires room { MARK ≤ length frame.old }
    requires fits { length frame.old < 2 ^ 31 + MARK }
    ensures { frame.new ≡ fragment true (drop MARK frame.old) }
{
    let word = last_mark((frame.len() - MARK) as u32);
    frame[..MARK].copy_from_slice(&word.to_be_bytes());
}
