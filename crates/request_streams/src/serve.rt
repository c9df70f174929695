//! The requests of a connection, and their answers.

ghost use Rattle.std.specs.Prelude.{◌≡◌, List, ℕ, None};
ghost use Rattle.request_streams.specs.Serving.{IsAnsweredBy, IsWritten, Serves};

use crate::answerer::{Answerer, Outcome};
use frames::{FrameFault, FrameReader, write_frame};
use rpc::records::Counting;
use std::alloc::Global;
use std::io::{Read, Write};
use thiserror::Error;

/// The most bytes of an answer.
const MAX_ANSWER: usize = 0x7fff_ffff;

/// How the requests of a connection ended.
#[derive(Clone, Copy, Debug, PartialEq, Eq)]
pub enum ServeEnd {
    /// With the end of the stream.
    AtEnd,
    /// With a record that is no call, and gets no reply.
    AtNoCall,
}

/// Why a connection came to an end before its requests did.
#[derive(Clone, Copy, Debug, PartialEq, Eq, Error)]
pub enum ServeFault {
    /// A growth was refused.
    #[error("out of memory")]
    NoMemory,
    /// No record could be read.
    #[error("{0}")]
    Reading(FrameFault),
    /// An answer is too long for a record.
    #[error("an answer is too long")]
    TooLong,
    /// An answer couldn't be written whole.
    #[error("the device failed")]
    Writing,
}

impl From<FrameFault> for ServeFault {
    ghost use Rattle.std.specs.Prelude.{◌≡◌};
    ghost use Rattle.request_streams.specs.Serving.{of_reading};

    ghost from_gives = { λ f e. e ≡ of_reading f };

    fn from(fault: FrameFault) -> ServeFault {
        match fault {
            FrameFault::NoMemory => ServeFault::NoMemory,
            fault => ServeFault::Reading(fault),
        }
    }
}

/// Writes an answer.
fn write_answer<W: Write>(writer: &mut Counting<W>, text: &[u8]) -> Result<(), ServeFault>
    ensures { IsWritten text.now result (W.contents writer.old.inner) (W.contents writer.new.inner) }
{
    if text.len() > MAX_ANSWER {
        return Err(ServeFault::TooLong);
    }
    match write_frame(writer, text) {
        Ok(()) => Ok(()),
        Err(_) => Err(ServeFault::Writing),
    }
}

/// Has a record answered, and writes the answer. Says whether the record was a call.
fn answer_one<A: Answerer, W: Write>(
    alloc: Global,
    answerer: &mut A,
    bytes: &[u8],
    out: &mut Vec<u8>,
    writer: &mut Counting<W>,
) -> Result<bool, ServeFault>
    ensures answered { IsAnsweredBy (A.answers answerer.old) bytes.now result
        (W.contents writer.old.inner) (W.contents writer.new.inner) }
    ensures kept { (record_bytes text : List ℕ) → A.answers answerer.new record_bytes text →
        A.answers answerer.old record_bytes text }
{
    match answerer.answer(alloc, bytes, out) {
        Outcome::Replied => {
            write_answer(writer, out)?;
            Ok(true)
        }
        Outcome::NoCall => Ok(false),
        Outcome::NoMemory => Err(ServeFault::NoMemory),
    }
}

/// Answers the requests of a connection to its end, in order: what is written is the answers to the records that
/// were read, each as one fragment, and nothing else. `AtEnd` comes where the stream ends after a record, `AtNoCall`
/// after a record that is no call. `Reading` comes where the next record can't be read, `TooLong` where an answer has
/// 2^31 bytes or more: all answers before were written. `NoMemory` comes where a growth was refused: what was asked
/// last may have been done. `Writing` comes where an answer was written in part.
pub fn serve_requests<A: Answerer, R: Read + Drop, W: Write>(
    alloc: Global,
    answerer: &mut A,
    reader: &mut FrameReader<R>,
    writer: &mut Counting<W>,
) -> Result<ServeEnd, ServeFault>
    requires fresh { reader.old.fault ≡ None }
    ensures served { Serves (A.answers answerer.old) result
        (R.remaining reader.old.reader.inner) (W.contents writer.old.inner)
        (R.remaining reader.new.reader.inner) (W.contents writer.new.inner) }
{
    for _ in 0..u64::MAX {
        let Some(bytes) = reader.next(alloc, answerer)? else {
            return Ok(ServeEnd::AtEnd);
        };
        // An answer may be long: its memory is let go once it is written.
        let mut out = Vec::new(alloc);
        if !answer_one(alloc, answerer, &bytes, &mut out, writer)? {
            return Ok(ServeEnd::AtNoCall);
        }
    }
    Err(ServeFault::NoMemory)
}
