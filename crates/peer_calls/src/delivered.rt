//! What a node answers to an envelope.

ghost use Rattle.std.specs.Prelude.{◌≡◌, ◌-◌, length, take};
ghost use Rattle.xdr.specs.Reading.{read_at};
ghost use Rattle.envelopes.specs.Acknowledgement.{ack_item};
ghost use Rattle.peer_calls.specs.Answers.{GivesResults, delivered_at, delivered_of, split_at, taken_at};

use crate::answers::{ResultNumber, ResultsFault, read_optional_packet};
use crate::arguments::after_word;
use envelopes::Ack;
use std::alloc::Global;
use xdr::texts::{TextFault, read_text};
use xdr::{FromXdr, ReadFault, Reader};

/// The number of a packet with an envelope, and of one with an acknowledgement.
const ENVELOPE: u32 = 2;

const ACK: u32 = 4;

/// What a node answers to an envelope.
#[derive(Clone, Copy, Debug)]
pub enum Delivered<'a> {
    /// The text of its acknowledgement, and what stands for the envelope of its reply, if one came.
    Taken {
        ack: &'a [u8],
        reply: Option<&'a [u8]>,
    },
    /// The number of its refusal, which isn't 0.
    Refused(u32),
}

/// The results of DELIVER to a node. `Garbage` comes where they don't decode, `NoMemory` only where a growth was
/// refused. What stands for the reply's envelope isn't looked at.
pub fn read_delivered(alloc: Global, bytes: &[u8]) -> Result<Delivered<'_>, ResultsFault>
    ensures { GivesResults delivered_of (delivered_at bytes.now) result }
{
    if let Some(rest) = after_word(0, bytes) {
        return read_taken(alloc, rest);
    }
    match read_text::<ResultNumber>(alloc, bytes) {
        Ok(refusal) => Ok(Delivered::Refused(refusal.number)),
        Err(TextFault::NotAText) => Err(ResultsFault::Garbage),
        Err(TextFault::NoMemory) => Err(ResultsFault::NoMemory),
    }
}

/// What follows the word 0.
fn read_taken(alloc: Global, bytes: &[u8]) -> Result<Delivered<'_>, ResultsFault>
    ensures { GivesResults delivered_of (taken_at bytes.now) result }
{
    let Some(rest) = after_word(ACK, bytes) else {
        return Err(ResultsFault::Garbage);
    };
    let (ack, rest) = split_ack(alloc, rest)?;
    let reply = read_optional_packet(ENVELOPE, rest)?;
    Ok(Delivered::Taken { ack, reply })
}

/// The text of an acknowledgement with which the bytes begin, and what follows it.
fn split_ack(alloc: Global, bytes: &[u8]) -> Result<(&[u8], &[u8]), ResultsFault>
    ensures { GivesResults (λ p. (p.0.now, p.1.now)) (split_at (read_at ack_item bytes.now) bytes.now) result }
{
    let mut reader = Reader::new(bytes);
    match Ack::read(alloc, &mut reader) {
        Ok(_) => Ok(front_and_rest(bytes, reader.rest())),
        Err(ReadFault::NoMemory) => Err(ResultsFault::NoMemory),
        Err(ReadFault::Fault(_)) => Err(ResultsFault::Garbage),
    }
}

/// What stands before the rest of some bytes, and the rest.
fn front_and_rest<'a>(bytes: &'a [u8], rest: &'a [u8]) -> (&'a [u8], &'a [u8])
    ensures front { result.0.now ≡ take (length bytes.now - length rest.now) bytes.now }
    ensures rest { result.1.now ≡ rest.now }
{
    (&bytes[..bytes.len().saturating_sub(rest.len())], rest)
}
