//! Messages as texts (RFC 4506).

ghost use Rattle.std.specs.Prelude.{◌≡◌, OnOk};
ghost use Rattle.xdr.specs.Item.{Fits, spelling};
ghost use Rattle.xdr.specs.Reading.{GivesUnless};
ghost use Rattle.xdr.specs.ReadFault.{xdr_fault};
ghost use Rattle.xdr.specs.Writing.{Adds};
ghost use Rattle.state_spec.specs.StateItems.{received_item, received_value, sent_item, sent_value};
ghost use Rattle.state_machine.specs.States.Bounds.{SentFits};

use crate::states::message::{ReceivedMessage, SentMessage};
use std::alloc::{AllocError, Global};
use xdr::{FromXdr, ReadFault, Reader, Writer, put_back_on_err};

/// A message that was sent, with its number in the sender's log.
#[derive(Clone, Copy, Debug, PartialEq, Eq)]
pub struct NumberedSend {
    pub seq: u64,
    pub message: SentMessage,
}

impl NumberedSend {
    /// Its parts are within their bounds: does nothing, and tells a caller's proof.
    pub(crate) fn is_bounded(&self)
        ensures { SentFits (self.now.seq, self.now.message) }
    {
        let _seq = self.seq;
        self.message.is_bounded();
    }
}

impl<'a> FromXdr<'a> for ReceivedMessage {
    ghost item = { received_item };

    ghost value = { received_value };

    fn read(_alloc: Global, reader: &mut Reader<'a>) -> Result<ReceivedMessage, ReadFault> {
        let start = reader.rest();
        let read = read_received(reader);
        put_back_on_err(reader, start, read)
    }
}

impl<'a> FromXdr<'a> for NumberedSend {
    ghost item = { sent_item };

    ghost value = { λ s. sent_value (s.seq, s.message) };

    fn read(_alloc: Global, reader: &mut Reader<'a>) -> Result<NumberedSend, ReadFault> {
        let start = reader.rest();
        let read = read_sent(reader);
        put_back_on_err(reader, start, read)
    }
}

fn read_received(reader: &mut Reader<'_>) -> Result<ReceivedMessage, ReadFault>
    ensures { GivesUnless xdr_fault received_item received_value reader.old result reader.new }
{
    let from = reader.u32()?;
    let seq = reader.u64()?;
    let hash = *reader.fixed::<32>()?;
    Ok(ReceivedMessage::new(from, seq, hash))
}

fn read_sent(reader: &mut Reader<'_>) -> Result<NumberedSend, ReadFault>
    ensures { GivesUnless xdr_fault sent_item (λ s. sent_value (s.seq, s.message))
        reader.old result reader.new }
{
    let seq = reader.u64()?;
    let to = reader.u32()?;
    let prev = *reader.fixed::<32>()?;
    let body_hash = *reader.fixed::<32>()?;
    Ok(NumberedSend {
        seq,
        message: SentMessage::new(to, prev, body_hash),
    })
}

/// Appends a received message; where memory is refused a part of it may stand.
pub fn add_received(message: &ReceivedMessage, out: &mut Vec<u8>) -> Result<(), AllocError>
    ensures fits { OnOk result (Fits received_item (received_value message.now)) }
    ensures text { Adds (spelling received_item (received_value message.now))
        out.old.items result out.new.items }
{
    out.put_u32(message.from())?;
    out.put_u64(message.seq())?;
    out.put_fixed(message.hash())
}

/// Appends a sent message after its number; where memory is refused a part of it may stand.
pub fn add_sent(seq: u64, message: &SentMessage, out: &mut Vec<u8>) -> Result<(), AllocError>
    ensures fits { OnOk result (Fits sent_item (sent_value (seq, message.now))) }
    ensures text { Adds (spelling sent_item (sent_value (seq, message.now)))
        out.old.items result out.new.items }
{
    out.put_u64(seq)?;
    out.put_u32(message.to())?;
    out.put_fixed(message.prev())?;
    out.put_fixed(message.body_hash())
}
