//! What a witness awaits of a node.

ghost use Rattle.xdr.specs.Reading.{GivesUnless};
ghost use Rattle.xdr.specs.ReadFault.{xdr_fault};
ghost use Rattle.peer_calls.specs.Answers.{audit_value, message_item, message_value, wanted_item, wanted_text};
ghost use Rattle.peer_calls.specs.Answers.{wanted_value};
ghost use Rattle.peer_calls.specs.Arguments.{numbers_item};
ghost use Rattle.xdr.specs.Item.{optional};

use crate::arguments::{Numbers, expect, read_numbers};
use envelopes::Envelope;
use std::alloc::Global;
use xdr::texts::FromText;
use xdr::{FromXdr, ReadFault, Reader, put_back_on_err, read_array};

/// A message whose acknowledgement is awaited.
#[derive(Drop)]
pub struct WantedMessage {
    pub envelope: Envelope,
}

/// What a witness awaits of a node.
#[derive(Drop)]
pub struct Wanted {
    /// The first and the last number of the audit that is open, if one is.
    pub audit: Option<Numbers>,
    /// The messages whose acknowledgement is awaited, at most 16, in the order in which they came.
    pub messages: Vec<WantedMessage>,
}

/// The number of a packet with an envelope.
const ENVELOPE: u32 = 2;

/// The most messages that a witness awaits of one node.
const MAX_MESSAGES: u32 = 16;

impl<'a> FromXdr<'a> for WantedMessage {
    ghost item = { message_item };

    ghost value = { λ m. message_value m.envelope };

    fn read(alloc: Global, reader: &mut Reader<'a>) -> Result<WantedMessage, ReadFault> {
        let start = reader.rest();
        let read = read_message(alloc, reader);
        put_back_on_err(reader, start, read)
    }
}

fn read_message<'a>(alloc: Global, reader: &mut Reader<'a>) -> Result<WantedMessage, ReadFault>
    ensures { GivesUnless xdr_fault message_item (λ m. message_value m.envelope) reader.old result reader.new }
{
    expect(reader, ENVELOPE)?;
    let envelope = Envelope::read(alloc, reader)?;
    Ok(WantedMessage { envelope })
}

impl<'a> FromText<'a> for Wanted {
    ghost text = { wanted_text };

    ghost value = { wanted_value };

    fn read_front(alloc: Global, reader: &mut Reader<'a>) -> Result<Wanted, ReadFault> {
        let start = reader.rest();
        let read = read_wanted(alloc, reader);
        put_back_on_err(reader, start, read)
    }

    fn has_text(&self) -> bool {
        true
    }
}

fn read_wanted<'a>(alloc: Global, reader: &mut Reader<'a>) -> Result<Wanted, ReadFault>
    ensures { GivesUnless xdr_fault wanted_item wanted_value reader.old result reader.new }
{
    let audit = read_audit(reader)?;
    let messages = read_array::<WantedMessage>(alloc, reader, MAX_MESSAGES)?;
    Ok(Wanted { audit, messages })
}

#[tactic(auto, unfolding(xdr::specs::Reading::optional_at))]
fn read_audit<'a>(reader: &mut Reader<'a>) -> Result<Option<Numbers>, ReadFault>
    ensures { GivesUnless xdr_fault (optional numbers_item) audit_value reader.old result reader.new }
{
    if !reader.bool()? {
        return Ok(None);
    }
    let numbers = read_numbers(reader)?;
    Ok(Some(numbers))
}
