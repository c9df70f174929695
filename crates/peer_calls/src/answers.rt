//! Results that are numbers and digests, or end with a text.

ghost use Rattle.std.specs.Prelude.{◌≡◌};
ghost use Rattle.std.specs.Option.{option_map};
ghost use Rattle.xdr.specs.Item.{fixed};
ghost use Rattle.xdr.specs.Reading.{GivesUnless};
ghost use Rattle.xdr.specs.ReadFault.{xdr_fault};
ghost use Rattle.peer_calls.specs.Arguments.{node_text, text_of};
ghost use Rattle.peer_calls.specs.Answers.{GivesResults, alone, greeted_at, optional_packet_at, segment_at};
ghost use Rattle.peer_calls.specs.Answers.{segment_of, signed_at, stands_at, told_item, told_text, told_value};

use crate::arguments::{after_word, after_words};
use std::alloc::Global;
use thiserror::Error;
use xdr::texts::{FromText, TextFault, read_text};
use xdr::{ReadFault, Reader, put_back_on_err};

/// The number of a packet with an authenticator.
const AUTHENTICATOR: u32 = 1;

/// What is answered to GREET.
#[derive(Clone, Copy, Debug)]
pub enum Greeted {
    /// Both go by one roster.
    Same,
    /// The other goes by a roster whose text has this digest.
    Other([u8; 32]),
}

/// What a witness says of a node.
#[derive(Clone, Copy, Debug, PartialEq, Eq)]
pub struct Told {
    /// 0 where the number is no member's, 1 where the witness trusts the node, 2 where it suspects it, 3 where it
    /// is exposed.
    pub standing: u32,
    /// How many challenges are open.
    pub open: u32,
    /// The last number of its log that was filed sound.
    pub end: u64,
    /// The whole seconds since the oldest open challenge was opened; 0 where none is open.
    pub seconds: u64,
}

/// What a node answers to SEGMENT.
#[derive(Clone, Copy, Debug)]
pub enum Segment<'a> {
    /// The packet of the segment.
    Answered(&'a [u8]),
    /// The log hasn't entries from the one number to the other, or nothing was signed at the last.
    OutOfRange,
    /// They are more than a segment has.
    TooLong,
}

impl<'a> FromText<'a> for Told {
    ghost text = { told_text };

    ghost value = { told_value };

    fn read_front(_alloc: Global, reader: &mut Reader<'a>) -> Result<Told, ReadFault> {
        let start = reader.rest();
        let read = read_told_at(reader);
        put_back_on_err(reader, start, read)
    }

    fn has_text(&self) -> bool {
        true
    }
}

fn read_told_at<'a>(reader: &mut Reader<'a>) -> Result<Told, ReadFault>
    ensures { GivesUnless xdr_fault told_item told_value reader.old result reader.new }
{
    let standing = reader.u32()?;
    let open = reader.u32()?;
    let end = reader.u64()?;
    let seconds = reader.u64()?;
    Ok(Told {
        standing,
        open,
        end,
        seconds,
    })
}

/// A result that is one word: 0 where it was done, 10 where it was done before, else a refusal's number.
#[derive(Clone, Copy, Debug, PartialEq, Eq)]
pub struct ResultNumber {
    pub number: u32,
}

impl<'a> FromText<'a> for ResultNumber {
    ghost text = { node_text };

    ghost value = { λ r. r.number };

    fn read_front(_alloc: Global, reader: &mut Reader<'a>) -> Result<ResultNumber, ReadFault> {
        let number = reader.u32()?;
        Ok(ResultNumber { number })
    }

    fn has_text(&self) -> bool {
        true
    }
}

/// Why results could not be read.
#[derive(Clone, Copy, Debug, PartialEq, Eq, Error)]
pub enum ResultsFault {
    /// A growth was refused.
    #[error("out of memory")]
    NoMemory,
    /// They are no results of that procedure.
    #[error("results that don't decode")]
    Garbage,
}

/// The digest of a roster's text.
#[derive(Clone, Copy, Debug)]
struct Digest {
    digest: [u8; 32],
}

impl<'a> FromText<'a> for Digest {
    ghost text = { text_of (fixed 32) };

    ghost value = { λ d. d.digest };

    fn read_front(_alloc: Global, reader: &mut Reader<'a>) -> Result<Digest, ReadFault> {
        let digest = *reader.fixed::<32>()?;
        Ok(Digest { digest })
    }

    fn has_text(&self) -> bool {
        true
    }
}

/// The results of GREET. `NoMemory` comes only where a growth was refused.
pub fn read_greeted(alloc: Global, bytes: &[u8]) -> Result<Greeted, ResultsFault>
    ensures { GivesResults (λ g. g) (greeted_at bytes.now) result }
{
    if let Some(rest) = after_word(0, bytes) {
        return alone(Greeted::Same, rest);
    }
    let Some(rest) = after_word(1, bytes) else {
        return Err(ResultsFault::Garbage);
    };
    match read_text::<Digest>(alloc, rest) {
        Ok(read) => Ok(Greeted::Other(read.digest)),
        Err(TextFault::NotAText) => Err(ResultsFault::Garbage),
        Err(TextFault::NoMemory) => Err(ResultsFault::NoMemory),
    }
}

/// A value, where nothing follows.
pub(crate) fn alone<T: Drop>(value: T, rest: &[u8]) -> Result<T, ResultsFault>
    ensures { GivesResults (λ x. x) (alone value rest.now) result }
{
    if rest.is_empty() {
        Ok(value)
    } else {
        Err(ResultsFault::Garbage)
    }
}

/// The results of SIGNED, and of a witness's SHOWN: the text of the authenticator, if there is one, which isn't looked
/// at. Takes no memory.
pub fn read_signed(bytes: &[u8]) -> Result<Option<&[u8]>, ResultsFault>
    ensures { GivesResults (λ a. option_map (λ t. t.now) a) (signed_at bytes.now) result }
{
    read_optional_packet(AUTHENTICATOR, bytes)
}

/// FALSE and nothing more, or what follows TRUE and this word. Takes no memory.
pub(crate) fn read_optional_packet(number: u32, bytes: &[u8]) -> Result<Option<&[u8]>, ResultsFault>
    ensures { GivesResults (λ a. option_map (λ t. t.now) a) (optional_packet_at number bytes.now) result }
{
    if let Some(rest) = after_word(0, bytes) {
        return if rest.is_empty() {
            Ok(None)
        } else {
            Err(ResultsFault::Garbage)
        };
    }
    match after_words(1, number, bytes) {
        Some(text) => Ok(Some(text)),
        None => Err(ResultsFault::Garbage),
    }
}

/// The results of SEGMENT. Takes no memory.
pub fn read_segment(bytes: &[u8]) -> Result<Segment<'_>, ResultsFault>
    ensures { GivesResults segment_of (segment_at bytes.now) result }
{
    if let Some(packet) = after_word(0, bytes) {
        return Ok(Segment::Answered(packet));
    }
    if let Some(rest) = after_word(1, bytes) {
        return alone(Segment::OutOfRange, rest);
    }
    match after_word(2, bytes) {
        Some(rest) => alone(Segment::TooLong, rest),
        None => Err(ResultsFault::Garbage),
    }
}

/// The results of STANDS: whether the pair stands in the log. Takes no memory.
pub fn read_stands(bytes: &[u8]) -> Result<bool, ResultsFault>
    ensures { GivesResults (λ b. b) (stands_at bytes.now) result }
{
    if let Some(rest) = after_word(0, bytes) {
        return alone(true, rest);
    }
    match after_word(1, bytes) {
        Some(rest) => alone(false, rest),
        None => Err(ResultsFault::Garbage),
    }
}
