//! The arguments of calls that are numbers and digests.

ghost use Rattle.std.specs.Prelude.{◌≡◌, ◌==◌};
ghost use Rattle.std.specs.Option.{option_map};
ghost use Rattle.xdr.specs.Item.{word_where};
ghost use Rattle.xdr.specs.Reading.{Gives, GivesUnless};
ghost use Rattle.xdr.specs.Texts.Text.{text_at};
ghost use Rattle.xdr.specs.ReadFault.{xdr_fault};
ghost use Rattle.peer_calls.specs.Arguments.{GivesAsk, after_word, after_words, base_after_item, base_after_text};
ghost use Rattle.peer_calls.specs.Arguments.{base_after_value, greeting_item, greeting_text};
ghost use Rattle.peer_calls.specs.Arguments.{greeting_value};
ghost use Rattle.peer_calls.specs.Arguments.{hyper_text, node_text, nothing_in, numbers_item, numbers_text};
ghost use Rattle.peer_calls.specs.Arguments.{numbers_value, or_garbage};

use rpc::ReplyBody;
use std::alloc::Global;
use xdr::texts::{FromText, TextFault, read_text};
use xdr::{ReadFault, Reader, XdrFault, put_back_on_err};

/// What GREET says: the digest of the text of the caller's roster, and the caller's number, or 0 of one who is no
/// member.
#[derive(Clone, Copy, Debug)]
pub struct Greeting {
    pub digest: [u8; 32],
    pub node: u32,
}

/// A number of a log, after which something is asked for.
#[derive(Clone, Copy, Debug)]
pub struct After {
    pub number: u64,
}

/// The first and the last number of a part of a log.
#[derive(Clone, Copy, Debug)]
pub struct Numbers {
    pub first: u64,
    pub last: u64,
}

/// The number of a node.
#[derive(Clone, Copy, Debug)]
pub struct NodeNumber {
    pub node: u32,
}

/// A node, and a number of its log: a base at a later one is asked for.
#[derive(Clone, Copy, Debug)]
pub struct BaseAfter {
    pub node: u32,
    pub after: u64,
}

impl<'a> FromText<'a> for Greeting {
    ghost text = { greeting_text };

    ghost value = { greeting_value };

    fn read_front(_alloc: Global, reader: &mut Reader<'a>) -> Result<Greeting, ReadFault> {
        let start = reader.rest();
        let read = read_greeting(reader);
        put_back_on_err(reader, start, read)
    }

    fn has_text(&self) -> bool {
        true
    }
}

fn read_greeting<'a>(reader: &mut Reader<'a>) -> Result<Greeting, ReadFault>
    ensures { GivesUnless xdr_fault greeting_item greeting_value reader.old result reader.new }
{
    let digest = *reader.fixed::<32>()?;
    let node = reader.u32()?;
    Ok(Greeting { digest, node })
}

impl<'a> FromText<'a> for After {
    ghost text = { hyper_text };

    ghost value = { λ a. a.number };

    fn read_front(_alloc: Global, reader: &mut Reader<'a>) -> Result<After, ReadFault> {
        let number = reader.u64()?;
        Ok(After { number })
    }

    fn has_text(&self) -> bool {
        true
    }
}

impl<'a> FromText<'a> for Numbers {
    ghost text = { numbers_text };

    ghost value = { numbers_value };

    fn read_front(_alloc: Global, reader: &mut Reader<'a>) -> Result<Numbers, ReadFault> {
        let start = reader.rest();
        let read = read_numbers(reader);
        put_back_on_err(reader, start, read)
    }

    fn has_text(&self) -> bool {
        true
    }
}

pub(crate) fn read_numbers<'a>(reader: &mut Reader<'a>) -> Result<Numbers, ReadFault>
    ensures { GivesUnless xdr_fault numbers_item numbers_value reader.old result reader.new }
{
    let first = reader.u64()?;
    let last = reader.u64()?;
    Ok(Numbers { first, last })
}

impl<'a> FromText<'a> for NodeNumber {
    ghost text = { node_text };

    ghost value = { λ n. n.node };

    fn read_front(_alloc: Global, reader: &mut Reader<'a>) -> Result<NodeNumber, ReadFault> {
        let node = reader.u32()?;
        Ok(NodeNumber { node })
    }

    fn has_text(&self) -> bool {
        true
    }
}

impl<'a> FromText<'a> for BaseAfter {
    ghost text = { base_after_text };

    ghost value = { base_after_value };

    fn read_front(_alloc: Global, reader: &mut Reader<'a>) -> Result<BaseAfter, ReadFault> {
        let start = reader.rest();
        let read = read_base_after(reader);
        put_back_on_err(reader, start, read)
    }

    fn has_text(&self) -> bool {
        true
    }
}

fn read_base_after<'a>(reader: &mut Reader<'a>) -> Result<BaseAfter, ReadFault>
    ensures { GivesUnless xdr_fault base_after_item base_after_value reader.old result reader.new }
{
    let node = reader.u32()?;
    let after = reader.u64()?;
    Ok(BaseAfter { node, after })
}

/// The value whose text the arguments are, or the refusal of a call whose arguments don't decode.
pub(crate) fn read_arguments<'a, T: FromText<'a>>(
    alloc: Global,
    arguments: &'a [u8],
) -> Result<T, ReplyBody>
    ensures { GivesAsk T.value (or_garbage (text_at T.text arguments.now)) result }
{
    match read_text::<T>(alloc, arguments) {
        Ok(value) => Ok(value),
        Err(TextFault::NoMemory) => Err(ReplyBody::SystemError),
        Err(TextFault::NotAText) => Err(ReplyBody::GarbageArguments),
    }
}

/// One word, which is to be this one. After an `Err` the reader may stand behind it.
#[tactic(auto, unfolding(xdr::specs::Reading::tested_at))]
pub(crate) fn expect(reader: &mut Reader<'_>, wanted: u32) -> Result<(), XdrFault>
    ensures { Gives (word_where (λ n. n == wanted)) (λ _. wanted) reader.old result reader.new }
{
    if reader.u32()? != wanted {
        return Err(XdrFault::BadEnum);
    }
    Ok(())
}

/// What follows a word with which the bytes begin, if it is this one.
pub(crate) fn after_word(wanted: u32, bytes: &[u8]) -> Option<&[u8]>
    ensures { option_map (λ r. r.now) result ≡ after_word wanted bytes.now }
{
    let mut reader = Reader::new(bytes);
    match expect(&mut reader, wanted) {
        Ok(()) => Some(reader.rest()),
        Err(_) => None,
    }
}

/// The text that follows this word in the arguments, or the refusal of a call whose arguments don't decode.
pub(crate) fn read_packet(wanted: u32, arguments: &[u8]) -> Result<&[u8], ReplyBody>
    ensures { GivesAsk (λ r. r.now) (or_garbage (after_word wanted arguments.now)) result }
{
    match after_word(wanted, arguments) {
        Some(text) => Ok(text),
        None => Err(ReplyBody::GarbageArguments),
    }
}

/// No arguments, or the refusal of a call that has some.
pub(crate) fn read_nothing(arguments: &[u8]) -> Result<(), ReplyBody>
    ensures { GivesAsk (λ x. x) (or_garbage (nothing_in arguments.now)) result }
{
    if arguments.is_empty() {
        Ok(())
    } else {
        Err(ReplyBody::GarbageArguments)
    }
}

/// What follows two words with which the bytes begin, if they are these.
pub(crate) fn after_words(first: u32, second: u32, bytes: &[u8]) -> Option<&[u8]>
    ensures { option_map (λ r. r.now) result ≡ after_words first second bytes.now }
{
    let rest = after_word(first, bytes)?;
    after_word(second, rest)
}
