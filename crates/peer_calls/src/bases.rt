//! What is answered to BASE.

ghost use Rattle.std.specs.Prelude.{Some};
ghost use Rattle.std.specs.Option.{option_map};
ghost use Rattle.xdr.specs.Texts.Text.{text_at};
ghost use Rattle.xdr.specs.Writing.{Adds, Appends};
ghost use Rattle.peer_calls.specs.Answers.{GivesResults, base_at, base_bytes, base_results, base_sent};
ghost use Rattle.peer_calls.specs.Arguments.{text_of};

use crate::answers::{ResultsFault, alone};
use crate::arguments::after_word;
use std::alloc::{AllocError, Global};
use xdr::texts::{FromText, TextFault, read_text};
use xdr::{ReadFault, Reader, Writer, all_or_nothing};

/// The most bytes of a base that is sent: those of any base of a log of version 2.
pub const MAX_BASE: u32 = 67_306_100;

/// The bytes of a base.
#[derive(Clone, Copy, Debug)]
struct BaseBytes<'a> {
    bytes: &'a [u8],
}

impl<'a> FromText<'a> for BaseBytes<'a> {
    ghost text = { text_of base_bytes };

    ghost value = { λ b. b.bytes.now };

    fn read_front(_alloc: Global, reader: &mut Reader<'a>) -> Result<BaseBytes<'a>, ReadFault> {
        let bytes = reader.opaque(MAX_BASE)?;
        Ok(BaseBytes { bytes })
    }

    fn has_text(&self) -> bool {
        true
    }
}

/// The results of BASE, of a node and of a witness: the bytes of a base, at most `MAX_BASE`, which aren't looked at;
/// None where there is none. `NoMemory` comes only where a growth was refused.
pub fn read_base(alloc: Global, bytes: &[u8]) -> Result<Option<&[u8]>, ResultsFault>
    ensures { GivesResults (λ b. option_map (λ t. t.now) b) (base_at bytes.now) result }
{
    if let Some(rest) = after_word(0, bytes) {
        return read_here(alloc, rest);
    }
    match after_word(1, bytes) {
        Some(rest) => alone(None, rest),
        None => Err(ResultsFault::Garbage),
    }
}

/// A base that is sent, after which nothing follows.
fn read_here(alloc: Global, bytes: &[u8]) -> Result<Option<&[u8]>, ResultsFault>
    ensures { GivesResults (λ b. option_map (λ t. t.now) b)
        (option_map Some (text_at (text_of base_bytes) bytes.now)) result }
{
    match read_text::<BaseBytes<'_>>(alloc, bytes) {
        Ok(base) => Ok(Some(base.bytes)),
        Err(TextFault::NotAText) => Err(ResultsFault::Garbage),
        Err(TextFault::NoMemory) => Err(ResultsFault::NoMemory),
    }
}

/// Appends the results of BASE: the bytes of a base, or that there is none, which is said, too, of a base of more than
/// `MAX_BASE` bytes. Where memory is refused, `out` is as it was.
pub fn write_base(base: Option<&[u8]>, out: &mut Vec<u8>) -> Result<(), AllocError>
    ensures { Appends (base_results (base_sent (option_map (λ b. b.now) base.entry))) out.old.items result out.new.items }
{
    let start = out.len();
    let written = add_base(base, out);
    all_or_nothing(out, start, written)
}

fn add_base(base: Option<&[u8]>, out: &mut Vec<u8>) -> Result<(), AllocError>
    ensures { Adds (base_results (base_sent (option_map (λ b. b.now) base.entry))) out.old.items result out.new.items }
{
    match base {
        Some(bytes) => add_bytes(bytes, out),
        None => out.put_u32(1),
    }
}

/// Appends the bytes of a base, or that there is none where these are too many.
fn add_bytes(bytes: &[u8], out: &mut Vec<u8>) -> Result<(), AllocError>
    ensures { Adds (base_results (base_sent (Some bytes.now))) out.old.items result out.new.items }
{
    if bytes.len() > MAX_BASE as usize {
        return out.put_u32(1);
    }
    out.put_u32(0)?;
    out.put_opaque(bytes)
}
