//! Whole texts: a value that is spelled by all of the bytes, and passes a test.

ghost use Rattle.std.specs.Prelude.{◌≡◌, IfOk, MatchResult};
ghost use Rattle.xdr.specs.Item.{Value};
ghost use Rattle.xdr.specs.Reading.{ReadsUnless};
ghost use Rattle.xdr.specs.ReadFault.{xdr_fault};
ghost use Rattle.xdr.specs.Texts.Text.{Text, IsText, GivesText};
ghost use Rattle.xdr.specs.declared.texts.text.TextFault.TheVariants.{NoMemory};
ghost use Rattle.xdr.specs.Texts.TextFault.{is_no_text};

use crate::{ReadFault, Reader};
use std::alloc::Global;
use thiserror::Error;

/// Why bytes could not be read as a text.
#[derive(Debug, Drop, Error)]
pub enum TextFault {
    #[error("out of memory")]
    NoMemory,
    #[error("the bytes are no text of that kind")]
    NotAText,
}

/// A type whose values have a text of their own, after which nothing may follow.
pub trait FromText<'a>: Drop {
    /// How its values are spelled, and which of them have a text.
    ghost text: { Text };

    /// What a value says.
    ghost value: { Self → Value text.item };

    /// Reads a value from the front. After an `Err` the reader is as it was.
    fn read_front(alloc: Global, reader: &mut Reader<'a>) -> Result<Self, ReadFault>
    where
        Self: Sized,
        ensures { ReadsUnless xdr_fault text.item value reader.old result reader.new };

    /// Whether a value that was read has a text.
    fn has_text(&self) -> bool
        ensures { result ≡ text.test (value self.now) };
}

/// The value whose text the bytes are. `NotAText` comes exactly where they are the text of none, `NoMemory`
/// only where a growth was refused.
pub fn read_text<'a, T: FromText<'a>>(alloc: Global, bytes: &'a [u8]) -> Result<T, TextFault>
    ensures exact { GivesText is_no_text T.text T.value bytes.now result }
    ensures found { IfOk result (λ x. IsText T.text (T.value x) bytes.now) }
    ensures only { (v : Value T.text.item) → IsText T.text v bytes.now →
        MatchResult result (λ x. T.value x ≡ v) (λ e. e ≡ NoMemory) }
{
    text_of(alloc, bytes)
}

/// As `read_text`, with the exact clause alone.
fn text_of<'a, T: FromText<'a>>(alloc: Global, bytes: &'a [u8]) -> Result<T, TextFault>
    ensures { GivesText is_no_text T.text T.value bytes.now result }
{
    let mut reader = Reader::new(bytes);
    let value: T = match T::read_front(alloc, &mut reader) {
        Ok(value) => value,
        Err(ReadFault::NoMemory) => return Err(TextFault::NoMemory),
        Err(ReadFault::Fault(_)) => return Err(TextFault::NotAText),
    };
    if !reader.rest().is_empty() {
        return Err(TextFault::NotAText);
    }
    if !value.has_text() {
        return Err(TextFault::NotAText);
    }
    Ok(value)
}
