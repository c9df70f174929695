//! What a witness answers to CASE.

ghost use Rattle.std.specs.Prelude.{◌≡◌};
ghost use Rattle.std.specs.Option.{option_map};
ghost use Rattle.xdr.specs.Texts.Text.{text_at};
ghost use Rattle.peer_calls.specs.Answers.{GivesResults, Here, TooLarge, case_at, case_of, file_item};
ghost use Rattle.peer_calls.specs.Arguments.{hyper_text, text_of};

use crate::answers::{ResultsFault, alone};
use crate::arguments::{After, after_word};
use std::alloc::Global;
use xdr::texts::{FromText, TextFault, read_text};
use xdr::{ReadFault, Reader};

/// The most bytes of a file of evidence that is sent.
pub const MAX_CASE: u32 = 4_194_304;

/// What a witness answers of its evidence of a node.
#[derive(Clone, Copy, Debug)]
pub enum Case<'a> {
    /// It has none.
    NoCase,
    /// The bytes of the file, at most `MAX_CASE`: the roster's text, and then the evidence's.
    Here(&'a [u8]),
    /// The file has so many bytes, which are too many to be sent.
    TooLarge(u64),
}

/// The bytes of a file of evidence.
#[derive(Clone, Copy, Debug)]
struct CaseFile<'a> {
    bytes: &'a [u8],
}

impl<'a> FromText<'a> for CaseFile<'a> {
    ghost text = { text_of file_item };

    ghost value = { λ f. f.bytes.now };

    fn read_front(_alloc: Global, reader: &mut Reader<'a>) -> Result<CaseFile<'a>, ReadFault> {
        let bytes = reader.opaque(MAX_CASE)?;
        Ok(CaseFile { bytes })
    }

    fn has_text(&self) -> bool {
        true
    }
}

/// The results of CASE. The file isn't looked at. `NoMemory` comes only where a growth was refused.
pub fn read_case(alloc: Global, bytes: &[u8]) -> Result<Case<'_>, ResultsFault>
    ensures { GivesResults case_of (case_at bytes.now) result }
{
    if let Some(rest) = after_word(0, bytes) {
        return alone(Case::NoCase, rest);
    }
    if let Some(rest) = after_word(1, bytes) {
        return read_file(alloc, rest);
    }
    match after_word(2, bytes) {
        Some(rest) => read_length(alloc, rest),
        None => Err(ResultsFault::Garbage),
    }
}

/// A file that is sent, after which nothing follows.
fn read_file(alloc: Global, bytes: &[u8]) -> Result<Case<'_>, ResultsFault>
    ensures { GivesResults case_of (option_map Here (text_at (text_of file_item) bytes.now)) result }
{
    match read_text::<CaseFile<'_>>(alloc, bytes) {
        Ok(file) => Ok(Case::Here(file.bytes)),
        Err(TextFault::NotAText) => Err(ResultsFault::Garbage),
        Err(TextFault::NoMemory) => Err(ResultsFault::NoMemory),
    }
}

/// The length of a file that isn't sent, after which nothing follows.
fn read_length(alloc: Global, bytes: &[u8]) -> Result<Case<'_>, ResultsFault>
    ensures { GivesResults case_of (option_map TooLarge (text_at hyper_text bytes.now)) result }
{
    match read_text::<After>(alloc, bytes) {
        Ok(length) => Ok(Case::TooLarge(length.number)),
        Err(TextFault::NotAText) => Err(ResultsFault::Garbage),
        Err(TextFault::NoMemory) => Err(ResultsFault::NoMemory),
    }
}
