//! Bases from their texts (RFC 4506).

ghost use Rattle.std.specs.Prelude.{◌≡◌, [], IfErr, IfNone, IfOk, IfSome, IsTrue, MatchResult, None, Ok, false};
ghost use Rattle.std.specs.Bool.{OnTrue};
ghost use Rattle.xdr.specs.Item.{Value, opaque, pair};
ghost use Rattle.xdr.specs.Reading.{GivesUnless, read_at};
ghost use Rattle.xdr.specs.ReadFault.{xdr_fault};
ghost use Rattle.xdr.specs.Texts.Text.{GivesText, IsText, text_at};
ghost use Rattle.xdr.specs.Texts.TextFault.{is_no_text};
ghost use Rattle.xdr.specs.declared.texts.text.TextFault.TheVariants.{NoMemory};
ghost use Rattle.authenticator.specs.Numbers.{number_item};
ghost use Rattle.authenticator.specs.declared.member.LogVersion.TheVariants.{One, Two};
ghost use Rattle.evidence_spec.specs.Base.{MAX_STATE, base_item, base_text, base_value, begun_item};
ghost use Rattle.evidence_spec.specs.Base.{begun_value};
ghost use Rattle.evidence_spec.specs.Showing.{links_follow};
ghost use Rattle.evidence_showings.specs.Bases.{IsShortState, plain_base_value, worded_base_value};
ghost use Rattle.evidence_showings.specs.ReadBases.{read_base_value};
ghost use Rattle.evidence_showings.specs.Showings.{SaysNoMore};
ghost use Rattle.evidence_showings.specs.Worded.{worded_value};

use crate::base_text::BaseText;
use crate::read::PlainShowing;
use crate::worded::WordedShowing;
use authenticator::{LogVersion, Number};
use evidence_spec::MAX_STATE;
use std::alloc::{AllocError, Global};
use std::marker::Model;
use xdr::texts::TextFault;
use xdr::{FromXdr, ReadFault, Reader, XdrFault, put_back_on_err};

/// What stands after the version's number in the text of a base of a log of version 1.
#[derive(Drop)]
pub struct PlainBase {
    showing: PlainShowing,
    at: Number,
    state: Vec<u8>,
}

impl Model for PlainBase {
    ghost use Rattle.evidence_showings.specs.Bases.{IsShortState, PlainBaseParts};

    ghost Value = { PlainBaseParts };

    ghost view = { λ b. record { showing = b.showing; at = b.at; state = b.state.items } };

    ghost invariant = { λ b. IsShortState b.state.items };
}

/// What stands after the version's number in the text of a base of a log of version 2. Nothing is checked of
/// the words.
#[derive(Drop)]
pub struct WordedBase {
    showing: WordedShowing,
    at: Number,
    state: Vec<u8>,
}

impl Model for WordedBase {
    ghost use Rattle.evidence_showings.specs.Bases.{IsShortState, WordedBaseParts};

    ghost Value = { WordedBaseParts };

    ghost view = { λ b. record { showing = b.showing; at = b.at; state = b.state.items } };

    ghost invariant = { λ b. IsShortState b.state.items };
}

/// A base as it stands in a text. Nothing is checked of the words of a log of version 2.
#[derive(Drop)]
pub(crate) enum ReadBase {
    /// Of a log of version 1.
    Plain(PlainBase),
    /// Of a log of version 2.
    Worded(WordedBase),
}

impl<'a> FromXdr<'a> for PlainBase {
    ghost item = { begun_item One };

    ghost value = { plain_base_value };

    fn read(alloc: Global, reader: &mut Reader<'a>) -> Result<PlainBase, ReadFault> {
        let start = reader.rest();
        let read = read_plain(alloc, reader);
        put_back_on_err(reader, start, read)
    }
}

fn read_plain<'a>(alloc: Global, reader: &mut Reader<'a>) -> Result<PlainBase, ReadFault>
    ensures { GivesUnless xdr_fault (begun_item One) plain_base_value reader.old result reader.new }
{
    let (showing, at, state) = read_parts(alloc, reader)?;
    Ok(PlainBase { showing, at, state })
}

impl<'a> FromXdr<'a> for WordedBase {
    ghost item = { begun_item Two };

    ghost value = { worded_base_value };

    fn read(alloc: Global, reader: &mut Reader<'a>) -> Result<WordedBase, ReadFault> {
        let start = reader.rest();
        let read = read_worded(alloc, reader);
        put_back_on_err(reader, start, read)
    }
}

fn read_worded<'a>(alloc: Global, reader: &mut Reader<'a>) -> Result<WordedBase, ReadFault>
    ensures { GivesUnless xdr_fault (begun_item Two) worded_base_value reader.old result reader.new }
{
    let (showing, at, state) = read_parts(alloc, reader)?;
    Ok(WordedBase { showing, at, state })
}

/// A showing, a number and the bytes of a state. After an `Err` the reader may stand within them.
fn read_parts<'a, S: FromXdr<'a>>(
    alloc: Global,
    reader: &mut Reader<'a>,
) -> Result<(S, Number, Vec<u8>), ReadFault>
    ensures parts { GivesUnless xdr_fault (pair S.item (pair number_item (opaque MAX_STATE)))
        (λ b. (S.value b.0, (b.1, b.2.items))) reader.old result reader.new }
    ensures short { IfOk result (λ b. IsShortState b.2.items) }
{
    let showing = S::read(alloc, reader)?;
    let at = Number::read(alloc, reader)?;
    let state = read_bytes(alloc, reader)?;
    Ok((showing, at, state))
}

/// The bytes of a state.
fn read_bytes(alloc: Global, reader: &mut Reader<'_>) -> Result<Vec<u8>, ReadFault>
    ensures bytes { GivesUnless xdr_fault (opaque MAX_STATE) (λ v. v.items) reader.old result reader.new }
    ensures short { IfOk result (λ v. IsShortState v.items) }
{
    let start = reader.rest();
    let state = reader.opaque(MAX_STATE)?;
    is_short(start, reader.rest(), state);
    Ok(Vec::from_slice(alloc, state)?)
}

/// Bytes that were read from the front of `start` up to `rest` are few: does nothing, and tells a caller's
/// proof.
fn is_short(start: &[u8], rest: &[u8], state: &[u8])
    requires { read_at (opaque MAX_STATE) start.now ≡ Ok (state.now, rest.now) }
    ensures { IsShortState state.now }
{
    let _start = start;
    let _rest = rest;
    let _state = state;
}

impl<'a> FromXdr<'a> for ReadBase {
    ghost item = { base_item };

    ghost value = { read_base_value };

    fn read(alloc: Global, reader: &mut Reader<'a>) -> Result<ReadBase, ReadFault> {
        let start = reader.rest();
        let read = read_either(alloc, reader);
        put_back_on_err(reader, start, read)
    }
}

fn read_either<'a>(alloc: Global, reader: &mut Reader<'a>) -> Result<ReadBase, ReadFault>
    ensures { GivesUnless xdr_fault base_item read_base_value reader.old result reader.new }
{
    match reader.u32()? {
        1 => Ok(ReadBase::Plain(PlainBase::read(alloc, reader)?)),
        2 => Ok(ReadBase::Worded(WordedBase::read(alloc, reader)?)),
        _ => Err(ReadFault::Fault(XdrFault::BadEnum)),
    }
}

impl PlainBase {
    /// The base, whose links skip nothing. `AllocError` comes only where a growth was refused.
    pub fn into_base(self, alloc: Global) -> Result<BaseText, AllocError>
        ensures value { IfOk result (λ b. begun_value One b ≡ plain_base_value self) }
        ensures version { IfOk result (λ b. b.log_version ≡ One) }
        ensures written { IfOk result (λ b. SaysNoMore One b.showing) }
    {
        let PlainBase { showing, at, state } = self;
        let showing = showing.into_showing(alloc)?;
        Ok(BaseText::of_parts(LogVersion::One, showing, at, state))
    }
}

impl WordedBase {
    /// The base, where the words of its showing follow; else None. `AllocError` comes only where a growth was
    /// refused.
    pub fn into_base(self, alloc: Global) -> Result<Option<BaseText>, AllocError>
        ensures value { IfOk result (λ o. IfSome o (λ b. begun_value Two b ≡ worded_base_value self)) }
        ensures version { IfOk result (λ o. IfSome o (λ b. b.log_version ≡ Two)) }
        ensures written { IfOk result (λ o. IfSome o (λ b. SaysNoMore Two b.showing)) }
        ensures some { IfOk result (λ o. IfSome o (λ _. IsTrue (links_follow Two (worded_value self.showing)))) }
        ensures none { IfOk result (λ o. IfNone o (links_follow Two (worded_value self.showing) ≡ false)) }
    {
        let WordedBase { showing, at, state } = self;
        let Some(showing) = showing.into_showing(alloc)? else {
            return Ok(None);
        };
        Ok(Some(BaseText::of_parts(LogVersion::Two, showing, at, state)))
    }
}

impl ReadBase {
    /// The base; None where it is of a log of version 2 and its words don't follow.
    fn into_base(self, alloc: Global) -> Result<Option<BaseText>, AllocError>
        ensures some { IfOk result (λ o. IfSome o (λ b. base_value b ≡ read_base_value self)) }
        ensures follow { IfOk result (λ o. IfSome o (λ _. IsTrue (base_text.test (read_base_value self)))) }
        ensures none { IfOk result (λ o. IfNone o (base_text.test (read_base_value self) ≡ false)) }
        ensures written { IfOk result (λ o. IfSome o (λ b. SaysNoMore b.log_version b.showing)) }
    {
        match self {
            ReadBase::Plain(base) => Ok(Some(base.into_base(alloc)?)),
            ReadBase::Worded(base) => base.into_base(alloc),
        }
    }
}

/// The base whose text the bytes are. `NotAText` comes exactly where they are the text of none, `NoMemory`
/// only where a growth was refused. Nothing is reserved by a count alone.
pub fn read_base(alloc: Global, bytes: &[u8]) -> Result<BaseText, TextFault>
    ensures exact { GivesText is_no_text base_text base_value bytes.now result }
    ensures found { IfOk result (λ b. IsText base_text (base_value b) bytes.now) }
    ensures only { (v : Value base_text.item) → IsText base_text v bytes.now →
        MatchResult result (λ b. base_value b ≡ v) (λ e. e ≡ NoMemory) }
    ensures written { IfOk result (λ b. SaysNoMore b.log_version b.showing) }
{
    base_of(alloc, bytes)
}

/// As `read_base`, with the first and the last clause alone.
#[tactic(auto, unfolding(xdr::specs::Texts::Text::text_at))]
fn base_of(alloc: Global, bytes: &[u8]) -> Result<BaseText, TextFault>
    ensures exact { GivesText is_no_text base_text base_value bytes.now result }
    ensures written { IfOk result (λ b. SaysNoMore b.log_version b.showing) }
{
    match read_whole(alloc, bytes) {
        Ok(read) => match read.into_base(alloc) {
            Ok(Some(base)) => Ok(base),
            Ok(None) => Err(TextFault::NotAText),
            Err(AllocError) => Err(TextFault::NoMemory),
        },
        Err(fault) => Err(fault),
    }
}

/// A base as it stands in a text, where the bytes are one to their end.
#[tactic(auto, unfolding(xdr::specs::Texts::Text::text_at))]
fn read_whole(alloc: Global, bytes: &[u8]) -> Result<ReadBase, TextFault>
    ensures read { IfOk result (λ b. read_at base_item bytes.now ≡ Ok (read_base_value b, [])) }
    ensures fault { IfErr result (λ e. OnTrue (is_no_text e) (text_at base_text bytes.now ≡ None)) }
{
    let mut reader = Reader::new(bytes);
    let read = match ReadBase::read(alloc, &mut reader) {
        Ok(read) => read,
        Err(ReadFault::NoMemory) => return Err(TextFault::NoMemory),
        Err(ReadFault::Fault(_)) => return Err(TextFault::NotAText),
    };
    if !reader.rest().is_empty() {
        return Err(TextFault::NotAText);
    }
    Ok(read)
}
