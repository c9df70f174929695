//! Whether a file is evidence.

ghost use Rattle.std.specs.Prelude.{◌≡◌, ◌↔◌, ℕ, List, option_map, IfErr, IfOk, IfSome, IsErrOf, IsTrue};
ghost use Rattle.std.specs.Prelude.{OnOk};
ghost use Rattle.std.specs.Prelude.{string_bytes};
ghost use Rattle.rpc.specs.Records.Count.{Rises};
ghost use Rattle.console.specs.Checking.{IsRead, IsTold, IsTrusted, Judges, JudgesCase, TellsPart};
ghost use Rattle.std.specs.Prelude.{[], None};
ghost use Rattle.console.specs.declared.checking.Format.TheVariants as Format;
ghost use Rattle.console.specs.Checking.{IsNoCase, WritesTold, line_form, words_of};
ghost use Rattle.console.specs.Contents.{IsContents};
ghost use Rattle.xdr.specs.Texts.Text.{GivesText};
ghost use Rattle.challenge.specs.Cases.{case_text, case_value};
ghost use Rattle.challenge.specs.Charges.{IsWritten};
ghost use Rattle.challenge.specs.FaultNumbers.{is_garbage};
ghost use Rattle.console.specs.declared.fault.CheckFault.TheVariants.{NoMemory, Write};

use crate::fault::CheckFault;
use crate::input::{Contents, read_contents};
use authenticator::Roster;
use challenge::{Case, EvidenceFault, Finding, accepted_evidence_proves, examine, read_case};
use explain::{
    CLEARS_NOBODY, Detail, Facts, File, Lack, Text, VERSION, case_facts, first_undecodable,
    lack_of, no_case_facts, rejected_facts,
};
use rpc::records::{Counting, write_bytes};
use std::alloc::{AllocError, Global};
use std::io::{Read, Write};

/// What is said of a file.
#[derive(Clone, Copy)]
pub enum Judgement {
    /// It is evidence against this node: no log of it is honest, unless the node's signature is forged or two
    /// of the texts that were hashed have one digest.
    Exposed(u32),
    /// It isn't.
    NoEvidence(Reason),
}

/// Why a file is no evidence: the first of these.
#[derive(Clone, Copy)]
pub enum Reason {
    /// Its bytes aren't a roster's text with that of evidence after it. The first item that doesn't decode
    /// begins at this byte, counted from 0.
    NoCase(usize),
    /// Its roster isn't the one that is trusted.
    AnotherRoster,
    /// The evidence isn't accepted under its roster.
    NotAccepted(Lack),
}

/// How a judgement is told.
#[derive(Clone, Copy, PartialEq, Eq)]
pub enum Format {
    /// By its line alone.
    Line,
    /// By its line, and lines after it that say what the file shows.
    Lines,
    /// By one JSON object that says both (RFC 8259).
    Json,
}

/// Whether a roster is the one that is trusted, if one is.
fn is_trusted(trusted: Option<&Roster>, roster: &Roster) -> bool
    ensures { IsTrue result ↔ IsTrusted (option_map (λ r. r.now) trusted.entry) roster.now }
{
    match trusted {
        Some(trusted) => trusted.is_same(roster),
        None => true,
    }
}

/// What is found in a case whose roster is trusted, and what that says.
fn found(alloc: Global, case: &Case) -> Result<(Judgement, Finding), AllocError>
    ensures { IfOk result (λ x. JudgesCase None case.now x.0) }
{
    accepted_evidence_proves();
    case.evidence.has_text();
    let finding = examine(alloc, &case.roster, &case.evidence)?;
    match finding {
        Finding::NotAccepted(why) => {
            let lack = lack_of(&case.roster, &case.evidence, why);
            let judgement = Judgement::NoEvidence(Reason::NotAccepted(lack));
            Ok((judgement, finding))
        }
        _ => Ok((Judgement::Exposed(case.evidence.node()), finding)),
    }
}

/// A value, where another one is given up. It is generic, since the prover's time for a function grows with the
/// fields of what it gives up.
pub(crate) fn without<T: Drop, U: Drop>(value: T, _other: U) -> T
    ensures { result ≡ value }
{
    value
}

/// What is said of a file's bytes, which are given back to memory while they are read: `Exposed` exactly
/// where they are a roster's text, and after it that of evidence that is accepted under it, and where the
/// roster is the one that is trusted, if one is. `AllocError` comes only where a growth was refused.
pub fn judge(
    alloc: Global,
    trusted: Option<&Roster>,
    bytes: Vec<u8>,
) -> Result<Judgement, AllocError>
    ensures { IfOk result
        (λ judgement. Judges (option_map (λ r. r.now) trusted.entry) bytes.items judgement) }
{
    let at = first_undecodable(&bytes).unwrap_or(bytes.len());
    let case = read_case(alloc, bytes);
    let judgement = judge_read(alloc, trusted, at, &case);
    without(judgement, case)
}

/// What is said of bytes of which this case was read, or of which the item at this place doesn't decode.
#[tactic(auto, using(crate::proofs::Judging::of_case))]
fn judge_read(
    alloc: Global,
    trusted: Option<&Roster>,
    at: usize,
    case: &Result<Case, EvidenceFault>,
) -> Result<Judgement, AllocError>
    ensures { (bytes : List ℕ) → GivesText is_garbage case_text case_value bytes case.now →
        IfOk case.now (λ c. IsWritten c.evidence.charge) →
        IfOk result (λ judgement. Judges (option_map (λ r. r.now) trusted.entry) bytes judgement) }
{
    match case {
        Ok(case) => judge_case(alloc, trusted, case),
        Err(EvidenceFault::Garbage) => Ok(Judgement::NoEvidence(Reason::NoCase(at))),
        Err(EvidenceFault::NoMemory) => Err(AllocError),
    }
}

/// What is said of a case.
fn judge_case(alloc: Global, trusted: Option<&Roster>, case: &Case) -> Result<Judgement, AllocError>
    ensures { IfOk result
        (λ judgement. JudgesCase (option_map (λ r. r.now) trusted.entry) case.now judgement) }
{
    if !is_trusted(trusted, &case.roster) {
        return Ok(Judgement::NoEvidence(Reason::AnotherRoster));
    }
    let (judgement, _) = found(alloc, case)?;
    Ok(judgement)
}

/// As `judge`, with the facts that the bytes show.
fn explain(
    alloc: Global,
    trusted: Option<&Roster>,
    detail: Detail,
    bytes: Vec<u8>,
) -> Result<(Judgement, Facts), AllocError>
    ensures { IfOk result (λ x. Judges (option_map (λ r. r.now) trusted.entry) bytes.items x.0) }
{
    let file = File::new(&bytes);
    let at = first_undecodable(&bytes).unwrap_or(bytes.len());
    let case = read_case(alloc, bytes);
    let explained = explain_read(alloc, trusted, detail, &file, at, &case);
    without(explained, case)
}

/// As `judge_read`, with the facts that the bytes show.
#[tactic(auto, using(crate::proofs::Judging::of_case))]
fn explain_read(
    alloc: Global,
    trusted: Option<&Roster>,
    detail: Detail,
    file: &File,
    at: usize,
    case: &Result<Case, EvidenceFault>,
) -> Result<(Judgement, Facts), AllocError>
    ensures { (bytes : List ℕ) → GivesText is_garbage case_text case_value bytes case.now →
        IfOk case.now (λ c. IsWritten c.evidence.charge) →
        IfOk result (λ x. Judges (option_map (λ r. r.now) trusted.entry) bytes x.0) }
{
    match case {
        Ok(case) => explain_case(alloc, trusted, detail, file, case),
        Err(EvidenceFault::Garbage) => {
            let facts = no_case_facts(alloc, file, at);
            Ok((Judgement::NoEvidence(Reason::NoCase(at)), facts))
        }
        Err(EvidenceFault::NoMemory) => Err(AllocError),
    }
}

/// As `judge_case`, with the facts that the case shows.
fn explain_case(
    alloc: Global,
    trusted: Option<&Roster>,
    detail: Detail,
    file: &File,
    case: &Case,
) -> Result<(Judgement, Facts), AllocError>
    ensures { IfOk result (λ x. JudgesCase (option_map (λ r. r.now) trusted.entry) case.now x.0) }
{
    match trusted {
        Some(trusted) if !trusted.is_same(&case.roster) => {
            let facts = rejected_facts(alloc, file, case, trusted, detail);
            Ok((Judgement::NoEvidence(Reason::AnotherRoster), facts))
        }
        _ => {
            let (judgement, finding) = found(alloc, case)?;
            let facts = case_facts(alloc, file, case, trusted, detail, finding);
            Ok((judgement, facts))
        }
    }
}

/// The words that say a judgement.
fn words(alloc: Global, judgement: Judgement) -> Result<String, AllocError>
    ensures { IfOk result (λ text. string_bytes text ≡ words_of judgement) }
{
    match judgement {
        Judgement::Exposed(node) => format!(in alloc; "exposed {node}"),
        Judgement::NoEvidence(_) => format!(in alloc; "no evidence"),
    }
}

/// The line that says a judgement.
fn line(alloc: Global, judgement: Judgement) -> Result<Vec<u8>, AllocError>
    ensures { IfOk result (λ text. text.items ≡ line_form judgement []) }
{
    let words = words(alloc, judgement)?;
    let mut text = Vec::new(alloc);
    text.extend_from_slice(words.as_bytes())?;
    text.push(b'\n')?;
    Ok(text)
}

/// The line that says a judgement, and lines after it.
fn lines(alloc: Global, judgement: Judgement, more: &Text) -> Result<Vec<u8>, AllocError>
    ensures { IfOk result (λ text. IsTold Format.Lines judgement text.items) }
{
    let mut text = line(alloc, judgement)?;
    text.extend_from_slice(more.as_bytes())?;
    Ok(text)
}

/// The JSON object that says a judgement, and members after it.
fn json(alloc: Global, judgement: Judgement, more: &Text) -> Result<Vec<u8>, AllocError>
    ensures { IfOk result (λ text. IsTold Format.Json judgement text.items) }
{
    let words = words(alloc, judgement)?;
    let mut text = Vec::new(alloc);
    text.extend_from_slice(b"{\"verdict\":\"")?;
    text.extend_from_slice(words.as_bytes())?;
    text.extend_from_slice(b"\"")?;
    text.extend_from_slice(more.as_bytes())?;
    text.extend_from_slice(b"}\n")?;
    Ok(text)
}

/// The text that tells a judgement in a format, with these facts where it is more than a line.
fn told_by(
    alloc: Global,
    format: Format,
    judgement: Judgement,
    facts: &Facts,
) -> Result<Vec<u8>, AllocError>
    ensures { IfOk result (λ text. IsTold format judgement text.items) }
{
    match format {
        Format::Line => line(alloc, judgement),
        Format::Lines => {
            let more = facts.lines()?;
            lines(alloc, judgement, &more)
        }
        Format::Json => {
            let more = facts.members()?;
            json(alloc, judgement, &more)
        }
    }
}

/// What is said of a file's bytes, and the line that tells it.
fn told_in_line(
    alloc: Global,
    trusted: Option<&Roster>,
    bytes: Vec<u8>,
) -> Result<(Judgement, Vec<u8>), AllocError>
    ensures { IfOk result (λ x. Judges (option_map (λ r. r.now) trusted.entry) bytes.items x.0
        × IsTold Format.Line x.0 x.1.items) }
{
    let judgement = judge(alloc, trusted, bytes)?;
    let text = line(alloc, judgement)?;
    Ok((judgement, text))
}

/// What is said of a file's bytes, and the text that tells it with the facts that they show.
fn told_with_facts(
    alloc: Global,
    trusted: Option<&Roster>,
    format: Format,
    detail: Detail,
    bytes: Vec<u8>,
) -> Result<(Judgement, Vec<u8>), AllocError>
    ensures { IfOk result (λ x. Judges (option_map (λ r. r.now) trusted.entry) bytes.items x.0
        × IsTold format x.0 x.1.items) }
{
    let (judgement, facts) = explain(alloc, trusted, detail, bytes)?;
    let text = told_by(alloc, format, judgement, &facts)?;
    Ok((judgement, text))
}

/// What is said of a file's bytes, and the text that tells it.
fn told_of_whole(
    alloc: Global,
    trusted: Option<&Roster>,
    format: Format,
    detail: Detail,
    bytes: Vec<u8>,
) -> Result<(Judgement, Vec<u8>), AllocError>
    ensures { IfOk result (λ x. Judges (option_map (λ r. r.now) trusted.entry) bytes.items x.0
        × IsTold format x.0 x.1.items) }
{
    match format {
        Format::Line => told_in_line(alloc, trusted, bytes),
        Format::Lines | Format::Json => told_with_facts(alloc, trusted, format, detail, bytes),
    }
}

/// What a file shows that wasn't read to its end: the item that begins at this byte doesn't decode.
fn front_facts(alloc: Global, at: usize) -> Facts {
    let mut facts = Facts::new(alloc);
    facts.group("file");
    facts.words("read", "not to its end");
    facts.end();
    let mut program = facts.draft();
    program.words("nfsacc ");
    program.words(VERSION);
    facts.text("program", program);
    facts.words("reason", "the file is not a roster with evidence after it");
    facts.number("first byte that does not decode", at as u64);
    facts.words("note", CLEARS_NOBODY);
    facts
}

/// What is said of a file that begins with these bytes, and holds no evidence whatever follows.
fn told_of_front(
    alloc: Global,
    format: Format,
    front: &[u8],
) -> Result<(Judgement, Vec<u8>), AllocError>
    ensures case { IfOk result (λ x. IsNoCase x.0) }
    ensures told { IfOk result (λ x. IsTold format x.0 x.1.items) }
{
    let at = first_undecodable(front).unwrap_or(front.len());
    let judgement = Judgement::NoEvidence(Reason::NoCase(at));
    let text = front_text(alloc, format, judgement, at)?;
    Ok((judgement, text))
}

/// The text that tells a judgement of a file that wasn't read to its end.
fn front_text(
    alloc: Global,
    format: Format,
    judgement: Judgement,
    at: usize,
) -> Result<Vec<u8>, AllocError>
    ensures { IfOk result (λ text. IsTold format judgement text.items) }
{
    if format == Format::Line {
        return line(alloc, judgement);
    }
    let facts = front_facts(alloc, at);
    told_by(alloc, format, judgement, &facts)
}

/// What is said of a file of which this was read, and the text that tells it.
fn told(
    alloc: Global,
    trusted: Option<&Roster>,
    format: Format,
    detail: Detail,
    contents: Contents,
) -> Result<(Judgement, Vec<u8>), AllocError>
    ensures judged { (input : List ℕ) → IsContents contents input →
        IfOk result (λ x. Judges (option_map (λ r. r.now) trusted.entry) input x.0) }
    ensures told { IfOk result (λ x. IsTold format x.0 x.1.items) }
{
    match contents {
        Contents::Whole(bytes) => told_of_whole(alloc, trusted, format, detail, bytes),
        Contents::Front(front) => told_of_front(alloc, format, &front),
    }
}

/// Reads a file to its end, or up to where no evidence can have so many bytes or such first words, judges its
/// bytes under the roster that is trusted, if one is, and writes in a format what is said of it: the line
/// `exposed N`, with the node's number, or `no evidence`; after that line what the file shows, in plain
/// words, and what else is asked of its log; or one JSON object with both, the line's words first as
/// `verdict`. `Read` comes where a read failed, and then the reader's count rose and nothing was written;
/// `Write` where a write failed: then a part of that text was written, and the writer's count rose.
/// `NoMemory` comes where memory was refused, and then nothing was written.
pub fn check<R: Read, W: Write>(
    alloc: Global,
    trusted: Option<&Roster>,
    format: Format,
    detail: Detail,
    reader: &mut Counting<R>,
    writer: &mut Counting<W>,
) -> Result<Judgement, CheckFault>
    ensures judged { IfOk result (λ judgement. IfSome (R.remaining reader.old.inner) (λ input.
        Judges (option_map (λ r. r.now) trusted.entry) input judgement)) }
    ensures written { IfOk result (λ judgement. WritesTold format judgement
        (W.contents writer.old.inner) (W.contents writer.new.inner)) }
    ensures kept { OnOk result
        ((reader.new.count ≡ reader.old.count) × (writer.new.count ≡ writer.old.count)) }
    ensures memory { IsErrOf result NoMemory
        → (reader.new.count ≡ reader.old.count) × (writer.new ≡ writer.old) }
    ensures read { IfErr result (λ e. IsRead e
        → (writer.new ≡ writer.old) × Rises reader.old.count reader.new.count) }
    ensures write { IsErrOf result Write
        → TellsPart (option_map (λ r. r.now) trusted.entry) format (R.remaining reader.old.inner)
        (W.contents writer.old.inner) (W.contents writer.new.inner)
        × Rises writer.old.count writer.new.count × (reader.new.count ≡ reader.old.count) }
{
    let contents = read_contents(alloc, reader)?;
    let (judgement, text) = told(alloc, trusted, format, detail, contents)?;
    match write_bytes(writer, &text) {
        Ok(()) => Ok(judgement),
        Err(_) => Err(CheckFault::Write),
    }
}
