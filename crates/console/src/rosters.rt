//! The roster in a file.

ghost use Rattle.std.specs.Prelude.{◌≡◌, ℕ, List, IfErr, IfNone, IfOk, IfSome, IsErrOf, None, OnOk};
ghost use Rattle.xdr.specs.Texts.Text.{text_at};
ghost use Rattle.challenge.specs.Cases.{case_text};
ghost use Rattle.rpc.specs.Records.Count.{Rises};
ghost use Rattle.console.specs.Checking.{HoldsNone, HoldsRoster, IsRead};
ghost use Rattle.console.specs.Contents.{IsContents};
ghost use Rattle.console.specs.declared.fault.CheckFault.TheVariants.{NoMemory, Write};

use crate::checking::without;
use crate::fault::CheckFault;
use crate::input::{Contents, read_contents};
use authenticator::Roster;
use challenge::{EvidenceFault, read_case};
use explain::roster_facts;
use rpc::records::{Counting, write_bytes};
use std::alloc::{AllocError, Global};
use std::io::{Read, Write};
use xdr::texts::TextFault;

/// The roster whose text the bytes are, or with whose text they begin where that of evidence follows it; None
/// where they are neither. `AllocError` comes only where a growth was refused.
fn roster_in(alloc: Global, bytes: Vec<u8>) -> Result<Option<Roster>, AllocError>
    ensures some { IfOk result (λ r. IfSome r (HoldsRoster bytes.items)) }
    ensures none { IfOk result (λ r. IfNone r (HoldsNone bytes.items)) }
{
    match Roster::read(alloc, &bytes) {
        Ok(roster) => Ok(Some(roster)),
        Err(TextFault::NotAText) => roster_of_case(alloc, bytes),
        Err(TextFault::NoMemory) => Err(AllocError),
    }
}

/// The roster of the case whose text the bytes are, if they are one's.
fn roster_of_case(alloc: Global, bytes: Vec<u8>) -> Result<Option<Roster>, AllocError>
    ensures some { IfOk result (λ r. IfSome r (HoldsRoster bytes.items)) }
    ensures none { IfOk result (λ r. IfNone r (text_at case_text bytes.items ≡ None)) }
{
    match read_case(alloc, bytes) {
        Ok(case) => Ok(Some(without(case.roster, case.evidence))),
        Err(EvidenceFault::Garbage) => Ok(None),
        Err(EvidenceFault::NoMemory) => Err(AllocError),
    }
}

/// The roster in a file of which this was read.
fn roster_of(alloc: Global, contents: Contents) -> Result<Option<Roster>, AllocError>
    ensures some { (input : List ℕ) → IsContents contents input →
        IfOk result (λ r. IfSome r (HoldsRoster input)) }
    ensures none { (input : List ℕ) → IsContents contents input →
        IfOk result (λ r. IfNone r (HoldsNone input)) }
{
    match contents {
        Contents::Whole(bytes) => roster_in(alloc, bytes),
        Contents::Front(_) => Ok(None),
    }
}

/// Reads a file to its end, or up to where no roster and no evidence can have so many bytes or such first
/// words, and answers the roster in it: the file is a roster's text alone, or one with that of evidence after
/// it; None where it is neither. `Read` comes where a read failed, and then the reader's count rose;
/// `NoMemory` where memory was refused.
pub fn read_roster<R: Read>(
    alloc: Global,
    reader: &mut Counting<R>,
) -> Result<Option<Roster>, CheckFault>
    ensures some { IfOk result (λ r. IfSome (R.remaining reader.old.inner) (λ input.
        IfSome r (HoldsRoster input))) }
    ensures none { IfOk result (λ r. IfSome (R.remaining reader.old.inner) (λ input.
        IfNone r (HoldsNone input))) }
    ensures kept { OnOk result (reader.new.count ≡ reader.old.count) }
    ensures memory { IsErrOf result NoMemory → reader.new.count ≡ reader.old.count }
    ensures read { IfErr result (λ e. IsRead e → Rises reader.old.count reader.new.count) }
    ensures written { IsErrOf result Write → ⊥ }
{
    let contents = read_contents(alloc, reader)?;
    let roster = roster_of(alloc, contents)?;
    Ok(roster)
}

/// Writes the members of a roster, by lines, and the digest of its text, so that two people can compare what
/// they hold. `NoMemory` comes where memory was refused, and then nothing was written; `Write` where a write
/// failed, and then the writer's count rose.
pub fn write_roster<W: Write>(
    alloc: Global,
    roster: &Roster,
    writer: &mut Counting<W>,
) -> Result<(), CheckFault>
    ensures kept { OnOk result (writer.new.count ≡ writer.old.count) }
    ensures memory { IsErrOf result NoMemory → writer.new ≡ writer.old }
    ensures write { IsErrOf result Write → Rises writer.old.count writer.new.count }
{
    let lines = roster_facts(alloc, roster).lines()?;
    match write_bytes(writer, lines.as_bytes()) {
        Ok(()) => Ok(()),
        Err(_) => Err(CheckFault::Write),
    }
}
