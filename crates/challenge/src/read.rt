//! Evidence from its text (RFC 4506).

ghost use Rattle.std.specs.Prelude.{◌≡◌, IfOk, MatchResult};
ghost use Rattle.xdr.specs.Item.{Value, choice};
ghost use Rattle.xdr.specs.Reading.{GivesUnless};
ghost use Rattle.xdr.specs.ReadFault.{xdr_fault};
ghost use Rattle.xdr.specs.Texts.Text.{GivesText, IsText};
ghost use Rattle.authenticator.specs.declared.member.LogVersion.TheVariants.{One, Two};
ghost use Rattle.secure_log.specs.Versioned.{versioned_value, worded_value};
ghost use Rattle.evidence_showings.specs.evidence_spec.Evidence.{charge_item, is_charge, replay_item};
ghost use Rattle.evidence_showings.specs.evidence_spec.Evidence.{evidence_item, evidence_text};
ghost use Rattle.evidence_showings.specs.evidence_spec.Evidence.{evidence_value};
ghost use Rattle.challenge.specs.Charges.{IsWritten};
ghost use Rattle.challenge.specs.FaultNumbers.{is_garbage};
ghost use Rattle.challenge.specs.ReadCharges.{read_value};
ghost use Rattle.challenge.specs.declared.fault.EvidenceFault.TheVariants.{NoMemory};

use crate::based_read::take_based;
use crate::charges::ReadCharge;
use crate::evidence::{AuditedLog, Evidence};
use crate::fault::EvidenceFault;
use crate::items::{
    take_authenticator, take_entries, take_fork, take_hash, take_number, take_word,
    take_worded_entries, take_worded_fork,
};
use crate::source::Source;
use evidence_showings::MAX_AUDITED;
use secure_log::{WordedSegment, are_bytes};
use std::alloc::Global;
use xdr::{ReadFault, XdrFault};

/// The evidence whose text the bytes are. The bytes are given up, and back to memory while they are read, so
/// that a log's entries stand beside a small part of their text. `Garbage` comes exactly where the bytes are
/// the text of none, `NoMemory` only where a growth was refused. Nothing is reserved by a count alone.
pub fn read_evidence(alloc: Global, bytes: Vec<u8>) -> Result<Evidence, EvidenceFault>
    ensures exact { GivesText is_garbage evidence_text evidence_value bytes.items result }
    ensures found { IfOk result (λ e. IsText evidence_text (evidence_value e) bytes.items) }
    ensures only { (v : Value evidence_text.item) → IsText evidence_text v bytes.items →
        MatchResult result (λ e. evidence_value e ≡ v) (λ e. e ≡ NoMemory) }
    ensures written { IfOk result (λ e. IsWritten e.charge) }
{
    are_bytes(&bytes);
    evidence_of(alloc, Source::new(bytes))
}

/// The evidence whose text is what is left of the bytes, to their end.
#[tactic(auto, unfolding(xdr::specs::Texts::Text::text_at))]
pub(crate) fn evidence_of(alloc: Global, mut source: Source) -> Result<Evidence, EvidenceFault>
    ensures text { GivesText is_garbage evidence_text evidence_value source result }
    ensures written { IfOk result (λ e. IsWritten e.charge) }
{
    let (node, charge) = take_parts(alloc, &mut source)?;
    if !source.rest().is_empty() {
        return Err(EvidenceFault::Garbage);
    }
    let Some(charge) = charge.into_charge(alloc)? else {
        return Err(EvidenceFault::Garbage);
    };
    match Evidence::new(node, charge) {
        Some(evidence) => Ok(evidence),
        None => Err(EvidenceFault::Garbage),
    }
}

/// Takes the parts of evidence.
fn take_parts(alloc: Global, source: &mut Source) -> Result<(u32, ReadCharge), ReadFault>
    ensures { GivesUnless xdr_fault evidence_item (λ x. (x.0, read_value x.1))
        source.old result source.new }
{
    let node = take_word(alloc, source)?;
    let charge = take_charge(alloc, source)?;
    Ok((node, charge))
}

/// Takes what is shown against a node.
fn take_charge(alloc: Global, source: &mut Source) -> Result<ReadCharge, ReadFault>
    ensures { GivesUnless xdr_fault (choice is_charge charge_item) read_value source.old result source.new }
{
    match take_word(alloc, source)? {
        1 => {
            let (at, a, b) = take_fork(alloc, source)?;
            Ok(ReadCharge::Fork(at, a, b))
        }
        2 => {
            let log = take_log(alloc, source)?;
            Ok(ReadCharge::Replay(log))
        }
        3 => {
            let (at, a, b) = take_worded_fork(alloc, source)?;
            Ok(ReadCharge::WordedFork(at, a, b))
        }
        4 => {
            let log = take_worded_log(alloc, source)?;
            Ok(ReadCharge::WordedReplay(log))
        }
        5 => {
            let based = take_based(alloc, source)?;
            Ok(ReadCharge::Based(based))
        }
        _ => Err(ReadFault::Fault(XdrFault::BadEnum)),
    }
}

/// Takes a log of version 1.
pub(crate) fn take_log(alloc: Global, source: &mut Source) -> Result<AuditedLog, ReadFault>
    ensures text { GivesUnless xdr_fault (replay_item One) (λ log. versioned_value One log)
        source.old result source.new }
    ensures version { IfOk result (λ log. log.log_version ≡ One) }
{
    are_bytes(source.rest());
    let node = take_word(alloc, source)?;
    let first = take_number(alloc, source)?;
    let opening = take_hash(source)?;
    let entries = take_entries(alloc, source)?;
    let closing = take_authenticator(alloc, source)?;
    Ok(AuditedLog::plain(alloc, node, first, opening, entries, closing))
}

/// Takes a log of version 2, whose words aren't checked.
pub(crate) fn take_worded_log(
    alloc: Global,
    source: &mut Source,
) -> Result<WordedSegment<MAX_AUDITED>, ReadFault>
    ensures { GivesUnless xdr_fault (replay_item Two) (λ log. worded_value log)
        source.old result source.new }
{
    are_bytes(source.rest());
    let node = take_word(alloc, source)?;
    let before = take_number(alloc, source)?;
    let opening = take_hash(source)?;
    let (words, entries) = take_worded_entries(alloc, source)?;
    let closing = take_authenticator(alloc, source)?;
    Ok(WordedSegment::new(node, before, opening, words, entries, closing))
}
