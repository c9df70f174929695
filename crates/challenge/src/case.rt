//! Cases: a roster and evidence, as a file has them.

ghost use Rattle.std.specs.Prelude.{◌≡◌, IfOk, IsTrue, MatchResult};
ghost use Rattle.xdr.specs.Item.{Fits, Value, spelling};
ghost use Rattle.xdr.specs.Writing.{Adds, Writes};
ghost use Rattle.xdr.specs.Texts.Text.{GivesText, IsText};
ghost use Rattle.evidence_showings.specs.evidence_spec.Evidence.{evidence_value};
ghost use Rattle.authenticator.specs.Roster.{roster_value};
ghost use Rattle.challenge.specs.Cases.{case_item, case_text, case_value};
ghost use Rattle.challenge.specs.Charges.{IsWritten};
ghost use Rattle.challenge.specs.FaultNumbers.{is_garbage};
ghost use Rattle.challenge.specs.declared.fault.EvidenceFault.TheVariants.{NoMemory};

use crate::evidence::Evidence;
use crate::fault::EvidenceFault;
use crate::items::take_roster;
use crate::read::evidence_of;
use crate::source::Source;
use authenticator::Roster;
use secure_log::are_bytes;
use std::alloc::{AllocError, Global};
use xdr::all_or_nothing;

/// A roster, and evidence against a node.
#[derive(Drop)]
pub struct Case {
    /// The roster.
    pub roster: Roster,
    /// The evidence.
    pub evidence: Evidence,
}

/// The case whose text the bytes are, a roster's text with that of evidence after it. The bytes are given up,
/// as to `read_evidence`. `Garbage` comes exactly where they are the text of none, `NoMemory` only where a
/// growth was refused.
pub fn read_case(alloc: Global, bytes: Vec<u8>) -> Result<Case, EvidenceFault>
    ensures exact { GivesText is_garbage case_text case_value bytes.items result }
    ensures found { IfOk result (λ c. IsText case_text (case_value c) bytes.items) }
    ensures only { (v : Value case_text.item) → IsText case_text v bytes.items →
        MatchResult result (λ c. case_value c ≡ v) (λ e. e ≡ NoMemory) }
    ensures written { IfOk result (λ c. IsWritten c.evidence.charge) }
{
    are_bytes(&bytes);
    case_of(alloc, Source::new(bytes))
}

/// The case whose text is what is left of the bytes, to their end.
fn case_of(alloc: Global, mut source: Source) -> Result<Case, EvidenceFault>
    ensures text { GivesText is_garbage case_text case_value source result }
    ensures written { IfOk result (λ c. IsWritten c.evidence.charge) }
{
    are_bytes(source.rest());
    let listed = take_roster(alloc, &mut source)?;
    let Some(roster) = listed.into_roster() else {
        return Err(EvidenceFault::Garbage);
    };
    let evidence = evidence_of(alloc, source)?;
    Ok(Case { roster, evidence })
}

/// Appends the text of a case. Where memory was refused the bytes are as they were.
pub fn write_case(roster: &Roster, evidence: &Evidence, out: &mut Vec<u8>) -> Result<(), AllocError>
    ensures fits { Fits case_item (roster_value roster.now, evidence_value evidence.now) }
    ensures passes { IsTrue (case_text.test (roster_value roster.now, evidence_value evidence.now)) }
    ensures text { Writes case_item (roster_value roster.now, evidence_value evidence.now)
        out.old.items result out.new.items }
{
    let start = out.len();
    let written = add_case(roster, evidence, out);
    all_or_nothing(out, start, written)
}

fn add_case(roster: &Roster, evidence: &Evidence, out: &mut Vec<u8>) -> Result<(), AllocError>
    ensures fits { Fits case_item (roster_value roster.now, evidence_value evidence.now) }
    ensures passes { IsTrue (case_text.test (roster_value roster.now, evidence_value evidence.now)) }
    ensures text { Adds (spelling case_item (roster_value roster.now, evidence_value evidence.now))
        out.old.items result out.new.items }
{
    evidence.has_text();
    roster.write(out)?;
    evidence.write(out)
}
