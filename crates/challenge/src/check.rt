//! Whether evidence is accepted.

ghost use Rattle.std.specs.Prelude.{◌↔◌, IfOk, IsTrue};
ghost use Rattle.evidence_showings.specs.evidence_spec.Evidence.{Accepts};
ghost use Rattle.evidence_showings.specs.evidence_spec.Proving.{Proves};

use crate::evidence::Evidence;
use crate::find::examine;
use authenticator::Roster;
use evidence_showings::accepted_evidence_proves;
use std::alloc::{AllocError, Global};

/// Whether evidence is accepted under a roster. Where it is, it proves that no log of the node is honest
/// unless one of the signatures that it shows is forged or two of the texts that it and the log hash have one
/// digest. `AllocError` comes only where a growth was refused.
pub fn check_evidence(
    alloc: Global,
    roster: &Roster,
    evidence: &Evidence,
) -> Result<bool, AllocError>
    ensures exact { IfOk result (λ b. IsTrue b ↔ Accepts roster.now evidence.now) }
    ensures proves { IfOk result (λ b. IsTrue b → Proves roster.now evidence.now) }
{
    accepted_evidence_proves();
    evidence.has_text();
    let finding = examine(alloc, roster, evidence)?;
    Ok(finding.is_accepted())
}
