//! When there is evidence against a node, and what it proves; and what was audited where there is none.

ghost use Rattle.witness_spec.specs.Laws.{EvidenceWhereExposed, EvidenceProves};
ghost use Rattle.witness_laws.specs.Audits.{AuditedLogsAreHonest, TakenIsShown};

use witness_spec::accepted_evidence_proves;

/// There is evidence against a node exactly where the node is Exposed.
pub fn evidence_where_exposed()
    ensures { EvidenceWhereExposed }
{}

/// Evidence that a witness has against a node is of that node, has a text, and is accepted under the roster;
/// so it proves that the node has no honest log, unless a signature is forged or two texts have one digest.
pub fn evidence_proves()
    ensures { EvidenceProves }
{
    accepted_evidence_proves();
}

/// While a node isn't exposed, all that was audited of it is one log, honest from where the audit began up to the
/// end; and at each of its numbers nothing else was shown than what that log has there.
pub fn audited_logs_are_honest()
    ensures { AuditedLogsAreHonest }
{}

/// Each authenticator that a witness took of a node that isn't exposed, new or known before, was shown.
pub fn taken_is_shown()
    ensures { TakenIsShown }
{}
