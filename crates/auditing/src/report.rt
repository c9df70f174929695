//! Evidence in the end of a run.

ghost use Rattle.std.specs.Prelude.{◌≡◌, All};
ghost use Rattle.auditing.specs.AuditOutputs.{Goes, IsShown};
ghost use Rattle.auditing.specs.declared.trouble.Trouble.TheVariants as troubles;

use crate::output::AuditOutput;
use authenticator::Roster;
use std::io::Write;
use witness_calls::Shelf;
use witness_reports::NodeReport;

/// Puts the evidence of each report in its place in a folder. What goes wrong is said and noted.
pub fn put_evidence<E: Write, S: Shelf>(
    output: &mut AuditOutput<E, S>,
    folder: &str,
    roster: &Roster,
    reports: &[NodeReport],
)
    ensures goes { Goes S.files output.old output.new }
    ensures put { output.new.trouble ≡ troubles.None →
        All (IsShown (S.files output.new.shelf) folder.now roster.now) reports.now }
{
    for report in reports {
        put_report(output, folder, roster, report);
    }
}

/// Puts the evidence of a report in its place.
fn put_report<E: Write, S: Shelf>(
    output: &mut AuditOutput<E, S>,
    folder: &str,
    roster: &Roster,
    report: &NodeReport,
)
    ensures goes { Goes S.files output.old output.new }
    ensures put { output.new.trouble ≡ troubles.None →
        IsShown (S.files output.new.shelf) folder.now roster.now report.now }
{
    if let Some(evidence) = &report.evidence {
        output.put_evidence(folder, roster, report.node, evidence);
    }
}
