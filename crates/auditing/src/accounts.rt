//! Whether a journal accounts for a node's log.

ghost use Rattle.std.specs.Prelude.{◌≡◌, ◌⊎◌, true, IsTrue};
ghost use Rattle.witness_reports.specs.node_book.declared.reply.Indication.TheVariants.{Trusted};
ghost use Rattle.node_logs.specs.Nodes.{sender_of};
ghost use Rattle.witness_reports.specs.Audits.{was_filed_to, was_refused};
ghost use Rattle.auditing.specs.Accounts.{HasAccount, IsAccounted, IsAudited, IsEndOfSigned};

use nodes::NodeLog;
use witness_reports::{Indication, NodeReport, Note, was_filed_to, was_refused};

/// Whether there is a report of a node, and its log is accounted for: a node that is called trusted was
/// audited to its last signed entry, or its audit was refused.
pub fn has_account(reports: &[NodeReport], places: &[Note], log: &NodeLog) -> bool
    ensures { IsTrue result → HasAccount reports.now places.now log.now }
{
    for report in reports {
        if report.node == log.log().node() {
            return is_accounted(report, places, log);
        }
    }
    false
}

/// Whether a node's log is accounted for.
fn is_accounted(report: &NodeReport, places: &[Note], log: &NodeLog) -> bool
    ensures { IsTrue result → IsAccounted places.now report.now (sender_of log.now) }
{
    is_audited_to(report, places, last_signed(log))
}

/// Whether a node that is called trusted was audited to this number, its last signed one, or its audit was
/// refused.
fn is_audited_to(report: &NodeReport, places: &[Note], last: u64) -> bool
    ensures { IsTrue result → IsAudited places.now report.now last }
{
    report.indication != Indication::Trusted
        || last == 0
        || was_filed_to(places, report.node, last)
        || was_refused(places, report.node)
}

/// The last number at which a node signed something, or 0. Nothing is signed at the 4,096 numbers after it.
pub fn last_signed(log: &NodeLog) -> u64
    ensures { IsEndOfSigned (sender_of log.now) result }
{
    let mut last = 0;
    while let Some(next) = log.signed_after(last) {
        last = next.get();
    }
    last
}
