//! The lines of a run.

ghost use Rattle.std.specs.Prelude.{◌≡◌, IfOk, OnOk, string_bytes};
ghost use Rattle.std.specs.Io.KnownBytes.{Appends};
ghost use Rattle.std.specs.List.{flat_map};
ghost use Rattle.auditing.specs.Lines.{report_line};

use std::alloc::{AllocError, Global};
use std::io::Write;
use witness_calls::indication_word;
use witness_reports::NodeReport;

/// Why a line isn't written.
#[derive(Clone, Copy, Debug)]
pub enum LineFault {
    /// Memory was refused.
    NoMemory,
    /// A write failed.
    Device,
}

impl From<AllocError> for LineFault {
    fn from(_error: AllocError) -> LineFault {
        LineFault::NoMemory
    }
}

/// Writes a text.
pub fn write_text<O: Write>(writer: &mut O, text: &str) -> Result<(), LineFault>
    ensures { OnOk result (Appends (O.contents writer.old) (O.contents writer.new) text.now) }
{
    match writer.write_all(text.as_bytes()) {
        Ok(()) => Ok(()),
        Err(_) => Err(LineFault::Device),
    }
}

/// Writes the line of each report, `N INDICATION OPEN`, by one write.
pub fn write_reports<O: Write>(
    alloc: Global,
    writer: &mut O,
    reports: &[NodeReport],
) -> Result<(), LineFault>
    ensures { OnOk result (Appends (O.contents writer.old) (O.contents writer.new)
        (flat_map report_line reports.now)) }
{
    let mut text = String::new(alloc);
    for report in reports {
        let line = report_line(alloc, report)?;
        text.push_str(&line)?;
    }
    write_text(writer, &text)
}

/// The line of a report.
fn report_line(alloc: Global, report: &NodeReport) -> Result<String, AllocError>
    ensures { IfOk result (λ line. string_bytes line ≡ report_line report.now) }
{
    let word = indication_word(report.indication);
    format!(in alloc; "{} {word} {}\n", report.node, report.challenges)
}
