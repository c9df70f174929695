//! `nfsacc check`, `nfsacc roster` and `nfsacc base`.

use crate::{DASH, STANDARD_INPUT};
use command_line::{CheckRequest, state_number};
use console::{
    Base, BaseJudgement, CheckFault, Checked, Detail, Format, Judgement, Reason, Roster, check,
    check_base, read_base, read_roster, write_roster,
};
use program_output::{
    COMMAND_LINE, INPUT_FAULT, Remembering, report_file, report_no_memory, report_output,
};
use rpc::records::Counting;
use shown_names::ShownName;
use std::io::Read;
use std::os::unix::fs::MetadataExt;
use std::rt::Files;
use std::{fs, io};

/// How what is found of a file is told.
#[derive(Clone, Copy)]
struct Telling {
    format: Format,
    detail: Detail,
}

/// How a request asks for it to be told, or the status where it names no entry.
fn telling_of(rt: &impl Eprint, request: &CheckRequest<'_>) -> Result<Telling, u8> {
    let state = match state_number(request) {
        Ok(number) => number.map(u64::from),
        Err(refusal) => {
            let _ = eprintln!(rt; "nfsacc: {refusal}");
            return Err(COMMAND_LINE);
        }
    };
    let format = if request.json {
        Format::Json
    } else if request.explain || request.entries || state.is_some() {
        Format::Lines
    } else {
        Format::Line
    };
    let detail = Detail {
        entries: request.entries,
        state,
    };
    Ok(Telling { format, detail })
}

/// Says on standard output whether a file is evidence, and gives the status for it.
pub fn check_file<R>(rt: &R, request: CheckRequest<'_>) -> u8
where
    R: Files + Input + Print + Eprint + AllocGlobal,
{
    let telling = match telling_of(rt, &request) {
        Ok(telling) => telling,
        Err(status) => return status,
    };
    let Some(name) = request.roster else {
        return check_under(rt, request.file, telling, None);
    };
    if name == DASH && request.file == DASH {
        let _ = rt.eprintln("nfsacc: standard input is one file: the roster or the evidence");
        return COMMAND_LINE;
    }
    if name != DASH && is_same_file(rt, name, request.file) {
        let shown = ShownName::new(name);
        let _ = eprintln!(rt; "nfsacc: {shown}: the roster that is trusted is the file's own");
    }
    // That no roster is there is no fault of the file that is checked.
    match roster_in(rt, name, COMMAND_LINE) {
        Ok(trusted) => check_under(rt, request.file, telling, Some(&trusted)),
        Err(status) => status,
    }
}

/// Whether two names are of one file. Of one that isn't there they aren't.
fn is_same_file<R: Files>(rt: &R, one: &str, other: &str) -> bool {
    let Ok(one) = fs::metadata(rt, one) else {
        return false;
    };
    let Ok(other) = fs::metadata(rt, other) else {
        return false;
    };
    one.dev() == other.dev() && one.ino() == other.ino()
}

/// Checks a file, or standard input, under the roster that is trusted, if one is.
fn check_under<R>(rt: &R, name: &str, telling: Telling, trusted: Option<&Roster>) -> u8
where
    R: Files + Input + Print + Eprint + AllocGlobal,
{
    if name == DASH {
        return check_input(rt, rt.reader(), STANDARD_INPUT, telling, trusted);
    }
    match fs::open(rt, name) {
        Ok(file) => check_input(rt, file, name, telling, trusted),
        Err(error) => report_file(rt, name, &error),
    }
}

/// Checks what is read under a name.
fn check_input<R, I>(rt: &R, input: I, name: &str, telling: Telling, trusted: Option<&Roster>) -> u8
where
    R: Print + Eprint + AllocGlobal,
    I: Read + Drop,
{
    let mut reader = Counting::new(input);
    let mut writer = Counting::new(Remembering::new(io::writer(rt)));
    let Telling { format, detail } = telling;
    match check(
        rt.alloc(),
        trusted,
        format,
        detail,
        &mut reader,
        &mut writer,
    ) {
        Ok(Judgement::Exposed(_)) => 0,
        Ok(Judgement::NoEvidence(reason)) => {
            if format == Format::Line {
                report_reason(rt, name, reason);
            }
            INPUT_FAULT
        }
        Err(CheckFault::Write) => report_output(rt, writer.get_ref().last()),
        Err(fault) => report_check(rt, name, fault),
    }
}

/// Says on standard error why a file is no evidence.
fn report_reason(rt: &impl Eprint, name: &str, reason: Reason) {
    let name = ShownName::new(name);
    let _ = match reason {
        Reason::NoCase(at) => eprintln!(rt;
            "nfsacc: {name}: not a roster with evidence after it: the item at byte {at} does not decode"
        ),
        Reason::AnotherRoster => {
            eprintln!(rt; "nfsacc: {name}: its roster is not the one that is trusted")
        }
        Reason::NotAccepted(lack) => {
            let why = lack.words();
            eprintln!(rt; "nfsacc: {name}: the evidence is not accepted: {why}")
        }
    };
}

/// Says on standard output who is in the roster of a file, or of standard input, and gives the status for it.
pub fn show_roster<R>(rt: &R, name: &str) -> u8
where
    R: Files + Input + Print + Eprint + AllocGlobal,
{
    match roster_in(rt, name, INPUT_FAULT) {
        Ok(roster) => {
            let mut writer = Counting::new(Remembering::new(io::writer(rt)));
            match write_roster(rt.alloc(), &roster, &mut writer) {
                Ok(()) => 0,
                Err(CheckFault::Write) => report_output(rt, writer.get_ref().last()),
                Err(fault) => report_check(rt, name, fault),
            }
        }
        Err(status) => status,
    }
}

/// The roster in a file, or on standard input, or the status: where it has none it is this one.
fn roster_in<R>(rt: &R, name: &str, without: u8) -> Result<Roster, u8>
where
    R: Files + Input + Eprint + AllocGlobal,
{
    if name == DASH {
        return roster_of(rt, rt.reader(), STANDARD_INPUT, without);
    }
    match fs::open(rt, name) {
        Ok(file) => roster_of(rt, file, name, without),
        Err(error) => Err(report_file(rt, name, &error)),
    }
}

/// The roster in what is read under a name.
fn roster_of<R, I>(rt: &R, input: I, name: &str, without: u8) -> Result<Roster, u8>
where
    R: Eprint + AllocGlobal,
    I: Read + Drop,
{
    match read_roster(rt.alloc(), &mut Counting::new(input)) {
        Ok(Some(roster)) => Ok(roster),
        Ok(None) => {
            let shown = ShownName::new(name);
            let _ = eprintln!(rt;
                "nfsacc: {shown}: neither a roster nor one with evidence after it"
            );
            Err(without)
        }
        Err(fault) => Err(report_check(rt, name, fault)),
    }
}

/// Says on standard output whether a file, or standard input, holds a base, and gives the status for it.
pub fn check_base_file<R>(rt: &R, name: &str) -> u8
where
    R: Files + Input + Print + Eprint + AllocGlobal,
{
    if name == DASH {
        return check_base_input(rt, rt.reader(), STANDARD_INPUT);
    }
    match fs::open(rt, name) {
        Ok(file) => check_base_input(rt, file, name),
        Err(error) => report_file(rt, name, &error),
    }
}

/// Checks the base in what is read under a name.
fn check_base_input<R, I>(rt: &R, input: I, name: &str) -> u8
where
    R: Print + Eprint + AllocGlobal,
    I: Read + Drop,
{
    let mut reader = Counting::new(input);
    let mut writer = Counting::new(Remembering::new(io::writer(rt)));
    match check_base(rt.alloc(), &mut reader, &mut writer) {
        Ok(BaseJudgement::Base { .. }) => 0,
        Ok(BaseJudgement::NoBase(refusal)) => {
            let shown = ShownName::new(name);
            let _ = eprintln!(rt; "nfsacc: {shown}: no base: {refusal}");
            INPUT_FAULT
        }
        Err(CheckFault::Write) => report_output(rt, writer.get_ref().last()),
        Err(fault) => report_check(rt, name, fault),
    }
}

/// The base in a file, or on standard input, or the status: where it holds none that is said on standard
/// error.
pub fn read_base_file<R>(rt: &R, name: &str) -> Result<Checked<Base>, u8>
where
    R: Files + Input + Eprint + AllocGlobal,
{
    if name == DASH {
        return base_of(rt, rt.reader(), STANDARD_INPUT);
    }
    match fs::open(rt, name) {
        Ok(file) => base_of(rt, file, name),
        Err(error) => Err(report_file(rt, name, &error)),
    }
}

/// The base in what is read under a name.
fn base_of<R, I>(rt: &R, input: I, name: &str) -> Result<Checked<Base>, u8>
where
    R: Eprint + AllocGlobal,
    I: Read + Drop,
{
    match read_base(rt.alloc(), &mut Counting::new(input)) {
        Ok(Ok(base)) => Ok(base),
        Ok(Err(refusal)) => {
            let shown = ShownName::new(name);
            let number = refusal.number().unwrap_or(0);
            let _ = eprintln!(rt; "nfsacc: {shown}: refused {number}");
            Err(INPUT_FAULT)
        }
        Err(fault) => Err(report_check(rt, name, fault)),
    }
}

/// Says on standard error why nothing is said of a file, and gives the status for it.
fn report_check(rt: &impl Eprint, name: &str, fault: CheckFault) -> u8 {
    match fault {
        CheckFault::NoMemory => report_no_memory(rt),
        CheckFault::Read(error) => report_file(rt, name, &error),
        CheckFault::Write => report_output(rt, None),
    }
}
