//! `nfsacc run`.

use crate::evidence::read_base_file;
use crate::{DASH, INPUT_FILE, READ_AHEAD, STANDARD_INPUT};
use command_line::RunRequest;
use console::{Base, Checked};
use party_files::{FileShelf, leads_to};
use program_output::{
    COMMAND_LINE, INPUT_FAULT, Remembering, report_file, report_no_memory, report_output,
};
use scripts::{ScriptEnd, ScriptFault, ScriptFiles, StartFault, run_script};
use shown_names::ShownName;
use std::fs::{Metadata, OpenFile};
use std::io::{BufReader, Read};
use std::random::RandomSource;
use std::rt::Files;
use std::sync::Wait;
use std::thread::Threads;
use std::{fs, io};

/// Runs the script in a file, or the one on standard input.
pub fn run_file<R>(rt: &R, request: RunRequest<'_>) -> u8
where
    R: Files + Input + Print + Eprint + AllocGlobal + RandomSource + Threads + Wait + Sync,
{
    if request.file == DASH {
        if is_roster_out(rt, request, fs::metadata(rt, INPUT_FILE)) {
            return report_roster_out(rt, request);
        }
        return match BufReader::with_capacity(rt.alloc(), READ_AHEAD, rt.reader()) {
            Ok(reader) => run_lines(rt, reader, STANDARD_INPUT, request),
            Err(_) => report_no_memory(rt),
        };
    }
    match fs::open(rt, request.file) {
        Ok(file) if is_roster_out(rt, request, file.metadata()) => report_roster_out(rt, request),
        Ok(file) => match BufReader::with_capacity(rt.alloc(), READ_AHEAD, file) {
            Ok(reader) => run_lines(rt, reader, request.file, request),
            Err(_) => report_no_memory(rt),
        },
        Err(error) => report_file(rt, request.file, &error),
    }
}

/// Whether the roster is to go to the file that the script stands in, by whichever name.
fn is_roster_out<R: Files>(rt: &R, request: RunRequest<'_>, script: io::Result<Metadata>) -> bool {
    match (request.roster_out, script) {
        (Some(name), Ok(script)) => leads_to(rt, name, &script),
        _ => false,
    }
}

/// Says on standard error that the roster would take the script's place.
fn report_roster_out(rt: &impl Eprint, request: RunRequest<'_>) -> u8 {
    let name = request.roster_out.unwrap_or("");
    let _ = eprintln!(rt; "nfsacc: {name}: the roster would take the place of the script");
    COMMAND_LINE
}

/// Runs the lines of the script with a name, and gives the status for how it came to its end.
fn run_lines<R, I>(rt: &R, input: I, name: &str, request: RunRequest<'_>) -> u8
where
    R: Files + Input + Print + Eprint + AllocGlobal + RandomSource + Threads + Wait + Sync,
    I: Read + Drop,
{
    let bases = match first_bases(rt, request.base) {
        Ok(bases) => bases,
        Err(status) => return status,
    };
    let mut shelf = FileShelf::new(rt, rt.alloc());
    let mut reader = Remembering::new(input);
    let mut writer = Remembering::new(io::writer(rt));
    let ended = run_script(
        rt,
        rt.alloc(),
        &mut reader,
        &mut writer,
        &mut shelf,
        ScriptFiles {
            roster: request.roster_out,
            bases: request.base_out,
        },
        bases,
    );
    match &ended {
        Ok(end) => report_end(rt, end),
        Err(ScriptFault::NoMemory) => report_no_memory(rt),
        Err(ScriptFault::Device) => match reader.last() {
            Some(error) => report_file(rt, name, &error),
            None => report_output(rt, writer.last()),
        },
        Err(ScriptFault::File(name, error)) => report_file(rt, name, error),
        Err(ScriptFault::Start(fault)) => report_start(rt, request, *fault),
    }
}

/// The status of a script that came to this end. A bad line is named on standard error.
fn report_end(rt: &impl Eprint, end: &ScriptEnd) -> u8 {
    match end {
        ScriptEnd::Closed(_) => 0,
        ScriptEnd::NotInJournal(_) => INPUT_FAULT,
        ScriptEnd::Bad(line) => {
            let _ = eprintln!(rt; "line {line}: bad");
            INPUT_FAULT
        }
    }
}

/// The bases with which the first witness begins: that in the file that is named, if one is. Gives the status
/// where it holds none.
fn first_bases<R>(rt: &R, name: Option<&str>) -> Result<Vec<Checked<Base>>, u8>
where
    R: Files + Input + Eprint + AllocGlobal,
{
    let mut bases = Vec::new(rt.alloc());
    let Some(name) = name else {
        return Ok(bases);
    };
    let base = read_base_file(rt, name)?;
    match bases.push(base) {
        Ok(()) => Ok(bases),
        Err(_) => Err(report_no_memory(rt)),
    }
}

/// Says on standard error why no witness begins with the base that is named.
fn report_start(rt: &impl Eprint, request: RunRequest<'_>, fault: StartFault) -> u8 {
    let name = ShownName::new(request.base.unwrap_or(""));
    let number = fault.number();
    let _ = eprintln!(rt; "nfsacc: {name}: start fault {number}");
    INPUT_FAULT
}
