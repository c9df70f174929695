//! `nfsacc`: an accountable file service.
#![tactic(auto)]

mod evidence;
mod run;
mod serve;
mod words;

use command_line::{Request, parse};
use evidence::{check_base_file, check_file, show_roster};
use host_commands::{
    StateFiles, ask_witness, make_rosters, make_secret, run_gateway, run_server, run_witness,
    show_members, show_status, stop_process,
};
use party_files::{DurableShelf, FileShelf};
use program_output::{
    INPUT_FAULT, Remembering, TimedErrors, report_file, report_no_memory, report_output,
};
use rpc::records::{Counting, RecordFault, RecordReader};
use rpc_streams::run_rpc;
use run::run_file;
use serve::run_service;
use std::io;
use std::io::BufReader;
use std::process::ExitCode;
use words::{report_parse, words_of};

/// How a command line names standard input where it takes a file to read.
pub(crate) const DASH: &str = "-";

/// How lines on standard error name the devices that have no name of their own.
pub(crate) const STANDARD_INPUT: &str = "standard input";

/// The name of the file that standard input is read from.
pub(crate) const INPUT_FILE: &str = "/dev/stdin";

/// The bytes that are read at once: as many as a pipe holds.
pub(crate) const READ_AHEAD: usize = 65536;

/// Answers the records of standard input on standard output.
fn rpc<R: Input + Print + Eprint + AllocGlobal>(rt: &R) -> u8 {
    let device = Remembering::new(rt.reader());
    let Ok(input) = BufReader::with_capacity(rt.alloc(), READ_AHEAD, device) else {
        return report_no_memory(rt);
    };
    let mut reader = RecordReader::new(Counting::new(input));
    let mut writer = Counting::new(Remembering::new(io::writer(rt)));
    match run_rpc(rt.alloc(), &mut reader, &mut writer) {
        Ok(_) => 0,
        Err(RecordFault::Device) => match reader.get_ref().get_ref().get_ref().last() {
            Some(error) => report_file(rt, STANDARD_INPUT, &error),
            None => report_output(rt, writer.get_ref().last()),
        },
        Err(fault) => report_fault(rt, fault),
    }
}

/// Says on standard error why the records came to an end, and gives the status for it.
fn report_fault(rt: &impl Eprint, fault: RecordFault) -> u8 {
    match fault {
        RecordFault::NoMemory => report_no_memory(rt),
        RecordFault::Device => report_output(rt, None),
        RecordFault::RecordTooLong | RecordFault::EndInRecord => {
            let number = fault.number().unwrap();
            let _ = eprintln!(rt; "nfsacc: record fault {number}");
            INPUT_FAULT
        }
    }
}

/// Threads write files and to standard error, so what they write to is made here.
fn main(rt: HostRuntime) -> ExitCode {
    let alloc = rt.alloc();
    let words = match words_of(&rt) {
        Ok(words) => words,
        Err(status) => return ExitCode::from(status),
    };
    let status = match parse(alloc, words.as_slice()) {
        Ok(Request::Rpc) => rpc(&rt),
        Ok(Request::Check(request)) => check_file(&rt, request),
        Ok(Request::Roster(name)) => show_roster(&rt, name),
        Ok(Request::Base(name)) => check_base_file(&rt, name),
        Ok(Request::Run(request)) => run_file(&rt, request),
        Ok(Request::Secret(name)) => make_secret(&rt, name),
        Ok(Request::Member(request)) => show_members(&rt, &request),
        Ok(Request::Rosters(request)) => make_rosters(&rt, &request),
        Ok(Request::Serve(request)) => {
            let errors = TimedErrors::new(&rt, alloc, request.progress);
            run_service(&rt, &request, errors, FileShelf::new(&rt, alloc))
        }
        Ok(Request::Server(request)) => run_server(&rt, &request),
        Ok(Request::Gateway(request)) => { run_gateway(&rt, &request, StateFiles::new(&rt, alloc)) }
        Ok(Request::Witness(request)) => {
            run_witness(&rt, &request, DurableShelf::new(&rt, alloc))
        }
        Ok(Request::Stop(folder)) => stop_process(&rt, folder),
        Ok(Request::Status(folder)) => show_status(&rt, folder),
        Ok(Request::Ask(request)) => ask_witness(&rt, &request),
        Err(error) => report_parse(&rt, words.as_slice(), &error),
    };
    ExitCode::from(status)
}
