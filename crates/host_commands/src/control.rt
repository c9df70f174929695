//! `nfsacc stop` and `nfsacc status`.

use party_files::{ask_status, tell_to_stop};
use program_output::{DEVICE, report_name, report_no_memory, report_output};
use shown_names::ShownName;
use std::io;
use std::net::Net;

/// Tells the process whose control socket lies in a folder to stop, and gives the status for it. It may still
/// be at work when this is done.
pub fn stop_process<R: Net + Eprint + AllocGlobal>(rt: &R, folder: &str) -> u8 {
    match tell_to_stop(rt, rt.alloc(), folder) {
        Ok(()) => 0,
        Err(error) => report_socket(rt, folder, &error),
    }
}

/// Prints how the process is whose control socket lies in a folder, by its own words, and gives the status
/// for it: 4 where nobody answers.
pub fn show_status<R: Net + Print + Eprint + AllocGlobal>(rt: &R, folder: &str) -> u8 {
    match status_said(rt, folder) {
        Ok(said) => match rt.print(said.as_str()) {
            Ok(()) => 0,
            Err(error) => report_output(rt, Some(error)),
        },
        Err(status) => status,
    }
}

/// How the process is whose control socket lies in a folder, by its own words; or says why nobody answers, and gives the
/// status for it: 4, or 3 where memory was refused.
pub(crate) fn status_said<R: Net + Eprint + AllocGlobal>(
    rt: &R,
    folder: &str,
) -> Result<String, u8> {
    match ask_status(rt, rt.alloc(), folder) {
        Ok(said) if said.is_empty() => {
            Err(report_name(rt, folder, "nobody says how it is", DEVICE))
        }
        Ok(said) => Ok(said),
        Err(error) => Err(report_socket(rt, folder, &error)),
    }
}

/// Says what is wrong with the control socket in a folder, and gives the status for it.
fn report_socket(rt: &impl Eprint, folder: &str, error: &io::Error) -> u8 {
    if error.kind() == io::ErrorKind::OutOfMemory {
        return report_no_memory(rt);
    }
    let name = ShownName::new(folder);
    let _ = eprintln!(rt; "nfsacc: {name}/control: {error}");
    DEVICE
}
