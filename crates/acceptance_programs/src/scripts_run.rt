//! The steps of a script stand in the journal of its witness.

use crate::files::Files;
use scripts::{ScriptEnd, ScriptFiles, run_script};
use std::alloc::Global;
use std::sync::Wait;
use std::thread::Threads;
use witness_service::{EventOf, Note};

/// A client that signed nothing is audited, and asked for.
const SCRIPT: &[u8] = b"node 1 client 1\naudit 1\nask 1\n";

/// What it prints.
const PRINTED: &[u8] = b"refused 8\n1 trusted 0\nclosed ok\n";

/// It writes no file of its own.
const NO_FILES: ScriptFiles<'static> = ScriptFiles {
    roster: None,
    bases: None,
};

/// Whether places are those of the script: its audit, and the two questions of `ask`.
fn are_its_steps(places: &[Note]) -> bool {
    match places {
        [audit, first, second] => {
            matches!(audit.event(), EventOf::Audit(1))
                && matches!(first.event(), EventOf::Ask(1, _))
                && matches!(second.event(), EventOf::Ask(1, _))
        }
        _ => false,
    }
}

/// Whether the script prints what it should, and its steps stand in the journal.
fn is_run<R: Threads + Wait + Sync>(rt: &R, alloc: Global) -> bool {
    let mut reader = SCRIPT;
    let mut writer = Vec::new(alloc);
    let mut shelf = Files::new(alloc);
    let bases = Vec::new(alloc);
    match run_script(
        rt,
        alloc,
        &mut reader,
        &mut writer,
        &mut shelf,
        NO_FILES,
        bases,
    ) {
        Ok(ScriptEnd::Closed(closed)) => {
            are_its_steps(closed.journal.places()) && writer.as_slice() == PRINTED
        }
        _ => false,
    }
}

#[test]
fn steps_of_a_script_are_in_its_journal(rt: HostRuntime) {
    assert!(rt; is_run(&rt, rt.alloc()));
}
