//! Audits of nodes that lie, fork or don't answer, and what is written of them.

use crate::files::Files;
use crate::parties::{CLIENT, Parties, SERVER, new_parties, paired};
use auditing::{
    AuditContext, AuditOutput, Auditor, Closed, LogToAudit, WitnessService, close, final_reports,
    open_witness, put_evidence, write_reports,
};
use challenge::{check_evidence, read_case};
use envelopes::Envelope;
use std::alloc::Global;
use std::sync::{Mutex, Wait};
use std::thread::Threads;
use witness_calls::packet_texts::challenge_packet;
use witness_calls::{Caller, Pass};

/// Where evidence goes.
const FOLDER: &str = "cases";

/// The output of an audit in a test.
type TestOutput = AuditOutput<Vec<u8>, Files>;

/// What came of audits.
#[derive(Drop)]
struct Told {
    lines: Vec<u8>,
    files: Files,
}

/// Challenges the server with a message, by a pass that comes back.
fn challenge<R: Wait>(
    rt: &R,
    alloc: Global,
    service: &WitnessService,
    both: &Parties,
    message: Option<&Envelope>,
    pass: Pass,
) -> Option<Pass> {
    let Some(message) = message else {
        return Some(pass);
    };
    let packet = challenge_packet(alloc, &message.view()).ok()?;
    let mut caller = Caller::new(rt, alloc, service, &both.roster, pass);
    let _ = caller.deliver(&packet);
    Some(caller.into_pass())
}

/// Audits both by a pass, which comes back, and asks what is said of them.
fn audit_both<R: Threads + Wait + Sync>(
    context: AuditContext<'_, R, Vec<u8>, Files>,
    both: &Parties,
    pass: Pass,
) -> Option<Pass> {
    let standings = [
        LogToAudit {
            number: SERVER,
            log: both.server.node(),
            filed: 0,
        },
        LogToAudit {
            number: CLIENT,
            log: both.client.node(),
            filed: 0,
        },
    ];
    let mut auditor = Auditor::new(context, pass);
    auditor.finish(&standings);
    match auditor.ask_all(&standings) {
        Ok(()) => Some(auditor.into_audits().pass),
        Err(_) => None,
    }
}

/// The passes of a witness that has audited both, of which there is one.
fn audited<R: Threads + Wait + Sync>(
    context: AuditContext<'_, R, Vec<u8>, Files>,
    both: &Parties,
    message: Option<&Envelope>,
    passes: Vec<Pass>,
) -> Option<Vec<Pass>> {
    let mut passes = passes;
    let Some(pass) = passes.pop() else {
        return None;
    };
    let pass = challenge(
        context.rt,
        context.alloc,
        context.service,
        both,
        message,
        pass,
    )?;
    passes.push(audit_both(context, both, pass)?).ok()?;
    Some(passes)
}

/// A witness that was closed after it audited both.
fn closed<R: Threads + Wait + Sync>(
    rt: &R,
    alloc: Global,
    both: &Parties,
    message: Option<&Envelope>,
    output: &Mutex<TestOutput>,
) -> Option<Closed> {
    let (service, passes) = open_witness(alloc, &both.roster, 1).ok()?;
    let context = AuditContext {
        rt,
        alloc,
        service: &service,
        roster: &both.roster,
        output,
        progress: false,
    };
    let passes = audited(context, both, message, passes);
    let (service, passes) = paired(service, passes)?;
    close(service, passes).ok()
}

/// The lines of a closed witness's reports, and the files of their evidence.
fn told_of(alloc: Global, closed: &Closed, output: TestOutput) -> Option<Told> {
    let mut output = output;
    let reports = final_reports(alloc, &closed.journal).ok()??;
    let mut lines = Vec::new(alloc);
    write_reports(alloc, &mut lines, &reports).ok()?;
    put_evidence(&mut output, FOLDER, &closed.roster, &reports);
    Some(Told {
        lines,
        files: output.into_shelf(),
    })
}

/// What comes of audits of both, after the server was challenged with a message, if there is one.
fn audits_of<R: Threads + Wait + Sync>(
    rt: &R,
    alloc: Global,
    both: &Parties,
    message: Option<&Envelope>,
) -> Option<Told> {
    let output = Mutex::new(AuditOutput::new(alloc, Vec::new(alloc), Files::new(alloc), None));
    let closed = closed(rt, alloc, both, message, &output)?;
    told_of(alloc, &closed, output.into_inner())
}

/// Whether bytes are a file of evidence that is accepted, against this node.
fn is_evidence(alloc: Global, bytes: &[u8], node: u32) -> bool {
    let Ok(bytes) = Vec::from_slice(alloc, bytes) else {
        return false;
    };
    match read_case(alloc, bytes) {
        Ok(case) => {
            case.evidence.node() == node
                && matches!(
                    check_evidence(alloc, &case.roster, &case.evidence),
                    Ok(true)
                )
        }
        Err(_) => false,
    }
}

/// Whether these lines were written, and evidence against this node alone was put.
fn shows(alloc: Global, told: &Told, lines: &[u8], node: u32, name: &str) -> bool {
    let is_there = match told.files.get(name) {
        Some(bytes) => is_evidence(alloc, bytes, node),
        None => false,
    };
    is_there && told.files.len() == 1 && told.lines.as_slice() == lines
}

/// Whether a server that lied is exposed, with evidence.
fn lie_is_shown<R: Threads + Wait + Sync>(rt: &R, alloc: Global, both: &mut Parties) -> bool {
    let lines = b"1 exposed 0\n2 trusted 0\n";
    let name = "cases/node-1.evidence";
    both.lie(alloc)
        && match audits_of(rt, alloc, both, None) {
            Some(told) => shows(alloc, &told, lines, SERVER, name),
            None => false,
        }
}

/// Whether a client is exposed whose second message under one number stands in the server's log alone: so
/// that it shows only by what is forwarded of that log.
fn fork_is_shown<R: Threads + Wait + Sync>(rt: &R, alloc: Global, both: &mut Parties) -> bool {
    let lines = b"1 trusted 0\n2 exposed 0\n";
    let name = "cases/node-2.evidence";
    let Some(second) = both.fork(alloc) else {
        return false;
    };
    both.receive(alloc, &second)
        && match audits_of(rt, alloc, both, None) {
            Some(told) => shows(alloc, &told, lines, CLIENT, name),
            None => false,
        }
}

/// Whether a server is suspected that doesn't acknowledge a message with which it was challenged.
fn silence_is_shown<R: Threads + Wait + Sync>(rt: &R, alloc: Global, both: &mut Parties) -> bool {
    let lines = b"1 suspected 1\n2 trusted 0\n".as_slice();
    let Some(second) = both.fork(alloc) else {
        return false;
    };
    match audits_of(rt, alloc, both, Some(&second)) {
        Some(told) => told.lines.as_slice() == lines && told.files.len() == 0,
        None => false,
    }
}

#[test]
fn a_lie_is_exposed_with_evidence(rt: HostRuntime) {
    let alloc = rt.alloc();
    let Some(mut both) = new_parties(alloc) else {
        return assert!(rt; false);
    };
    assert!(rt; lie_is_shown(&rt, alloc, &mut both));
}

#[test]
fn a_fork_is_exposed_by_what_another_log_shows(rt: HostRuntime) {
    let alloc = rt.alloc();
    let Some(mut both) = new_parties(alloc) else {
        return assert!(rt; false);
    };
    assert!(rt; fork_is_shown(&rt, alloc, &mut both));
}

#[test]
fn a_server_that_acknowledges_nothing_is_suspected(rt: HostRuntime) {
    let alloc = rt.alloc();
    let Some(mut both) = new_parties(alloc) else {
        return assert!(rt; false);
    };
    assert!(rt; silence_is_shown(&rt, alloc, &mut both));
}
