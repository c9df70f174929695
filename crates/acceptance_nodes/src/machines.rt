//! The first steps of a server's and a client's machine. What replays find is compared with a second
//! verifier, from outside (`checks/verify.sh`).

use authenticator::{Kind, LogVersion, Member, Number, Roster};
use replay::{FreeMachine, Machine, ReplayFault, ServerMachine, StepFault, opening_state};
use secure_log::log_entries::Entry;
use std::alloc::Global;

/// A reading of the clock.
fn clock(seconds: u32, microseconds: u32) -> Entry {
    Entry::Clock {
        seconds,
        microseconds,
    }
}

/// A roster of nobody.
fn nobody(alloc: Global) -> Option<Roster> {
    Roster::new(Vec::new(alloc)).ok()
}

/// Node 1 with keys of zeros.
const SERVER: Member = Member {
    node: 1,
    kind: Kind::Server,
    root: [0; 32],
    height: 1,
    log_version: LogVersion::One,
};

/// The same as a client.
const CLIENT: Member = Member {
    node: 1,
    kind: Kind::Client,
    root: [0; 32],
    height: 1,
    log_version: LogVersion::One,
};

/// Whether the first step of a server, which reads its clock, is refused as out of turn.
fn server_refuses(alloc: Global, roster: &Roster) -> bool {
    let Ok(start) = opening_state(alloc, &SERVER) else {
        return false;
    };
    let mut machine = ServerMachine::new(start);
    let answer = machine.step(alloc, roster, Number::new(1).word(), &[0; 32], &clock(1, 0));
    answer == Err(StepFault::Fault(ReplayFault::BadForm)) && machine.text(alloc).is_ok()
}

/// Whether a client takes the same step.
fn client_takes(alloc: Global, roster: &Roster) -> bool {
    let Ok(start) = opening_state(alloc, &CLIENT) else {
        return false;
    };
    let mut machine = FreeMachine::new(start);
    let answer = machine.step(alloc, roster, Number::new(1).word(), &[0; 32], &clock(1, 0));
    answer.is_ok() && machine.text(alloc).is_ok()
}

/// Whether both do.
fn step(alloc: Global) -> bool {
    match nobody(alloc) {
        Some(roster) => server_refuses(alloc, &roster) && client_takes(alloc, &roster),
        None => false,
    }
}

#[test]
fn machines(rt: HostRuntime) {
    assert!(rt; step(rt.alloc()));
}
