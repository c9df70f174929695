//! Which roster the other side of a connection goes by.

use party_files::HeldRoster;
use peer_calls::{Greeted, Greeting, NodeRequest, WitnessRequest, read_greeted};
use peer_connections::{CallFault, PeerCaller};
use program_output::{DEVICE, NOT_ACCEPTED, report_name, report_no_memory};
use shown_names::ShownName;
use std::alloc::Global;
use std::io;
use std::net::{Net, TcpListener, TcpStream};

/// The most bytes of an answer to GREET.
const MOST_GREETED: u32 = 60;

/// What the other side is.
#[derive(Clone, Copy, Debug, PartialEq, Eq)]
pub(crate) enum Side {
    Node,
    Witness,
}

/// Connects to an address, or says why there is no connection and gives the status for it.
pub(crate) fn connect<R>(rt: &R, address: &str) -> Result<PeerCaller, u8>
where
    R: Net<Listener = TcpListener, Stream = TcpStream> + Eprint + AllocGlobal,
{
    match PeerCaller::connect(rt, rt.alloc(), address) {
        Ok(caller) => Ok(caller),
        Err(error) => Err(report_connection(rt, address, &error)),
    }
}

/// Says why there is no connection, and gives the status for it.
fn report_connection(rt: &impl Eprint, address: &str, error: &io::Error) -> u8 {
    if error.kind() == io::ErrorKind::OutOfMemory {
        return report_no_memory(rt);
    }
    let name = ShownName::new(address);
    let _ = eprintln!(rt; "nfsacc: {name}: {error}");
    DEVICE
}

/// Says why a call brought no answer, and gives the status for it.
pub(crate) fn report_call(rt: &impl Eprint, address: &str, fault: CallFault) -> u8 {
    match fault {
        CallFault::NoMemory => report_no_memory(rt),
        CallFault::Broken => report_name(rt, address, "the connection broke", DEVICE),
        CallFault::NoSuccess => report_name(rt, address, "it answers something else", DEVICE),
    }
}

/// The roster, of these, by which the other side goes; or says what is wrong and gives the status for it.
pub(crate) fn common_roster<'r, R: Eprint + AllocGlobal>(
    rt: &R,
    caller: &mut PeerCaller,
    side: Side,
    address: &str,
    rosters: &'r [HeldRoster],
) -> Result<&'r HeldRoster, u8> {
    let [first, ..] = rosters else {
        return Err(report_other(rt, address, &[0; 32]));
    };
    let own = first.of.digest;
    match greeted(rt.alloc(), caller, side, own) {
        Ok(Greeted::Same) => Ok(first),
        Ok(Greeted::Other(digest)) => match with_digest(rosters, &digest) {
            Some(roster) => Ok(roster),
            None => Err(report_other(rt, address, &digest)),
        },
        Err(fault) => Err(report_call(rt, address, fault)),
    }
}

/// Asks the other side whether it goes by the roster with a digest.
fn greeted(
    alloc: Global,
    caller: &mut PeerCaller,
    side: Side,
    digest: [u8; 32],
) -> Result<Greeted, CallFault> {
    let greeting = Greeting { digest, node: 0 };
    let answer = match side {
        Side::Node => caller.ask_node(&NodeRequest::Greet(greeting), MOST_GREETED)?,
        Side::Witness => caller.ask_witness(&WitnessRequest::Greet(greeting), MOST_GREETED)?,
    };
    match read_greeted(alloc, answer.results()) {
        Ok(greeted) => Ok(greeted),
        Err(_) => Err(CallFault::NoSuccess),
    }
}

/// The roster with this digest, of some.
fn with_digest<'r>(rosters: &'r [HeldRoster], digest: &[u8; 32]) -> Option<&'r HeldRoster> {
    for held in rosters {
        if held.of.digest.as_slice() == digest.as_slice() {
            return Some(held);
        }
    }
    None
}

/// Says that the other side has another roster, and gives the status for it.
fn report_other<R: Eprint + AllocGlobal>(rt: &R, address: &str, digest: &[u8; 32]) -> u8 {
    let Ok(digest) = hex::encode(rt.alloc(), digest.as_slice()) else {
        return report_no_memory(rt);
    };
    let name = ShownName::new(address);
    let _ = eprintln!(rt; "nfsacc: {name}: it goes by another roster, sha256:{digest}");
    NOT_ACCEPTED
}
