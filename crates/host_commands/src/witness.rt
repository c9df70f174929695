//! `nfsacc witness`.

ghost use Rattle.std.specs.Prelude.{◌≡◌, ℕ};

use crate::opening::{
    PartyOutput, commands_at, hold_rosters, listen, open_control, open_output, place_of, roster_of,
    try_evidence,
};
use command_line::{HostRefusal, Peer, WitnessOrder, WitnessRequest, witness_order};
use party_files::{Control, HeldRoster, stand_ins};
use peer_connections::OwnMemory;
use program_output::{
    COMMAND_LINE, DEVICE, INPUT_FAULT, NO_MEMORY, NOT_ACCEPTED, report_no_memory, report_words,
};
use std::alloc::{AllocError, Global};
use std::fs::File;
use std::net::{Net, TcpListener, TcpStream};
use std::random::RandomSource;
use std::rt::{Clock, Files};
use std::sync::{Mutex, Wait};
use std::thread::Threads;
use witness_process::{
    Ending, KnownRoster, Search, Shelf, WatchedServer, choose_roster, run_witness as watch_servers,
};

/// How many logs are replayed at the same time.
const WORKERS: usize = 2;

/// Runs a witness until it is told to stop, or a server begins a later epoch, and gives the status for it. Evidence goes to
/// the shelf.
pub fn run_witness<R, S>(rt: &R, request: &WitnessRequest<'_>, shelf: S) -> u8
where
    S: Shelf + Drop + Send,
    R: Files<File = File> + Print + Eprint + AllocGlobal + RandomSource + Clock,
    R: Net<Listener = TcpListener, Stream = TcpStream>,
    R: Threads + Wait + Sync + Clone + Drop,
{
    let order = match witness_order(rt.alloc(), request) {
        Ok(order) => order,
        Err(HostRefusal::NoMemory) => return report_no_memory(rt),
        Err(refusal) => {
            let _ = eprintln!(rt; "nfsacc: {refusal}");
            return COMMAND_LINE;
        }
    };
    let _stand_ins = stand_ins(rt);
    match run_order(rt, &order, shelf) {
        Ok(status) | Err(status) => status,
    }
}

/// Opens what the witness needs, and runs it.
fn run_order<R, S>(rt: &R, order: &WitnessOrder<'_>, shelf: S) -> Result<u8, u8>
where
    S: Shelf + Drop + Send,
    R: Files<File = File> + Print + Eprint + AllocGlobal + RandomSource + Clock,
    R: Net<Listener = TcpListener, Stream = TcpStream>,
    R: Threads + Wait + Sync + Clone + Drop,
{
    let rosters = hold_rosters(rt, order.rosters)?;
    let named = named_roster(rt, rosters.as_slice(), order.epoch)?;
    try_evidence(rt, order.evidence)?;
    let control = match order.state {
        Some(folder) => Some(open_control(rt, folder)?),
        None => None,
    };
    let ended = run_controlled(
        rt,
        order,
        rosters.as_slice(),
        named,
        control.as_ref(),
        shelf,
    );
    if let Some(control) = &control {
        control.close(rt);
    }
    ended
}

/// The roster of the epoch that is named, if one is; or says that there is none and gives the status for it.
fn named_roster<'r>(
    rt: &impl Eprint,
    rosters: &'r [HeldRoster],
    epoch: Option<u32>,
) -> Result<Option<&'r HeldRoster>, u8> {
    let Some(epoch) = epoch else {
        return Ok(None);
    };
    match roster_of(rosters, epoch) {
        Some(held) => Ok(Some(held)),
        None => Err(report_words(rt, "there is no roster of this epoch", INPUT_FAULT)),
    }
}

/// Runs the witness by the roster that is named, or else by the first of these by which a server goes.
fn run_controlled<R, S>(
    rt: &R,
    order: &WitnessOrder<'_>,
    rosters: &[HeldRoster],
    named: Option<&HeldRoster>,
    control: Option<&Control>,
    shelf: S,
) -> Result<u8, u8>
where
    S: Shelf + Drop + Send,
    R: Files<File = File> + Print + Eprint + AllocGlobal + RandomSource + Clock,
    R: Net<Listener = TcpListener, Stream = TcpStream>,
    R: Threads + Wait + Sync,
{
    let alloc = rt.alloc();
    let output = Mutex::new(open_output(rt, order.log_file)?);
    let memory = OwnMemory::open(rt);
    let (Ok(known), Ok(servers)) = (
        known_in(alloc, rosters),
        watched(alloc, order.servers.as_slice()),
    ) else {
        return Err(report_no_memory(rt));
    };
    let search = Search {
        servers: servers.as_slice(),
        every: order.every,
        control: control.map(|control| commands_at(control, &memory)),
    };
    let chosen = match named {
        Some(held) => Some(held),
        None => greeted_roster(rt, rosters, known.as_slice(), search, &output)?,
    };
    match chosen {
        Some(held) => run_chosen(rt, order, held, known.as_slice(), search, shelf, &output),
        None => Ok(status_said(rt, &output, Ending::Stopped)),
    }
}

/// The rosters that a witness knows, by their digests and epochs.
fn known_in(alloc: Global, rosters: &[HeldRoster]) -> Result<Vec<KnownRoster>, AllocError> {
    let mut known = Vec::new(alloc);
    for held in rosters {
        known.push(KnownRoster {
            digest: held.of.digest,
            epoch: held.of.epoch,
        })?;
    }
    Ok(known)
}

/// The first of these rosters by which a server goes, as soon as one does; none once the process is told to stop.
fn greeted_roster<'r, R>(
    rt: &R,
    rosters: &'r [HeldRoster],
    known: &[KnownRoster],
    search: Search<'_>,
    output: &Mutex<PartyOutput<'_, R>>,
) -> Result<Option<&'r HeldRoster>, u8>
where
    R: Files<File = File> + Print + Eprint + AllocGlobal + Clock,
    R: Net<Listener = TcpListener, Stream = TcpStream>,
    R: Threads + Wait + Sync,
{
    match choose_roster(rt, rt.alloc(), rt, known, search, output) {
        Ok(Some(chosen)) => Ok(roster_of(rosters, chosen.epoch)),
        Ok(None) => Ok(None),
        Err(AllocError) => Err(report_no_memory(rt)),
    }
}

/// Runs the witness by a roster.
fn run_chosen<R, S>(
    rt: &R,
    order: &WitnessOrder<'_>,
    held: &HeldRoster,
    known: &[KnownRoster],
    search: Search<'_>,
    shelf: S,
    output: &Mutex<PartyOutput<'_, R>>,
) -> Result<u8, u8>
where
    S: Shelf + Drop + Send,
    R: Files<File = File> + Print + Eprint + AllocGlobal + RandomSource + Clock,
    R: Net<Listener = TcpListener, Stream = TcpStream>,
    R: Threads + Wait + Sync,
{
    let alloc = rt.alloc();
    let listener = listen(rt, order.listen)?;
    let Ok(roster) = held.roster.try_clone(alloc) else {
        return Err(report_no_memory(rt));
    };
    let (epoch, at) = (held.of.epoch, place_of(&listener, order.listen));
    let line = format!(in alloc; "epoch {epoch}\nlistening {at}\n");
    output.lock(rt).line(line);
    let asked = witness_process::WitnessOrder {
        roster,
        digest: held.of.digest,
        epoch,
        known,
        servers: search.servers,
        witnesses: order.witnesses.as_slice(),
        every: order.every,
        patience: order.patience,
        overlap: order.overlap,
        evidence: order.evidence,
        shelf,
        listener,
        control: search.control,
        workers: WORKERS,
        join: order.join,
    };
    let ending = watch_servers(rt, alloc, rt, asked, output);
    Ok(status_said(rt, output, ending))
}

/// Says the last line. The status for how a witness ended.
fn status_said<R>(rt: &R, output: &Mutex<PartyOutput<'_, R>>, ending: Ending) -> u8
where
    R: Files<File = File> + Print + Eprint + AllocGlobal + Clock + Wait,
{
    let line = String::from_str(rt.alloc(), last_line(ending));
    output.lock(rt).line(line);
    if output.lock(rt).has_failed() {
        return DEVICE;
    }
    status_of(ending)
}

/// What a witness says once it no longer runs.
fn last_line(ending: Ending) -> &'static str {
    match ending {
        Ending::Stopped | Ending::NoMemory => "stopped\n",
        Ending::EpochBegun { .. } => "a server goes by another roster\n",
    }
}

/// The servers that are audited.
fn watched<'a>(alloc: Global, peers: &[Peer<'a>]) -> Result<Vec<WatchedServer<'a>>, AllocError> {
    let mut servers = Vec::new(alloc);
    for peer in peers {
        servers.push(WatchedServer {
            node: peer.node,
            address: peer.host,
        })?;
    }
    Ok(servers)
}

/// The status for how a witness ended.
fn status_of(ending: Ending) -> u8
    ensures stopped { ending ≡ Ending.Stopped → result ≡ 0 }
    ensures memory { ending ≡ Ending.NoMemory → result ≡ 3 }
    ensures begun { (node epoch : ℕ) → ending ≡ Ending.EpochBegun node epoch → result ≡ 6 }
{
    match ending {
        Ending::Stopped => 0,
        Ending::NoMemory => NO_MEMORY,
        Ending::EpochBegun { .. } => NOT_ACCEPTED,
    }
}
