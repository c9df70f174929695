//! `nfsacc gateway`.

ghost use Rattle.std.specs.Prelude.{◌≡◌};

use crate::below_base::{BelowBase, KeptFiles};
use crate::greeting::{Side, common_roster, connect};
use crate::opening::{
    Held, commands_at, hold, keys_of, listen, open_control, open_output, place_of,
};
use authenticator::{Kind, MAX_NODE, Roster};
use command_line::{GatewayOrder, GatewayRequest, HostRefusal, gateway_order};
use gateway_process::{Ending, run_gateway as serve_programs};
use host_keys::{Begun, EpochRoster};
use node_keys::{KeyedNode, Masters};
use nodes::ClientNode;
use party_files::{HeldRoster, HeldSecret, report_secret, stand_ins};
use peer_connections::{Commands, OwnMemory};
use program_output::{
    COMMAND_LINE, DEVICE, INPUT_FAULT, KEYS_USED_UP, NOT_ACCEPTED, report_no_memory, report_words,
};
use shown_names::ShownName;
use std::alloc::{AllocError, Global};
use std::fs::File;
use std::net::{Net, SocketAddr, TcpListener, TcpStream};
use std::random::RandomSource;
use std::rt::{Clock, Files};
use std::sync::{Mutex, Wait};
use std::thread::Threads;

/// A client that has its keys, and the epoch in which it was begun.
#[derive(Drop)]
struct BegunClient {
    client: ClientNode,
    of: EpochRoster,
}

/// Runs a gateway until it is told to stop or its keys are used up, and gives the status for it.
pub fn run_gateway<R, S>(rt: &R, request: &GatewayRequest<'_>, files: S) -> u8
where
    S: KeptFiles + Drop + Send,
    R: Files<File = File> + Print + Eprint + AllocGlobal + RandomSource + Clock,
    R: Net<Listener = TcpListener, Stream = TcpStream>,
    R: Threads + Wait + Sync + Clone + Drop,
{
    let order = match gateway_order(rt.alloc(), request) {
        Ok(order) => order,
        Err(HostRefusal::NoMemory) => return report_no_memory(rt),
        Err(refusal) => {
            let _ = eprintln!(rt; "nfsacc: {refusal}");
            return COMMAND_LINE;
        }
    };
    let _stand_ins = stand_ins(rt);
    match run_order(rt, &order, files) {
        Ok(status) | Err(status) => status,
    }
}

/// Opens what the gateway needs, and runs it.
fn run_order<R, S>(rt: &R, order: &GatewayOrder<'_>, files: S) -> Result<u8, u8>
where
    S: KeptFiles + Drop + Send,
    R: Files<File = File> + Print + Eprint + AllocGlobal + RandomSource + Clock,
    R: Net<Listener = TcpListener, Stream = TcpStream>,
    R: Threads + Wait + Sync + Clone + Drop,
{
    let mut held = hold(rt, order.secret, order.rosters)?;
    let control = open_control(rt, order.state)?;
    let memory = OwnMemory::open(rt);
    let commands = commands_at(&control, &memory);
    let ended = match listen(rt, order.listen) {
        Ok(listener) => run_held(rt, order, &mut held, listener, commands, files),
        Err(status) => Err(status),
    };
    control.close(rt);
    ended
}

/// Makes the keys, and serves local programs.
fn run_held<R, S>(
    rt: &R,
    order: &GatewayOrder<'_>,
    held: &mut Held,
    listener: TcpListener,
    commands: Commands<'_>,
    files: S,
) -> Result<u8, u8>
where
    S: KeptFiles + Drop + Send,
    R: Files<File = File> + Print + Eprint + AllocGlobal + RandomSource + Clock,
    R: Net<Listener = TcpListener, Stream = TcpStream>,
    R: Threads + Wait + Sync,
{
    let output = Mutex::new(open_output(rt, order.log_file)?);
    let BegunClient { client, of } = begin_client(rt, order, held)?;
    let alloc = rt.alloc();
    let Ok(witnesses) = names_of(alloc, order.witnesses.as_slice()) else {
        return Err(report_no_memory(rt));
    };
    let at = place_of(&listener, order.listen);
    let line = first_lines(alloc, order, &of, &client, at);
    output.lock(rt).line(line);
    let asked = gateway_process::GatewayOrder {
        client,
        digest: of.digest,
        epoch: of.epoch,
        server: order.server.node,
        address: order.server.host,
        witnesses,
        every: order.every,
        reserve: order.reserve,
        give_up: order.give_up.map(u64::from),
        progress: order.progress,
        keeper: BelowBase::new(files, alloc, order.state, of.epoch),
        listener,
        control: Some(commands),
    };
    let ending = serve_programs(rt, alloc, rt, asked, &output);
    let line = String::from_str(alloc, last_line(ending));
    output.lock(rt).line(line);
    if output.lock(rt).has_failed() {
        return Ok(DEVICE);
    }
    Ok(status_of(ending))
}

/// What a gateway says before it serves.
fn first_lines(
    alloc: Global,
    order: &GatewayOrder<'_>,
    of: &EpochRoster,
    client: &ClientNode,
    at: SocketAddr,
) -> Result<String, AllocError> {
    let (node, epoch, keys) = (client.number(), of.epoch, client.node().left());
    let (server, host) = (order.server.node, ShownName::new(order.server.host));
    let mut lines = format!(in alloc;
        "node {node}, epoch {epoch}, {keys} keys made\nserver {server} at {host}\n"
    )?;
    for witness in order.witnesses.as_slice() {
        let witness = ShownName::new(witness);
        let line = format!(in alloc; "witness at {witness}\n")?;
        lines.push_str(&line)?;
    }
    let line = format!(in alloc; "listening {at}\n")?;
    lines.push_str(&line)?;
    Ok(lines)
}

/// Copies of names.
fn names_of(alloc: Global, names: &[&str]) -> Result<Vec<String>, AllocError> {
    let mut copies = Vec::new(alloc);
    for name in names {
        copies.push(String::from_str(alloc, name)?)?;
    }
    Ok(copies)
}

/// What a gateway says once it no longer serves.
fn last_line(ending: Ending) -> &'static str {
    match ending {
        Ending::Stopped => "stopped\n",
        Ending::KeysUsedUp => "keys used up\n",
        Ending::OtherRoster => "the server goes by another roster\n",
        Ending::PutBack => "the log was put back\n",
    }
}

/// The status for how a gateway ended.
fn status_of(ending: Ending) -> u8
    ensures stopped { ending ≡ Ending.Stopped → result ≡ 0 }
    ensures used { ending ≡ Ending.KeysUsedUp → result ≡ 5 }
    ensures other { ending ≡ Ending.OtherRoster → result ≡ 6 }
    ensures put_back { ending ≡ Ending.PutBack → result ≡ 6 }
{
    match ending {
        Ending::Stopped => 0,
        Ending::KeysUsedUp => KEYS_USED_UP,
        Ending::OtherRoster | Ending::PutBack => NOT_ACCEPTED,
    }
}

/// Begins the next of the user's numbers in the epoch in which the server is, and makes its keys.
fn begin_client<R>(rt: &R, order: &GatewayOrder<'_>, held: &mut Held) -> Result<BegunClient, u8>
where
    R: Files + Eprint + AllocGlobal + RandomSource + Threads + Sync,
    R: Net<Listener = TcpListener, Stream = TcpStream>,
{
    let address = order.server.host;
    let mut caller = connect(rt, address)?;
    let rosters = held.rosters.as_slice();
    let roster = common_roster(rt, &mut caller, Side::Node, address, rosters)?;
    test_roster(rt, order, &roster.roster)?;
    let (node, masters) = begin_life(rt, order, &mut held.secret, &roster.of)?;
    let Some(member) = roster.roster.member(node) else {
        return Err(report_words(rt, "the roster lacks the client", INPUT_FAULT));
    };
    let keyed = keys_of(rt, masters, &member)?;
    match make_client(rt.alloc(), roster, keyed) {
        Ok(client) => Ok(BegunClient {
            client,
            of: roster.of,
        }),
        Err(AllocError) => Err(report_no_memory(rt)),
    }
}

/// Begins the next of the user's numbers in an epoch: gives it, and what the keys are made of.
fn begin_life<R>(
    rt: &R,
    order: &GatewayOrder<'_>,
    secret: &mut HeldSecret,
    epoch: &EpochRoster,
) -> Result<(u32, Masters), u8>
where
    R: Files + Eprint + AllocGlobal + RandomSource,
{
    let (first, last) = (order.first, order.last);
    if first < 1 || last > MAX_NODE || epoch.epoch < 1 {
        return Err(report_words(
            rt,
            "--nodes is N or A-B, numbers from 1 to 64",
            COMMAND_LINE,
        ));
    }
    match secret.begin_life(rt, first, last, epoch) {
        Ok((begun, masters)) => Ok((node_of(&begun), masters)),
        Err(fault) => Err(report_secret(rt, order.secret, &fault)),
    }
}

/// The number of a node that was begun; 0 of a run.
fn node_of(begun: &Begun) -> u32 {
    match begun {
        Begun::Node { node, .. } => *node,
        Begun::Run(_) => 0,
    }
}

/// That a roster has the server, and each of the user's numbers as a client; or says what it lacks and gives
/// the status for it.
fn test_roster(rt: &impl Eprint, order: &GatewayOrder<'_>, roster: &Roster) -> Result<(), u8> {
    let server = order.server.node;
    if !is_member(roster, server, Kind::Server) {
        let _ = eprintln!(rt; "nfsacc: the roster has no server with the number {server}");
        return Err(INPUT_FAULT);
    }
    for node in order.first..=order.last {
        if !is_member(roster, node, Kind::Client) {
            let _ = eprintln!(rt; "nfsacc: the roster has no client with the number {node}");
            return Err(INPUT_FAULT);
        }
    }
    Ok(())
}

/// Whether a roster has a node of this number and kind.
fn is_member(roster: &Roster, node: u32, kind: Kind) -> bool {
    match roster.member(node) {
        Some(member) => member.kind == kind,
        None => false,
    }
}

/// The client that has these keys.
fn make_client(
    alloc: Global,
    held: &HeldRoster,
    keyed: KeyedNode,
) -> Result<ClientNode, AllocError> {
    let roster = held.roster.try_clone(alloc)?;
    keyed.make_node(alloc, roster)
}
