//! `nfsacc server`.

ghost use Rattle.std.specs.Prelude.{◌≡◌, ℕ};

use crate::opening::{
    Held, MAX_HEIGHT, PartyOutput, commands_at, hold, keys_of, listen, open_control, open_output,
    place_of, roster_of,
};
use authenticator::{Kind, MAX_NODE, Member, Roster};
use command_line::{ServerOrder, ServerRequest, server_order};
use host_keys::EpochRoster;
use node_keys::{KeyedNode, Masters};
use nodes::HonestServer;
use party_files::{HeldRoster, HeldSecret, report_secret, stand_ins};
use peer_connections::{Commands, OwnMemory};
use program_output::{
    COMMAND_LINE, DEVICE, INPUT_FAULT, KEYS_USED_UP, NOT_ACCEPTED, report_no_memory, report_words,
};
use server_process::{Ending, host_server};
use std::alloc::{AllocError, Global};
use std::fs::File;
use std::net::{Net, TcpListener, TcpStream};
use std::random::RandomSource;
use std::rt::{Clock, Files};
use std::sync::{Mutex, Wait};
use std::thread::Threads;

/// A server that has its keys, and what was begun with its secret.
#[derive(Drop)]
struct BegunServer {
    server: HonestServer,
    roster: Roster,
    of: EpochRoster,
}

/// Where a server listens.
#[derive(Drop)]
struct Listeners {
    first: TcpListener,
    audits: Option<TcpListener>,
}

/// Runs a server until it is told to stop or its keys are used up, and gives the status for it.
pub fn run_server<R>(rt: &R, request: &ServerRequest<'_>) -> u8
where
    R: Files<File = File> + Print + Eprint + AllocGlobal + RandomSource + Clock,
    R: Net<Listener = TcpListener, Stream = TcpStream>,
    R: Threads + Wait + Sync + Clone + Drop,
{
    let order = match server_order(request) {
        Ok(order) => order,
        Err(refusal) => {
            let _ = eprintln!(rt; "nfsacc: {refusal}");
            return COMMAND_LINE;
        }
    };
    let _stand_ins = stand_ins(rt);
    match run_order(rt, &order) {
        Ok(status) | Err(status) => status,
    }
}

/// Opens what the server needs, and runs it.
fn run_order<R>(rt: &R, order: &ServerOrder<'_>) -> Result<u8, u8>
where
    R: Files<File = File> + Print + Eprint + AllocGlobal + RandomSource + Clock,
    R: Net<Listener = TcpListener, Stream = TcpStream>,
    R: Threads + Wait + Sync + Clone + Drop,
{
    let mut held = hold(rt, order.secret, order.rosters)?;
    let control = open_control(rt, order.state)?;
    let memory = OwnMemory::open(rt);
    let commands = commands_at(&control, &memory);
    let ended = match listen_all(rt, order) {
        Ok(listeners) => run_held(rt, order, &mut held, listeners, commands),
        Err(status) => Err(status),
    };
    control.close(rt);
    ended
}

/// Listens at the addresses that were asked for.
fn listen_all<R>(rt: &R, order: &ServerOrder<'_>) -> Result<Listeners, u8>
where
    R: Net<Listener = TcpListener, Stream = TcpStream> + Eprint,
{
    let first = listen(rt, order.listen)?;
    let audits = match order.audit {
        Some(address) => Some(listen(rt, address)?),
        None => None,
    };
    Ok(Listeners { first, audits })
}

/// Makes the keys, and serves.
fn run_held<R>(
    rt: &R,
    order: &ServerOrder<'_>,
    held: &mut Held,
    listeners: Listeners,
    commands: Commands<'_>,
) -> Result<u8, u8>
where
    R: Files<File = File> + Print + Eprint + AllocGlobal + RandomSource + Clock,
    R: Net<Listener = TcpListener, Stream = TcpStream>,
    R: Threads + Wait + Sync,
{
    let output = Mutex::new(open_output(rt, order.log_file)?);
    let BegunServer { server, roster, of } = begin_server(rt, order, held, &output)?;
    let alloc = rt.alloc();
    let line = first_lines(alloc, order, &of, server.server().node().left(), &listeners);
    output.lock(rt).line(line);
    let Listeners { first, audits } = listeners;
    let asked = server_process::ServerOrder {
        server,
        roster,
        digest: of.digest,
        epoch: of.epoch,
        listener: first,
        audits,
        control: Some(commands),
        check_every: order.check_every,
    };
    let ending = host_server(rt, alloc, rt, asked, &output);
    let line = last_line(alloc, ending);
    output.lock(rt).line(line);
    if output.lock(rt).has_failed() {
        return Ok(DEVICE);
    }
    Ok(status_of(ending))
}

/// What a server says before it serves.
fn first_lines(
    alloc: Global,
    order: &ServerOrder<'_>,
    of: &EpochRoster,
    keys: u32,
    listeners: &Listeners,
) -> Result<String, AllocError> {
    let epoch = of.epoch;
    let first = place_of(&listeners.first, order.listen);
    let mut lines = format!(in alloc; "epoch {epoch}, {keys} keys made\nlistening {first}\n")?;
    if let (Some(audits), Some(asked)) = (&listeners.audits, order.audit) {
        let audits = place_of(audits, asked);
        let line = format!(in alloc; "audits {audits}\n")?;
        lines.push_str(&line)?;
    }
    Ok(lines)
}

/// What a server says once it no longer serves.
fn last_line(alloc: Global, ending: Ending) -> Result<String, AllocError> {
    match ending {
        Ending::Stopped => String::from_str(alloc, "stopped\n"),
        Ending::KeysUsedUp { calls } => { format!(in alloc; "keys used up after {calls} calls\n") }
        Ending::PutBack { number: _ } => {
            String::from_str(alloc, "the log was put back to an earlier one\n")
        }
    }
}

/// The status for how a server ended.
fn status_of(ending: Ending) -> u8
    ensures stopped { ending ≡ Ending.Stopped → result ≡ 0 }
    ensures used { (calls : ℕ) → ending ≡ Ending.KeysUsedUp calls → result ≡ 5 }
    ensures put_back { (number : ℕ) → ending ≡ Ending.PutBack number → result ≡ 6 }
{
    match ending {
        Ending::Stopped => 0,
        Ending::KeysUsedUp { calls: _ } => KEYS_USED_UP,
        Ending::PutBack { number: _ } => NOT_ACCEPTED,
    }
}

/// Begins the next epoch for which there is a roster with this server, and makes its keys. Where progress is to be told it
/// says before how many these are.
fn begin_server<R>(
    rt: &R,
    order: &ServerOrder<'_>,
    held: &mut Held,
    output: &Mutex<PartyOutput<'_, R>>,
) -> Result<BegunServer, u8>
where
    R: Files<File = File> + Print + Eprint + AllocGlobal + RandomSource + Clock,
    R: Threads + Wait + Sync,
{
    let Ok(epochs) = epochs_with(rt.alloc(), order.node, &held.rosters) else {
        return Err(report_no_memory(rt));
    };
    if epochs.is_empty() {
        let node = order.node;
        let _ = eprintln!(rt; "nfsacc: no roster has a server with the number {node}");
        return Err(INPUT_FAULT);
    }
    let (epoch, masters) = begin_epoch(rt, order, &mut held.secret, epochs.as_slice())?;
    let Some(roster) = roster_of(&held.rosters, epoch) else {
        return Err(report_words(rt, "there is no roster of the epoch", INPUT_FAULT));
    };
    let Some(member) = roster.roster.member(order.node) else {
        return Err(report_words(rt, "the roster lacks the server", INPUT_FAULT));
    };
    if order.progress {
        say_keys(rt, output, epoch, member.height);
    }
    let keyed = keys_of(rt, masters, &member)?;
    match make_server(rt.alloc(), roster, keyed) {
        Ok(begun) => Ok(begun),
        Err(AllocError) => Err(report_no_memory(rt)),
    }
}

/// Says how many keys are made for an epoch, by the height of their tree.
fn say_keys<R>(rt: &R, output: &Mutex<PartyOutput<'_, R>>, epoch: u32, height: u32)
where
    R: Files<File = File> + Print + Eprint + AllocGlobal + Clock + Wait,
{
    if height > MAX_HEIGHT {
        return;
    }
    let keys = 1u64 << height;
    let line = format!(in rt.alloc(); "nfsacc: epoch {epoch}: making {keys} keys\n");
    output.lock(rt).say(line);
}

/// Begins the next of these epochs: gives its number, and what the keys are made of.
fn begin_epoch<R>(
    rt: &R,
    order: &ServerOrder<'_>,
    secret: &mut HeldSecret,
    epochs: &[EpochRoster],
) -> Result<(u32, Masters), u8>
where
    R: Files + Eprint + AllocGlobal + RandomSource,
{
    let node = order.node;
    if node < 1 || node > MAX_NODE {
        return Err(report_words(rt, "--node is a number from 1 to 64", COMMAND_LINE));
    }
    match secret.begin_epoch(rt, node, epochs) {
        Ok((begun, masters)) => Ok((begun.number(), masters)),
        Err(fault) => Err(report_secret(rt, order.secret, &fault)),
    }
}

/// The epochs of those rosters that have a server with this number.
fn epochs_with(
    alloc: Global,
    node: u32,
    rosters: &[HeldRoster],
) -> Result<Vec<EpochRoster>, AllocError> {
    let mut epochs = Vec::new(alloc);
    for held in rosters {
        if is_server(held.roster.member(node)) {
            epochs.push(held.of)?;
        }
    }
    Ok(epochs)
}

/// Whether a roster has a server there.
fn is_server(member: Option<Member>) -> bool {
    match member {
        Some(member) => member.kind == Kind::Server,
        None => false,
    }
}

/// The server that has these keys.
fn make_server(
    alloc: Global,
    held: &HeldRoster,
    keyed: KeyedNode,
) -> Result<BegunServer, AllocError> {
    let own = held.roster.try_clone(alloc)?;
    let roster = held.roster.try_clone(alloc)?;
    let server = or_refused(HonestServer::new(keyed.make_node(alloc, own)?))?;
    Ok(BegunServer {
        server,
        roster,
        of: held.of,
    })
}

/// What was made. The types are parameters, so that the proof knows nothing of what they own.
fn or_refused<T: Drop, E: Drop>(outcome: Result<T, E>) -> Result<T, AllocError> {
    match outcome {
        Ok(value) => Ok(value),
        Err(_) => Err(AllocError),
    }
}
