//! A witness: it audits servers, and answers connections as they come, each in a thread of its own.

ghost use Rattle.std.specs.Prelude.{◌≡◌};
ghost use Rattle.witness_process.specs.Rosters.{IsEnding};

use crate::answering::LockedWatch;
use crate::context::{Context, Settings};
use crate::elsewhere::Elsewhere;
use crate::joining::Joining;
use crate::meetings::keep_meeting;
use crate::orders::{Ending, KnownRoster, WatchedServer, WitnessOrder, servers_of};
use crate::rounds::{catch_up, go_round, keep_up};
use crate::status::WitnessTeller;
use crate::times::seconds_now;
use crate::watch::Watch;
use authenticator::Checked;
use challenge::Base;
use frames::FrameReader;
use peer_connections::{
    Accepting, Commands, Output, PeerStream, Phase, ServeFailure, Waiting, attend, end_serving,
    set_timeouts,
};
use request_streams::{ServeEnd, ServeFault, serve_requests};
use rpc::records::Counting;
use std::alloc::{AllocError, Global};
use std::io::{BufReader, Write};
use std::net::{Net, OpenListener, SocketAddr, TcpListener, TcpStream};
use std::sync::{Mutex, Wait};
use std::thread;
use std::thread::{Scope, Threads};
use watching::Shelf;

/// The bytes that are read of a stream at once.
const READ_AHEAD: usize = 65536;

/// Those whom a witness calls.
#[derive(Clone, Copy)]
struct Peers<'a> {
    /// The servers that it audits.
    servers: &'a [WatchedServer<'a>],
    /// Where other witnesses listen.
    witnesses: &'a [&'a str],
}

/// Audits the servers round by round, meets other witnesses, and answers whoever connects, until the process is told to
/// stop, the listener fails, or a server goes by a known roster of a later epoch. What the books say of each member is said
/// by a line whenever it has changed; other lines, as of a server that can't be reached, go to the errors. Gives why it
/// ended. `NoMemory` comes where a growth was refused for the books or the rounds, before anything was done, where a replay
/// couldn't be put back into the books, or for the last lines. It may take half a minute to stop, or as long as the system
/// takes to give a connection up.
pub fn run_witness<'a, R, T, L, S, W, E>(
    rt: &'a R,
    alloc: Global,
    clock: &'a T,
    order: WitnessOrder<'a, L, S>,
    output: &'a Mutex<Output<W, E>>,
) -> Ending
where
    R: Threads + Wait + Sync + Net<Listener = TcpListener, Stream = TcpStream>,
    T: std::time::Clock + Sync,
    L: OpenListener<Stream = TcpStream> + Drop + Sync,
    S: Shelf + Drop + Send,
    W: Write + Send,
    E: Write + Send,
    ensures { IsEnding order.entry.known.now order.entry.epoch result }
{
    match begin_watch(rt, alloc, clock, &order, output) {
        Ok(watch) => watch_servers(rt, alloc, clock, order, watch, output),
        Err(AllocError) => Ending::NoMemory,
    }
}

/// New books, from the bases that servers give, where they are to be asked for them.
fn begin_watch<R, T, L, S, W, E>(
    rt: &R,
    alloc: Global,
    clock: &T,
    order: &WitnessOrder<'_, L, S>,
    output: &Mutex<Output<W, E>>,
) -> Result<Watch, AllocError>
where
    R: Wait + Net<Listener = TcpListener, Stream = TcpStream>,
    T: std::time::Clock,
    W: Write,
    E: Write,
{
    let bases = bases_of(rt, alloc, order, output)?;
    open_watch(alloc, clock, order, bases)
}

/// Watches with these books until the process is to end. Gives why it ended.
fn watch_servers<'a, R, T, L, S, W, E>(
    rt: &'a R,
    alloc: Global,
    clock: &'a T,
    order: WitnessOrder<'a, L, S>,
    watch: Watch,
    output: &'a Mutex<Output<W, E>>,
) -> Ending
where
    R: Threads + Wait + Sync + Net<Listener = TcpListener, Stream = TcpStream>,
    T: std::time::Clock + Sync,
    W: Write + Send,
    E: Write + Send,
    L: OpenListener<Stream = TcpStream> + Drop + Sync,
    S: Shelf + Drop + Send,
    ensures { IsEnding order.entry.known.now order.entry.epoch result }
{
    let settings = settings_of(&order);
    let WitnessOrder {
        roster,
        servers,
        witnesses,
        shelf,
        listener,
        control,
        ..
    } = order;
    let watch = Mutex::new(watch);
    let phase = Mutex::new(Phase::Serving);
    let elsewhere = Mutex::new(Elsewhere::nobody());
    let shelf = Mutex::new(shelf);
    let context = Context {
        rt,
        alloc,
        clock,
        roster: &roster,
        settings,
        elsewhere: &elsewhere,
        watch: &watch,
        phase: &phase,
        output,
        shelf: &shelf,
    };
    run_until_end(context, Peers { servers, witnesses }, &listener, control);
    let ending = end_of(context, settings.known, settings.epoch);
    say_begun(context, ending);
    ending
}

/// What an order tells a witness.
fn settings_of<'a, L, S>(order: &WitnessOrder<'a, L, S>) -> Settings<'a>
    ensures known { result.known.now ≡ order.now.known.now }
    ensures epoch { result.epoch ≡ order.now.epoch }
{
    Settings {
        digest: order.digest,
        epoch: order.epoch,
        known: order.known,
        every: order.every,
        patience: order.patience,
        overlap: order.overlap,
        evidence: order.evidence,
        workers: order.workers,
    }
}

/// The bases that servers give, where they are to be asked for them; else none.
fn bases_of<R, L, S, W, E>(
    rt: &R,
    alloc: Global,
    order: &WitnessOrder<'_, L, S>,
    output: &Mutex<Output<W, E>>,
) -> Result<Vec<Checked<Base>>, AllocError>
where
    R: Wait + Net<Listener = TcpListener, Stream = TcpStream>,
    W: Write,
    E: Write,
{
    if !order.join {
        return Ok(Vec::new(alloc));
    }
    let joining = Joining {
        rt,
        alloc,
        roster: &order.roster,
        digest: order.digest,
        output,
    };
    joining.bases(order.servers)
}

/// New books, with a copy of the roster, of each server from its base, if it has one among these.
fn open_watch<T: std::time::Clock, L, S>(
    alloc: Global,
    clock: &T,
    order: &WitnessOrder<'_, L, S>,
    bases: Vec<Checked<Base>>,
) -> Result<Watch, AllocError> {
    let roster = order.roster.try_clone(alloc)?;
    let servers = servers_of(alloc, order.servers)?;
    let time = seconds_now(clock, 0);
    Watch::open(alloc, roster, &servers, bases, order.digest, time)
}

/// Runs until the process is to end, and all threads have ended.
fn run_until_end<'a, R, T, L, S, W, E>(
    context: Context<'a, R, T, W, E, S>,
    peers: Peers<'a>,
    listener: &'a L,
    control: Option<Commands<'a>>,
)
where
    R: Threads + Wait + Sync + Net<Listener = TcpListener, Stream = TcpStream>,
    T: std::time::Clock + Sync,
    L: OpenListener<Stream = TcpStream> + Sync,
    S: Shelf + Send,
    W: Write + Send,
    E: Write + Send,
{
    let accepting = Accepting {
        rt: context.rt,
        alloc: context.alloc,
        clock: context.clock,
        phase: context.phase,
        output: context.output,
        first: listener,
        second: None,
    };
    thread::scope(thread::scope_env(), context.rt, |scope| {
        run_threads(context, accepting, peers, control, scope)
    });
}

/// Starts the threads, and accepts connections until the process is to end.
fn run_threads<'s, V, R, T, L, W, E, S>(
    context: Context<'s, R, T, W, E, S>,
    accepting: Accepting<'s, R, T, L, W, E>,
    peers: Peers<'s>,
    control: Option<Commands<'s>>,
    scope: &Scope<'s, V>,
)
where
    R: Threads + Wait + Sync + Net<Listener = TcpListener, Stream = TcpStream>,
    T: std::time::Clock + Sync,
    L: OpenListener<Stream = TcpStream>,
    S: Shelf + Send,
    W: Write + Send,
    E: Write + Send,
{
    attend_control(context, control, scope);
    start_rounds(context, peers.servers, scope);
    start_meetings(context, peers.witnesses, scope);
    serve_all(context, accepting, scope)
}

/// Starts the thread that takes commands, if there is a control socket.
fn attend_control<'s, V, R, T, W, E, S>(
    context: Context<'s, R, T, W, E, S>,
    control: Option<Commands<'s>>,
    scope: &Scope<'s, V>,
)
where
    R: Threads + Wait + Sync,
    T: std::time::Clock + Sync,
    W: Send,
    E: Send,
    S: Send,
{
    let Some(control) = control else {
        return;
    };
    let run = move || answer_commands(context, control);
    let _ = scope.spawn(run);
}

/// Takes commands at the control socket until the process no longer serves.
fn answer_commands<R, T, W, E, S>(context: Context<'_, R, T, W, E, S>, commands: Commands<'_>)
where
    R: Wait,
    T: std::time::Clock,
{
    let Context {
        rt,
        alloc,
        clock,
        phase,
        ..
    } = context;
    attend(
        rt,
        alloc,
        clock,
        phase,
        commands,
        &WitnessTeller { context },
    );
}

/// Starts the threads that go round the servers and keep up with what is pushed.
fn start_rounds<'s, V, R, T, W, E, S>(
    context: Context<'s, R, T, W, E, S>,
    servers: &'s [WatchedServer<'s>],
    scope: &Scope<'s, V>,
)
where
    R: Threads + Wait + Sync + Net<Listener = TcpListener, Stream = TcpStream>,
    T: std::time::Clock + Sync,
    S: Shelf + Send,
    W: Write + Send,
    E: Write + Send,
{
    let go = move || go_round(context, servers);
    if scope.spawn(go).is_err() {
        return end_without_threads(context);
    }
    let keep = move || keep_up(context);
    if scope.spawn(keep).is_err() {
        end_without_threads(context);
    }
}

/// Starts a thread for each other witness that is met, so that none of them holds up anything else.
fn start_meetings<'s, V, R, T, W, E, S>(
    context: Context<'s, R, T, W, E, S>,
    witnesses: &'s [&'s str],
    scope: &Scope<'s, V>,
)
where
    R: Threads + Wait + Sync + Net<Listener = TcpListener, Stream = TcpStream>,
    T: std::time::Clock + Sync,
    S: Send,
    W: Write + Send,
    E: Write + Send,
{
    for address in witnesses {
        let address = *address;
        let meet = move || keep_meeting(context, address);
        if scope.spawn(meet).is_err() {
            return end_without_threads(context);
        }
    }
}

/// Ends the process where the system makes no threads for it.
fn end_without_threads<R, T, W, E, S>(context: Context<'_, R, T, W, E, S>)
where
    R: Wait,
    W: Write,
    E: Write,
{
    let line = String::from_str(context.alloc, "nfsacc: the system makes no threads\n");
    context.output.lock(context.rt).say(line);
    end_serving(context.rt, context.phase, Phase::Stopping);
}

/// What the last steps have changed is said. Why the process no longer runs, which knows these rosters, and whose epoch
/// this is.
fn end_of<R, T, W, E, S>(
    context: Context<'_, R, T, W, E, S>,
    known: &[KnownRoster],
    epoch: u32,
) -> Ending
where
    R: Threads + Wait + Sync,
    T: std::time::Clock,
    W: Write,
    E: Write,
    S: Shelf,
    ensures { IsEnding known.now epoch result }
{
    let caught_up = catch_up(context);
    if context.lock().is_lost() || caught_up.is_err() {
        return Ending::NoMemory;
    }
    context.elsewhere.lock(context.rt).ending(known, epoch)
}

/// Says that a server began another epoch, where the process ends for that.
fn say_begun<R, T, W, E, S>(context: Context<'_, R, T, W, E, S>, ending: Ending)
where
    R: Wait,
    W: Write,
    E: Write,
{
    if let Ending::EpochBegun { node, epoch } = ending {
        let line = format!(in context.alloc; "nfsacc: server {node} began epoch {epoch}\n");
        context.output.lock(context.rt).say(line);
    }
}

/// Accepts connections, and starts a thread for each. Once there are no more the process ends.
fn serve_all<'s, V, R, T, L, W, E, S>(
    context: Context<'s, R, T, W, E, S>,
    accepting: Accepting<'s, R, T, L, W, E>,
    scope: &Scope<'s, V>,
)
where
    R: Threads + Wait + Sync,
    T: std::time::Clock + Sync,
    L: OpenListener<Stream = TcpStream>,
    W: Write + Send,
    E: Write + Send,
    S: Send,
{
    accepting.begin();
    for _ in 0..u64::MAX {
        let Some((stream, address, _)) = accepting.next() else {
            return end_serving(context.rt, context.phase, Phase::Stopping);
        };
        let run = move || serve_peer(context, stream, address);
        // Where no thread can be made the connection is closed.
        let _ = scope.spawn(run);
    }
}

/// Serves a peer's connection to its end.
fn serve_peer<R, T, W, E, S>(
    context: Context<'_, R, T, W, E, S>,
    stream: TcpStream,
    address: SocketAddr,
)
where
    R: Threads + Wait + Sync,
    T: std::time::Clock,
    W: Write,
    E: Write,
{
    if let Err(failure) = serve_records(context, &stream) {
        let line = format!(in context.alloc; "nfsacc: {address}: {failure}\n");
        context.output.lock(context.rt).say(line);
    }
}

/// Answers the records of a connection to its end.
fn serve_records<R, T, W, E, S>(
    context: Context<'_, R, T, W, E, S>,
    stream: &TcpStream,
) -> Result<ServeEnd, ServeFailure>
where
    R: Threads + Wait + Sync,
    T: std::time::Clock,
{
    let Context {
        rt,
        alloc,
        clock,
        phase,
        ..
    } = context;
    // Where it can't be set, answers come later, and nothing else changes.
    let _ = stream.set_nodelay(true);
    set_timeouts(stream);
    let waiting = Mutex::new(Waiting::new());
    let input = PeerStream::new(rt, clock, stream, phase, &waiting);
    let Ok(input) = BufReader::with_capacity(alloc, READ_AHEAD, input) else {
        return Err(ServeFailure::from(ServeFault::NoMemory));
    };
    let mut reader = FrameReader::new(Counting::new(input));
    let mut writer = Counting::new(PeerStream::new(rt, clock, stream, phase, &waiting));
    let mut locked = LockedWatch::new(rt, alloc, clock, context.watch, context.settings.digest);
    match serve_requests(alloc, &mut locked, &mut reader, &mut writer) {
        Ok(end) => Ok(end),
        Err(fault) => {
            let read = reader.get_ref().get_ref().get_ref().last();
            Err(ServeFailure::new(fault, read.or(writer.get_ref().last())))
        }
    }
}
