//! A gateway with its node: local programs as they connect, each in a thread of its own, and reports to witnesses.

use crate::context::{Context, Serving, Shared};
use crate::desk::Desk;
use crate::local_programs::serve_program;
use crate::reporter::Reporter;
use crate::status::GatewayTeller;
use crate::tcp_courier::{Route, TcpCourier};
use crate::ways::Ways;
use assurance::Keeper;
use nodes::ClientNode;
use peer_calls::Greeting;
use peer_connections::{Accepting, Commands, Output, Phase, attend};
use remote_sharing::{Flights, RemoteClient, SharedClient};
use std::alloc::{AllocError, Global};
use std::io::Write;
use std::net::{Net, OpenListener, TcpListener, TcpStream};
use std::sync::{Mutex, Wait};
use std::thread;
use std::thread::{Scope, Threads};

/// What a gateway serves.
#[derive(Drop)]
pub struct GatewayOrder<'a, L, K> {
    /// The node, with its keys.
    pub client: ClientNode,
    /// The digest of its roster's text.
    pub digest: [u8; 32],
    /// The epoch of that roster.
    pub epoch: u32,
    /// The number of the server that it calls.
    pub server: u32,
    /// Where the server listens, as HOST:PORT.
    pub address: &'a str,
    /// Where witnesses listen, each as HOST:PORT.
    pub witnesses: Vec<String>,
    /// How many seconds pass between two reports.
    pub every: u32,
    /// How many messages that witnesses ask for are received at most: each takes a key.
    pub reserve: u32,
    /// After how many seconds without a reply a call is given up; it waits for ever where none are given.
    pub give_up: Option<u64>,
    /// Whether a line says, after a report, up to which number the witness answers for the replies, where that has
    /// changed.
    pub progress: bool,
    /// Who keeps what the server signed and a witness never takes, since it began at a base above it.
    pub keeper: K,
    /// Where local programs connect.
    pub listener: L,
    /// Where the process can be told to stop, and asked how it is.
    pub control: Option<Commands<'a>>,
}

/// Why a gateway no longer serves.
#[derive(Clone, Copy, Debug, PartialEq, Eq)]
pub enum Ending {
    /// It was told to stop, or the listener failed, or its roster lists no such server.
    Stopped,
    /// The keys of its node or of the server are used up.
    KeysUsedUp,
    /// The server goes by another roster.
    OtherRoster,
    /// The node's log was put back to an earlier one: a witness has a signature of what it lacks.
    PutBack,
}

/// Serves local programs until the process is told to stop, keys are used up, or the server is found to go by another
/// roster: then the calls in hand are answered first, and witnesses get a last report. Lines go to the output. Gives
/// why it ended.
pub fn run_gateway<'a, R, T, L, W, E, K>(
    rt: &'a R,
    alloc: Global,
    clock: &'a T,
    order: GatewayOrder<'a, L, K>,
    output: &'a Mutex<Output<W, E>>,
) -> Ending
where
    R: Threads + Wait + Sync + Net<Listener = TcpListener, Stream = TcpStream>,
    T: std::time::Clock + Sync,
    L: OpenListener<Stream = TcpStream> + Drop + Sync,
    W: Write + Send,
    E: Write + Send,
    K: Keeper + Drop + Send,
{
    let phase = Mutex::new(Phase::Serving);
    let ending = Mutex::new(Ending::Stopped);
    let is_away = Mutex::new(false);
    let desk = Mutex::new(Desk::new(alloc));
    let flights = Mutex::new(Flights::new(alloc));
    let greeting = Greeting {
        digest: order.digest,
        node: order.client.number(),
    };
    let context = Context {
        rt,
        alloc,
        clock,
        phase: &phase,
        output,
        ending: &ending,
        is_away: &is_away,
        desk: &desk,
        flights: &flights,
        greeting,
        epoch: order.epoch,
        server: order.server,
        give_up: order.give_up,
        progress: order.progress,
    };
    serve_order(context, order);
    end_of(rt, &phase, &ending)
}

/// Why the process no longer serves.
fn end_of<R: Wait>(rt: &R, phase: &Mutex<Phase>, ending: &Mutex<Ending>) -> Ending {
    let ending = *ending.lock(rt);
    match (ending, *phase.lock(rt)) {
        (Ending::Stopped, Phase::KeysUsedUp) => Ending::KeysUsedUp,
        (ending, _) => ending,
    }
}

/// Reports, so that no call is begun with a log that was put back, and serves what is ordered until the process is to
/// end.
fn serve_order<'a, R, T, L, W, E, K>(
    context: Context<'a, R, T, W, E>,
    order: GatewayOrder<'a, L, K>,
)
where
    R: Threads + Wait + Sync + Net<Listener = TcpListener, Stream = TcpStream>,
    T: std::time::Clock + Sync,
    L: OpenListener<Stream = TcpStream> + Drop + Sync,
    W: Write + Send,
    E: Write + Send,
    K: Keeper + Drop + Send,
{
    let GatewayOrder {
        client,
        server,
        address,
        witnesses,
        every,
        reserve,
        keeper,
        listener,
        control,
        ..
    } = order;
    let alloc = context.alloc;
    let Some(client) = shared_client(alloc, client, server) else {
        context.say(format!(in alloc;
            "nfsacc: the roster lists no server {server} for this node\n"
        ));
        return;
    };
    let client = Mutex::new(client);
    let (Ok(reporter), Ok(ways)) = (
        Reporter::new(alloc, witnesses, every, reserve, keeper),
        Ways::new(alloc),
    ) else {
        context.say(format!(in alloc; "nfsacc: out of memory\n"));
        return;
    };
    let reporter = Mutex::new(reporter);
    reporter.lock(context.rt).report(Shared {
        context,
        client: &client,
    });
    if context.is_serving() {
        serve_until_end(
            context, &client, address, &ways, &reporter, &listener, control,
        );
    }
    finish(context, &client, address, &ways);
}

/// Brings the server the acknowledgements of replies that it hasn't answered yet.
fn finish<'s, R, T, W, E>(
    context: Context<'s, R, T, W, E>,
    client: &'s Mutex<SharedClient>,
    address: &'s str,
    ways: &'s Ways,
)
where
    R: Wait + Net<Listener = TcpListener, Stream = TcpStream>,
    T: std::time::Clock,
    W: Write,
    E: Write,
{
    let route = Route { address, ways };
    TcpCourier::new(context, client, route).finish();
}

/// The client of the server with a number: none where its roster lists no such server, or its log isn't empty.
fn shared_client(alloc: Global, client: ClientNode, server: u32) -> Option<SharedClient> {
    let client = RemoteClient::new(client, server).ok()?;
    SharedClient::new(alloc, client).ok()
}

/// Serves until the process is to end and all connections have ended, and reports for the last time.
fn serve_until_end<'s, R, T, L, W, E, K>(
    context: Context<'s, R, T, W, E>,
    client: &'s Mutex<SharedClient>,
    address: &'s str,
    ways: &'s Ways,
    reporter: &'s Mutex<Reporter<K>>,
    listener: &'s L,
    control: Option<Commands<'s>>,
)
where
    R: Threads + Wait + Sync + Net<Listener = TcpListener, Stream = TcpStream>,
    T: std::time::Clock + Sync,
    L: OpenListener<Stream = TcpStream> + Sync,
    W: Write + Send,
    E: Write + Send,
    K: Keeper + Drop + Send,
{
    let shared = Shared { context, client };
    let route = Route { address, ways };
    let serving = Serving { shared, route };
    let accepting = Accepting {
        rt: context.rt,
        alloc: context.alloc,
        clock: context.clock,
        phase: context.phase,
        output: context.output,
        first: listener,
        second: None,
    };
    thread::scope(thread::scope_env(), context.rt, |scope| {
        run_threads(serving, accepting, reporter, control, scope)
    });
    reporter.lock(context.rt).report(shared);
}

/// Starts the threads, and accepts local programs until the process is to end.
fn run_threads<'s, V, R, T, L, W, E, K>(
    serving: Serving<'s, R, T, W, E>,
    accepting: Accepting<'s, R, T, L, W, E>,
    reporter: &'s Mutex<Reporter<K>>,
    control: Option<Commands<'s>>,
    scope: &Scope<'s, V>,
)
where
    R: Threads + Wait + Sync + Net<Listener = TcpListener, Stream = TcpStream>,
    T: std::time::Clock + Sync,
    L: OpenListener<Stream = TcpStream>,
    W: Write + Send,
    E: Write + Send,
    K: Keeper + Drop + Send,
{
    let shared = serving.shared;
    if let Some(control) = control {
        let run = move || attend_control(shared, control);
        let _ = scope.spawn(run);
    }
    start_reports(shared, reporter, scope);
    serve_all(serving, accepting, scope)
}

/// Takes commands at the control socket until the process no longer serves.
fn attend_control<R, T, W, E>(shared: Shared<'_, R, T, W, E>, commands: Commands<'_>)
where
    R: Wait,
    T: std::time::Clock,
    W: Write,
    E: Write,
{
    let context = shared.context;
    let (rt, alloc, clock) = (context.rt, context.alloc, context.clock);
    let teller = GatewayTeller {
        rt,
        client: shared.client,
        desk: context.desk,
        node: context.greeting.node,
        epoch: context.epoch,
    };
    attend(rt, alloc, clock, context.phase, commands, &teller);
}

/// Starts the thread that reports to witnesses.
fn start_reports<'s, V, R, T, W, E, K>(
    shared: Shared<'s, R, T, W, E>,
    reporter: &'s Mutex<Reporter<K>>,
    scope: &Scope<'s, V>,
)
where
    R: Threads + Wait + Sync + Net<Listener = TcpListener, Stream = TcpStream>,
    T: std::time::Clock + Sync,
    W: Write + Send,
    E: Write + Send,
    K: Keeper + Drop + Send,
{
    let run = move || report_until_end(shared, reporter);
    let _ = scope.spawn(run);
}

/// Reports to witnesses until the process no longer serves.
fn report_until_end<R, T, W, E, K>(shared: Shared<'_, R, T, W, E>, reporter: &Mutex<Reporter<K>>)
where
    R: Wait + Net<Listener = TcpListener, Stream = TcpStream>,
    T: std::time::Clock,
    W: Write,
    E: Write,
    K: Keeper + Drop,
{
    reporter.lock(shared.context.rt).run(shared);
}

/// Accepts local programs, and starts a thread for each.
fn serve_all<'s, V, R, T, L, W, E>(
    serving: Serving<'s, R, T, W, E>,
    accepting: Accepting<'s, R, T, L, W, E>,
    scope: &Scope<'s, V>,
)
where
    R: Threads + Wait + Sync + Net<Listener = TcpListener, Stream = TcpStream>,
    T: std::time::Clock + Sync,
    L: OpenListener<Stream = TcpStream>,
    W: Write + Send,
    E: Write + Send,
{
    accepting.begin();
    for _ in 0..u64::MAX {
        let Some((stream, address, _)) = accepting.next() else {
            return;
        };
        let run = move || serve_program(serving, stream, address);
        // Where no thread can be made the connection is closed.
        let _ = scope.spawn(run);
    }
}
