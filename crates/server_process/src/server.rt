//! A server with its node: connections as they come, each in a thread of its own.

ghost use Rattle.server_process.specs.PutBack.{IsEnding};

use crate::checking::Checking;
use crate::held::Held;
use crate::locked::{LockedServer, Seat};
use crate::status::{ServerTeller, Tally, count_received};
use authenticator::Roster;
use frames::FrameReader;
use hosting::Host;
use nodes::HonestServer;
use peer_connections::{
    Accepting, Commands, Output, PeerStream, Phase, Place, Seats, SegmentTurns, ServeFailure,
    Standing, Waiting, attend, set_timeouts,
};
use request_streams::{Answerer, ServeEnd, ServeFault, serve_requests};
use rpc::records::Counting;
use std::alloc::{AllocError, Global};
use std::io::{BufReader, Write};
use std::net::{OpenListener, SocketAddr, TcpStream};
use std::sync::{Mutex, Wait};
use std::thread;
use std::thread::{Scope, Threads};
use system_clock::SystemClock;

/// The bytes that are read of a stream at once.
const READ_AHEAD: usize = 65536;

/// What a server serves.
#[derive(Drop)]
pub struct ServerOrder<'a, L> {
    /// The server, with its keys.
    pub server: HonestServer,
    /// Its roster, by which signatures are checked before the server is at hand.
    pub roster: Roster,
    /// The digest of its roster's text.
    pub digest: [u8; 32],
    /// The epoch of that roster.
    pub epoch: u32,
    /// Where clients connect.
    pub listener: L,
    /// Where audits are answered, if not at the first address too.
    pub audits: Option<L>,
    /// Where the process can be told to stop, and asked how it is.
    pub control: Option<Commands<'a>>,
    /// After how many new messages the server logs a CHECK of its state, if it does; 0 counts as 1.
    pub check_every: Option<u64>,
}

/// Why a server no longer serves.
#[derive(Clone, Copy, Debug, PartialEq, Eq)]
pub enum Ending {
    /// It was told to stop, or a listener failed.
    Stopped,
    /// Its keys are used up, after it received so many messages.
    KeysUsedUp { calls: u64 },
    /// It was shown that it signed something at this number which its log lacks: the log was put back to an earlier one.
    PutBack { number: u64 },
}

/// What all connections of a server share.
struct Context<'a, R, T, W, E> {
    rt: &'a R,
    alloc: Global,
    clock: &'a T,
    held: &'a Mutex<Held>,
    roster: &'a Roster,
    phase: &'a Mutex<Phase>,
    output: &'a Mutex<Output<W, E>>,
    seats: &'a Seats,
    turns: &'a SegmentTurns,
    tally: &'a Mutex<Tally>,
    digest: [u8; 32],
}

impl<'a, R, T, W, E> Clone for Context<'a, R, T, W, E> {
    fn clone(&self) -> Result<Context<'a, R, T, W, E>, AllocError> {
        Ok(*self)
    }
}

impl<'a, R, T, W, E> Copy for Context<'a, R, T, W, E> {}

/// Serves until the process is told to stop, or the server's keys are used up: then the calls in hand are answered
/// first. It ends, too, once somebody has shown by the server's own signature that its log was put back to an earlier one:
/// then nothing more is signed, and that is said. Lines go to the output. Gives why it ended.
pub fn host_server<'a, R, T, L, W, E>(
    rt: &'a R,
    alloc: Global,
    clock: &'a T,
    order: ServerOrder<'a, L>,
    output: &'a Mutex<Output<W, E>>,
) -> Ending
where
    R: Threads + Wait + Sync,
    T: std::time::Clock + Sync,
    L: OpenListener<Stream = TcpStream> + Drop + Sync,
    W: Write + Send,
    E: Write + Send,
    ensures { IsEnding result }
{
    let ServerOrder {
        server,
        roster,
        digest,
        epoch,
        listener,
        audits,
        control,
        check_every,
    } = order;
    let held = Mutex::new(Held::new(server, Checking::new(check_every)));
    let phase = Mutex::new(Phase::Serving);
    let tally = Mutex::new(Tally::new(epoch));
    serve_until_end(
        rt,
        alloc,
        clock,
        &phase,
        output,
        &held,
        &roster,
        &tally,
        digest,
        &listener,
        audits.as_ref(),
        control,
    );
    let ending = end_of(rt, &phase, &held);
    if let Ending::PutBack { number } = ending {
        say_put_back(rt, alloc, output, number);
    }
    ending
}

/// Says that the log was put back.
fn say_put_back<R: Wait, W: Write, E: Write>(
    rt: &R,
    alloc: Global,
    output: &Mutex<Output<W, E>>,
    number: u64,
) {
    let line = format!(in alloc;
        "nfsacc: the log was put back to an earlier one: number {number} was signed before\n"
    );
    output.lock(rt).say(line);
}

/// Serves until the process is to end, and all connections have ended.
fn serve_until_end<'a, R, T, L, W, E>(
    rt: &'a R,
    alloc: Global,
    clock: &'a T,
    phase: &'a Mutex<Phase>,
    output: &'a Mutex<Output<W, E>>,
    held: &'a Mutex<Held>,
    roster: &'a Roster,
    tally: &'a Mutex<Tally>,
    digest: [u8; 32],
    first: &'a L,
    second: Option<&'a L>,
    control: Option<Commands<'a>>,
)
where
    R: Threads + Wait + Sync,
    T: std::time::Clock + Sync,
    L: OpenListener<Stream = TcpStream> + Sync,
    W: Write + Send,
    E: Write + Send,
{
    let accepting = Accepting {
        rt,
        alloc,
        clock,
        phase,
        output,
        first,
        second,
    };
    let seats = Seats::new(alloc, clock);
    let turns = SegmentTurns::new(alloc);
    let context = Context {
        rt,
        alloc,
        clock,
        held,
        roster,
        phase,
        output,
        seats: &seats,
        turns: &turns,
        tally,
        digest,
    };
    thread::scope(thread::scope_env(), context.rt, |scope| {
        if let Some(control) = control {
            let run = move || attend_control(context, control);
            let _ = scope.spawn(run);
        }
        serve_all(context, accepting, scope)
    });
}

/// Takes commands at the control socket until the process no longer serves.
fn attend_control<R, T, W, E>(context: Context<'_, R, T, W, E>, commands: Commands<'_>)
where
    R: Wait,
    T: std::time::Clock,
{
    let Context {
        rt,
        alloc,
        clock,
        held,
        phase,
        tally,
        ..
    } = context;
    let teller = ServerTeller::new(rt, held, tally);
    attend(rt, alloc, clock, phase, commands, &teller);
}

/// Why the process no longer serves.
fn end_of<R: Wait>(rt: &R, phase: &Mutex<Phase>, held: &Mutex<Held>) -> Ending
    ensures { IsEnding result }
{
    let held = held.lock(rt);
    if let Some(number) = held.put_back() {
        return Ending::PutBack { number };
    }
    match *phase.lock(rt) {
        Phase::KeysUsedUp => Ending::KeysUsedUp {
            calls: count_received(held.entries()),
        },
        Phase::Serving | Phase::Stopping => Ending::Stopped,
    }
}

/// Accepts connections, and starts a thread for each. With two listeners segments are given out at the second alone.
fn serve_all<'s, V, R, T, L, W, E>(
    context: Context<'s, R, T, W, E>,
    accepting: Accepting<'s, R, T, L, W, E>,
    scope: &Scope<'s, V>,
)
where
    R: Threads + Wait + Sync,
    T: std::time::Clock + Sync,
    L: OpenListener<Stream = TcpStream>,
    W: Write + Send,
    E: Write + Send,
{
    accepting.begin();
    let is_alone = accepting.second.is_none();
    for _ in 0..u64::MAX {
        let Some((stream, address, place)) = accepting.next() else {
            return;
        };
        let address_kind = AddressKind {
            is_alone,
            is_for_audits: place == Place::Second,
        };
        let run = move || serve_peer(context, stream, address, address_kind);
        // Where no thread can be made the connection is closed.
        let _ = scope.spawn(run);
    }
}

/// What an address of a server is for.
#[derive(Clone, Copy)]
pub(crate) struct AddressKind {
    /// It is the only one, so that calls and audits come to it.
    pub(crate) is_alone: bool,
    /// Audits alone come to it.
    pub(crate) is_for_audits: bool,
}

/// Serves a peer's connection to its end, or until it loses its place.
fn serve_peer<R, T, W, E>(
    context: Context<'_, R, T, W, E>,
    stream: TcpStream,
    address: SocketAddr,
    kind: AddressKind,
)
where
    R: Threads + Wait + Sync,
    T: std::time::Clock,
    W: Write,
    E: Write,
{
    let standing = if kind.is_for_audits {
        Standing::Auditor
    } else {
        Standing::Stranger
    };
    // Where there is no memory for a place the connection is closed.
    let Some(id) = context.seats.enter(context.rt, context.clock, standing) else {
        return;
    };
    context.tally.lock(context.rt).opened();
    let served = serve_records(context, &stream, address, kind, id);
    context.tally.lock(context.rt).closed();
    context.turns.give_back(context.rt, id);
    context.seats.leave(context.rt, id);
    if let Err(failure) = served {
        let line = format!(in context.alloc; "nfsacc: {address}: {failure}\n");
        context.output.lock(context.rt).say(line);
    }
}

/// Answers the records of a connection to its end.
fn serve_records<R, T, W, E>(
    context: Context<'_, R, T, W, E>,
    stream: &TcpStream,
    address: SocketAddr,
    kind: AddressKind,
    id: u64,
) -> Result<ServeEnd, ServeFailure>
where
    R: Threads + Wait + Sync,
    T: std::time::Clock,
    W: Write,
    E: Write,
{
    let waiting = Mutex::new(Waiting::new());
    let seat = Seat {
        seats: context.seats,
        turns: context.turns,
        id,
        address: address.ip(),
        clock: context.clock,
        kind,
        waiting: &waiting,
    };
    let host = Host {
        digest: context.digest,
        gives_segments: kind.is_alone || kind.is_for_audits,
    };
    let mut locked = LockedServer::new(
        context.rt,
        context.held,
        SystemClock::new(context.clock),
        host,
        context.roster,
        context.phase,
        seat,
        context.tally,
        context.output,
    );
    serve_stream(context, stream, id, &waiting, &mut locked)
}

/// Has the records of a stream answered to its end.
fn serve_stream<R, T, W, E, A>(
    context: Context<'_, R, T, W, E>,
    stream: &TcpStream,
    id: u64,
    waiting: &Mutex<Waiting>,
    answerer: &mut A,
) -> Result<ServeEnd, ServeFailure>
where
    R: Wait,
    T: std::time::Clock,
    A: Answerer,
{
    let Context {
        rt,
        alloc,
        clock,
        phase,
        seats,
        turns,
        ..
    } = context;
    // Where it can't be set, replies come later, and nothing else changes.
    let _ = stream.set_nodelay(true);
    set_timeouts(stream);
    let input = PeerStream::new(rt, clock, stream, phase, waiting).among(seats, turns, id);
    let Ok(input) = BufReader::with_capacity(alloc, READ_AHEAD, input) else {
        return Err(ServeFailure::from(ServeFault::NoMemory));
    };
    let mut reader = FrameReader::new(Counting::new(input));
    let mut writer = Counting::new(PeerStream::new(rt, clock, stream, phase, waiting));
    match serve_requests(alloc, answerer, &mut reader, &mut writer) {
        Ok(end) => Ok(end),
        Err(fault) => {
            let read = reader.get_ref().get_ref().get_ref().last();
            Err(ServeFailure::new(fault, read.or(writer.get_ref().last())))
        }
    }
}
