//! Which roster a witness goes by that isn't told its epoch: the one that a server goes by.

ghost use Rattle.std.specs.Prelude.{IfOk, IfSome};
ghost use Rattle.witness_process.specs.Rosters.{HasGreeted, IsChosen};

use crate::causes::{Cause, LastSaid, server_line, unknown_line};
use crate::context::wait_for;
use crate::elsewhere::{digest_in, roster_with};
use crate::links::MOST_GREETED;
use crate::orders::{KnownRoster, WatchedServer};
use peer_calls::{Greeting, NodeRequest};
use peer_connections::{
    Commands, Output, PeerCaller, Phase, Teller, attend, end_serving, is_serving,
};
use std::alloc::{AllocError, Global};
use std::io::Write;
use std::net::{Net, TcpListener, TcpStream};
use std::sync::{Mutex, Wait};
use std::thread;
use std::thread::{Scope, Threads};
use std::time::Clock;

/// Where a witness looks for the roster by which it goes.
#[derive(Clone, Copy)]
pub struct Search<'a> {
    /// The servers, in the order in which they are asked.
    pub servers: &'a [WatchedServer<'a>],
    /// The seconds between two rounds, at least 1.
    pub every: u32,
    /// Where the process can be told to stop, and asked how it is.
    pub control: Option<Commands<'a>>,
}

/// What those share who look for a roster.
struct Looking<'a, R, T, W, E> {
    rt: &'a R,
    alloc: Global,
    clock: &'a T,
    every: u32,
    phase: &'a Mutex<Phase>,
    output: &'a Mutex<Output<W, E>>,
}

impl<'a, R, T, W, E> Clone for Looking<'a, R, T, W, E> {
    fn clone(&self) -> Result<Looking<'a, R, T, W, E>, AllocError> {
        Ok(*self)
    }
}

impl<'a, R, T, W, E> Copy for Looking<'a, R, T, W, E> {}

/// A server that is asked, and what was said of it last.
#[derive(Drop)]
struct Asked<'a> {
    server: WatchedServer<'a>,
    said: LastSaid,
}

/// How a witness is that has no roster yet.
#[derive(Drop)]
struct SearchTeller {}

impl Teller for SearchTeller {
    fn tell(&self, alloc: Global) -> Result<String, AllocError> {
        String::from_str(alloc, "kind: witness\n")
    }
}

/// Asks servers in their order by which roster they go, round by round, until one of them goes by a roster that is known:
/// gives the first such one. None comes once the process is told to stop. Why a server names none goes to the errors, once
/// until that changes. `AllocError` comes only where a growth was refused, before a server was asked.
pub fn choose_roster<R, T, W, E>(
    rt: &R,
    alloc: Global,
    clock: &T,
    known: &[KnownRoster],
    search: Search<'_>,
    output: &Mutex<Output<W, E>>,
) -> Result<Option<KnownRoster>, AllocError>
where
    R: Threads + Wait + Sync + Net<Listener = TcpListener, Stream = TcpStream>,
    T: Clock + Sync,
    W: Write + Send,
    E: Write + Send,
    ensures { IfOk result (λ chosen. IfSome chosen (IsChosen known.now)) }
{
    let mut servers = asked_of(alloc, search.servers)?;
    let phase = Mutex::new(Phase::Serving);
    let looking = Looking {
        rt,
        alloc,
        clock,
        every: search.every,
        phase: &phase,
        output,
    };
    Ok(look_in_scope(looking, known, search.control, &mut servers))
}

/// The servers, of which nothing was said.
fn asked_of<'a>(
    alloc: Global,
    servers: &[WatchedServer<'a>],
) -> Result<Vec<Asked<'a>>, AllocError> {
    let mut all = Vec::new(alloc);
    for server in servers {
        let asked = Asked {
            server: *server,
            said: LastSaid::nothing(),
        };
        if all.push(asked).is_err() {
            return Err(AllocError);
        }
    }
    Ok(all)
}

/// Looks for a roster, and takes commands meanwhile.
fn look_in_scope<R, T, W, E>(
    looking: Looking<'_, R, T, W, E>,
    known: &[KnownRoster],
    control: Option<Commands<'_>>,
    servers: &mut [Asked<'_>],
) -> Option<KnownRoster>
where
    R: Threads + Wait + Sync + Net<Listener = TcpListener, Stream = TcpStream>,
    T: Clock + Sync,
    W: Write + Send,
    E: Write + Send,
    ensures { IfSome result (IsChosen known.now) }
{
    thread::scope(
        thread::scope_env(),
        looking.rt,
        |scope| -> Option<KnownRoster>
            ensures { IfSome result (IsChosen known.entry.now) }
        {
            attend_control(looking, control, scope);
            let chosen = look(looking, known, servers);
            end_serving(looking.rt, looking.phase, Phase::Stopping);
            chosen
        },
    )
}

/// Starts the thread that takes commands, if there is a control socket.
fn attend_control<'s, V, R, T, W, E>(
    looking: Looking<'s, R, T, W, E>,
    control: Option<Commands<'s>>,
    scope: &Scope<'s, V>,
)
where
    R: Threads + Wait + Sync,
    T: Clock + Sync,
    W: Send,
    E: Send,
{
    let Some(commands) = control else {
        return;
    };
    let run = move || {
        attend(
            looking.rt,
            looking.alloc,
            looking.clock,
            looking.phase,
            commands,
            &SearchTeller {},
        )
    };
    let _ = scope.spawn(run);
}

/// Asks all servers, round by round.
fn look<R, T, W, E>(
    looking: Looking<'_, R, T, W, E>,
    known: &[KnownRoster],
    servers: &mut [Asked<'_>],
) -> Option<KnownRoster>
where
    R: Wait + Net<Listener = TcpListener, Stream = TcpStream>,
    T: Clock,
    W: Write,
    E: Write,
    ensures { IfSome result (IsChosen known.now) }
{
    for _ in 0..u64::MAX {
        if let Some(chosen) = ask_all(looking, known, servers) {
            return Some(chosen);
        }
        if !wait_for(looking.rt, looking.clock, looking.phase, looking.every) {
            return None;
        }
    }
    None
}

/// Asks each server, until one goes by a roster that is known.
fn ask_all<R, T, W, E>(
    looking: Looking<'_, R, T, W, E>,
    known: &[KnownRoster],
    servers: &mut [Asked<'_>],
) -> Option<KnownRoster>
where
    R: Wait + Net<Listener = TcpListener, Stream = TcpStream>,
    W: Write,
    E: Write,
    ensures { IfSome result (IsChosen known.now) }
{
    for asked in servers.iter_mut() {
        if !is_serving(looking.rt, looking.phase) {
            return None;
        }
        if let Some(chosen) = ask(looking, known, asked) {
            return Some(chosen);
        }
    }
    None
}

/// Asks a server. Why it names no roster that is known is said, once until that changes.
#[tactic(auto, using(crate::proofs::OfRosters::is_chosen))]
fn ask<R, T, W, E>(
    looking: Looking<'_, R, T, W, E>,
    known: &[KnownRoster],
    asked: &mut Asked<'_>,
) -> Option<KnownRoster>
where
    R: Wait + Net<Listener = TcpListener, Stream = TcpStream>,
    W: Write,
    E: Write,
    ensures { IfSome result (IsChosen known.now) }
{
    let WatchedServer { node, address } = asked.server;
    let line = match greeted_by(looking.rt, looking.alloc, known, address) {
        Ok(digest) => {
            if let Some(chosen) = roster_with(known, &digest) {
                return Some(chosen);
            }
            unknown_line(looking.alloc, node, address, &digest)
        }
        Err(cause) => server_line(looking.alloc, node, address, &cause),
    };
    asked
        .said
        .say_at(looking.rt, looking.alloc, looking.output, line);
    None
}

/// The digest of the roster by which the server at an address goes.
fn greeted_by<R>(
    rt: &R,
    alloc: Global,
    known: &[KnownRoster],
    address: &str,
) -> Result<[u8; 32], Cause>
where
    R: Net<Listener = TcpListener, Stream = TcpStream>,
    ensures { IfOk result HasGreeted }
{
    let mut caller = match PeerCaller::connect(rt, alloc, address) {
        Ok(caller) => caller,
        Err(error) => return Err(Cause::NoConnection(error)),
    };
    let digest = first_digest(known);
    let greeting = Greeting { digest, node: 0 };
    let answer = caller.ask_node(&NodeRequest::Greet(greeting), MOST_GREETED)?;
    match digest_in(alloc, &digest, answer.results()) {
        Ok(digest) => Ok(digest),
        Err(fault) => Err(Cause::from(fault)),
    }
}

/// The digest of the first of some rosters; 32 zero bytes where there is none.
fn first_digest(known: &[KnownRoster]) -> [u8; 32] {
    match known.first() {
        Some(roster) => roster.digest,
        None => [0; 32],
    }
}
