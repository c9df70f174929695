//! The connections of a run, each in a thread of its own.

ghost use Rattle.std.specs.Prelude.{◌≡◌, ◌+◌, ◌≤◌, vec_len, vec_capacity};

use crate::connection::{ConnectionContext, EndedClient, WaitingClient, serve_connection};
use crate::control::attend;
use auditing::Shelf;
use sockets::{AcceptTrouble, trouble_of};
use std::alloc::AllocError;
use std::io::{self, Write};
use std::net::{OpenListener, SocketAddr, TcpStream};
use std::sync::Wait;
use std::thread;
use std::thread::{JoinHandle, Scope, Threads};
use std::time::Duration;

/// How many milliseconds a listener waits that can give no connection for now.
const PAUSE: u64 = 50;

/// A connection that a thread serves, or one that has ended.
#[derive(Drop)]
enum Connection {
    Running(JoinHandle<EndedClient>),
    Ended(EndedClient),
}

/// Accepts the next connection: none once the run is to end, or where the listener fails, which is said. A
/// connection that was aborted before it was accepted isn't counted. Where the system lacks files or memory,
/// that is said once, and `accept` is tried again until there is a connection.
fn accept<'a, R, T, L, E, S>(
    context: ConnectionContext<'a, R, T, E, S>,
    listener: &L,
) -> Option<(TcpStream, SocketAddr)>
where
    R: Threads + Wait + Sync,
    T: std::time::Clock,
    L: OpenListener<Stream = TcpStream>,
    E: Write,
    S: Shelf,
{
    let mut is_short = false;
    for _ in 0..u64::MAX {
        if context.is_stopping() {
            return None;
        }
        let error = match listener.accept() {
            Ok(connection) => return Some(connection),
            Err(error) => error,
        };
        match trouble_of(&error) {
            AcceptTrouble::Aborted => {}
            AcceptTrouble::Nobody => pause(context),
            AcceptTrouble::Shortage => {
                if !is_short {
                    say_shortage(context, &error);
                }
                is_short = true;
                pause(context);
            }
            AcceptTrouble::Broken => {
                say_refused(context, &error);
                return None;
            }
        }
    }
    None
}

/// Waits a moment.
fn pause<'a, R, T: std::time::Clock, E, S>(context: ConnectionContext<'a, R, T, E, S>) {
    context.clock.sleep(Duration::from_millis(PAUSE));
}

/// Says that no connection is accepted for now.
fn say_shortage<'a, R, T, E, S>(context: ConnectionContext<'a, R, T, E, S>, error: &io::Error)
where
    R: Wait,
    E: Write,
    S: Shelf,
{
    let audit = context.audit;
    let line = format!(in audit.alloc; "nfsacc: no connection is accepted for now: {error}\n");
    audit.output.lock(audit.rt).say(line);
}

/// Says that no connection is accepted any more.
fn say_refused<'a, R, T, E, S>(context: ConnectionContext<'a, R, T, E, S>, error: &io::Error)
where
    R: Wait,
    E: Write,
    S: Shelf,
{
    let audit = context.audit;
    let line = format!(in audit.alloc; "nfsacc: no connection is accepted: {error}\n");
    audit.output.lock(audit.rt).say_trouble(line);
}

/// Serves a connection for each waiting client, in their order, each by a thread of its own. If a thread
/// can't be spawned, the connection is served before the next one is accepted. Once each client has a
/// connection, or none is accepted any more, the listener is closed, so that later connections are refused. A
/// client for which none was accepted ends without one.
pub(crate) fn serve_all<'a, R, T, L, E, S>(
    context: ConnectionContext<'a, R, T, E, S>,
    listener: L,
    clients: Vec<WaitingClient>,
) -> Result<Vec<EndedClient>, AllocError>
where
    R: Threads + Wait + Sync,
    T: std::time::Clock + Sync,
    L: OpenListener<Stream = TcpStream> + Drop,
    E: Write + Send,
    S: Shelf + Send,
{
    thread::scope(
        thread::scope_env(),
        context.audit.rt,
        |scope| serve_in(context, listener, clients, scope),
    )
}

/// As `serve_all`, in a scope.
fn serve_in<'s, V, R, T, L, E, S>(
    context: ConnectionContext<'s, R, T, E, S>,
    listener: L,
    clients: Vec<WaitingClient>,
    scope: &Scope<'s, V>,
) -> Result<Vec<EndedClient>, AllocError>
where
    R: Threads + Wait + Sync,
    T: std::time::Clock + Sync,
    L: OpenListener<Stream = TcpStream> + Drop,
    E: Write + Send,
    S: Shelf + Send,
{
    let count = clients.len();
    let all = Vec::with_capacity(context.audit.alloc, count)?;
    let connections = Vec::with_capacity(context.audit.alloc, count)?;
    let attendant = watch(context, &listener, scope);
    let connections = start_all(context, listener, clients, connections, scope);
    let all = end_all(context.audit.rt, connections, all);
    context.end();
    if let Some(handle) = attendant {
        handle.join(context.audit.rt);
    }
    Ok(all)
}

/// Starts a thread that waits at the control socket, if there is one. The listener no longer blocks then, so
/// that `accept` sees when the run is to end. If a thread can't be spawned, that is said.
fn watch<'s, V, R, T, L, E, S>(
    context: ConnectionContext<'s, R, T, E, S>,
    listener: &L,
    scope: &Scope<'s, V>,
) -> Option<JoinHandle<()>>
where
    R: Threads + Wait + Sync,
    T: std::time::Clock + Sync,
    L: OpenListener<Stream = TcpStream>,
    E: Write + Send,
    S: Shelf + Send,
{
    let control = context.control?;
    let _ = listener.set_nonblocking(true);
    let run = move || attend(context, control);
    match scope.spawn(run) {
        Ok(handle) => Some(handle),
        Err(_) => {
            let audit = context.audit;
            let line = format!(in audit.alloc; "nfsacc: nobody attends to the control socket\n");
            audit.output.lock(audit.rt).say_trouble(line);
            None
        }
    }
}

/// Accepts a connection for each client, and starts its thread. Closes the listener then.
fn start_all<'s, V, R, T, L, E, S>(
    context: ConnectionContext<'s, R, T, E, S>,
    listener: L,
    clients: Vec<WaitingClient>,
    connections: Vec<Connection>,
    scope: &Scope<'s, V>,
) -> Vec<Connection>
where
    R: Threads + Wait + Sync,
    T: std::time::Clock + Sync,
    L: OpenListener<Stream = TcpStream> + Drop,
    E: Write + Send,
    S: Shelf + Send,
    requires empty { vec_len connections ≡ 0 }
    requires room { vec_len clients ≤ vec_capacity connections }
    ensures { vec_len result ≤ vec_len clients }
{
    let count = clients.len();
    let mut left = clients;
    left.reverse();
    let mut connections = connections;
    let mut listening = true;
    for place in 0..count {
        let Some(client) = left.pop() else {
            break;
        };
        let next = if listening {
            accept(context, &listener)
        } else {
            None
        };
        listening = next.is_some();
        connections.push_reserved(start(context, client, next, scope));
    }
    connections
}

/// Waits for the end of each connection. The clients come back in the order in which they were started.
fn end_all<R: Threads + Wait>(
    rt: &R,
    connections: Vec<Connection>,
    room: Vec<EndedClient>,
) -> Vec<EndedClient>
    requires { vec_len room + vec_len connections ≤ vec_capacity room }
{
    let mut left = connections;
    let mut all = room;
    while let Some(one) = left.pop() {
        all.push_reserved(end_of(rt, one));
    }
    all.reverse();
    all
}

/// Waits for the end of a connection.
fn end_of<R: Threads + Wait>(rt: &R, connection: Connection) -> EndedClient {
    match connection {
        Connection::Running(handle) => handle.join(rt),
        Connection::Ended(ended) => ended,
    }
}

/// Starts the thread of a client's connection, if it has one.
fn start<'s, V, R, T, E, S>(
    context: ConnectionContext<'s, R, T, E, S>,
    client: WaitingClient,
    next: Option<(TcpStream, SocketAddr)>,
    scope: &Scope<'s, V>,
) -> Connection
where
    R: Threads + Wait + Sync,
    T: std::time::Clock + Sync,
    E: Write + Send,
    S: Shelf + Send,
{
    let Some((stream, address)) = next else {
        return Connection::Ended(EndedClient::without_connection(context.audit.alloc, client));
    };
    let run = move || serve_connection(context, client, stream, address);
    match scope.spawn(run) {
        Ok(handle) => Connection::Running(handle),
        Err(refused) => Connection::Ended((refused.value)()),
    }
}
