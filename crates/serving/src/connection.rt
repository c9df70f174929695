//! One connection: its client's records, and then the client's audit.

use crate::checks::{Checking, Checks};
use crate::link::{CheckingLink, ClientLink};
use crate::members::SERVER;
use crate::phase::Phase;
use crate::stream::{ClientStream, Timeouts};
use auditing::{AuditContext, Auditor, Audits, Pass, Shelf};
use authenticator::Authenticator;
use nodes::{ClientNode, Gateway, HonestServer, StreamFault};
use rpc::records::{Counting, RecordReader};
use std::alloc::{AllocError, Global};
use std::fmt;
use std::io::{self, BufReader, Write};
use std::net::{SocketAddr, TcpStream};
use std::os::unix::net::UnixListener;
use std::sync::{Mutex, Wait};
use std::thread::Threads;
use system_clock::SystemClock;

/// The bytes that are read of a stream at once.
const READ_AHEAD: usize = 65536;

/// What all connections of a run share.
pub(crate) struct ConnectionContext<'a, R, T, E, S> {
    pub(crate) audit: AuditContext<'a, R, E, S>,
    pub(crate) clock: &'a T,
    pub(crate) server: &'a Mutex<HonestServer>,
    /// The CHECKs that the server logs, if it logs some.
    pub(crate) checks: Option<&'a Mutex<Checks>>,
    pub(crate) phase: &'a Mutex<Phase>,
    /// How many seconds a connection may be silent, if there is an end to it.
    pub(crate) idle: Option<u32>,
    /// The control socket, at which the run can be told to stop, if there is one.
    pub(crate) control: Option<&'a UnixListener>,
}

impl<'a, R, T, E, S> Clone for ConnectionContext<'a, R, T, E, S> {
    fn clone(&self) -> Result<ConnectionContext<'a, R, T, E, S>, AllocError> {
        Ok(*self)
    }
}

impl<'a, R, T, E, S> Copy for ConnectionContext<'a, R, T, E, S> {}

impl<'a, R: Wait, T, E: Write, S: Shelf> ConnectionContext<'a, R, T, E, S> {
    /// The phase of the run.
    pub(crate) fn phase(&self) -> Phase {
        *self.phase.lock(self.audit.rt)
    }

    /// The server with the CHECKs that it logs, if it logs some.
    fn checking(&self) -> Option<Checking<'a, R, E, S>> {
        let checks = self.checks?;
        Some(Checking {
            audit: self.audit,
            server: self.server,
            checks,
        })
    }

    /// Whether the run is to end.
    pub(crate) fn is_stopping(&self) -> bool {
        self.phase() != Phase::Serving
    }

    /// Stops the run, and says so.
    pub(crate) fn stop(&self) {
        *self.phase.lock(self.audit.rt) = Phase::Stopping;
        let line = format!(in self.audit.alloc; "nfsacc: told to stop\n");
        self.audit.output.lock(self.audit.rt).say(line);
    }

    /// Notes that all connections have ended.
    pub(crate) fn end(&self) {
        *self.phase.lock(self.audit.rt) = Phase::Over;
    }
}

/// A client that waits for its connection, with its pass at the witness.
#[derive(Drop)]
pub(crate) struct WaitingClient {
    pub(crate) client: ClientNode,
    pub(crate) pass: Pass,
}

/// A client whose connection has ended, or that got none.
#[derive(Drop)]
pub(crate) struct EndedClient {
    pub(crate) client: ClientNode,
    pub(crate) pass: Pass,
    /// The last number of its log that the witness has filed.
    pub(crate) filed: u64,
    /// Authenticators of other nodes that its log showed, and for which their books had no room.
    pub(crate) kept: Vec<Authenticator>,
}

impl EndedClient {
    /// A client that got no connection.
    pub(crate) fn without_connection(alloc: Global, waiting: WaitingClient) -> EndedClient {
        EndedClient {
            client: waiting.client,
            pass: waiting.pass,
            filed: 0,
            kept: Vec::new(alloc),
        }
    }
}

/// Serves a connection to its end, and audits its client.
pub(crate) fn serve_connection<'a, R, T, E, S>(
    context: ConnectionContext<'a, R, T, E, S>,
    waiting: WaitingClient,
    stream: TcpStream,
    address: SocketAddr,
) -> EndedClient
where
    R: Threads + Wait + Sync,
    T: std::time::Clock,
    E: Write,
    S: Shelf,
{
    let WaitingClient { client, pass } = waiting;
    let client = serve_client(context, client, stream, address);
    audit_client(context.audit, client, pass)
}

/// Answers a client's records to the end of its stream, and gives the client back. Where the stream fails
/// first, says why.
fn serve_client<'a, R, T, E, S>(
    context: ConnectionContext<'a, R, T, E, S>,
    client: ClientNode,
    stream: TcpStream,
    address: SocketAddr,
) -> ClientNode
where
    R: Threads + Wait + Sync,
    T: std::time::Clock,
    E: Write,
    S: Shelf,
{
    let audit = context.audit;
    let number = client.number();
    // Where it can't be set, replies to pipelined calls come later, and nothing else changes.
    let _ = stream.set_nodelay(true);
    let link = ClientLink::new(audit.rt, audit.alloc, client, SERVER, context.server);
    let mut link = CheckingLink::new(link, context.checking());
    let served = serve_records(context, &mut link, &stream);
    drop(stream);
    if let Err(failure) = served {
        say_failure(audit, number, address, failure);
    }
    link.into_client()
}

/// Why a stream failed before its end.
#[derive(Clone, Copy)]
struct StreamFailure {
    fault: StreamFault,
    /// The error that the connection reported, if it did.
    cause: Option<io::Error>,
}

/// Whether an error says that the client reset the connection.
fn is_reset(error: &io::Error) -> bool {
    matches!(
        error.kind(),
        io::ErrorKind::ConnectionReset | io::ErrorKind::BrokenPipe
    )
}

impl fmt::Display for StreamFailure {
    fn fmt<W: fmt::Write>(&self, f: &mut fmt::Formatter<W>) -> fmt::Result {
        let code = self.fault.number();
        match (self.fault, self.cause) {
            (StreamFault::Device, Some(error)) if is_reset(&error) => {
                write!(f, "fault {code}: connection reset")
            }
            (StreamFault::Device, Some(error)) => write!(f, "fault {code}: {error}"),
            (fault, _) => write!(f, "fault {code}: {fault}"),
        }
    }
}

/// Says why a stream failed.
fn say_failure<R, E, S>(
    audit: AuditContext<'_, R, E, S>,
    number: u32,
    address: SocketAddr,
    failure: StreamFailure,
)
where
    R: Wait,
    E: Write,
    S: Shelf,
{
    if let StreamFault::NoMemory = failure.fault {
        audit.output.lock(audit.rt).note_no_memory();
    }
    let line = format!(in audit.alloc; "nfsacc: node {number} ({address}): {failure}\n");
    audit.output.lock(audit.rt).say(line);
}

/// Answers the records of a stream to its end.
fn serve_records<'a, R, T, E, S>(
    context: ConnectionContext<'a, R, T, E, S>,
    link: &mut CheckingLink<'_, R, E, S>,
    stream: &TcpStream,
) -> Result<(), StreamFailure>
where
    R: Threads + Wait + Sync,
    T: std::time::Clock,
    E: Write,
    S: Shelf,
{
    let AuditContext { rt, alloc, .. } = context.audit;
    let timeouts = Timeouts::new(context.idle, context.control.is_some());
    timeouts.set(stream);
    let input = ClientStream::new(rt, stream, context.phase, timeouts);
    let Ok(input) = BufReader::with_capacity(alloc, READ_AHEAD, input) else {
        return Err(StreamFailure {
            fault: StreamFault::NoMemory,
            cause: None,
        });
    };
    let mut reader = RecordReader::new(Counting::new(input));
    let mut writer = Counting::new(ClientStream::new(rt, stream, context.phase, timeouts));
    let mut clock = SystemClock::new(context.clock);
    let mut gateway = Gateway::new();
    match gateway.serve_stream(alloc, link, &mut clock, &mut reader, &mut writer) {
        Ok(_) => Ok(()),
        Err(fault) => Err(StreamFailure {
            fault,
            cause: reader
                .get_ref()
                .get_ref()
                .get_ref()
                .last()
                .or(writer.get_ref().last()),
        }),
    }
}

/// Audits a client to its last signed entry.
fn audit_client<'a, R, E, S>(
    audit: AuditContext<'a, R, E, S>,
    client: ClientNode,
    pass: Pass,
) -> EndedClient
where
    R: Threads + Wait + Sync,
    E: Write,
    S: Shelf,
{
    let mut auditor = Auditor::new(audit, pass);
    let mut filed = 0;
    if auditor
        .audit(client.number(), client.node(), &mut filed)
        .is_err()
    {
        auditor.note_no_memory();
    }
    let Audits { pass, kept } = auditor.into_audits();
    EndedClient {
        client,
        pass,
        filed,
        kept,
    }
}
