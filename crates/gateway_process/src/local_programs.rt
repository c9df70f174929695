//! Local programs, each served over a connection of its own.

use crate::cause::Cause;
use crate::context::{Context, Serving, Shared};
use crate::local_stream::LocalStream;
use crate::tcp_courier::TcpCourier;
use authenticator::Number;
use nodes::{ClientNode, Gateway, LinkFault, StreamFault};
use peer_connections::{PeerStream, Phase, Waiting, set_timeouts};
use remote_sharing::{AcceptFault, CallFault, CourierFault, SharedRemote, serve_shared};
use rpc::records::{Counting, RecordReader};
use std::alloc::Global;
use std::io::{BufReader, Write};
use std::net::{Net, SocketAddr, TcpListener, TcpStream};
use std::sync::{Arc, Mutex, Wait};
use system_clock::SystemClock;

/// The bytes that are read of a stream at once.
const READ_AHEAD: usize = 65536;

/// Serves a local program to the end of its connection. Where that comes before the end of its stream, says why.
pub(crate) fn serve_program<R, T, W, E>(
    serving: Serving<'_, R, T, W, E>,
    stream: TcpStream,
    address: SocketAddr,
)
where
    R: Wait + Net<Listener = TcpListener, Stream = TcpStream>,
    T: std::time::Clock,
    W: Write,
    E: Write,
{
    let Context { alloc, .. } = serving.shared.context;
    if let Err(cause) = serve_records(serving, &stream) {
        serving
            .shared
            .context
            .say(format!(in alloc; "nfsacc: {address}: {cause}\n"));
    }
}

/// Answers the records of a connection to its end: its calls have a courier of their own.
fn serve_records<R, T, W, E>(
    serving: Serving<'_, R, T, W, E>,
    stream: &TcpStream,
) -> Result<(), Cause>
where
    R: Wait + Net<Listener = TcpListener, Stream = TcpStream>,
    T: std::time::Clock,
    W: Write,
    E: Write,
{
    let context = serving.shared.context;
    let (rt, alloc, clock) = (context.rt, context.alloc, context.clock);
    // Where it can't be set, replies come later, and nothing else changes.
    let _ = stream.set_nodelay(true);
    set_timeouts(stream);
    let presence = presence_of(alloc, stream)?;
    let waiting = Mutex::new(Waiting::without_end());
    let input = PeerStream::new(rt, clock, stream, context.phase, &waiting);
    match BufReader::with_capacity(alloc, READ_AHEAD, input) {
        Ok(input) => {
            let output = PeerStream::new(rt, clock, stream, context.phase, &waiting);
            serve_streams(serving, presence, input, output)
        }
        Err(_) => Err(Cause::Stream(StreamFault::NoMemory, None)),
    }
}

/// Answers the records of a connection, by its two streams.
fn serve_streams<'a, R, T, W, E>(
    serving: Serving<'_, R, T, W, E>,
    presence: Arc<LocalStream>,
    input: BufReader<PeerStream<'a, R, T>>,
    output: PeerStream<'a, R, T>,
) -> Result<(), Cause>
where
    R: Wait + Net<Listener = TcpListener, Stream = TcpStream>,
    T: std::time::Clock,
    W: Write,
    E: Write,
{
    let Serving { shared, route } = serving;
    let context = shared.context;
    let (rt, alloc) = (context.rt, context.alloc);
    let mut reader = RecordReader::new(Counting::new(input));
    let mut writer = Counting::new(output);
    let mut times = SystemClock::new(context.clock);
    let own = [Mutex::new(TcpCourier::new(context, shared.client, route))];
    let mut link = SharedRemote::new(rt, alloc, shared.client, &own, context.flights, presence);
    let mut gateway = Gateway::new();
    match serve_shared(
        &mut gateway,
        alloc,
        &mut link,
        &mut times,
        &mut reader,
        &mut writer,
    ) {
        Ok(_) => Ok(()),
        Err(fault) => match link.last_fault() {
            Some(failed) => Err(shared.call_failed(&failed, link.last_sent())),
            None => {
                let read = reader.get_ref().get_ref().get_ref().last();
                Err(stream_cause(fault, read.or(writer.get_ref().last())))
            }
        },
    }
}

/// Another handle of a connection, to tell whether it has ended.
fn presence_of(alloc: Global, stream: &TcpStream) -> Result<Arc<LocalStream>, Cause> {
    let stream = match stream.try_clone() {
        Ok(stream) => stream,
        Err(error) => return Err(Cause::Stream(StreamFault::Device, Some(error))),
    };
    match Arc::new(alloc, LocalStream::new(stream)) {
        Ok(presence) => Ok(presence),
        Err(_) => Err(Cause::Stream(StreamFault::NoMemory, None)),
    }
}

/// Why a stream ended where no call of its own has failed.
fn stream_cause(fault: StreamFault, error: Option<std::io::Error>) -> Cause {
    match fault {
        StreamFault::Failed => Cause::Passed,
        _ => Cause::Stream(fault, error),
    }
}

impl<R, T, W, E> Shared<'_, R, T, W, E>
where
    R: Wait,
    T: std::time::Clock,
    W: Write,
    E: Write,
{
    /// Keeps a SEND's number for witnesses, if there is one.
    fn keep_unanswered(&self, sent: Option<u64>) {
        if let Some(number) = sent {
            self.context
                .desk
                .lock(self.context.rt)
                .keep_unanswered(number);
        }
    }

    /// A call has failed, whose SEND has this number, if there is one. Where keys are used up the serving ends; where
    /// nothing came that counts, witnesses are to ask for its acknowledgement at once.
    fn call_failed(&self, fault: &CallFault, sent: Option<u64>) -> Cause {
        let server = self.context.server;
        if uses_up_keys(fault) {
            self.context.end(Phase::KeysUsedUp);
        }
        if is_unanswered(fault) {
            self.keep_unanswered(sent);
        }
        match self.number_of_another(fault) {
            Some(number) => Cause::AnotherCall { server, number },
            None => Cause::Call {
                server,
                fault: *fault,
            },
        }
    }

    /// The number in the server's log of the reply to another call, where that is why a call has failed.
    fn number_of_another(&self, fault: &CallFault) -> Option<u64> {
        let place = place_of_another(fault)?;
        let client = self.client.lock(self.context.rt);
        Some(sender_number(client.client().client(), place))
    }
}

/// Whether a call has failed since keys are used up, the client's or the server's.
fn uses_up_keys(fault: &CallFault) -> bool {
    (*fault).link_fault() == LinkFault::KeysUsedUp
}

/// The number at which the client received the reply to another call, where that is why a call has failed.
fn place_of_another(fault: &CallFault) -> Option<Number> {
    match fault {
        CallFault::Refused(why) => place_of_refused(*why),
        CallFault::NotBegun(_) | CallFault::Uncarried(_) => None,
    }
}

/// The number at which the client received the reply to another call, where that is what was refused.
fn place_of_refused(why: AcceptFault) -> Option<Number> {
    match why {
        AcceptFault::AnotherCall(place) | AcceptFault::Repeated(place) => Some(place),
        _ => None,
    }
}

/// Whether nothing came back for a call that counts.
fn is_unanswered(fault: &CallFault) -> bool {
    match fault {
        CallFault::NotBegun(_) => false,
        CallFault::Uncarried(why) => matches!(why, CourierFault::Lost),
        CallFault::Refused(why) => {
            matches!(why, AcceptFault::NotAcknowledged | AcceptFault::Unanswered)
        }
    }
}

/// The number in its sender's log of the message that a client received at a number: its own number where nothing
/// was received there.
fn sender_number(client: &ClientNode, place: Number) -> u64 {
    let Some(ack) = client.ack(place.get()) else {
        return place.get();
    };
    match client.node().roster().member(ack.from) {
        Some(member) => ack.seq.number(member.log_version).get(),
        None => ack.seq.get(),
    }
}
