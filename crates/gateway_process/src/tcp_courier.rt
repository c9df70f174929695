//! Carries a local connection's calls to the server over TCP.

use crate::context::Context;
use crate::delivery::{Delivery, take_delivered, told};
use crate::own_log::last_of_server;
use crate::run::Ending;
use crate::trouble::{Trouble, check_greeted, spelled_digest};
use crate::watch::Watch;
use crate::way::{Awaited, Sending, Step, Way};
use crate::ways::Ways;
use authenticator::Authenticator;
use peer_calls::{NodeRequest, read_stands};
use peer_connections::{Meanwhile, NodeConnection, NodeReceiver};
use pipelining::{Connection, Standing};
use remote_sharing::{Carried, Courier, CourierFault, Pending, SharedClient};
use std::alloc::{AllocError, Global};
use std::io::Write;
use std::net::{Net, TcpListener, TcpStream};
use std::sync::{Mutex, Wait};
use std::time::{Duration, Instant};

/// How many milliseconds pass between two looks at what goes on, while nothing is tried.
const LOOK: u64 = 100;

/// How many looks there are between the first two tries; twice as many each time until the last number.
const FIRST_PAUSE: u64 = 1;

const LONGEST_PAUSE: u64 = 300;

/// After how many tries of a call, or how many seconds, it is said that the server gives no answer, and witnesses are
/// told.
const TRIES_UNTIL_TOLD: u64 = 5;

const SECONDS_UNTIL_TOLD: u64 = 10;

/// How many seconds after its local connections have ended a call is still carried.
const UNWANTED: u64 = 60;

/// The most bytes of the answer to GREET, and to DELIVER.
const MOST_GREETED: u32 = 60;

const MOST_DELIVERED: u32 = 46_340;

/// The most bytes of the answer to STANDS.
const MOST_STANDS: u32 = 28;

/// How a server is reached.
#[derive(Clone, Copy)]
pub(crate) struct Route<'a> {
    /// Where it listens, as HOST:PORT.
    pub(crate) address: &'a str,
    pub(crate) ways: &'a Ways,
}

/// Carries one call at a time to the server, by ways over TCP that several carry calls by. Where a way's connection
/// breaks, or what comes is no answer, all calls on it are sent again, by a new one, after pauses of 0.1 seconds to 30,
/// until an answer comes, the call is given up or the process is to end. The acknowledgement of a reply is sent at once,
/// and its answer read before that to the next call on that way; one that wasn't answered goes first over the next
/// connection. Of a server that goes by another roster that is said, and the process ends.
#[derive(Drop)]
pub(crate) struct TcpCourier<'a, R, T, W, E> {
    context: Context<'a, R, T, W, E>,
    /// The client whose calls are carried.
    client: &'a Mutex<SharedClient>,
    route: Route<'a>,
    /// The way by which the call in hand was sent last.
    way: Option<&'a Way>,
    in_hand: InHand,
}

/// The call in hand.
#[derive(Clone, Copy)]
struct InHand {
    /// The number of its SEND.
    number: u64,
    /// When it was begun.
    begun: Option<Instant>,
    /// Since when no local program awaits it, if none does.
    unwanted: Option<Instant>,
}

impl<'a, R, T, W, E> TcpCourier<'a, R, T, W, E> {
    /// Carries calls of a client to the server that is reached so. Doesn't connect.
    pub(crate) fn new(
        context: Context<'a, R, T, W, E>,
        client: &'a Mutex<SharedClient>,
        route: Route<'a>,
    ) -> TcpCourier<'a, R, T, W, E> {
        TcpCourier {
            context,
            client,
            route,
            way: None,
            in_hand: InHand {
                number: 0,
                begun: None,
                unwanted: None,
            },
        }
    }
}

impl<'a, R, T, W, E> TcpCourier<'a, R, T, W, E>
where
    R: Wait + Net<Listener = TcpListener, Stream = TcpStream>,
    T: std::time::Clock,
    W: Write,
    E: Write,
{
    /// Connects to the server, for all who carry calls by this way.
    fn connect(&self, way: &Way) -> Result<(), Trouble> {
        let Context { rt, alloc, .. } = self.context;
        match self.greeted() {
            Ok(connection) => {
                way.open(rt, alloc, connection);
                Ok(())
            }
            Err(trouble) => {
                way.fail(rt, trouble);
                Err(trouble)
            }
        }
    }

    /// A connection to the server, which was greeted, and asked whether the last that it signed still stands in its log.
    fn greeted(&self) -> Result<NodeConnection, Trouble> {
        let Context {
            rt,
            alloc,
            greeting,
            ..
        } = self.context;
        let mut connection = match NodeConnection::connect(rt, alloc, self.route.address) {
            Ok(connection) => connection,
            Err(error) => return Err(Trouble::Unreached(error)),
        };
        let mut watch = Watch::new(self.context, self.in_hand.begun);
        let greet = NodeRequest::Greet(greeting);
        let sent = connection.sender.send(&greet, &mut watch)?;
        let answer = connection.receiver.answer(sent, MOST_GREETED, &mut watch)?;
        check_greeted(alloc, answer.results())?;
        if let Some(last) = self.last_of_server()? {
            let stands = NodeRequest::Stands(last);
            let sent = connection.sender.send(&stands, &mut watch)?;
            let answer = connection.receiver.answer(sent, MOST_STANDS, &mut watch)?;
            if !read_stands(answer.results())? {
                return Err(Trouble::PutBack);
            }
        }
        Ok(connection)
    }

    /// The last that the server signed, as the client's log shows it, if it shows something of it.
    fn last_of_server(&self) -> Result<Option<Authenticator>, Trouble> {
        let Context {
            rt,
            alloc,
            server,
            ..
        } = self.context;
        let client = self.client.lock(rt);
        Ok(last_of_server(alloc, client.client().client(), server)?)
    }

    /// Delivers an envelope once, by the way that carries the fewest calls.
    fn deliver(
        &mut self,
        call: &[u8],
        ack: &mut Vec<u8>,
        reply: &mut Vec<u8>,
    ) -> Result<Delivery, Trouble> {
        let rt = self.context.rt;
        let ways = self.route.ways;
        let Some((number, way)) = ways.choose(rt) else {
            return Err(Trouble::Broken);
        };
        self.way = Some(way);
        let delivery = self.exchange(way, Some(call), ack, reply);
        ways.leave(rt, number);
        match delivery {
            Ok(Some(delivery)) => Ok(delivery),
            Ok(None) => Err(Trouble::Broken),
            Err(trouble) => Err(trouble),
        }
    }

    /// Sends an envelope by a way, if there is one, after the acknowledgements that weren't sent, and takes what is
    /// answered.
    fn exchange(
        &self,
        way: &Way,
        call: Option<&[u8]>,
        ack: &mut Vec<u8>,
        reply: &mut Vec<u8>,
    ) -> Result<Option<Delivery>, Trouble> {
        let mut awaited = self.send(way, call)?;
        match self.receive(way, &mut awaited, ack, reply) {
            Ok(delivery) => Ok(delivery),
            Err(trouble) => {
                way.end(self.context.rt, awaited);
                Err(trouble)
            }
        }
    }

    /// Sends an envelope by a way, if there is one, after the acknowledgements that weren't sent: its turn.
    fn send(&self, way: &Way, call: Option<&[u8]>) -> Result<Awaited, Trouble> {
        let Context { rt, alloc, .. } = self.context;
        let mut watch = Watch::new(self.context, self.in_hand.begun);
        let (connection, mut sending) = self.await_sender(way, &mut watch)?;
        match sending.send(call, &mut watch) {
            Ok(sent) => match way.take_turn(rt, alloc, connection, sending, sent) {
                Some(awaited) => Ok(awaited),
                None => Err(Trouble::Broken),
            },
            Err(trouble) => {
                way.end_by_sender(rt, connection, sending);
                Err(trouble)
            }
        }
    }

    /// Waits for the half that sends, as long as the watch goes on: connects where there is no connection.
    fn await_sender(
        &self,
        way: &Way,
        watch: &mut Watch<'a, R, T, W, E>,
    ) -> Result<(Connection, Sending), Trouble> {
        let rt = self.context.rt;
        let failures = way.failures(rt);
        for _ in 0..u64::MAX {
            match way.next_step(rt, failures)? {
                Step::Send(connection, sending) => return Ok((connection, sending)),
                Step::Connect => self.connect(way)?,
                Step::Wait(seen) => {
                    if !watch.goes_on() {
                        break;
                    }
                    way.wait(rt, seen);
                }
            }
        }
        Err(Trouble::Broken)
    }

    /// Waits until what is awaited comes next, and takes it. After a fault the connection is of no more use.
    fn receive(
        &self,
        way: &Way,
        awaited: &mut Awaited,
        ack: &mut Vec<u8>,
        reply: &mut Vec<u8>,
    ) -> Result<Option<Delivery>, Trouble> {
        let rt = self.context.rt;
        let mut receiver = self.await_receiver(way, awaited)?;
        match self.read(&mut receiver, awaited, ack, reply) {
            Ok(delivery) => {
                way.put_receiver(rt, awaited.turn(), receiver);
                Ok(delivery)
            }
            Err(trouble) => {
                receiver.shut();
                Err(trouble)
            }
        }
    }

    /// Waits for the half that receives, until the answers that come before this one were read: each of these is awaited
    /// by the thread that it is for.
    fn await_receiver(&self, way: &Way, awaited: &Awaited) -> Result<NodeReceiver, Trouble> {
        let rt = self.context.rt;
        let mut watch = Watch::in_turn(self.context, self.in_hand.begun);
        for _ in 0..u64::MAX {
            let seen = way.changes();
            match way.take_receiver(rt, awaited.turn()) {
                Ok(receiver) => return Ok(receiver),
                Err(Standing::Over) => break,
                Err(Standing::Next | Standing::Later) => {}
            }
            if !watch.goes_on() {
                break;
            }
            way.wait(rt, seen);
        }
        Err(Trouble::Broken)
    }

    /// Reads what is awaited, which comes next: the answers to acknowledgements, and then that to the call, if there is
    /// one.
    fn read(
        &self,
        receiver: &mut NodeReceiver,
        awaited: &mut Awaited,
        ack: &mut Vec<u8>,
        reply: &mut Vec<u8>,
    ) -> Result<Option<Delivery>, Trouble> {
        let alloc = self.context.alloc;
        let mut watch = Watch::new(self.context, self.in_hand.begun);
        awaited.take_answers(alloc, receiver, &mut watch)?;
        let Some(sent) = awaited.sent() else {
            return Ok(None);
        };
        let answer = receiver.answer(sent, MOST_DELIVERED, &mut watch)?;
        let delivery = take_delivered(alloc, answer.results(), ack, reply)?;
        Ok(Some(delivery))
    }

    /// Sends the acknowledgements that weren't sent, if there is a connection, and nobody sends by it.
    fn send_receipts(&self, way: &Way) {
        let rt = self.context.rt;
        for _ in 0..u64::MAX {
            let Some((connection, mut sending)) = way.lend(rt) else {
                return;
            };
            let mut watch = Watch::new(self.context, None);
            if sending.send_receipts(&mut watch).is_err() {
                way.end_by_sender(rt, connection, sending);
                return;
            }
            way.give_back(rt, connection, sending);
        }
    }

    /// Brings the acknowledgements that weren't answered to a server that answers at once: for the end of the process.
    pub(crate) fn finish(&self) {
        let rt = self.context.rt;
        for way in self.route.ways.all() {
            if way.is_open(rt) {
                self.bring_receipts(way);
            }
            if way.has_receipts(rt) {
                self.bring_receipts(way);
            }
        }
    }

    /// Brings the acknowledgements that weren't answered, once.
    fn bring_receipts(&self, way: &Way) {
        let alloc = self.context.alloc;
        let (mut ack, mut reply) = (Vec::new(alloc), Vec::new(alloc));
        let _ = self.exchange(way, None, &mut ack, &mut reply);
    }

    /// Takes the call with a number in hand, unless it is.
    fn take_in_hand(&mut self, number: u64) {
        if self.in_hand.number != number {
            self.in_hand = InHand {
                number,
                begun: self.context.now(),
                unwanted: None,
            };
        }
    }

    /// Waits for so many looks before the next try. Whether it is to be made: not once the process is to end, or the
    /// call is given up.
    fn waits(&mut self, bytes: &[u8], looks: u64) -> bool {
        for _ in 0..looks {
            if !self.is_carried_on(bytes) {
                return false;
            }
            self.context.clock.sleep(Duration::from_millis(LOOK));
        }
        self.is_carried_on(bytes)
    }

    /// Whether the call in hand, of these bytes, is to be tried again.
    fn is_carried_on(&mut self, bytes: &[u8]) -> bool {
        self.context.is_serving()
            && !self.context.is_given_up(self.in_hand.begun)
            && !self.is_unwanted(bytes)
    }

    /// Whether the call in hand has waited for so long that it is said.
    fn is_late(&self) -> bool {
        self.context.is_past(self.in_hand.begun, SECONDS_UNTIL_TOLD)
    }

    /// Whether no local program has awaited the call in hand, of these bytes, for a minute.
    fn is_unwanted(&mut self, bytes: &[u8]) -> bool {
        if !self.context.is_left(bytes) {
            self.in_hand.unwanted = None;
            return false;
        }
        if self.in_hand.unwanted.is_none() {
            self.in_hand.unwanted = self.context.now();
        }
        self.context.is_past(self.in_hand.unwanted, UNWANTED)
    }

    /// The server has given no answer for some tries: says so, unless it was said, and has witnesses told of the call.
    fn note_silence(&self, trouble: &Trouble) {
        let Context {
            rt,
            alloc,
            server,
            desk,
            ..
        } = self.context;
        desk.lock(rt).keep_unanswered(self.in_hand.number);
        if !self.context.set_away(true) {
            self.context.say(format!(in alloc;
                "nfsacc: server {server} gives no answer, and is tried again: {trouble}\n"
            ));
        }
    }

    /// The server has given an answer: says so, where it was said that it gives none.
    fn note_answer(&self) {
        let Context { alloc, server, .. } = self.context;
        if self.context.set_away(false) {
            self.context.say(format!(in alloc; "nfsacc: server {server} answers again\n"));
        }
    }

    /// Why no other try is made after this trouble, if none is.
    fn fault_after(&self, trouble: &Trouble) -> Option<CourierFault> {
        match trouble {
            Trouble::NoMemory => Some(CourierFault::NoMemory),
            Trouble::OtherRoster(digest) => {
                self.end_at_other_roster(digest);
                Some(CourierFault::Refused)
            }
            Trouble::Unreached(_)
            | Trouble::Broken
            | Trouble::Garbage
            | Trouble::PutBack
            | Trouble::OwnPutBack(_) => None,
        }
    }

    /// The server goes by another roster: says so once, and ends the process.
    fn end_at_other_roster(&self, digest: &[u8; 32]) {
        let Context { alloc, server, .. } = self.context;
        if self.context.end_by(Ending::OtherRoster) != Ending::OtherRoster {
            self.context.say(greets_another(alloc, server, digest));
        }
    }
}

/// The line that says that a server goes by another roster.
fn greets_another(alloc: Global, server: u32, digest: &[u8; 32]) -> Result<String, AllocError> {
    let digest = spelled_digest(alloc, digest)?;
    format!(in alloc; "nfsacc: server {server} greets another roster {digest}\n")
}

impl<'a, R, T, W, E> Courier for TcpCourier<'a, R, T, W, E>
where
    R: Wait + Net<Listener = TcpListener, Stream = TcpStream>,
    T: std::time::Clock,
    W: Write,
    E: Write,
{
    fn carry(
        &mut self,
        _alloc: Global,
        pending: &Pending,
        bytes: &[u8],
        call: &[u8],
        ack: &mut Vec<u8>,
        reply: &mut Vec<u8>,
    ) -> Result<Carried, CourierFault> {
        if !self.context.is_serving() && !self.route.ways.is_open(self.context.rt) {
            return Err(CourierFault::Lost);
        }
        self.take_in_hand(pending.number.get());
        let mut pause = FIRST_PAUSE;
        for tries in 1..u64::MAX {
            let trouble = match self.deliver(call, ack, reply) {
                Ok(delivery) => {
                    self.note_answer();
                    return told(delivery);
                }
                Err(trouble) => trouble,
            };
            if let Some(fault) = self.fault_after(&trouble) {
                return Err(fault);
            }
            if tries >= TRIES_UNTIL_TOLD || self.is_late() {
                self.note_silence(&trouble);
            }
            if !self.waits(bytes, pause) {
                break;
            }
            pause = pause.saturating_mul(2).min(LONGEST_PAUSE);
        }
        Err(CourierFault::Lost)
    }

    /// Its answer isn't awaited.
    fn acknowledge(&mut self, alloc: Global, receipt: &[u8]) -> Result<(), CourierFault> {
        let Some(way) = self.way else {
            return Err(CourierFault::Lost);
        };
        if !way.add_receipt(self.context.rt, alloc, receipt) {
            return Err(CourierFault::NoMemory);
        }
        self.send_receipts(way);
        Ok(())
    }
}
