//! A way to the server, over which several calls are in flight.

use crate::receipts::Receipts;
use crate::trouble::Trouble;
use peer_calls::NodeRequest;
use peer_connections::{Meanwhile, NodeConnection, NodeReceiver, NodeSender, Sent};
use pipelining::{Connection, Pipeline, Standing, Turn};
use std::alloc::Global;
use std::mem;
use std::sync::atomic::{AtomicU64, Ordering};
use std::sync::{Mutex, Wait};
use std::time::Duration;

/// How many milliseconds a thread waits at once for what another one does.
const LOOK: u64 = 100;

/// A way to the server: one connection at a time, over which several threads have calls in flight. Its lock is held for
/// a step of its line alone, and not while bytes are sent or awaited.
#[derive(Drop)]
pub(crate) struct Way {
    line: Mutex<Line>,
    /// How often the line has changed: threads that wait for a change sleep on it.
    changes: AtomicU64,
}

/// What is in flight on a way.
#[derive(Drop)]
struct Line {
    pipeline: Pipeline<Sending, NodeReceiver>,
    /// Acknowledgements of replies that are to be sent.
    receipts: Receipts,
    /// How often no connection could be made, and why the last time.
    failures: u64,
    trouble: Option<Trouble>,
}

/// The half that sends, with the acknowledgements that were sent by it since its last call, or are to be sent before the
/// next one.
#[derive(Drop)]
pub(crate) struct Sending {
    sender: NodeSender,
    receipts: Receipts,
}

/// A call that was sent, and whose answer is awaited: after the answers to some acknowledgements. Or these alone.
#[derive(Drop)]
pub(crate) struct Awaited {
    turn: Turn,
    receipts: Receipts,
    sent: Option<Sent>,
}

/// What a thread that is to send does next.
#[derive(Drop)]
pub(crate) enum Step {
    /// It sends.
    Send(Connection, Sending),
    /// It connects: there is no connection.
    Connect,
    /// It waits: another thread sends, or connects. The line had changed so often then.
    Wait(u64),
}

impl Sending {
    /// The half of a new connection.
    fn new(alloc: Global, sender: NodeSender) -> Sending {
        Sending {
            sender,
            receipts: Receipts::new(alloc),
        }
    }

    /// Sends the acknowledgements that weren't sent.
    pub(crate) fn send_receipts<M: Meanwhile>(&mut self, meanwhile: &mut M) -> Result<(), Trouble> {
        self.receipts.send(&mut self.sender, meanwhile)
    }

    /// Sends a call, if there is one, after the acknowledgements that weren't sent.
    pub(crate) fn send<M: Meanwhile>(
        &mut self,
        call: Option<&[u8]>,
        meanwhile: &mut M,
    ) -> Result<Option<Sent>, Trouble> {
        self.send_receipts(meanwhile)?;
        match call {
            Some(call) => Ok(Some(self.sender.send(&NodeRequest::Deliver(call), meanwhile)?)),
            None => Ok(None),
        }
    }
}

impl Awaited {
    /// Its turn.
    pub(crate) fn turn(&self) -> Turn {
        self.turn
    }

    /// That the call was sent, if there is one.
    pub(crate) fn sent(&self) -> Option<Sent> {
        self.sent
    }

    /// Reads the answers to the acknowledgements, which come first.
    pub(crate) fn take_answers<M: Meanwhile>(
        &mut self,
        alloc: Global,
        receiver: &mut NodeReceiver,
        meanwhile: &mut M,
    ) -> Result<(), Trouble> {
        self.receipts.take_answers(alloc, receiver, meanwhile)
    }
}

impl Line {
    /// The half that sends, where there is a connection and nobody has that half. The acknowledgements that are to be
    /// sent go with it.
    fn take_sender(&mut self) -> Option<(Connection, Sending)> {
        let (connection, mut sending) = self.pipeline.take_sender()?;
        sending.receipts.append(&mut self.receipts);
        Some((connection, sending))
    }

    /// Why no connection could be made since there were so many failures, if that is so.
    fn trouble_since(&self, failures: u64) -> Option<Trouble> {
        if self.failures == failures {
            return None;
        }
        self.trouble
    }

    /// A turn for a call that was sent by the half that the caller has, which comes back. None where the connection has
    /// ended meanwhile: what is acknowledged is to be sent again then.
    fn take_turn(
        &mut self,
        alloc: Global,
        connection: Connection,
        mut sending: Sending,
        sent: Option<Sent>,
    ) -> Option<Awaited> {
        let turn = self.pipeline.take_turn(connection);
        let receipts = mem::replace(&mut sending.receipts, Receipts::new(alloc));
        self.put_sender(connection, sending);
        match turn {
            Some(turn) => Some(Awaited {
                turn,
                receipts,
                sent,
            }),
            None => {
                self.receipts.take_back(receipts);
                None
            }
        }
    }

    /// The half that sends comes back. Where its connection has ended meanwhile it is let go.
    fn put_sender(&mut self, connection: Connection, sending: Sending) {
        if let Some(ended) = self.pipeline.put_sender(connection, sending) {
            self.let_go(ended);
        }
    }

    /// A connection has ended: all who await an answer over it are told so when they look.
    fn end(&mut self, connection: Connection) {
        if let Some(ended) = self.pipeline.end(connection) {
            self.let_go(ended);
        }
    }

    /// Lets a half go whose connection has ended. What is acknowledged is to be sent again.
    fn let_go(&mut self, sending: Sending) {
        sending.sender.shut();
        self.receipts.take_back(sending.receipts);
    }
}

impl Way {
    /// A way without a connection.
    pub(crate) fn new(alloc: Global) -> Way {
        Way {
            line: Mutex::new(Line {
                pipeline: Pipeline::new(),
                receipts: Receipts::new(alloc),
                failures: 0,
                trouble: None,
            }),
            changes: AtomicU64::new(0),
        }
    }

    /// The line has changed: who waits looks again.
    fn tell(&self) {
        self.changes.fetch_add(1, Ordering::SeqCst);
        self.changes.wake_all();
    }

    /// How often the line has changed.
    pub(crate) fn changes(&self) -> u64 {
        self.changes.load(Ordering::SeqCst)
    }

    /// Waits until the line has changed since it had changed so often, or a tenth of a second has passed.
    pub(crate) fn wait<R: Wait>(&self, rt: &R, seen: u64) {
        let pause = Duration::from_millis(LOOK);
        let low_half = (seen & 0xffff_ffff) as u32;
        self.changes.park_timeout(rt, low_half, pause);
    }

    /// How often no connection could be made.
    pub(crate) fn failures<R: Wait>(&self, rt: &R) -> u64 {
        self.line.lock(rt).failures
    }

    /// What a thread that is to send does next, which came when there were so many failures to connect. Where there were
    /// more since then it gets the last one's cause, as the thread that tried.
    pub(crate) fn next_step<R: Wait>(&self, rt: &R, failures: u64) -> Result<Step, Trouble> {
        let seen = self.changes();
        let mut line = self.line.lock(rt);
        if let Some(trouble) = line.trouble_since(failures) {
            return Err(trouble);
        }
        if let Some((connection, sending)) = line.take_sender() {
            return Ok(Step::Send(connection, sending));
        }
        if line.pipeline.start() {
            return Ok(Step::Connect);
        }
        Ok(Step::Wait(seen))
    }

    /// The thread that was to connect has.
    pub(crate) fn open<R: Wait>(&self, rt: &R, alloc: Global, connection: NodeConnection) {
        let NodeConnection { sender, receiver } = connection;
        let sending = Sending::new(alloc, sender);
        self.line.lock(rt).pipeline.open(sending, receiver);
        self.tell();
    }

    /// The thread that was to connect couldn't: all who wait for it are told so.
    pub(crate) fn fail<R: Wait>(&self, rt: &R, trouble: Trouble) {
        let mut line = self.line.lock(rt);
        line.pipeline.give_up();
        line.failures = line.failures.wrapping_add(1);
        line.trouble = Some(trouble);
        drop(line);
        self.tell();
    }

    /// A call was sent, or acknowledgements alone: its turn, with the half that sends given back. None where the
    /// connection has ended meanwhile.
    pub(crate) fn take_turn<R: Wait>(
        &self,
        rt: &R,
        alloc: Global,
        connection: Connection,
        sending: Sending,
        sent: Option<Sent>,
    ) -> Option<Awaited> {
        let awaited = self
            .line
            .lock(rt)
            .take_turn(alloc, connection, sending, sent);
        self.tell();
        awaited
    }

    /// The half that sends couldn't: its connection has ended.
    pub(crate) fn end_by_sender<R: Wait>(&self, rt: &R, connection: Connection, sending: Sending) {
        let mut line = self.line.lock(rt);
        line.end(connection);
        line.let_go(sending);
        drop(line);
        self.tell();
    }

    /// The half that sends, where acknowledgements are to be sent, there is a connection, and nobody has that half: who
    /// has it sends them, too.
    pub(crate) fn lend<R: Wait>(&self, rt: &R) -> Option<(Connection, Sending)> {
        let mut line = self.line.lock(rt);
        if line.receipts.is_empty() {
            return None;
        }
        line.take_sender()
    }

    /// The half that sends comes back.
    pub(crate) fn give_back<R: Wait>(&self, rt: &R, connection: Connection, sending: Sending) {
        self.line.lock(rt).put_sender(connection, sending);
        self.tell();
    }

    /// The half that receives, once this turn's answer comes next; else how the turn stands.
    pub(crate) fn take_receiver<R: Wait>(
        &self,
        rt: &R,
        turn: Turn,
    ) -> Result<NodeReceiver, Standing> {
        self.line.lock(rt).pipeline.take_receiver(turn)
    }

    /// A turn's answer was read by the half that receives: the next turn's comes next.
    pub(crate) fn put_receiver<R: Wait>(&self, rt: &R, turn: Turn, receiver: NodeReceiver) {
        let ended = self.line.lock(rt).pipeline.put_receiver(turn, receiver);
        if let Some(receiver) = ended {
            receiver.shut();
        }
        self.tell();
    }

    /// What is awaited doesn't come: its connection has ended.
    pub(crate) fn end<R: Wait>(&self, rt: &R, awaited: Awaited) {
        let mut line = self.line.lock(rt);
        line.end(awaited.turn.connection());
        line.receipts.take_back(awaited.receipts);
        drop(line);
        self.tell();
    }

    /// Adds the text of an acknowledgement that is to be sent: whether there was memory for it.
    pub(crate) fn add_receipt<R: Wait>(&self, rt: &R, alloc: Global, text: &[u8]) -> bool {
        self.line.lock(rt).receipts.add(alloc, text).is_ok()
    }

    /// Whether acknowledgements are to be sent, or to be sent again.
    pub(crate) fn has_receipts<R: Wait>(&self, rt: &R) -> bool {
        !self.line.lock(rt).receipts.is_empty()
    }

    /// Whether there is a connection.
    pub(crate) fn is_open<R: Wait>(&self, rt: &R) -> bool {
        self.line.lock(rt).pipeline.is_open()
    }
}
