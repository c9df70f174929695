//! A server under a lock, which answers the requests of a connection.

ghost use Rattle.std.specs.Prelude.{List, ℕ};
ghost use Rattle.hosting.specs.Hosting.{IsAnsweredUnderLock, IsFinished, OnceFinished};
ghost use Rattle.request_streams.specs.Serving.{IsAnswerIf};

use crate::held::Held;
use crate::server::AddressKind;
use crate::status::{Tally, audited_to};
use authenticator::Roster;
use frames::Bound;
use hosting::{Host, Progress, Ready, Unwritten};
use nodes::Clock;
use peer_connections::{
    Output, Phase, Seats, SegmentTurns, Standing, Waiting, end_serving, is_serving,
};
use request_streams::{Answerer, Outcome};
use secure_log::log_entries::Entry;
use std::alloc::Global;
use std::io::Write;
use std::marker::Model;
use std::net::IpAddr;
use std::sync::{Mutex, Wait};
use std::time::Duration;

/// SIGNED.
const SIGNED: u32 = 4;

/// SEGMENT.
const SEGMENT: u32 = 5;

/// BASE.
const BASE: u32 = 7;

/// How many milliseconds pass until it is looked again whether there is a turn.
const PAUSE: u64 = 50;

/// How often it is looked whether there is a turn: for a minute.
const LOOKS: u64 = 1200;

/// The place that a connection holds, with its peer's address, and the clock by which it holds it.
#[derive(Drop)]
pub(crate) struct Seat<'a, T> {
    pub(crate) seats: &'a Seats,
    pub(crate) turns: &'a SegmentTurns,
    pub(crate) id: u64,
    pub(crate) address: IpAddr,
    pub(crate) clock: &'a T,
    pub(crate) kind: AddressKind,
    pub(crate) waiting: &'a Mutex<Waiting>,
}

/// A server under a lock, which others use too. The lock is held while one request is answered, and while a CHECK is
/// logged after it. The request's signature is checked before that, and the answer to a message is signed and written
/// after it; then the lock is held shortly again, to keep the digest of the reply's signature.
#[derive(Drop)]
pub(crate) struct LockedServer<'a, R, C, T, W, E> {
    rt: &'a R,
    held: &'a Mutex<Held>,
    clock: C,
    host: Host,
    /// The server's roster, by which messages are checked before the lock is taken.
    roster: &'a Roster,
    phase: &'a Mutex<Phase>,
    seat: Seat<'a, T>,
    tally: &'a Mutex<Tally>,
    output: &'a Mutex<Output<W, E>>,
}

impl<'a, R, C, T, W, E> Model for LockedServer<'a, R, C, T, W, E> {
    ghost use Rattle.hosting.specs.declared.host.Host.{Host};

    ghost Value = { Host };

    ghost view = { λ l. l.host };
}

impl<'a, R: Wait, C: Clock, T: std::time::Clock, W, E> LockedServer<'a, R, C, T, W, E> {
    /// The server that lies under a lock, as it answers at an address.
    pub(crate) fn new(
        rt: &'a R,
        held: &'a Mutex<Held>,
        clock: C,
        host: Host,
        roster: &'a Roster,
        phase: &'a Mutex<Phase>,
        seat: Seat<'a, T>,
        tally: &'a Mutex<Tally>,
        output: &'a Mutex<Output<W, E>>,
    ) -> LockedServer<'a, R, C, T, W, E> {
        LockedServer {
            rt,
            held,
            clock,
            host,
            roster,
            phase,
            seat,
            tally,
            output,
        }
    }

    /// The answer as it stands: what was left to be written is written now.
    fn finish(&self, alloc: Global, progress: Progress, out: &mut Vec<u8>) -> Outcome
        ensures { (bytes : List ℕ) → OnceFinished (λ outcome text. IsAnswerIf (IsAnsweredUnderLock self.now) bytes text
            outcome) progress out.old.items → IsAnswerIf (IsAnsweredUnderLock self.now) bytes out.new.items result }
    {
        match progress {
            Progress::Done(outcome) => outcome,
            Progress::Unwritten(unwritten) => self.write(alloc, unwritten, out),
        }
    }

    /// Writes an answer, and lets the server keep the digest of its reply's signature.
    fn write(&self, alloc: Global, unwritten: Unwritten, out: &mut Vec<u8>) -> Outcome
        ensures { IsFinished unwritten result out.new.items }
    {
        let mut unwritten = unwritten;
        let outcome = unwritten.finish(alloc, out);
        if let Some(reply) = &unwritten.reply {
            self.held.lock(self.rt).keep_digest(reply);
        }
        outcome
    }
}

/// A node takes no long record.
impl<'a, R, C, T, W, E> Bound for LockedServer<'a, R, C, T, W, E> {
    ghost most = { λ l front. 0 };

    fn most(&self, _front: &[u8]) -> u32 {
        0
    }
}

/// Each answer is that of a server that lay under the lock. Where it has fewer keys left than a call takes, or was shown
/// that its log was put back, the serving ends. Segments and bases are made for two connections at a time, and for one of
/// an address, until they are written: who has no turn within a minute gets no answer.
impl<'a, R: Wait, C: Clock, T: std::time::Clock, W: Write, E: Write> Answerer
    for LockedServer<'a, R, C, T, W, E> {
    ghost answers = { λ l bytes text. IsAnsweredUnderLock l bytes text };

    fn answer(&mut self, alloc: Global, bytes: &[u8], out: &mut Vec<u8>) -> Outcome {
        self.seat.waiting.lock(self.rt).begin_answer();
        if is_long(bytes) && !self.seat.await_turn(self.rt, self.phase) {
            return Outcome::NoCall;
        }
        let ready = Ready::of(alloc, self.roster, bytes);
        let time = self.clock.now();
        let mut held = self.held.lock(self.rt);
        let before = held.entries().len();
        let progress = held.answer(alloc, time, &self.host, ready, bytes, out);
        let standing = shown(held.entries(), before, bytes, self.seat.kind);
        let received = is_received(held.entries(), before);
        let unchecked = held.check(alloc, received);
        if let Some(reason) = held.end() {
            end_serving(self.rt, self.phase, reason);
        }
        drop(held);
        if let Some(standing) = standing {
            self.seat.show(self.rt, standing);
        }
        let outcome = self.finish(alloc, progress, out);
        if let Some(last) = audited_to(alloc, bytes, out) {
            self.tally.lock(self.rt).audited(last);
        }
        if let Some(line) = unchecked {
            self.output.lock(self.rt).say(line);
        }
        outcome
    }
}

impl<'a, T: std::time::Clock> Seat<'a, T> {
    /// Waits for a turn at having a segment or a base made and written: whether it has one.
    fn await_turn<R: Wait>(&self, rt: &R, phase: &Mutex<Phase>) -> bool {
        for _ in 0..LOOKS {
            if self.turns.take(rt, self.id, self.address) {
                return true;
            }
            if !is_serving(rt, phase) {
                return false;
            }
            self.clock.sleep(Duration::from_millis(PAUSE));
        }
        false
    }

    /// The connection takes another place.
    fn show<R: Wait>(&self, rt: &R, standing: Standing) {
        self.seats.show(rt, self.clock, self.id, standing);
    }
}

/// What a connection has shown by a request, where the log had so many entries before it: a new message of a member,
/// if one was logged; else that it audits, if it asked for what witnesses ask for and this is where they ask.
fn shown(entries: &[Entry], before: usize, bytes: &[u8], kind: AddressKind) -> Option<Standing> {
    match entries.get(before) {
        Some(Entry::Recv { from, .. }) => Some(Standing::Member(*from)),
        Some(Entry::Ack { to, .. }) => Some(Standing::Member(*to)),
        _ if kind.is_for_audits || (kind.is_alone && is_audit(bytes)) => Some(Standing::Auditor),
        _ => None,
    }
}

/// Whether a new message was received, where the log had so many entries before.
fn is_received(entries: &[Entry], before: usize) -> bool {
    matches!(entries.get(before), Some(Entry::Recv { .. }))
}

/// Whether the bytes of a call ask for what witnesses ask for.
fn is_audit(bytes: &[u8]) -> bool {
    match procedure_of(bytes) {
        Some(procedure) => procedure == SIGNED || procedure == SEGMENT || procedure == BASE,
        None => false,
    }
}

/// Whether the bytes of a call ask for a segment or a base, of which some have many bytes.
fn is_long(bytes: &[u8]) -> bool {
    match procedure_of(bytes) {
        Some(procedure) => procedure == SEGMENT || procedure == BASE,
        None => false,
    }
}

/// The procedure of a call, by its bytes: their sixth word (RFC 5531, section 9).
fn procedure_of(bytes: &[u8]) -> Option<u32> {
    let word = bytes.get(20..24)?.first_chunk::<4>()?;
    Some(u32::from_be_bytes(*word))
}
