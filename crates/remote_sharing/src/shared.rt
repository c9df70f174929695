//! A client under a lock, as a link for each of several local programs.

ghost use Rattle.std.specs.Prelude.{◌≡◌, ◌≤◌, List, ℕ, false, length, is_err, IfErr, IfNone, IfOk, IfSome, None};
ghost use Rattle.std.specs.Prelude.{OnOk};
ghost use Rattle.std.specs.Option.{option_map};
ghost use Rattle.secure_log.specs.declared.log_entries.entry.TheConstants.{MAX_BODY};
ghost use Rattle.stream_spec.specs.Streams.{StopsAfterRecords, TakesNothing};
ghost use Rattle.gateway.specs.declared.links.fault.LinkFault.TheVariants.{Failed};
ghost use Rattle.gateway.specs.Links.Exchanges.{Exchange};
ghost use Rattle.gateway.specs.Serving.{IsAsked, LeavesOff, text_given};
ghost use Rattle.remote.specs.Links.{call_fault};
ghost use Rattle.remote_sharing.specs.Shared.{BeginsNone, BeginsOne, Exchanges, Fails, IsAnswered};
ghost use Rattle.remote_sharing.specs.Shared.{IsExchangedUnderLock, StopsCall, StopsUnderLock};

use crate::caller::{Caller, Texts};
use crate::client::SharedClient;
use crate::flights::{Claim, Flights, Outcome, Part, Presence, Turn};
use crate::rounds::carry;
use nfs_items::Time;
use nodes::{Clock, Gateway, Link, LinkFault, Served, StreamFault};
use remote::{CallFault, Courier};
use rpc::records::{Counting, RecordReader};
use std::alloc::Global;
use std::io::{Read, Write};
use std::marker::Model;
use std::sync::{Arc, Mutex, MutexGuard, Wait};

/// A client under a lock, as a link: all the local programs are one client of the server. The client's lock is held
/// where a call is begun and where its answer is taken, and not between the two. It keeps its runtime, so that who uses
/// it as a link has none. A clause sees how many ways to the server it has, and how many calls were begun for it.
#[derive(Drop)]
pub struct SharedRemote<'a, R: Wait, C: Courier + Drop, P: Presence> {
    rt: &'a R,
    caller: Caller<'a, R>,
    /// Each is held while a call is carried by it.
    ways: &'a [Mutex<C>],
    flights: &'a Mutex<Flights<P>>,
    presence: Arc<P>,
    texts: Texts,
    last_fault: Option<CallFault>,
    last_sent: Option<u64>,
}

impl<'a, R: Wait, C: Courier + Drop, P: Presence> Model for SharedRemote<'a, R, C, P> {
    ghost use Rattle.std.specs.Prelude.{length};
    ghost use Rattle.remote_sharing.specs.Shared.{LinkParts, link_code};

    ghost Value = { LinkParts };

    ghost coded = { link_code };

    ghost view = { λ d. record { ways = length d.ways.now; begun = d.caller.begun } };
}

impl<'a, R: Wait, C: Courier + Drop, P: Presence> SharedRemote<'a, R, C, P> {
    /// A link to the server of the client that lies under a lock, for the local program of a connection. All
    /// links of the client have the same ways to the server, each of which carries one call at a time, and the
    /// same calls in flight. Takes no lock. Without a way each call fails.
    pub fn new(
        rt: &'a R,
        alloc: Global,
        client: &'a Mutex<SharedClient>,
        ways: &'a [Mutex<C>],
        flights: &'a Mutex<Flights<P>>,
        presence: Arc<P>,
    ) -> SharedRemote<'a, R, C, P>
        ensures { result ≡ record { ways = length ways.now; begun = 0 } }
    {
        SharedRemote {
            rt,
            caller: Caller::new(rt, client),
            ways,
            flights,
            presence,
            texts: Texts::new(alloc),
            last_fault: None,
            last_sent: None,
        }
    }

    /// Why the last call that it made gave no answer: none where it gave one, or where another connection made
    /// it.
    pub fn last_fault(&self) -> Option<CallFault> {
        self.last_fault
    }

    /// The number of that call's SEND, if one was logged.
    pub fn last_sent(&self) -> Option<u64> {
        self.last_sent
    }

    /// Calls the server, and gives the reply that the client handed out, if one is owed. One call is begun, and carried
    /// three times at most: again where what came back isn't its acknowledgement, or its reply lacks. A call whose
    /// connection has ended, and that comes again on this one while it is in flight, is that call: none is begun.
    pub fn carry(&mut self, alloc: Global, bytes: &[u8]) -> Result<Option<Vec<u8>>, LinkFault>
        requires { length bytes.now ≤ MAX_BODY }
        ensures answered { IfOk result (λ r.
            IsAnswered self.old bytes.now (option_map (λ v. v.items) r) self.new) }
        ensures stops { IfErr result (λ f. StopsUnderLock self.old bytes.now f self.new) }
        ensures size { IfOk result (λ r. IfSome r (λ v. length v.items ≤ MAX_BODY)) }
    {
        self.last_fault = None;
        self.last_sent = None;
        let Some(part) = self.claim(alloc, bytes) else {
            return self.call(alloc, bytes, None);
        };
        let rt = self.rt;
        let _in_turn = part.turns.lock(rt);
        match self.turn(part.claim) {
            Turn::Call => self.call(alloc, bytes, Some(part.claim)),
            Turn::Made(outcome) => take_reply(outcome, bytes),
            Turn::Passed => Err(LinkFault::Failed),
        }
    }

    /// Its part in a call. Where memory is refused it has none, and makes a call that nobody else gets.
    fn claim(&self, alloc: Global, bytes: &[u8]) -> Option<Part> {
        let mut flights = self.flights.lock(self.rt);
        match flights.claim(alloc, bytes, &self.presence) {
            Ok(part) => Some(part),
            Err(_) => None,
        }
    }

    /// What is to be done for its call.
    fn turn(&self, claim: Claim) -> Turn {
        self.flights.lock(self.rt).turn(claim)
    }

    /// Calls the server.
    fn call(
        &mut self,
        alloc: Global,
        bytes: &[u8],
        claim: Option<Claim>,
    ) -> Result<Option<Vec<u8>>, LinkFault>
        requires { length bytes.now ≤ MAX_BODY }
        ensures answered { IfOk result (λ r.
            IsAnswered self.old bytes.now (option_map (λ v. v.items) r) self.new) }
        ensures stops { IfErr result (λ f. StopsUnderLock self.old bytes.now f self.new) }
        ensures size { IfOk result (λ r. IfSome r (λ v. length v.items ≤ MAX_BODY)) }
    {
        match self.call_once(alloc, bytes, flight_of(claim)) {
            Ok(reply) => match self.settle(alloc, bytes, claim, reply) {
                Some(reply) => Ok(reply),
                None => Err(LinkFault::Failed),
            },
            Err(fault) => Err(self.failed(claim, fault)),
        }
    }

    /// Calls the server by a way that is free, or by one that it waits for: which one the number tells.
    fn call_once(
        &mut self,
        alloc: Global,
        bytes: &[u8],
        number: u64,
    ) -> Result<Option<Vec<u8>>, CallFault>
        requires { length bytes.now ≤ MAX_BODY }
        ensures exchanged { IfOk result (λ r.
            IsExchangedUnderLock bytes.now (option_map (λ v. v.items) r)) }
        ensures begun { OnOk result (BeginsOne self.old self.new) }
        ensures stops { IfErr result (λ f. StopsCall self.old bytes.now f self.new) }
        ensures size { IfOk result (λ r. IfSome r (λ v. length v.items ≤ MAX_BODY)) }
    {
        let Some(mut courier) = free_way(self.rt, self.ways, number) else {
            return Err(CallFault::NotBegun(LinkFault::Failed));
        };
        let call = match self.caller.begin(alloc, bytes, &mut self.texts.call) {
            Ok(call) => call,
            Err(fault) => return Err(CallFault::NotBegun(fault)),
        };
        self.last_sent = Some(call.pending().number.get());
        let result = carry(
            &mut self.caller,
            &mut *courier,
            &mut self.texts,
            alloc,
            &call,
            bytes,
        );
        self.caller.end(call);
        result
    }

    /// Notes that its call has failed.
    fn failed(&mut self, claim: Option<Claim>, fault: CallFault) -> LinkFault
        ensures told { result ≡ call_fault fault }
        ensures none { BeginsNone self.old self.new }
    {
        let told = link_fault_of(&fault);
        self.last_fault = Some(fault);
        self.fail(claim);
        told
    }

    /// The reply to its call, where that still belongs to this connection; else it is kept for the one that it
    /// belongs to.
    fn settle(
        &self,
        alloc: Global,
        bytes: &[u8],
        claim: Option<Claim>,
        reply: Option<Vec<u8>>,
    ) -> Option<Option<Vec<u8>>>
        requires exchanged { IsExchangedUnderLock bytes.now (option_map (λ v. v.items) reply) }
        requires size { IfSome reply (λ v. length v.items ≤ MAX_BODY) }
        ensures reply { IfSome result (λ r. r ≡ reply) }
    {
        let Some(claim) = claim else {
            return Some(reply);
        };
        let mut flights = self.flights.lock(self.rt);
        if flights.end(claim) {
            return Some(reply);
        }
        let outcome = Outcome::of_reply(alloc, bytes, reply);
        flights.keep(claim, outcome);
        None
    }

    /// Its call has failed, also for the connection that it belongs to.
    fn fail(&self, claim: Option<Claim>) {
        let Some(claim) = claim else {
            return;
        };
        let mut flights = self.flights.lock(self.rt);
        if !flights.end(claim) {
            flights.keep(claim, Outcome::Failed);
        }
    }
}

/// A way that is free, or else the one that the number tells, once it is: none where there are no ways.
fn free_way<'w, R: Wait, C>(rt: &R, ways: &'w [Mutex<C>], number: u64) -> Option<MutexGuard<'w, C>>
    ensures { IfNone result (length ways.now ≡ 0) }
{
    for way in ways {
        if let Some(free) = way.try_lock() {
            return Some(free);
        }
    }
    let place = number.checked_rem(ways.len() as u64)?;
    Some(ways.get(place as usize)?.lock(rt))
}

/// The number of a flight, 0 where a call has none.
fn flight_of(claim: Option<Claim>) -> u64 {
    match claim {
        Some(claim) => claim.flight,
        None => 0,
    }
}

/// The reply to a call that an earlier connection made.
fn take_reply(outcome: Outcome, bytes: &[u8]) -> Result<Option<Vec<u8>>, LinkFault>
    ensures exchanged { IfOk result (λ r. IsExchangedUnderLock bytes.now (option_map (λ v. v.items) r)) }
    ensures failed { IfErr result (λ f. f ≡ Failed) }
    ensures size { IfOk result (λ r. IfSome r (λ v. length v.items ≤ MAX_BODY)) }
{
    match outcome.reply_to(bytes) {
        Some(reply) => Ok(reply),
        None => Err(LinkFault::Failed),
    }
}

/// A call's fault, as one of the link.
fn link_fault_of(fault: &CallFault) -> LinkFault
    ensures { result ≡ call_fault fault.now }
{
    (*fault).link_fault()
}

/// Its exchanges are what `carry` says, and so are its faults.
impl<'a, R: Wait, C: Courier + Drop, P: Presence> Link for SharedRemote<'a, R, C, P> {
    ghost exchanges = { λ d time bytes reply d'. Exchanges d time bytes reply d' };

    ghost fails = { λ d time bytes e d'. Fails d time bytes e d' };

    fn exchange(
        &mut self,
        alloc: Global,
        _time: Time,
        bytes: &[u8],
    ) -> Result<Option<Vec<u8>>, LinkFault> {
        self.carry(alloc, bytes)
    }
}

/// Answers each record of a local program's stream by the client that lies under a lock, as `Gateway::serve_stream`
/// over any link. What the program gets is the records of the replies to its own calls, in the order
/// of its calls, and nothing else, whatever other programs call at the same time.
pub fn serve_shared<
    'a,
    L: Wait,
    C: Courier + Drop,
    P: Presence,
    K: Clock,
    R: Read + Drop,
    W: Write,
>(
    gateway: &mut Gateway,
    alloc: Global,
    link: &mut SharedRemote<'a, L, C, P>,
    clock: &mut K,
    reader: &mut RecordReader<R>,
    writer: &mut Counting<W>,
) -> Result<Served, StreamFault>
    ensures exchanged { IfOk result (λ done. (made : List Exchange) × (length made ≡ done.records)
        × StopsAfterRecords (text_given made)
        (IsAsked Exchanges Fails link.old link.new (K.readings clock.old) (K.readings clock.new) made
        result) TakesNothing (R.remaining reader.old.reader.inner) (R.remaining reader.new.reader.inner)
        (W.contents writer.old.inner) (W.contents writer.new.inner)) }
    ensures asked { IfErr result (λ e. gateway.old ≡ false → reader.old.fault ≡ None →
        (made : List Exchange) × LeavesOff e reader.new.fault (text_given made)
        (IsAsked Exchanges Fails link.old link.new (K.readings clock.old) (K.readings clock.new) made
        result) (R.remaining reader.old.reader.inner) (R.remaining reader.new.reader.inner)
        (W.contents writer.old.inner) (W.contents writer.new.inner)) }
    ensures failed { gateway.new ≡ is_err result }
{
    gateway.serve_stream(alloc, link, clock, reader, writer)
}
