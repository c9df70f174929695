//! Calls that are in flight, and the connections that they belong to.

ghost use Rattle.std.specs.Prelude.{◌<◌, ◌≤◌, IfSome, length, vec_len};
ghost use Rattle.std.specs.Option.{option_map};
ghost use Rattle.std.proofs.Props.{props};
ghost use Rattle.secure_log.specs.declared.log_entries.entry.TheConstants.{MAX_BODY};
ghost use Rattle.remote_sharing.specs.Shared.{IsExchangedUnderLock};

use std::alloc::{AllocError, Global};
use std::sync::{Arc, Mutex};

/// The connection of a local program.
pub trait Presence: Drop {
    /// Whether the program has ended it. Doesn't wait for the program.
    fn has_ended(&self) -> bool;
}

/// The calls that are in flight, of all connections: they lie under a lock of their own. A call belongs to one
/// connection at a time: where that has ended, and another one sends the very same bytes, it belongs to that one from
/// then on.
#[derive(Drop)]
pub struct Flights<P: Presence> {
    flights: Vec<Flight<P>>,
    /// How many calls there were.
    begun: u64,
}

/// A call in flight.
#[derive(Drop)]
struct Flight<P: Presence> {
    number: u64,
    /// How many connections it belonged to, with the one that it belongs to.
    owners: u64,
    /// The connection that it belongs to.
    presence: Arc<P>,
    bytes: Vec<u8>,
    /// What came of it, where another connection made it than the one that it belongs to.
    outcome: Option<Outcome>,
    /// Held by the connection that makes it, so that others wait.
    turns: Arc<Mutex<()>>,
}

/// A connection's part in a call, with the lock of those who have one.
#[derive(Drop)]
pub(crate) struct Part {
    pub(crate) claim: Claim,
    pub(crate) turns: Arc<Mutex<()>>,
}

/// A connection's part in a call.
#[derive(Clone, Copy)]
pub(crate) struct Claim {
    /// The number of the call.
    pub(crate) flight: u64,
    /// How many connections it belonged to then.
    owner: u64,
}

/// What is to be done for a connection's call.
#[derive(Drop)]
pub(crate) enum Turn {
    /// It is to be made.
    Call,
    /// An earlier connection made it.
    Made(Outcome),
    /// It belongs to a later connection.
    Passed,
}

/// What came of a call that an earlier connection made.
#[derive(Drop)]
pub(crate) enum Outcome {
    Answered(Answer),
    Failed,
}

/// The answer to a call, with the call's bytes.
#[derive(Drop)]
pub(crate) struct Answer {
    bytes: Vec<u8>,
    reply: Option<Vec<u8>>,
    ghost exchanged: { IsExchangedUnderLock bytes.items (option_map (λ v. v.items) reply) },
    ghost size: { IfSome reply (λ v. length v.items ≤ MAX_BODY) } by { Prim.hlevel props },
}

impl Answer {
    /// The answer to a call of these bytes.
    fn new(bytes: Vec<u8>, reply: Option<Vec<u8>>) -> Answer
        requires exchanged { IsExchangedUnderLock bytes.items (option_map (λ v. v.items) reply) }
        requires size { IfSome reply (λ v. length v.items ≤ MAX_BODY) }
    {
        Answer { bytes, reply }
    }

    /// The reply, if one was owed, where these are the bytes of the call.
    fn reply_to(self, bytes: &[u8]) -> Option<Option<Vec<u8>>>
        ensures exchanged { IfSome result (λ r.
            IsExchangedUnderLock bytes.now (option_map (λ v. v.items) r)) }
        ensures size { IfSome result (λ r. IfSome r (λ v. length v.items ≤ MAX_BODY)) }
    {
        if self.bytes.as_slice() != bytes {
            return None;
        }
        Some(self.reply)
    }
}

impl Outcome {
    /// What came of a call of these bytes that was answered. Where memory is refused it has failed.
    pub(crate) fn of_reply(alloc: Global, bytes: &[u8], reply: Option<Vec<u8>>) -> Outcome
        requires exchanged { IsExchangedUnderLock bytes.now (option_map (λ v. v.items) reply) }
        requires size { IfSome reply (λ v. length v.items ≤ MAX_BODY) }
    {
        match bytes.to_vec(alloc) {
            Ok(copy) => Outcome::Answered(Answer::new(copy, reply)),
            Err(_) => Outcome::Failed,
        }
    }

    /// The reply to a call of these bytes, if one was owed. None where the call has failed, or had other bytes.
    pub(crate) fn reply_to(self, bytes: &[u8]) -> Option<Option<Vec<u8>>>
        ensures exchanged { IfSome result (λ r.
            IsExchangedUnderLock bytes.now (option_map (λ v. v.items) r)) }
        ensures size { IfSome result (λ r. IfSome r (λ v. length v.items ≤ MAX_BODY)) }
    {
        match self {
            Outcome::Answered(answer) => answer.reply_to(bytes),
            Outcome::Failed => None,
        }
    }
}

impl<P: Presence> Flight<P> {
    /// Whether it is a call of these bytes whose connection has ended.
    fn is_left(&self, bytes: &[u8]) -> bool {
        self.bytes.as_slice() == bytes && self.presence.has_ended()
    }

    /// Has it belong to another connection.
    fn pass_to(&mut self, presence: Arc<P>) -> Result<Part, AllocError> {
        let turns = Arc::try_clone(&self.turns)?;
        self.presence = presence;
        self.owners = self.owners.saturating_add(1);
        let claim = Claim {
            flight: self.number,
            owner: self.owners,
        };
        Ok(Part { claim, turns })
    }

    /// What is to be done for a connection.
    fn turn(&mut self, claim: Claim) -> Turn {
        if self.outcome.is_none() {
            return Turn::Call;
        }
        if claim.owner != self.owners {
            return Turn::Passed;
        }
        match self.outcome.take() {
            Some(outcome) => Turn::Made(outcome),
            None => Turn::Call,
        }
    }
}

impl<P: Presence> Flights<P> {
    /// No calls.
    pub fn new(alloc: Global) -> Flights<P> {
        Flights {
            flights: Vec::new(alloc),
            begun: 0,
        }
    }

    /// Whether calls of these bytes are in flight, and the connections that they belong to have all ended.
    pub fn are_left(&self, bytes: &[u8]) -> bool {
        let mut are_left = false;
        for flight in &self.flights {
            if flight.bytes.as_slice() == bytes {
                if !flight.presence.has_ended() {
                    return false;
                }
                are_left = true;
            }
        }
        are_left
    }

    /// A connection's part in a call of these bytes: in one whose connection has ended, or in a new one. Where memory
    /// is refused nothing has changed.
    pub(crate) fn claim(
        &mut self,
        alloc: Global,
        bytes: &[u8],
        presence: &Arc<P>,
    ) -> Result<Part, AllocError> {
        let presence = Arc::try_clone(presence)?;
        for flight in &mut self.flights {
            if flight.is_left(bytes) {
                return flight.pass_to(presence);
            }
        }
        self.begin(alloc, bytes, presence)
    }

    /// A new call of a connection.
    fn begin(&mut self, alloc: Global, bytes: &[u8], presence: Arc<P>) -> Result<Part, AllocError> {
        let number = self.begun;
        let bytes = bytes.to_vec(alloc)?;
        let Ok(turns) = Arc::new(alloc, Mutex::new(())) else {
            return Err(AllocError);
        };
        let shared = Arc::try_clone(&turns)?;
        let flight = Flight {
            number,
            owners: 1,
            presence,
            bytes,
            outcome: None,
            turns: shared,
        };
        match self.flights.push(flight) {
            Ok(()) => {}
            Err(_) => return Err(AllocError),
        }
        self.begun = self.begun.wrapping_add(1);
        let claim = Claim {
            flight: number,
            owner: 1,
        };
        Ok(Part { claim, turns })
    }

    /// What is to be done for a connection. One that was made has ended then.
    pub(crate) fn turn(&mut self, claim: Claim) -> Turn {
        let Some(index) = self.index_of(claim) else {
            return Turn::Passed;
        };
        let turn = self.flights[index].turn(claim);
        if let Turn::Made(_) = &turn {
            self.flights.swap_remove(index);
        }
        turn
    }

    /// Ends a call that was made, if it still belongs to this connection. Whether it does.
    pub(crate) fn end(&mut self, claim: Claim) -> bool {
        let Some(index) = self.index_of(claim) else {
            return false;
        };
        let is_own = self.flights[index].owners == claim.owner;
        if is_own {
            self.flights.swap_remove(index);
        }
        is_own
    }

    /// Keeps what came of a call for the connection that it belongs to.
    pub(crate) fn keep(&mut self, claim: Claim, outcome: Outcome) {
        if let Some(index) = self.index_of(claim) {
            self.flights[index].outcome = Some(outcome);
        }
    }

    /// Where a call stands in the list.
    fn index_of(&self, claim: Claim) -> Option<usize>
        ensures { IfSome result (λ i. i < vec_len self.now.flights) }
    {
        for index in 0..self.flights.len() {
            if self.flights[index].number == claim.flight {
                return Some(index);
            }
        }
        None
    }
}
