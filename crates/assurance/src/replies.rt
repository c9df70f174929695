//! What a witness took of what a server signed, and which of the server's replies it answers for.

ghost use Rattle.std.specs.Prelude.{◌≡◌, ◌∷◌, ◌<◌, ◌-◌, ◌==◌, filter, not, vec_capacity, vec_len, List, OnErr, OnOk};
ghost use Rattle.std.specs.List.{list_any};
ghost use Rattle.std.specs.Prelude.{[], if◌then◌else◌, ℕ};
ghost use Rattle.assurance.specs.Assured.{IsAssuredTo};
ghost use Rattle.assurance.specs.Events.{Taken};
ghost use Rattle.assurance.specs.Keeping.{GoesOn};
ghost use Rattle.assurance.specs.Passing.{Asked, HandedOut, Passed, Showed, StandsBy, history, is_taken};

use crate::assured::Assurance;
use crate::learned::said_by;
use crate::link::Told;
use crate::shown::ShownOf;
use authenticator::Authenticator;
use std::alloc::{AllocError, Global};

/// What passed between a gateway and a witness about the replies of one server, as far as it tells which are assured.
#[derive(Drop)]
pub(crate) struct Replies {
    pub(crate) assurance: Assurance,
    /// The numbers of the calls in the server's log whose receipts the witness took, and whose replies it didn't yet.
    pub(crate) acknowledged: Vec<u64>,
}

impl Replies {
    /// Nothing has passed.
    pub(crate) fn new(alloc: Global) -> Replies
        ensures { (server : ℕ) → StandsBy server [] result }
    {
        Replies {
            assurance: Assurance::new(alloc),
            acknowledged: Vec::new(alloc),
        }
    }

    /// Reserves memory for noting one more. Nothing else changes.
    pub(crate) fn reserve(&mut self) -> Result<(), AllocError>
        ensures room { OnOk result (vec_len self.new.acknowledged < vec_capacity self.new.acknowledged) }
        ensures acknowledged { self.new.acknowledged.items ≡ self.old.acknowledged.items }
        ensures assurance { self.new.assurance ≡ self.old.assurance }
    {
        self.acknowledged.reserve(1)
    }

    /// A reply is handed out, which has this number in the server's log. Where a growth was refused nothing has passed.
    pub(crate) fn hand_out(&mut self, number: u64) -> Result<(), AllocError>
        ensures handed { OnOk result ((server : ℕ) (p : List Passed) →
            StandsBy server p self.old → StandsBy server (HandedOut number ∷ p) self.new) }
        ensures refused { OnErr result ((server : ℕ) (p : List Passed) →
            StandsBy server p self.old → StandsBy server p self.new) }
    {
        self.assurance.hand_out(number)
    }

    /// The witness answered with this number when it was shown what a node signed, which is of this.
    pub(crate) fn note(&mut self, server: u32, signed: &Authenticator, of: ShownOf, answer: u32)
        requires { vec_len self.old.acknowledged < vec_capacity self.old.acknowledged }
        ensures { (p : List Passed) → StandsBy server p self.old →
            StandsBy server (Showed of signed.now answer ∷ p) self.new }
    {
        if !is_taken(server, signed.node, answer) {
            return;
        }
        match of {
            ShownOf::Receipt { number } => self.acknowledged.push_reserved(number),
            ShownOf::Reply { number } => self.note_reply(number),
        }
    }

    /// The witness took the server's signature of the message with a number. As a reply it counts where the receipt of
    /// its call was taken before: that of the message two numbers earlier.
    fn note_reply(&mut self, number: u64)
        ensures taken { GoesOn self.old.assurance
            (λ h. if list_any (λ c. c == number - 2) self.old.acknowledged.items then Taken number ∷ h else h)
            self.new.assurance }
        ensures rest { self.new.acknowledged.items ≡ filter (λ c. not (c == number - 2)) self.old.acknowledged.items }
    {
        let call = number.saturating_sub(2);
        let is_acknowledged = self.acknowledged.contains(&call);
        self.acknowledged.retain(|other| *other != call);
        if !is_acknowledged {
            return;
        }
        self.assurance.take(number);
    }

    /// The witness was asked about a server, and answered.
    pub(crate) fn note_told(&mut self, server: u32, told: Told)
        ensures { (p : List Passed) → StandsBy server p self.old →
            StandsBy server (Asked server told.is_exposed told.end ∷ p) self.new }
    {
        self.assurance.ask();
        self.assurance.tell(told.is_exposed, told.end);
    }

    /// The greatest number up to which the witness answers for the replies, if there is one.
    pub(crate) fn assured(&self) -> Option<u64>
        ensures { (server : ℕ) (p : List Passed) → StandsBy server p self.now → IsAssuredTo (history server p) result }
    {
        self.assurance.assured()
    }
}

/// Whether a witness took what a node signed, and that node is the server.
fn is_taken(server: u32, node: u32, answer: u32) -> bool
    ensures { result ≡ is_taken server node answer }
{
    node == server && said_by(answer).is_taken()
}
