//! Copies of evidence, and whether two are the same.

ghost use Rattle.std.specs.Prelude.{◌≡◌, ◌↔◌, IfOk, IsTrue};
ghost use Rattle.challenge.specs.Charges.{charge_in, fork_in};

use crate::evidence::{Charge, Evidence, Fork};
use evidence_showings::Showing;
use std::alloc::{AllocError, Global};

impl Evidence {
    /// Whether other evidence is the same: against the same node, and of the same charge. It compares bytes,
    /// and takes no memory.
    pub fn is_same(&self, other: &Evidence) -> bool
        ensures { IsTrue result ↔ (self.now ≡ other.now) }
    {
        self.node() == other.node() && self.charge().is_same(other.charge())
    }

    /// A copy. No text is written for it, and nothing is hashed. `AllocError` comes only where a growth was
    /// refused.
    pub fn try_clone(&self, alloc: Global) -> Result<Evidence, AllocError>
        ensures { IfOk result (λ e. e ≡ self.now) }
    {
        self.has_text();
        let charge = self.charge().try_clone(alloc)?;
        Ok(Evidence::of_whole(self.node(), charge))
    }
}

impl Charge {
    /// Whether another charge is the same: a fork of the same showings at the same number, the same log, or
    /// the same base with the same log after it. It compares bytes, and takes no memory.
    pub fn is_same(&self, other: &Charge) -> bool
        ensures { IsTrue result ↔ (charge_in self.now ≡ charge_in other.now) }
    {
        match (self, other) {
            (Charge::Fork(own), Charge::Fork(fork)) => own.is_same(fork),
            (Charge::Replay(own), Charge::Replay(log)) => own.is_same(log),
            (Charge::Based(own), Charge::Based(based)) => own.is_same(based),
            _ => false,
        }
    }

    /// A copy. No text is written for it, and nothing is hashed. `AllocError` comes only where a growth was
    /// refused.
    pub fn try_clone(&self, alloc: Global) -> Result<Charge, AllocError>
        ensures { IfOk result (λ c. charge_in c ≡ charge_in self.now) }
    {
        match self {
            Charge::Fork(fork) => Ok(Charge::Fork(fork.try_clone(alloc)?)),
            Charge::Replay(log) => Ok(Charge::Replay(log.try_clone(alloc)?)),
            Charge::Based(based) => Ok(Charge::Based(based.try_clone(alloc)?)),
        }
    }
}

impl Fork {
    /// Whether another fork is the same: its log's version, its number and both its showings are. It compares
    /// bytes, and takes no memory.
    pub fn is_same(&self, other: &Fork) -> bool
        ensures { IsTrue result ↔ (fork_in self.now ≡ fork_in other.now) }
    {
        self.log_version == other.log_version
            && self.at == other.at
            && self.a.is_same(&other.a)
            && are_same(&self.b, &other.b)
    }

    /// A copy. No text is written for it, and nothing is hashed. `AllocError` comes only where a growth was
    /// refused.
    pub fn try_clone(&self, alloc: Global) -> Result<Fork, AllocError>
        ensures { IfOk result (λ f. fork_in f ≡ fork_in self.now) }
    {
        let a = self.a.try_clone(alloc)?;
        let b = match &self.b {
            Some(b) => Some(b.try_clone(alloc)?),
            None => None,
        };
        Ok(Fork {
            log_version: self.log_version,
            at: self.at,
            a,
            b,
        })
    }
}

/// Whether two forks have the same second showing, or both have none. Takes no memory.
fn are_same(own: &Option<Showing>, other: &Option<Showing>) -> bool
    ensures { IsTrue result ↔ (own.now ≡ other.now) }
{
    match (own, other) {
        (Some(own), Some(other)) => own.is_same(other),
        (None, None) => true,
        _ => false,
    }
}
