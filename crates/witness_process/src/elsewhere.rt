//! Servers that go by another roster than the witness, which ends where that is of a later epoch than its own.

ghost use Rattle.std.specs.Prelude.{◌≡◌, ◌&&◌, IfOk, IfSome, MatchOption, Some, find, nat_lt};
ghost use Rattle.std.specs.Str.{bytes_eq};
ghost use Rattle.peer_calls.specs.Answers.{greeted_at};
ghost use Rattle.peer_calls.specs.declared.answers.Greeted.TheVariants.{Other, Same};
ghost use Rattle.witness_process.specs.Rosters.{HasGreeted, HasTold, IsEnding, ending_after, later_with};
ghost use Rattle.witness_process.specs.Rosters.{roster_with};

use crate::orders::{Ending, KnownRoster};
use peer_calls::{Greeted, ResultsFault, read_greeted};
use std::alloc::Global;
use std::marker::Model;

/// A server, and the digest of another roster than the witness's, by which it goes.
#[derive(Clone, Copy, Debug, PartialEq, Eq)]
pub(crate) struct OtherRoster {
    pub(crate) node: u32,
    pub(crate) digest: [u8; 32],
}

/// What a server told when it was greeted: that it goes by another roster. Its type keeps that it did.
#[derive(Drop)]
pub(crate) struct Told {
    other: OtherRoster,
}

impl Model for Told {
    ghost use Rattle.witness_process.specs.Rosters.{HasTold};
    ghost use Rattle.witness_process.specs.declared.elsewhere.OtherRoster.{OtherRoster};

    ghost Value = { OtherRoster };

    ghost view = { λ t. t.other };

    ghost invariant = { λ t. HasTold t.other.digest };
}

impl Told {
    /// The server, and the digest.
    pub(crate) fn other(&self) -> OtherRoster
        ensures other { result ≡ self.now }
        ensures told { HasTold result.digest }
    {
        self.other
    }
}

/// What a server with this number told by its results of GREET: none where it goes by the same roster.
#[tactic(auto, using(crate::proofs::OfRosters::has_told))]
pub(crate) fn told_in(
    alloc: Global,
    node: u32,
    results: &[u8],
) -> Result<Option<Told>, ResultsFault>
    ensures same { IfOk result (λ told. told ≡ None → greeted_at results.now ≡ Some Same) }
    ensures other { IfOk result (λ told. IfSome told (λ o.
        (o.node ≡ node) × (greeted_at results.now ≡ Some (Other o.digest)))) }
{
    match read_greeted(alloc, results) {
        Ok(Greeted::Same) => Ok(None),
        Ok(Greeted::Other(digest)) => Ok(Some(Told {
            other: OtherRoster { node, digest },
        })),
        Err(fault) => Err(fault),
    }
}

/// The digest of the roster by which a server goes that was asked with a digest, by its results of GREET.
#[tactic(auto, using(crate::proofs::OfRosters::has_greeted))]
pub(crate) fn digest_in(
    alloc: Global,
    asked: &[u8; 32],
    results: &[u8],
) -> Result<[u8; 32], ResultsFault>
    ensures { IfOk result HasGreeted }
{
    match read_greeted(alloc, results) {
        Ok(Greeted::Same) => Ok(*asked),
        Ok(Greeted::Other(digest)) => Ok(digest),
        Err(fault) => Err(fault),
    }
}

/// The first roster with this digest.
pub(crate) fn roster_with(known: &[KnownRoster], digest: &[u8; 32]) -> Option<KnownRoster>
    ensures { result ≡ roster_with known.now digest.now }
{
    for roster in known {
        if roster.digest.as_slice() == digest.as_slice() {
            return Some(*roster);
        }
    }
    None
}

/// The first roster with this digest that is of a later epoch than another one.
pub(crate) fn later_with(known: &[KnownRoster], own: u32, digest: &[u8; 32]) -> Option<KnownRoster>
    ensures { result ≡ later_with known.now own digest.now }
{
    for roster in known {
        if roster.digest.as_slice() == digest.as_slice() && own < roster.epoch {
            return Some(*roster);
        }
    }
    None
}

/// What a server told for which the witness ends, once one has. It lies under a lock.
#[derive(Drop)]
pub(crate) struct Elsewhere {
    told: Option<Told>,
}

impl Elsewhere {
    /// Nobody told anything.
    pub(crate) fn nobody() -> Elsewhere {
        Elsewhere { told: None }
    }

    /// Notes what a server told, unless another one did before.
    pub(crate) fn note(&mut self, told: Told) {
        if self.told.is_none() {
            self.told = Some(told);
        }
    }

    /// What was noted.
    fn other(&self) -> Option<OtherRoster>
        ensures other { result ≡ self.now.told }
        ensures told { IfSome result (λ o. HasTold o.digest) }
    {
        match &self.told {
            Some(told) => Some(told.other()),
            None => None,
        }
    }

    /// Why a witness ends that knows these rosters, and whose own epoch this is.
    #[tactic(auto, using(crate::proofs::OfRosters::is_ending))]
    pub(crate) fn ending(&self, known: &[KnownRoster], own: u32) -> Ending
        ensures value { result ≡ ending_after known.now own self.now.told }
        ensures ending { IsEnding known.now own result }
    {
        match self.other() {
            Some(other) => ending_of(known, own, &other),
            None => Ending::Stopped,
        }
    }
}

/// Why a witness ends that knows these rosters, and whose own epoch this is, where a server told another roster.
fn ending_of(known: &[KnownRoster], own: u32, other: &OtherRoster) -> Ending
    ensures { result ≡ ending_after known.now own (Some other.now) }
{
    match later_with(known, own, &other.digest) {
        Some(roster) => Ending::EpochBegun {
            node: other.node,
            epoch: roster.epoch,
        },
        None => Ending::Stopped,
    }
}
