//! What is begun next with a secret.

ghost use Rattle.std.specs.Prelude.{◌≡◌, ◌↔◌, ◌≤◌, ◌<◌, ℕ, IfErr, IfOk, IfSome, IfNone, IsTrue, true, false};
ghost use Rattle.std.specs.List.{AllByRecursion};
ghost use Rattle.host_keys.specs.Lines.{IsWithin};
ghost use Rattle.host_keys.specs.Beginnings.{IsBegun};
ghost use Rattle.host_keys.specs.declared.begun.Begun.TheVariants.{Node};
ghost use Rattle.host_keys.specs.Spent.{IsFresh, IsNextEpoch, IsNextLife, MayBegin, RefusesLife, fault_after};
ghost use Rattle.host_keys.specs.Spent.{fault_after_node, fault_after_run, first_fault, greatest};
ghost use Rattle.host_keys.specs.Spent.{has_begun, is_begun, is_nearer, least_from, run_after};

use crate::begun::Begun;
use crate::spent::Spent;
use authenticator::MAX_NODE;
use thiserror::Error;

/// The roster of an epoch.
#[derive(Clone, Copy, Debug, PartialEq, Eq)]
pub struct EpochRoster {
    /// The epoch, from 1 on.
    pub epoch: u32,
    /// The SHA-256 digest of the roster's text.
    pub digest: [u8; 32],
}

/// Why no number of a gateway's is begun in an epoch. The first three are of the oldest line for which one of
/// them holds.
#[derive(Clone, Copy, Debug, PartialEq, Eq, Error)]
pub enum LifeFault {
    /// A greater epoch was begun.
    #[error("a greater epoch was begun with this secret")]
    Over,
    /// A run of `serve` took the number of the epoch.
    #[error("a run of serve took the keys of this epoch")]
    TakenByRun,
    /// The epoch was begun under another roster.
    #[error("this epoch was begun under another roster")]
    OtherRoster,
    /// All of its numbers were begun there.
    #[error("each of its numbers was begun in this epoch")]
    NoneLeft,
}

impl Spent {
    /// What the next run of `serve` begins: the number after all that were begun. `None` comes where that is
    /// above the greatest of 32 bits.
    pub fn next_run(&self) -> Option<Begun>
        ensures run { result ≡ run_after self.now }
        ensures may { IfSome result (MayBegin self.now) }
        ensures fresh { IfSome result (IsFresh self.now) }
    {
        let last = greatest(self.begun());
        if last < u32::MAX {
            Some(Begun::Run(last + 1))
        } else {
            None
        }
    }

    /// What a server with this number begins: the least epoch after all that were begun, of those for which
    /// there is a roster. `None` comes where there is none for a later one.
    pub fn next_epoch(&self, node: u32, rosters: &[EpochRoster]) -> Option<Begun>
        requires { IsWithin 1 MAX_NODE node }
        ensures next { IfSome result (IsNextEpoch self.now node rosters.now) }
        ensures may { IfSome result (MayBegin self.now) }
        ensures fresh { IfSome result (IsFresh self.now) }
        ensures none { IfNone result (AllByRecursion (λ r. r.epoch ≤ greatest self.now) rosters.now) }
    {
        let next = least_after(greatest(self.begun()), rosters)?;
        Some(node_begun(next.epoch, node, next.digest))
    }

    /// What a gateway begins that has the numbers from the first to the last, in the epoch of a roster: the
    /// least of them that wasn't begun there. Refused where a greater epoch was begun, a run took the number
    /// of this one, or it was begun under another roster; and where all of them were begun there.
    pub fn next_life(&self, first: u32, last: u32, roster: &EpochRoster) -> Result<Begun, LifeFault>
        requires first { 1 ≤ first }
        requires last { last ≤ MAX_NODE }
        requires epoch { 1 ≤ roster.now.epoch }
        ensures next { IfOk result (IsNextLife self.now first last roster.now) }
        ensures may { IfOk result (MayBegin self.now) }
        ensures fresh { IfOk result (IsFresh self.now) }
        ensures refused { IfErr result (RefusesLife self.now first last roster.now) }
    {
        if let Some(fault) = first_fault(roster, self.begun()) {
            return Err(fault);
        }
        match first_free(self.begun(), roster.epoch, first, last) {
            Some(node) => Ok(node_begun(roster.epoch, node, roster.digest)),
            None => Err(LifeFault::NoneLeft),
        }
    }
}

/// The beginning of a node in an epoch, under a roster with this digest.
fn node_begun(epoch: u32, node: u32, roster: [u8; 32]) -> Begun
    requires epoch { 1 ≤ epoch }
    requires node { IsWithin 1 MAX_NODE node }
    ensures value { result ≡ Node epoch node roster }
    ensures is { IsBegun result }
{
    Begun::Node {
        epoch,
        node,
        roster,
    }
}

/// The greatest number of those that were begun; 0 where none was.
fn greatest(begun: &[Begun]) -> u32
    ensures { result ≡ greatest begun.now }
{
    let mut most = 0;
    for one in begun {
        let number = one.number();
        if number > most {
            most = number;
        }
    }
    most
}

/// The roster of the least epoch after a number.
fn least_after(number: u32, rosters: &[EpochRoster]) -> Option<EpochRoster>
    ensures { result ≡ least_from number None rosters.now }
{
    let mut least: Option<EpochRoster> = None;
    for roster in rosters {
        if is_nearer(number, roster, &least) {
            least = Some(*roster);
        }
    }
    least
}

/// Whether a roster's epoch is after a number, and before that of another one, if there is one.
fn is_nearer(number: u32, roster: &EpochRoster, other: &Option<EpochRoster>) -> bool
    ensures { result ≡ is_nearer number roster.now other.now }
{
    if roster.epoch <= number {
        return false;
    }
    match other {
        Some(other) => roster.epoch < other.epoch,
        None => true,
    }
}

/// Why nothing is begun in the epoch of a roster after one that was begun.
fn fault_after(roster: &EpochRoster, begun: &Begun) -> Option<LifeFault>
    ensures { result ≡ fault_after roster.now begun.now }
{
    match begun {
        Begun::Run(run) => fault_after_run(roster.epoch, *run),
        Begun::Node {
            epoch,
            roster: digest,
            ..
        } => fault_after_node(roster, *epoch, digest),
    }
}

/// Why nothing is begun in an epoch after a run.
fn fault_after_run(epoch: u32, run: u32) -> Option<LifeFault>
    ensures { result ≡ fault_after_run epoch run }
{
    if epoch < run {
        return Some(LifeFault::Over);
    }
    if epoch == run {
        return Some(LifeFault::TakenByRun);
    }
    None
}

/// Why nothing is begun in the epoch of a roster after a node in an epoch under another.
fn fault_after_node(roster: &EpochRoster, epoch: u32, digest: &[u8; 32]) -> Option<LifeFault>
    ensures { result ≡ fault_after_node roster.now epoch digest.now }
{
    if roster.epoch < epoch {
        return Some(LifeFault::Over);
    }
    if roster.epoch == epoch && digest.as_slice() != roster.digest.as_slice() {
        return Some(LifeFault::OtherRoster);
    }
    None
}

/// The first such fault.
fn first_fault(roster: &EpochRoster, begun: &[Begun]) -> Option<LifeFault>
    ensures { result ≡ first_fault roster.now begun.now }
{
    for one in begun {
        if let Some(fault) = fault_after(roster, one) {
            return Some(fault);
        }
    }
    None
}

/// The least number, from the first to the last, that wasn't begun in an epoch.
fn first_free(begun: &[Begun], epoch: u32, first: u32, last: u32) -> Option<u32>
    requires { last ≤ MAX_NODE }
    ensures within { IfSome result (λ n. (first ≤ n) × (n ≤ last)) }
    ensures free { IfSome result (λ n. has_begun begun.now epoch n ≡ false) }
    ensures least { IfSome result (λ n. (k : ℕ) → first ≤ k → k < n → has_begun begun.now epoch k ≡ true) }
    ensures none { IfNone result ((k : ℕ) → first ≤ k → k ≤ last → has_begun begun.now epoch k ≡ true) }
{
    for node in first..last + 1 {
        if !has_begun(begun, epoch, node) {
            return Some(node);
        }
    }
    None
}

/// Whether a node was begun in an epoch.
fn has_begun(begun: &[Begun], epoch: u32, node: u32) -> bool
    ensures { result ≡ has_begun begun.now epoch node }
{
    for one in begun {
        if is_begun(one, epoch, node) {
            return true;
        }
    }
    false
}

/// Whether this is the beginning of a node in an epoch.
fn is_begun(begun: &Begun, epoch: u32, node: u32) -> bool
    ensures { result ≡ is_begun epoch node begun.now }
{
    match begun {
        Begun::Node {
            epoch: begun_epoch,
            node: begun_node,
            ..
        } => *begun_epoch == epoch && *begun_node == node,
        Begun::Run(_) => false,
    }
}
