//! Member lines together, and the rosters that they make.

ghost use Rattle.std.specs.Prelude.{◌≡◌, ◌≤◌, ◌<◌, ℕ, [], IfErr, IfNone, IfOk, IfSome, OnErr, OnOk, None};
ghost use Rattle.std.specs.Prelude.{false};
ghost use Rattle.std.specs.Prelude.{true};
ghost use Rattle.std.specs.List.{AllByRecursion};
ghost use Rattle.host_keys.specs.Members.{IsMemberLine, member_text};
ghost use Rattle.host_keys.specs.Rosters.{Adds, AreComplete, HasEpoch, IsIn, IsLacking, LineRefused};
ghost use Rattle.host_keys.specs.Rosters.{epoch_from};
ghost use Rattle.host_keys.specs.Rosters.{has_node, is_nearer, member_at, members_of};
ghost use Rattle.host_keys.specs.declared.member_line.MemberLine.{MemberLine};

use crate::member_line::MemberLine;
use authenticator::{MAX_NODE, Member, Roster};
use std::alloc::{AllocError, Global};
use std::marker::Model;
use thiserror::Error;

/// Member lines, of which no two say a number in an epoch with other words: for each epoch the members of its
/// roster.
#[derive(Drop)]
pub struct MemberLines {
    lines: Vec<MemberLine>,
}

impl Model for MemberLines {
    ghost use Rattle.std.specs.Prelude.{List};
    ghost use Rattle.std.specs.List.{AllByRecursion};
    ghost use Rattle.host_keys.specs.declared.member_line.MemberLine.{MemberLine};
    ghost use Rattle.host_keys.specs.Members.{IsMemberLine};

    ghost Value = { List MemberLine };

    ghost view = { λ m. m.lines.items };

    ghost invariant = { λ m. AllByRecursion IsMemberLine m.lines.items };
}

/// Why a line isn't taken.
#[derive(Clone, Copy, Debug, PartialEq, Eq, Error)]
pub enum LineFault {
    /// It is no member line.
    #[error("bad")]
    Bad,
    /// An earlier line says this number in this epoch with other words.
    #[error("another line says this number in this epoch otherwise")]
    Otherwise,
    /// Memory was refused.
    #[error("out of memory")]
    NoMemory,
}

/// A number that some epoch has, and another one lacks.
#[derive(Clone, Copy, Debug, PartialEq, Eq)]
pub struct Lacking {
    /// The epoch that lacks it.
    pub epoch: u32,
    /// The number.
    pub node: u32,
}

impl MemberLines {
    /// No lines.
    pub fn new(alloc: Global) -> MemberLines
        ensures { result ≡ [] }
    {
        MemberLines {
            lines: Vec::new(alloc),
        }
    }

    /// Takes a line, without its line feed. The very line that was taken before changes nothing. `Bad` comes
    /// exactly where it is no member line, else `Otherwise` where an earlier one says its number in its epoch
    /// with other words. After an `Err` nothing has changed.
    pub fn add(&mut self, line: &str) -> Result<(), LineFault>
        ensures ok { OnOk result ((l : MemberLine) × IsMemberLine l × (line.now ≡ member_text l)
            × Adds self.old l self.new) }
        ensures refused { IfErr result (LineRefused self.old line.now) }
        ensures err { OnErr result (self.new ≡ self.old) }
    {
        let Some(said) = MemberLine::read(line) else {
            return Err(LineFault::Bad);
        };
        match member_at(&self.lines, said.epoch, said.member.node) {
            Some(member) => {
                if member == said.member {
                    Ok(())
                } else {
                    Err(LineFault::Otherwise)
                }
            }
            None => match self.lines.push(said) {
                Ok(()) => Ok(()),
                Err(_) => Err(LineFault::NoMemory),
            },
        }
    }

    /// The lines that were taken, in their order.
    pub fn lines(&self) -> &[MemberLine]
        ensures { result.now ≡ self.now }
    {
        &self.lines
    }

    /// The least epoch after a number of which there is a line. `None` comes where there is none.
    pub fn next_epoch(&self, number: u32) -> Option<u32>
        ensures some { IfSome result (HasEpoch self.now) }
        ensures after { IfSome result (λ e. number < e) }
        ensures least { IfSome result (λ e. AllByRecursion (λ l. number < l.epoch → e ≤ l.epoch) self.now) }
        ensures none { IfNone result (AllByRecursion (λ l. l.epoch ≤ number) self.now) }
    {
        epoch_after(number, &self.lines)
    }

    /// A number that a line says in some epoch, of which another epoch with lines has none.
    pub fn lacking(&self) -> Option<Lacking>
        ensures some { IfSome result (IsLacking self.now) }
        ensures none { IfNone result (AreComplete self.now) }
    {
        lacking_in(&self.lines)
    }

    /// The roster of an epoch: the members that its lines say, by rising numbers.
    pub fn roster(&self, alloc: Global, epoch: u32) -> Result<Roster, AllocError>
        ensures { IfOk result (λ r. r ≡ members_of self.now epoch) }
    {
        let members = members_at(alloc, &self.lines, epoch)?;
        Ok(Roster::new(members).unwrap())
    }
}

/// The member that a line says with this number in this epoch.
fn member_at(lines: &[MemberLine], epoch: u32, node: u32) -> Option<Member>
    ensures { result ≡ member_at lines.now epoch node }
{
    for line in lines {
        if line.epoch == epoch && line.member.node == node {
            return Some(line.member);
        }
    }
    None
}

/// Whether a line says a number, in whichever epoch.
fn has_node(lines: &[MemberLine], node: u32) -> bool
    ensures { result ≡ has_node lines.now node }
{
    for line in lines {
        if line.member.node == node {
            return true;
        }
    }
    false
}

/// The least epoch of lines after a number.
fn epoch_after(number: u32, lines: &[MemberLine]) -> Option<u32>
    ensures some { IfSome result (HasEpoch lines.now) }
    ensures after { IfSome result (λ e. number < e) }
    ensures least { IfSome result (λ e. AllByRecursion (λ l. number < l.epoch → e ≤ l.epoch) lines.now) }
    ensures none { IfNone result (AllByRecursion (λ l. l.epoch ≤ number) lines.now) }
{
    nearest_epoch(number, lines)
}

/// The same as `epoch_after`.
fn nearest_epoch(number: u32, lines: &[MemberLine]) -> Option<u32>
    ensures { result ≡ epoch_from number None lines.now }
{
    let mut least: Option<u32> = None;
    for line in lines {
        if is_nearer(number, line.epoch, least) {
            least = Some(line.epoch);
        }
    }
    least
}

/// A number that a line says in some epoch, of which another epoch with lines has none.
fn lacking_in(lines: &[MemberLine]) -> Option<Lacking>
    requires { AllByRecursion IsMemberLine lines.now }
    ensures some { IfSome result (IsLacking lines.now) }
    ensures none { IfNone result (AreComplete lines.now) }
{
    let mut epoch = 0;
    while let Some(next) = epoch_after(epoch, lines) {
        if let Some(node) = lacking_at(lines, next) {
            return Some(Lacking { epoch: next, node });
        }
        epoch = next;
    }
    None
}

/// Whether an epoch is after a number, and before another one, if there is one.
fn is_nearer(number: u32, epoch: u32, other: Option<u32>) -> bool
    ensures { result ≡ is_nearer number epoch other }
{
    if epoch <= number {
        return false;
    }
    match other {
        Some(other) => epoch < other,
        None => true,
    }
}

/// A number that a line says in some epoch, and none in this one.
fn lacking_at(lines: &[MemberLine], epoch: u32) -> Option<u32>
    ensures some { IfSome result (λ n. has_node lines.now n ≡ true) }
    ensures absent { IfSome result (λ n. member_at lines.now epoch n ≡ None) }
    ensures none { IfNone result ((n : ℕ) → 1 ≤ n → n ≤ MAX_NODE → IsIn lines.now epoch n) }
{
    for node in 1..MAX_NODE + 1 {
        if is_lacking(lines, epoch, node) {
            return Some(node);
        }
    }
    None
}

/// Whether a line says a number in some epoch, and none in this one.
fn is_lacking(lines: &[MemberLine], epoch: u32, node: u32) -> bool
    ensures yes { result ≡ true → (has_node lines.now node ≡ true) × (member_at lines.now epoch node ≡ None) }
    ensures no { result ≡ false → IsIn lines.now epoch node }
{
    has_node(lines, node) && member_at(lines, epoch, node).is_none()
}

/// The members that lines say in an epoch, by rising numbers.
fn members_at(alloc: Global, lines: &[MemberLine], epoch: u32) -> Result<Vec<Member>, AllocError>
    ensures { IfOk result (λ v. v.items ≡ members_of lines.now epoch) }
{
    let mut members = Vec::new(alloc);
    for node in 1..MAX_NODE + 1 {
        if let Some(member) = member_at(lines, epoch, node) {
            members.push(member)?;
        }
    }
    Ok(members)
}
