//! What a witness may begin with, and the books of its members at first.

ghost use Rattle.std.specs.Prelude.{◌≡◌, ◌==◌, ◌↔◌, All, IfErr, IfOk, IsTrue, map};
ghost use Rattle.std.specs.List.{AllByRecursion, list_any};
ghost use Rattle.authenticator.specs.Roster.{IsRoster};
ghost use Rattle.node_book.specs.challenge.KnownBases.{parts_of};
ghost use Rattle.node_book.specs.evidence_spec.Base.{IsBaseOf};
ghost use Rattle.node_book.specs.Rows.{BaseIsOfLog, base_in, known_in};
ghost use Rattle.node_book.specs.witness_spec.Starting.{IsBeginning, IsOfSome, node_of};
ghost use Rattle.node_book.specs.witness_book_laws.Books.{book_starting};
ghost use Rattle.witness_books.specs.Books.{bases_in, beginning_in, books_at_first};
ghost use Rattle.witness_books.specs.Starts.{AreApart, AreOfRoster, IsOfRoster, MayStart, StartFails};
ghost use Rattle.witness_books.specs.Starts.{base_at, handed, start_fault_number};

use crate::route::has_key;
use authenticator::{Checked, Member, Roster};
use node_book::{Base, Book, state_kind};
use std::alloc::{AllocError, Global};
use std::sync::Arc;
use thiserror::Error;

/// Why a witness doesn't begin with a roster and bases.
#[derive(Clone, Copy, Debug, PartialEq, Eq, Error)]
pub enum StartFault {
    /// Two bases are of one node.
    #[error("two bases are of one node")]
    TwoBases,
    /// A base is of no member, or the member's root, height, kind or log is another one.
    #[error("a base is not of this roster")]
    OtherRoot,
    /// A growth was refused.
    #[error("out of memory")]
    NoMemory,
}

impl From<AllocError> for StartFault {
    ghost use Rattle.std.specs.Prelude.{◌≡◌};
    ghost use Rattle.witness_books.specs.declared.start.StartFault.TheVariants.{NoMemory};

    ghost from_gives = { λ e f. f ≡ NoMemory };

    fn from(_: AllocError) -> StartFault {
        StartFault::NoMemory
    }
}

impl StartFault {
    /// The number that programs print, from 1 to 3.
    pub fn number(self) -> u32
        ensures { result ≡ start_fault_number self }
    {
        match self {
            StartFault::TwoBases => 1,
            StartFault::OtherRoot => 2,
            StartFault::NoMemory => 3,
        }
    }
}

/// Whether a witness of this roster may begin with these bases.
pub(crate) fn check_start(
    alloc: Global,
    roster: &Roster,
    bases: &[Checked<Base>],
) -> Result<(), StartFault>
    ensures ok { IfOk result (λ _. MayStart roster.now (map (λ c. handed c.value c.member) bases.now)) }
    ensures begins { IfOk result (λ _. IsBeginning (record {
      roster = roster.now;
      bases = map (λ c. known_in c.value) bases.now;
    })) }
    ensures fault { IfErr result
        (StartFails roster.now (map (λ c. handed c.value c.member) bases.now)) }
{
    if !are_apart(bases) {
        return Err(StartFault::TwoBases);
    }
    if !are_of_roster(alloc, roster, bases)? {
        return Err(StartFault::OtherRoot);
    }
    Ok(())
}

/// Whether no two bases are of one node.
fn are_apart(bases: &[Checked<Base>]) -> bool
    ensures { IsTrue result ↔ AreApart (map (λ c. known_in c.value) bases.now) }
{
    for place in 0..bases.len() {
        let node = bases[place].value().showing().node();
        if has_node(&bases[place + 1..], node) {
            return false;
        }
    }
    true
}

/// Whether one of these bases is of a node.
fn has_node(bases: &[Checked<Base>], node: u32) -> bool
    ensures { result ≡ list_any (λ b. node == node_of b) (map (λ c. known_in c.value) bases.now) }
{
    for base in bases {
        if base.value().showing().node() == node {
            return true;
        }
    }
    false
}

/// Whether each base is of a roster. `AllocError` comes only where a growth was refused.
fn are_of_roster(
    alloc: Global,
    roster: &Roster,
    bases: &[Checked<Base>],
) -> Result<bool, AllocError>
    ensures of { IfOk result (λ b. IsTrue b ↔
        AreOfRoster roster.now (map (λ c. handed c.value c.member) bases.now)) }
    ensures known { IfOk result (λ b. IsTrue b →
        AllByRecursion (IsOfSome roster.now) (map (λ c. known_in c.value) bases.now)) }
{
    for base in bases {
        if !is_of_roster(alloc, roster, base)? {
            return Ok(false);
        }
    }
    Ok(true)
}

/// Whether a base is of a roster; then it is good under it. `AllocError` comes only where a growth was
/// refused.
fn is_of_roster(alloc: Global, roster: &Roster, base: &Checked<Base>) -> Result<bool, AllocError>
    ensures of { IfOk result (λ b. IsTrue b ↔
        IsOfRoster roster.now (handed base.now.value base.now.member)) }
    ensures known { IfOk result (λ b. IsTrue b → IsOfSome roster.now (known_in base.now.value)) }
{
    let value = base.value();
    value.is_sound();
    let Some(member) = roster.member(value.showing().node()) else {
        return Ok(false);
    };
    Ok(has_key(&member, base.member()) && is_base_of(alloc, value, &member)?)
}

/// Whether a base is of the version of a member's log, and its state of the member's kind. The state is read
/// for it, and let go. `AllocError` comes only where a growth was refused.
fn is_base_of(alloc: Global, base: &Base, member: &Member) -> Result<bool, AllocError>
    ensures { IfOk result (λ b. IsTrue b ↔
        IsBaseOf (parts_of base.now) base.now.state member.now) }
{
    let state = base.state().state(alloc)?;
    Ok(base.log_version() == member.log_version && state_kind(&state) == member.kind)
}

/// The bases alone, to be shared. `AllocError` comes only where a growth was refused.
pub(crate) fn share_bases(
    alloc: Global,
    bases: Vec<Checked<Base>>,
) -> Result<Vec<Arc<Base>>, AllocError>
    ensures { IfOk result (λ shared. bases_in shared.items ≡ map (λ c. known_in c.value) bases.items) }
{
    let mut shared = Vec::with_capacity(alloc, bases.len())?;
    let mut rest = bases.into_iter();
    'bases: while let Some(base) = rest.next() {
        match Arc::new(alloc, base.into_value()) {
            Ok(base) => shared.push(base)?,
            Err(_) => return Err(AllocError),
        }
    }
    Ok(shared)
}

/// The books of a roster's members before any step, each from its base if it has one among these.
/// `AllocError` comes only where a growth was refused, or where owners can't be counted further.
pub(crate) fn books_at_first(
    alloc: Global,
    roster: &Roster,
    bases: &[Arc<Base>],
) -> Result<Vec<Book>, AllocError>
    requires { IsBeginning (beginning_in roster.now bases.now) }
    ensures books { IfOk result (λ b. b.items ≡ books_at_first (beginning_in roster.now bases.now)) }
    ensures roster { IfOk result (λ _. IsRoster roster.now) }
{
    roster.is_roster();
    starting_each(alloc, roster.members(), bases)
}

/// The books of members before any step, each from its base if it has one among these. `AllocError` comes
/// only where a growth was refused, or where owners can't be counted further.
fn starting_each(
    alloc: Global,
    members: &[Member],
    bases: &[Arc<Base>],
) -> Result<Vec<Book>, AllocError>
    requires { All (λ m. BaseIsOfLog (base_at (bases_in bases.now) m.node) m.log_version) members.now }
    ensures { IfOk result (λ b. b.items ≡
        map (λ m. book_starting m (base_at (bases_in bases.now) m.node)) members.now) }
{
    let mut books = Vec::with_capacity(alloc, members.len())?;
    for member in members {
        let base = base_for(bases, member.node)?;
        books.push(Book::starting(alloc, member, base)?)?;
    }
    Ok(books)
}

/// The base of a node among these, with one owner more. `AllocError` comes only where owners can't be counted
/// further.
fn base_for(bases: &[Arc<Base>], node: u32) -> Result<Option<Arc<Base>>, AllocError>
    ensures { IfOk result (λ base. base_in base ≡ base_at (bases_in bases.now) node) }
{
    for place in 0..bases.len() {
        if bases[place].showing().node() == node {
            return Ok(Some(Arc::try_clone(&bases[place])?));
        }
    }
    Ok(None)
}
