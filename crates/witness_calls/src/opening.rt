//! A witness, opened.

ghost use Rattle.std.specs.Prelude.{◌≡◌, [], All, IfErr, IfOk, map, vec_len};
ghost use Rattle.witness_books.specs.node_book.Rows.{known_in};
ghost use Rattle.witness_books.specs.node_book.witness_spec.Starting.{from_the_first};
ghost use Rattle.witness_books.specs.Books.{beginning_of};
ghost use Rattle.witness_books.specs.Starts.{MayStart, StartFails, handed};

use authenticator::{Checked, Roster};
use challenge::Base;
use std::alloc::{AllocError, Global};
use witness_service::{Books, Pass, StartFault, WitnessService};

/// The service of a new witness of a roster's members, with so many passes. `AllocError` comes
/// where memory was refused.
pub fn open_witness(
    alloc: Global,
    roster: &Roster,
    passes: usize,
) -> Result<(WitnessService, Vec<Pass>), AllocError>
    ensures beginning { IfOk result (λ opened. opened.0.beginning ≡ from_the_first roster.now) }
    ensures count { IfOk result (λ opened. vec_len opened.1 ≡ passes) }
    ensures empty { IfOk result (λ opened. All (λ p. p.claims ≡ []) opened.1.items) }
{
    let Ok(books) = Books::new(alloc, roster.try_clone(alloc)?) else {
        return Err(AllocError);
    };
    match WitnessService::open(alloc, books, passes) {
        Ok(opened) => Ok(opened),
        Err(_) => Err(AllocError),
    }
}

/// The same of a witness that begins with these bases, each of another member; of the members without a base
/// it begins at the first entry. The faults are those of `Books::start`; `NoMemory` comes also where memory
/// was refused for the copy of the roster or for the passes, or where a base's owners can't be counted
/// further. After a fault the bases are let go.
pub fn start_witness(
    alloc: Global,
    roster: &Roster,
    bases: Vec<Checked<Base>>,
    passes: usize,
) -> Result<(WitnessService, Vec<Pass>), StartFault>
    ensures beginning { IfOk result (λ opened. opened.0.beginning ≡ record {
      roster = roster.now;
      bases = map (λ c. known_in c.value) bases.items;
    }) }
    ensures count { IfOk result (λ opened. vec_len opened.1 ≡ passes) }
    ensures empty { IfOk result (λ opened. All (λ p. p.claims ≡ []) opened.1.items) }
    ensures ok { IfOk result
        (λ _. MayStart roster.now (map (λ c. handed c.value c.member) bases.items)) }
    ensures fault { IfErr result
        (StartFails roster.now (map (λ c. handed c.value c.member) bases.items)) }
{
    let books = Books::start(alloc, roster.try_clone(alloc)?, bases)?;
    match WitnessService::open(alloc, books, passes) {
        Ok(opened) => Ok(opened),
        Err(_) => Err(StartFault::NoMemory),
    }
}
