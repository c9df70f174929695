//! What a witness's books began with: it is kept beside the lock, and compared.

ghost use Rattle.std.specs.Prelude.{◌≡◌, ◌↔◌, IfOk, IsTrue};
ghost use Rattle.witness_books.specs.Books.{bases_in, beginning_in, beginning_of};

use authenticator::{Roster, Signs};
use std::alloc::{AllocError, Global};
use std::sync::Arc;
use witness_books::{Base, Books};

/// These bases, each with one owner more. `AllocError` comes where a growth was refused, or where owners
/// can't be counted further.
pub(crate) fn share(alloc: Global, bases: &[Arc<Base>]) -> Result<Vec<Arc<Base>>, AllocError>
    ensures { IfOk result (λ shared. bases_in shared.items ≡ bases_in bases.now) }
{
    let mut shared = Vec::with_capacity(alloc, bases.len())?;
    for base in bases {
        shared.push(Arc::try_clone(base)?)?;
    }
    Ok(shared)
}

/// Whether books began with this roster and these bases.
pub(crate) fn began_with(books: &Books, roster: &Roster, bases: &[Arc<Base>]) -> bool
    ensures { IsTrue result ↔
        (beginning_of books.now ≡ beginning_in roster.now bases.now) }
{
    books.roster().is_same(roster) && are_same(books.bases(), bases)
}

/// Whether bases are the same, in the same order. It compares bytes, and takes no memory.
fn are_same(own: &[Arc<Base>], other: &[Arc<Base>]) -> bool
    ensures { IsTrue result ↔ (bases_in own.now ≡ bases_in other.now) }
{
    if own.len() != other.len() {
        return false;
    }
    for place in 0..own.len() {
        if !own[place].is_same(&other[place]) {
            return false;
        }
    }
    true
}
