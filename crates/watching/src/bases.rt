//! The bases from which books began.

ghost use Rattle.std.specs.Prelude.{◌≡◌, IfOk, map, option_map};
ghost use Rattle.xdr.specs.Writing.{Adds};
ghost use Rattle.witness_books.specs.node_book.Rows.{known_in};
ghost use Rattle.witness_books.specs.Books.{bases_in};
ghost use Rattle.witness_books.specs.Starts.{base_at};
ghost use Rattle.witness_spec.specs.Starting.{start_number};
ghost use Rattle.watching.specs.BaseGiving.{base_spelling, based_results, began_from};

use authenticator::Member;
use challenge::Base;
use peer_calls::{BaseAfter, write_base};
use std::alloc::{AllocError, Global};
use std::sync::Arc;
use witness_books::Books;

/// The base of a node among these, if there is one.
fn base_of(bases: &[Arc<Base>], node: u32) -> Option<&Base>
    ensures { option_map (λ b. known_in b.now) result ≡ base_at (bases_in bases.now) node }
{
    for place in 0..bases.len() {
        if bases[place].showing().node() == node {
            let base: &Base = &bases[place];
            return Some(base);
        }
    }
    None
}

/// The number of the base from which the book of a node began, if it began from one.
pub(crate) fn began_from(books: &Books, node: u32) -> Option<u64>
    ensures { result ≡ began_from books.now node }
{
    match base_of(books.bases(), node) {
        Some(base) => Some(base.at().get()),
        None => None,
    }
}

/// Up to where the log of each member counts as audited at first: 0, or the number of its base.
pub(crate) fn first_ends(
    alloc: Global,
    members: &[Member],
    bases: &[Arc<Base>],
) -> Result<Vec<u64>, AllocError>
    ensures { IfOk result (λ v. v.items ≡
        map (λ m. start_number (base_at (bases_in bases.now) m.node)) members.now) }
{
    let mut ends = Vec::with_capacity(alloc, members.len())?;
    for member in members {
        ends.push(first_end(bases, member.node))?;
    }
    Ok(ends)
}

/// Up to where the log of a node counts as audited at first.
fn first_end(bases: &[Arc<Base>], node: u32) -> u64
    ensures { result ≡ start_number (base_at (bases_in bases.now) node) }
{
    match base_of(bases, node) {
        Some(base) => base.at().get(),
        None => 0,
    }
}

/// Appends the base from which the book of a node began, if it began from one at a later number than was asked for.
pub(crate) fn add_based(
    books: &Books,
    alloc: Global,
    asked: &BaseAfter,
    out: &mut Vec<u8>,
) -> Result<(), AllocError>
    ensures { Adds (based_results books.now asked.now.node asked.now.after) out.old.items result out.new.items }
{
    let Some(base) = base_of(books.bases(), asked.node) else {
        return write_base(None, out);
    };
    if base.at().get() <= asked.after {
        return write_base(None, out);
    }
    let text = text_of(alloc, base)?;
    write_base(Some(&text), out)
}

/// The text of a base.
fn text_of(alloc: Global, base: &Base) -> Result<Vec<u8>, AllocError>
    ensures { IfOk result (λ text. text.items ≡ base_spelling (known_in base.now)) }
{
    let said = base.to_text(alloc)?;
    let mut text = Vec::new(alloc);
    said.write(&mut text)?;
    Ok(text)
}
