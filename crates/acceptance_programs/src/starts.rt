//! Books that begin at the base of a server.

use crate::parties::{Parties, SERVER, exchanged_roster, new_parties};
use authenticator::{Checked, Roster};
use challenge::{Base, check_base};
use std::alloc::Global;
use witness_service::{Books, StartFault};

/// The number of the CHECK, after the four entries of the first call.
const AT: u64 = 5;

/// The text of the base of a server that logs a CHECK between two calls.
fn base_text(alloc: Global, both: &mut Parties) -> Option<Vec<u8>> {
    if !both.call(alloc) || both.server.checkpoint(alloc).is_err() || !both.call(alloc) {
        return None;
    }
    both.server.base(alloc, AT).ok()
}

/// So many bases of one text, checked under a roster.
fn bases_of(alloc: Global, roster: &Roster, text: &[u8], count: u32) -> Option<Vec<Checked<Base>>> {
    let mut bases = Vec::new(alloc);
    for _ in 0..count {
        bases.push(check_base(alloc, roster, text).ok()?).ok()?;
    }
    Some(bases)
}

/// Whether books of a roster begin at these bases, one, of the server.
fn begins(alloc: Global, roster: Roster, bases: Vec<Checked<Base>>) -> bool {
    match Books::start(alloc, roster, bases) {
        Ok(books) => match books.bases() {
            [base] => base.at().get() == AT && base.showing().node() == SERVER,
            _ => false,
        },
        Err(_) => false,
    }
}

/// Whether they don't, by this fault.
fn fails(alloc: Global, roster: Roster, bases: Vec<Checked<Base>>, wanted: StartFault) -> bool {
    match Books::start(alloc, roster, bases) {
        Ok(_) => false,
        Err(fault) => fault == wanted,
    }
}

/// Whether books begin at the base of a server, which is none of another roster; two of one node are too
/// many, whatever the roster.
fn are_started(alloc: Global, both: &mut Parties) -> Option<bool> {
    let text = base_text(alloc, both)?;
    let one = bases_of(alloc, &both.roster, &text, 1)?;
    let other = bases_of(alloc, &both.roster, &text, 1)?;
    let two = bases_of(alloc, &both.roster, &text, 2)?;
    let own = both.roster.try_clone(alloc).ok()?;
    let another = exchanged_roster(alloc)?;
    let third = exchanged_roster(alloc)?;
    Some(
        begins(alloc, own, one)
            && fails(alloc, another, other, StartFault::OtherRoot)
            && fails(alloc, third, two, StartFault::TwoBases),
    )
}

#[test]
fn books_begin_at_bases(rt: HostRuntime) {
    let alloc = rt.alloc();
    let started = match new_parties(alloc) {
        Some(mut both) => are_started(alloc, &mut both),
        None => None,
    };
    assert!(rt; started == Some(true));
}
