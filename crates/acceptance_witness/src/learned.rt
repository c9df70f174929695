//! Authenticators that are learned: again, to the full, and of another hash.

use crate::answers::{Answer, answers, learns, refuses, tells};
use crate::members::{Parties, new_parties};
use acceptance_helpers::signed;
use authenticator::Number;
use std::alloc::Global;
use witness_service::{EventOf, Indication, Refusal};

/// Whether node 1's authenticator of a number and a hash, bytes all the same, is answered so.
fn learns_at(alloc: Global, parties: &mut Parties, number: u32, byte: u8, answer: Answer) -> bool {
    match signed(
        &mut parties.server,
        1,
        Number::new(number as u64),
        [byte; 32],
    ) {
        Some(authenticator) => learns(alloc, &mut parties.books, &authenticator, answer),
        None => false,
    }
}

/// Whether 256 are noted.
fn fills(alloc: Global, parties: &mut Parties) -> bool {
    for number in 1..257 {
        if !learns_at(alloc, parties, number, 1, Answer::Noted) {
            return false;
        }
    }
    true
}

/// Whether no more are, but one that is kept is known.
fn is_full(alloc: Global, parties: &mut Parties) -> bool {
    learns_at(
        alloc,
        parties,
        257,
        1,
        Answer::Refused(Refusal::LearnedFull),
    ) && learns_at(alloc, parties, 256, 1, Answer::Already)
        && tells(alloc, &mut parties.books, 1, Indication::Trusted)
}

/// Whether another hash at a number of theirs exposes the node, and all that it signs is noted from then on.
fn is_exposed(alloc: Global, parties: &mut Parties) -> bool {
    learns_at(alloc, parties, 5, 2, Answer::Noted)
        && tells(alloc, &mut parties.books, 1, Indication::Exposed)
        && learns_at(alloc, parties, 257, 1, Answer::Noted)
        && learns_at(alloc, parties, 256, 1, Answer::Noted)
}

/// Whether 256 are kept and no more.
fn keeps_256(alloc: Global) -> bool {
    match new_parties(alloc, 9) {
        Some(mut parties) => {
            fills(alloc, &mut parties)
                && is_full(alloc, &mut parties)
                && is_exposed(alloc, &mut parties)
        }
        None => false,
    }
}

/// Whether an audit is refused so.
fn refuses_audit(alloc: Global, parties: &mut Parties, refusal: Refusal) -> bool {
    refuses(alloc, &mut parties.books, EventOf::Audit(1), refusal)
}

/// Whether numbers past reach aren't asked for.
fn is_too_far(alloc: Global, parties: &mut Parties) -> bool {
    refuses_audit(alloc, parties, Refusal::NothingToAudit)
        && learns_at(alloc, parties, 4097, 1, Answer::Noted)
        && refuses_audit(alloc, parties, Refusal::TooFar)
}

/// Whether of the next 4,096 after the end the greatest is asked for, once.
fn is_asked(alloc: Global, parties: &mut Parties) -> bool {
    let asked = Answer::Asked(1, 4096);
    learns_at(alloc, parties, 4096, 1, Answer::Noted)
        && answers(alloc, &mut parties.books, EventOf::Audit(1), asked)
        && refuses_audit(alloc, parties, Refusal::Busy)
        && refuses(
            alloc,
            &mut parties.books,
            EventOf::Begin(1),
            Refusal::NothingToAudit,
        )
}

/// Whether both go so at new books.
fn asks_in_reach(alloc: Global) -> bool {
    match new_parties(alloc, 1) {
        Some(mut parties) => is_too_far(alloc, &mut parties) && is_asked(alloc, &mut parties),
        None => false,
    }
}

#[test]
fn learned_numbers_are_kept_and_asked_for(rt: HostRuntime) {
    assert!(rt; keeps_256(rt.alloc()));
    assert!(rt; asks_in_reach(rt.alloc()));
}
