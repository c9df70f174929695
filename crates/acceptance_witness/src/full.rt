//! The limits of a book, each reached and with the refusal past it: the outbox, the audited entries, and the
//! members of a roster. What is learned has its limit in `learned.rt`, challenges in `challenged.rt`.

use crate::answers::{
    Answer, Found, answers, is_asked, is_given_to, learns, refuses, replays, tells,
};
use crate::logs::{answers_call, reads_clocks};
use crate::members::{CLIENT, Parties, books_of, keys, member, new_parties};
use acceptance_helpers::signed;
use authenticator::{Authenticator, LogVersion, Number, Roster};
use merkle_keys::Signer;
use secure_log::Log;
use std::alloc::Global;
use witness_service::{Books, EventOf, Indication, Refusal};

/// Whether an audit of the server that could find 4,096 more waits until what was found is forwarded.
fn waits(alloc: Global, books: &mut Books, far: &Authenticator) -> bool {
    learns(alloc, books, far, Answer::Noted)
        && refuses(alloc, books, EventOf::Audit(1), Refusal::OutboxFull)
        && answers(alloc, books, EventOf::Forward(1), Answer::Forwarded(2, 1))
        && answers(alloc, books, EventOf::Audit(1), Answer::Asked(4, 4099))
}

/// The same of the server's authenticator 4,096 entries past the log of a call.
fn waits_for_outbox(alloc: Global, books: &mut Books, server: &mut Signer) -> bool {
    match signed(server, 1, Number::new(4099), [9; 32]) {
        Some(far) => waits(alloc, books, &far),
        None => false,
    }
}

/// Whether the outbox, in which an audit of a call left an authenticator, has no room for 4,096 more.
fn outbox_is_full(alloc: Global, parties: &mut Parties) -> bool {
    let mut log = Log::new(alloc, 1, LogVersion::One);
    answers_call(alloc, &mut log, &mut parties.client, 1, 0)
        && is_given_to(alloc, &mut parties.books, &log, &mut parties.server, 1, 3)
        && replays(alloc, &mut parties.books, 1, Found::Sound(1))
        && waits_for_outbox(alloc, &mut parties.books, &mut parties.server)
}

/// Whether the client's next 4,096 entries are audited.
fn audits_next(alloc: Global, parties: &mut Parties, log: &Log, first: u32) -> bool {
    let last = first.saturating_add(4095);
    is_given_to(
        alloc,
        &mut parties.books,
        log,
        &mut parties.client,
        first as u64,
        last,
    ) && replays(alloc, &mut parties.books, 2, Found::Sound(0))
}

/// Whether 16 times as many are, which are 65,536.
fn audits_all(alloc: Global, parties: &mut Parties, log: &Log) -> bool {
    let mut first = 1u32;
    for _ in 0..16 {
        if !audits_next(alloc, parties, log, first) {
            return false;
        }
        first = first.saturating_add(4096);
    }
    true
}

/// Whether the client's entry after those isn't asked for.
fn asks_no_more(alloc: Global, parties: &mut Parties) -> bool {
    match signed(&mut parties.client, 2, Number::new(65_537), [9; 32]) {
        Some(far) => {
            learns(alloc, &mut parties.books, &far, Answer::Noted)
                && refuses(
                    alloc,
                    &mut parties.books,
                    EventOf::Audit(2),
                    Refusal::BookFull,
                )
        }
        None => false,
    }
}

/// Whether as many entries of the client are audited as may be, and no more.
fn book_is_full(alloc: Global, parties: &mut Parties) -> bool {
    let mut log = Log::new(alloc, 2, LogVersion::One);
    reads_clocks(&mut log, 65_536)
        && audits_all(alloc, parties, &log)
        && asks_no_more(alloc, parties)
}

/// What is tried with the books of a server and a client.
#[derive(Clone, Copy)]
enum Trial {
    OutboxFull,
    BookFull,
}

/// Whether it goes as it should.
fn goes_well_with(alloc: Global, trial: Trial, parties: &mut Parties) -> bool {
    match trial {
        Trial::OutboxFull => outbox_is_full(alloc, parties),
        Trial::BookFull => book_is_full(alloc, parties),
    }
}

/// The same of new books.
fn goes_well(alloc: Global, trial: Trial) -> bool {
    match new_parties(alloc, 5) {
        Some(mut parties) => goes_well_with(alloc, trial, &mut parties),
        None => false,
    }
}

/// The roster of so many clients from 1 on, which have the same keys.
fn roster(alloc: Global, root: [u8; 32], count: u32) -> Option<Roster> {
    let mut members = Vec::new(alloc);
    for node in 0..count {
        if members
            .push(member(node.saturating_add(1), root, 1))
            .is_err()
        {
            return None;
        }
    }
    Roster::new(members).ok()
}

/// Whether each of 64 nodes has this indication.
fn all_told(alloc: Global, books: &mut Books, indication: Indication) -> bool {
    for node in 1..65 {
        if !tells(alloc, books, node, indication) {
            return false;
        }
    }
    true
}

/// Whether the last of 64 members has a book of its own.
fn last_is_asked(alloc: Global, books: &mut Books, last: &Authenticator) -> bool {
    is_asked(alloc, books, 1, last)
        && tells(alloc, books, 64, Indication::Suspected)
        && tells(alloc, books, 63, Indication::Trusted)
        && refuses(alloc, books, EventOf::Audit(65), Refusal::UnknownNode)
}

/// The same where all are trusted before.
fn all_have_books(alloc: Global, books: &mut Books, signer: &mut Signer) -> bool {
    match signed(signer, 64, Number::new(1), [9; 32]) {
        Some(last) => {
            all_told(alloc, books, Indication::Trusted) && last_is_asked(alloc, books, &last)
        }
        None => false,
    }
}

/// Whether there are books of 64 members, and none of 65.
fn members_are_64(alloc: Global, signer: &mut Signer) -> bool {
    let root = signer.root();
    match books_of(alloc, roster(alloc, root, 64)) {
        Some(mut books) => {
            all_have_books(alloc, &mut books, signer) && roster(alloc, root, 65).is_none()
        }
        None => false,
    }
}

/// The same of new keys.
fn members_go_well(alloc: Global) -> bool {
    match keys(alloc, CLIENT, 1) {
        Some(mut signer) => members_are_64(alloc, &mut signer),
        None => false,
    }
}

#[test]
fn limits_are_reached_and_refused(rt: HostRuntime) {
    assert!(rt; members_go_well(rt.alloc()));
    assert!(rt; goes_well(rt.alloc(), Trial::OutboxFull));
    assert!(rt; goes_well(rt.alloc(), Trial::BookFull));
}
