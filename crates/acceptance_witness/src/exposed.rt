//! What an exposed member's book still does: a late replay clears nobody, and the first evidence stays.

use crate::answers::{
    Answer, Found, answers, are_open, audited, challenges, done, evidence, files, is_asked,
    is_given_to, learns, refuses, tells,
};
use crate::logs::{
    closing_at, message, message_text, reads_clock, reads_clocks, receives, segment_text,
};
use crate::members::{Parties, new_parties};
use acceptance_helpers::signed;
use authenticator::{Authenticator, LogVersion, Number, Word};
use challenge::Evidence;
use envelopes::Envelope;
use merkle_keys::Signer;
use secure_log::Log;
use secure_log::log_entries::Body;
use std::alloc::Global;
use std::sync::Arc;
use witness_books::ReplayDone;
use witness_service::{Books, EventOf, Indication, Refusal};

/// Whether the client is exposed.
fn is_exposed(alloc: Global, books: &mut Books) -> bool {
    tells(alloc, books, 2, Indication::Exposed)
}

/// Whether another hash of the client's at 2 is noted, and exposes it.
fn forks(alloc: Global, books: &mut Books, client: &mut Signer) -> bool {
    match signed(client, 2, Number::new(2), [9; 32]) {
        Some(other) => { learns(alloc, books, &other, Answer::Noted) && is_exposed(alloc, books) }
        None => false,
    }
}

/// Whether the evidence against the client is this still.
fn is_still(alloc: Global, books: &mut Books, first: &Evidence) -> bool {
    match evidence(alloc, books, 2) {
        Some(now) => now.is_same(first),
        None => false,
    }
}

/// Whether the first evidence stays, and nothing is left to audit.
fn stays(alloc: Global, books: &mut Books, first: Option<Arc<Evidence>>) -> bool {
    match first {
        Some(first) => {
            is_exposed(alloc, books)
                && is_still(alloc, books, &first)
                && refuses(alloc, books, EventOf::Audit(2), Refusal::NothingToAudit)
        }
        None => false,
    }
}

/// Whether the client stays exposed where a sound replay is filed.
fn stays_after(alloc: Global, books: &mut Books, done: ReplayDone) -> bool {
    let first = evidence(alloc, books, 2);
    files(alloc, books, done, Found::Sound(0)) && stays(alloc, books, first)
}

/// Whether a fork that is learned while a replay is out exposes the client, and the replay doesn't clear it.
fn is_late(alloc: Global, books: &mut Books, client: &mut Signer) -> bool {
    match done(alloc, books, 2) {
        Some(done) => {
            let is_forked = forks(alloc, books, client);
            stays_after(alloc, books, done) && is_forked
        }
        None => false,
    }
}

/// The same of the client's log of two readings of its clock.
fn a_late_replay_clears_nobody(alloc: Global, parties: &mut Parties) -> bool {
    let mut log = Log::new(alloc, 2, LogVersion::One);
    reads_clocks(&mut log, 2)
        && is_given_to(alloc, &mut parties.books, &log, &mut parties.client, 1, 2)
        && is_late(alloc, &mut parties.books, &mut parties.client)
}

/// Whether a challenge with a message is opened in the exposed book, and the answer of the audit closes it.
fn answer_closes(alloc: Global, books: &mut Books, message: &[u8], answer: &[u8]) -> bool {
    challenges(alloc, books, message, Answer::Opened)
        && are_open(alloc, books, 2, 2)
        && audited(alloc, books, answer, Answer::Accepted)
        && are_open(alloc, books, 2, 0)
        && is_exposed(alloc, books)
}

/// Whether the given segment isn't begun, nor another asked for, and what is shown is noted.
fn is_never_begun(alloc: Global, books: &mut Books, closing: &Authenticator) -> bool {
    refuses(alloc, books, EventOf::Audit(2), Refusal::Busy)
        && refuses(alloc, books, EventOf::Begin(2), Refusal::NothingToAudit)
        && learns(alloc, books, closing, Answer::Noted)
        && is_exposed(alloc, books)
}

/// Whether the book goes on so where the client forks while it is asked for its log.
fn goes_on(
    alloc: Global,
    parties: &mut Parties,
    closing: &Authenticator,
    message: &[u8],
    answer: &[u8],
) -> bool {
    let books = &mut parties.books;
    is_asked(alloc, books, 1, closing)
        && forks(alloc, books, &mut parties.client)
        && answer_closes(alloc, books, message, answer)
        && is_never_begun(alloc, books, closing)
}

/// The same of its log's text, closed by this authenticator.
fn goes_on_closed(
    alloc: Global,
    parties: &mut Parties,
    log: &Log,
    closing: &Authenticator,
    message: &[u8],
) -> bool {
    match segment_text(alloc, log, 1, closing) {
        Some(answer) => goes_on(alloc, parties, closing, message, &answer),
        None => false,
    }
}

/// The same of a log that the client signs.
fn goes_on_signed(alloc: Global, parties: &mut Parties, log: &Log, message: &[u8]) -> bool {
    match closing_at(log, &mut parties.client, 2) {
        Some(closing) => goes_on_closed(alloc, parties, log, &closing, message),
        None => false,
    }
}

/// The server's empty message to the client.
fn empty_message(alloc: Global, server: &mut Signer) -> Option<Envelope> {
    message(server, 1, 2, Word::new(1), Body::new(Vec::new(alloc)))
}

/// The text of a message, if there is one.
fn text_of(alloc: Global, message: &Option<Envelope>) -> Option<Vec<u8>> {
    match message {
        Some(message) => message_text(alloc, message),
        None => None,
    }
}

/// The same of its log of a message of the server and a reading of its clock.
fn an_exposed_book_goes_on(alloc: Global, parties: &mut Parties) -> bool {
    let message = empty_message(alloc, &mut parties.server);
    let mut log = Log::new(alloc, 2, LogVersion::One);
    match text_of(alloc, &message) {
        Some(text) => {
            receives(&mut log, message)
                && reads_clock(&mut log, 1)
                && goes_on_signed(alloc, parties, &log, &text)
        }
        None => false,
    }
}

/// What is tried with new books.
#[derive(Clone, Copy)]
enum Trial {
    LateReplay,
    GoesOn,
}

/// Whether it goes as it should.
fn goes_well_with(alloc: Global, trial: Trial, parties: &mut Parties) -> bool {
    match trial {
        Trial::LateReplay => a_late_replay_clears_nobody(alloc, parties),
        Trial::GoesOn => an_exposed_book_goes_on(alloc, parties),
    }
}

/// The same of new books.
fn goes_well(alloc: Global, trial: Trial) -> bool {
    match new_parties(alloc, 2) {
        Some(mut parties) => goes_well_with(alloc, trial, &mut parties),
        None => false,
    }
}

#[test]
fn an_exposed_member_stays_exposed(rt: HostRuntime) {
    assert!(rt; goes_well(rt.alloc(), Trial::LateReplay));
    assert!(rt; goes_well(rt.alloc(), Trial::GoesOn));
}
