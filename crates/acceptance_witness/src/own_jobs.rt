//! Jobs of two books of one roster: each takes its own back, and no other's.

use crate::answers::{Answer, answers, begun, done, end, is_given, refuses};
use crate::logs::{closing_at, reads_clock};
use crate::members::{Parties, new_parties, pair_books};
use authenticator::{Authenticator, LogVersion};
use secure_log::Log;
use std::alloc::Global;
use witness_books::ReplayDone;
use witness_service::{Books, EventOf, Refusal, ReplyOf};

/// Whether the first job is put back, and another can't begin before.
fn puts_back(alloc: Global, books: &mut Books) -> bool {
    match begun(alloc, books, 2) {
        Some(job) => {
            let is_busy = refuses(alloc, books, EventOf::Begin(2), Refusal::Busy);
            let is_first = job.plain().number() == 1;
            answers(alloc, books, EventOf::PutBack(job), Answer::Returned) && is_first && is_busy
        }
        None => false,
    }
}

/// The done value of a job of other books, if these refuse it as wrong.
fn refused(alloc: Global, books: &mut Books, other: ReplayDone) -> Option<ReplayDone> {
    match books.step(alloc, EventOf::File(other)) {
        ReplyOf::FileRefused(Refusal::WrongJob, done) => Some(done),
        reply => match end(reply) {
            () => None,
        },
    }
}

/// Whether a done value, the job's number being this, is filed.
fn is_filed(alloc: Global, books: &mut Books, done: ReplayDone, number: u64) -> bool {
    let is_right = done.plain().job().number() == number;
    answers(alloc, books, EventOf::File(done), Answer::Filed) && is_right
}

/// Whether the first job of other books comes back from these, and goes there.
fn goes_home(alloc: Global, books: &mut Books, others: &mut Books) -> bool {
    match done(alloc, others, 2) {
        Some(first) => match refused(alloc, books, first) {
            Some(first) => is_filed(alloc, others, first, 1),
            None => false,
        },
        None => false,
    }
}

/// Whether the second job of these books is out while the other's first comes, and is filed after it.
fn files_own(alloc: Global, books: &mut Books, others: &mut Books) -> bool {
    match done(alloc, books, 2) {
        Some(second) => {
            let home = goes_home(alloc, books, others);
            is_filed(alloc, books, second, 2) && home
        }
        None => false,
    }
}

/// Whether a job is refused where none is out.
fn refuses_job(alloc: Global, books: &mut Books, others: &mut Books) -> bool {
    match begun(alloc, others, 2) {
        Some(job) => {
            let refused = Answer::PutBackRefused(Refusal::NoJob, 1);
            answers(alloc, books, EventOf::PutBack(job), refused)
        }
        None => false,
    }
}

/// Whether each of two books takes back its own jobs alone.
fn take_own(alloc: Global, books: &mut Books, others: &mut Books) -> bool {
    puts_back(alloc, books) && files_own(alloc, books, others)
}

/// What is tried with two books.
#[derive(Clone, Copy)]
enum Trial {
    TakeOwn,
    RefuseOther,
}

/// Whether it goes as it should; the second books are given the log's segment.
fn goes_well(
    alloc: Global,
    trial: Trial,
    books: &mut Books,
    others: &mut Books,
    log: &Log,
    closing: &Authenticator,
) -> bool {
    is_given(alloc, others, log, 1, closing)
        && match trial {
            Trial::TakeOwn => {
                is_given(alloc, books, log, 1, closing) && take_own(alloc, books, others)
            }
            Trial::RefuseOther => refuses_job(alloc, books, others),
        }
}

/// The same of other books of the same members.
fn goes_well_with_others(
    alloc: Global,
    trial: Trial,
    parties: &mut Parties,
    log: &Log,
    closing: &Authenticator,
) -> bool {
    match pair_books(alloc, parties.server.root(), parties.client.root(), 1) {
        Some(mut others) => {
            goes_well(alloc, trial, &mut parties.books, &mut others, log, closing)
        }
        None => false,
    }
}

/// The same of the client's log of one entry.
fn goes_well_of_one(alloc: Global, trial: Trial, parties: &mut Parties, log: &Log) -> bool {
    match closing_at(log, &mut parties.client, 1) {
        Some(closing) => goes_well_with_others(alloc, trial, parties, log, &closing),
        None => false,
    }
}

/// The same of new books.
fn goes_well_anew(alloc: Global, trial: Trial) -> bool {
    let mut log = Log::new(alloc, 2, LogVersion::One);
    match new_parties(alloc, 1) {
        Some(mut parties) => {
            reads_clock(&mut log, 1) && goes_well_of_one(alloc, trial, &mut parties, &log)
        }
        None => false,
    }
}

#[test]
fn books_take_back_their_own_jobs(rt: HostRuntime) {
    assert!(rt; goes_well_anew(rt.alloc(), Trial::TakeOwn));
    assert!(rt; goes_well_anew(rt.alloc(), Trial::RefuseOther));
}
