//! Jobs of nodes.

use crate::answers::end;
use crate::members::{Shown, books_of, delivered, roster, shown_by};
use std::alloc::Global;
use witness_books::ReplayJob;
use witness_service::{Books, Event, EventOf, ReplyOf};

/// Hands over bytes.
fn hand(alloc: Global, books: &mut Books, bytes: &[u8]) {
    if let Some(event) = delivered(alloc, bytes) {
        end(books.step(alloc, event));
    }
}

/// The job of a node, whose segment is asked for and given.
pub fn job_of(alloc: Global, books: &mut Books, node: u8, shown: &Shown) -> Option<ReplayJob> {
    hand(alloc, books, &shown.last);
    end(books.step(alloc, EventOf::Audit(node as u32)));
    hand(alloc, books, &shown.answer);
    match books.step(alloc, EventOf::Begin(node as u32)) {
        ReplyOf::Job(job) => Some(job),
        reply => match end(reply) {
            () => None,
        },
    }
}

/// The same of what the node hands over.
fn job_by(alloc: Global, books: &mut Books, node: u8) -> Option<ReplayJob> {
    match shown_by(alloc, node) {
        Some(shown) => job_of(alloc, books, node, &shown),
        None => None,
    }
}

/// Adds the job of a node, if there is one and room for it.
fn add_job(alloc: Global, books: &mut Books, node: u8, jobs: &mut Vec<ReplayJob>) {
    if jobs.reserve(1).is_err() {
        return;
    }
    match job_by(alloc, books, node) {
        Some(job) => jobs.push_reserved(job),
        None => {}
    }
}

/// Adds the job of each of these nodes, in their order.
fn add_jobs(alloc: Global, books: &mut Books, nodes: &[u8], jobs: &mut Vec<ReplayJob>) {
    for node in nodes {
        add_job(alloc, books, *node, jobs);
    }
}

/// The job of each of these nodes, in their order, as far as there is one and room for it.
pub fn jobs_of(alloc: Global, nodes: &[u8]) -> Vec<ReplayJob> {
    let mut jobs = Vec::new(alloc);
    match books_of(alloc, roster(alloc)) {
        Some(mut books) => add_jobs(alloc, &mut books, nodes, &mut jobs),
        None => {}
    }
    jobs
}

/// Spends jobs that came back.
pub fn spend_jobs(mut jobs: Vec<ReplayJob>) {
    while let Some(job) = jobs.pop() {
        job.discard();
    }
    jobs.destroy_empty();
}
