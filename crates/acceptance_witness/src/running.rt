//! Events in a row, and a step with notes.

use crate::answers::{Answer, answer_of, spend};
use crate::members::new_parties;
use std::alloc::Global;
use witness_service::{Books, Event, EventOf, Indication, Note, Question, Refusal, Reply, run};

/// Events that came back are spent, and nothing is told.
fn spend_all(alloc: Global, events: Vec<Event>) -> Vec<Answer> {
    let mut rest = events.into_iter();
    'events: while let Some(event) = rest.next() {
        spend(event);
    }
    rest.destroy_empty();
    Vec::new(alloc)
}

/// What replies say, in order. They are spent.
fn told(alloc: Global, replies: Vec<Reply>) -> Vec<Answer> {
    let mut answers = Vec::new(alloc);
    let mut rest = replies.into_iter();
    'replies: while let Some(reply) = rest.next() {
        let _ = answers.push(answer_of(reply));
    }
    rest.destroy_empty();
    answers
}

/// What a run of events is answered, in order; nothing where memory is refused.
pub fn answers_of_run(alloc: Global, books: &mut Books, events: Vec<Event>) -> Vec<Answer> {
    match run(alloc, books, events) {
        Ok(replies) => told(alloc, replies),
        Err(events) => spend_all(alloc, events),
    }
}

/// Whether the answer with a place is this.
pub fn is_at(answers: &[Answer], place: usize, owed: Answer) -> bool {
    match answers.get(place) {
        Some(answer) => answer.is_same(owed),
        None => false,
    }
}

/// Hands an event to a run, if there is memory.
pub fn hand(events: &mut Vec<Event>, event: Event) {
    if let Err(refused) = events.push(event) {
        spend(refused.value);
    }
}

/// Whether a question for the server's indication and an audit of it are answered in a run.
fn runs(alloc: Global, books: &mut Books) -> bool {
    let mut events = Vec::new(alloc);
    hand(&mut events, EventOf::Ask(1, Question::Indication));
    hand(&mut events, EventOf::Audit(1));
    let answers = answers_of_run(alloc, books, events);
    is_at(&answers, 0, Answer::Told(Indication::Trusted))
        && is_at(&answers, 1, Answer::Refused(Refusal::NothingToAudit))
        && answers.len() == 2
}

/// What an event is answered, and two notes of both, if memory suffices.
pub fn noted(alloc: Global, books: &mut Books, event: Event) -> (Answer, Option<(Note, Note)>) {
    let (reply, notes) = books.noted_step(alloc, event);
    (answer_of(reply), notes)
}

/// Whether two notes say the same.
fn are_same(one: &Note, other: &Note) -> bool {
    one.is_same(other)
}

/// Whether there are two notes that say the same.
fn are_two(notes: &Option<(Note, Note)>) -> bool {
    match notes {
        Some((one, other)) => are_same(one, other),
        None => false,
    }
}

/// Whether a step gives two notes, of the event and the reply that it gives.
fn notes(alloc: Global, books: &mut Books) -> bool {
    let (answer, notes) = noted(alloc, books, EventOf::Audit(1));
    are_two(&notes) && answer.is_same(Answer::Refused(Refusal::NothingToAudit))
}

/// Whether new books run events, and give notes of a step.
fn new_books_run(alloc: Global) -> bool {
    match new_parties(alloc, 1) {
        Some(mut parties) => { runs(alloc, &mut parties.books) && notes(alloc, &mut parties.books) }
        None => false,
    }
}

#[test]
fn events_run_in_a_row_and_steps_are_noted(rt: HostRuntime) {
    assert!(rt; new_books_run(rt.alloc()));
}
