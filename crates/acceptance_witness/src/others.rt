//! Node 5's own steps in one thread, alone and with events of others among them: forgeries, forks,
//! floods past each limit, a late filing and repeated forwards. They are answered as they should,
//! and the same, line by line.

use crate::answers::{Answer, ran};
use crate::begun_jobs::job_of;
use crate::crowd::{ALL_OTHERS, BEFORE_EACH, Crowd, all_crowd, noise};
use crate::members::{OWN_STEPS, Way, books_of, delivered, own};
use crate::running::{answers_of_run, hand, is_at, noted};
use std::alloc::Global;
use std::ops::Range;
use witness_books::ReplayDone;
use witness_service::{Books, Event, EventOf, Indication, Note, Refusal};

/// What node 5's own steps are answered, in order.
const OWED: [Answer; OWN_STEPS] = [
    Answer::Noted,
    Answer::Noted,
    Answer::Already,
    Answer::Told(Indication::Trusted),
    Answer::Asked(1, 2),
    Answer::Told(Indication::Suspected),
    Answer::OpenList(1),
    Answer::Accepted,
    Answer::Told(Indication::Trusted),
    Answer::Job(1),
    Answer::Empty,
    Answer::EvidenceIs(false),
    Answer::Told(Indication::Trusted),
];

/// What others are answered at least once: limits are reached, node 1's log is filed and
/// forwarded, node 6 is exposed.
const REACHED: [Answer; 6] = [
    Answer::Refused(Refusal::BadSignature),
    Answer::Refused(Refusal::LearnedFull),
    Answer::Refused(Refusal::ChallengesFull),
    Answer::Filed,
    Answer::Forwarded(2, 1),
    Answer::Told(Indication::Exposed),
];

/// Before this step of node 5 a replay is filed.
const LATE: usize = 7;

/// What books answer: node 5's own steps, with a note of each, and all others.
#[derive(Drop)]
struct Answered {
    own: Vec<Answer>,
    lines: Vec<Note>,
    others: Vec<Answer>,
}

/// Hands an event to a run, if there is one.
fn hand_some(events: &mut Vec<Event>, event: Option<Event>) {
    if let Some(event) = event {
        hand(events, event);
    }
}

/// So many events of others, from a count on.
fn events_of_others(alloc: Global, crowd: &Crowd, from: usize, count: usize) -> Vec<Event> {
    let mut events = Vec::new(alloc);
    for place in 0..count {
        hand_some(&mut events, noise(alloc, crowd, from.saturating_add(place)));
    }
    events
}

/// Runs events of others, and keeps what they are answered.
fn run_others(alloc: Global, books: &mut Books, events: Vec<Event>, answered: &mut Answered) {
    let answers = answers_of_run(alloc, books, events);
    let _ = answered.others.extend_from_slice(&answers);
}

/// Keeps the first of two, if they are there. Their type is a parameter, so that the proof knows nothing of
/// what they own.
fn keep_first<T: Drop>(kept: &mut Vec<T>, pair: Option<(T, T)>) {
    if let Some((first, _)) = pair {
        let _ = kept.push(first);
    }
}

/// Makes a step of node 5's own, and keeps what it is answered.
fn step_own(alloc: Global, books: &mut Books, event: Event, answered: &mut Answered) {
    let (answer, notes) = noted(alloc, books, event);
    let _ = answered.own.push(answer);
    keep_first(&mut answered.lines, notes);
}

/// Makes node 5's steps with these places, each after so many events of others.
fn make_steps(
    alloc: Global,
    books: &mut Books,
    crowd: &Crowd,
    others: usize,
    steps: Range<usize>,
    answered: &mut Answered,
) {
    for step in steps {
        let events = events_of_others(alloc, crowd, step.saturating_mul(others), others);
        run_others(alloc, books, events, answered);
        if let Some(event) = own(alloc, &crowd.handed, Way::Delivered, step) {
            step_own(alloc, books, event, answered);
        }
    }
}

/// Files a replay of node 1, after a fork exposed it.
fn file_late(
    alloc: Global,
    books: &mut Books,
    crowd: &Crowd,
    late: ReplayDone,
    answered: &mut Answered,
) {
    let mut events = Vec::new(alloc);
    hand_some(&mut events, delivered(alloc, &crowd.fork));
    hand(&mut events, EventOf::File(late));
    run_others(alloc, books, events, answered);
}

/// What books answer where so many events of others come before each step of node 5,
/// and a replay is filed late.
fn answered_by(
    alloc: Global,
    books: &mut Books,
    crowd: &Crowd,
    others: usize,
    late: Option<ReplayDone>,
) -> Answered {
    let mut answered = Answered {
        own: Vec::new(alloc),
        lines: Vec::new(alloc),
        others: Vec::new(alloc),
    };
    make_steps(alloc, books, crowd, others, 0..LATE, &mut answered);
    if let Some(late) = late {
        file_late(alloc, books, crowd, late, &mut answered);
    }
    make_steps(alloc, books, crowd, others, LATE..OWN_STEPS, &mut answered);
    answered
}

/// New books of the roster.
fn new_books(alloc: Global, crowd: &Crowd) -> Option<Books> {
    books_of(alloc, crowd.handed.roster.try_clone(alloc).ok())
}

/// A replay of node 1's log that was done for other books of the roster.
fn done_elsewhere(alloc: Global, crowd: &Crowd) -> Option<ReplayDone> {
    let mut books = new_books(alloc, crowd)?;
    match job_of(alloc, &mut books, 1, &crowd.server) {
        Some(job) => ran(job.run(alloc)),
        None => None,
    }
}

/// What new books answer to node 5's steps alone.
fn answered_alone(alloc: Global, crowd: &Crowd) -> Option<Answered> {
    match new_books(alloc, crowd) {
        Some(mut books) => Some(answered_by(alloc, &mut books, crowd, 0, None)),
        None => None,
    }
}

/// What new books answer with all events of others among them.
fn answered_in_crowd(alloc: Global, crowd: &Crowd) -> Option<Answered> {
    match new_books(alloc, crowd) {
        Some(mut books) => {
            let late = done_elsewhere(alloc, crowd);
            Some(answered_by(alloc, &mut books, crowd, BEFORE_EACH, late))
        }
        None => None,
    }
}

/// Whether node 5's own steps are answered as they should.
fn are_owed(answers: &[Answer]) -> bool {
    let mut place = 0usize;
    for owed in OWED {
        if !is_at(answers, place, owed) {
            return false;
        }
        place = place.saturating_add(1);
    }
    true
}

/// Whether each step of node 5's own has a line, and the same.
fn same_lines(one: &[Note], other: &[Note]) -> bool {
    if one.len() != OWN_STEPS || other.len() != OWN_STEPS {
        return false;
    }
    for line in 0..OWN_STEPS {
        if !one[line].is_same(&other[line]) {
            return false;
        }
    }
    true
}

/// Whether this is among answers.
fn has(answers: &[Answer], wanted: Answer) -> bool {
    for answer in answers {
        if answer.is_same(wanted) {
            return true;
        }
    }
    false
}

/// Whether others are answered all that they should be.
fn are_reached(answers: &[Answer]) -> bool {
    for wanted in REACHED {
        if !has(answers, wanted) {
            return false;
        }
    }
    true
}

/// Whether both are answered the same, and as they should; in the crowd with two events more of
/// others, a fork and a filing.
fn agree(alone: &Answered, crowded: &Answered) -> bool {
    are_owed(&alone.own)
        && are_owed(&crowded.own)
        && same_lines(&alone.lines, &crowded.lines)
        && alone.others.is_empty()
        && crowded.others.len() == ALL_OTHERS + 2
        && are_reached(&crowded.others)
}

/// The same of packets that are made first.
fn others_change_nothing(alloc: Global) -> bool {
    let Some(crowd) = all_crowd(alloc) else {
        return false;
    };
    match (
        answered_alone(alloc, &crowd),
        answered_in_crowd(alloc, &crowd),
    ) {
        (Some(alone), Some(crowded)) => agree(&alone, &crowded),
        _ => false,
    }
}

#[test]
fn others_change_no_answer(rt: HostRuntime) {
    assert!(rt; others_change_nothing(rt.alloc()));
}
