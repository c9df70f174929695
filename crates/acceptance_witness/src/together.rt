//! Two services, each with three passes in threads of their own. Their lists of events agree on node 5's own
//! steps; one has forgeries, forks, floods past each limit, a late filing and repeated forwards of
//! others among them, the other nothing else. Node 5's replies and its indication are the same, line
//! by line, and both close. And when a service closes at all.

ghost use Rattle.std.specs.Prelude.{};
ghost use Rattle.std.specs.Thread.{IsSync};

use crate::answers::end;
use crate::crowd::{ALL_OTHERS, Crowd, all_crowd, noise};
use crate::members::{Handed, OWN_STEPS, Way, delivered, own, roster};
use authenticator::Roster;
use std::alloc::Global;
use std::sync::Wait;
use std::thread::{Threads, join};
use witness_books::Back;
use witness_service::{
    Books, Closed, EventOf, Indication, Note, Pass, Question, ReceiptFault, Refusal, Reply,
    ReplyOf, WitnessService,
};

/// A service with three passes, before any step.
pub fn opened(alloc: Global, roster: Roster, passes: usize) -> Option<(WitnessService, Vec<Pass>)> {
    match Books::new(alloc, roster) {
        Ok(books) => WitnessService::open(alloc, books, passes).ok(),
        Err(_) => None,
    }
}

/// Makes node 5's own steps.
fn make_own<R: Wait>(
    rt: &R,
    alloc: Global,
    service: &WitnessService,
    handed: &Handed,
    way: Way,
    mut pass: Pass,
) -> Pass {
    for step in 0..OWN_STEPS {
        if let Some(event) = own(alloc, handed, way, step) {
            end(service.step(rt, alloc, &mut pass, event));
        }
    }
    pass
}

/// Files what came back of a job.
fn file<R: Wait>(rt: &R, alloc: Global, service: &WitnessService, back: Back, pass: &mut Pass) {
    match back {
        Back::Done(done) => end(service.step(rt, alloc, pass, EventOf::File(done))),
        Back::Job(job) => job.discard(),
    }
}

/// Ends a reply. A job is run, and filed late: after a fork exposed its node.
fn follow<R: Wait>(
    rt: &R,
    alloc: Global,
    service: &WitnessService,
    crowd: &Crowd,
    reply: Reply,
    pass: &mut Pass,
) {
    match reply {
        ReplyOf::Job(job) => {
            if let Some(event) = delivered(alloc, &crowd.fork) {
                end(service.step(rt, alloc, pass, event));
            }
            file(rt, alloc, service, job.run(alloc), pass);
        }
        reply => end(reply),
    }
}

/// Makes so many steps of others.
fn make_noise<R: Wait>(
    rt: &R,
    alloc: Global,
    service: &WitnessService,
    crowd: &Crowd,
    others: usize,
    mut pass: Pass,
) -> Pass {
    for count in 0..others {
        if let Some(event) = noise(alloc, crowd, count) {
            let reply = service.step(rt, alloc, &mut pass, event);
            follow(rt, alloc, service, crowd, reply, &mut pass);
        }
    }
    pass
}

/// Three threads make their steps: the first node 5's own, the other two so many of others.
fn step_together<R: Threads + Wait + Sync>(
    rt: &R,
    alloc: Global,
    service: &WitnessService,
    crowd: &Crowd,
    way: Way,
    others: usize,
    passes: (Pass, Pass, Pass),
) -> (Pass, (Pass, Pass)) {
    let (one, two, three) = passes;
    join(
        rt,
        || make_own(rt, alloc, service, &crowd.handed, way, one),
        || -> (Pass, Pass)
            requires { IsSync R.row }
        {
            join(
                rt,
                || make_noise(rt, alloc, service, crowd, others, two),
                || make_noise(rt, alloc, service, crowd, others, three),
            )
        },
    )
}

/// Whether a pass is put back.
fn puts_back(passes: &mut Vec<Pass>, pass: Pass) -> bool {
    passes.push(pass).is_ok()
}

/// Whether the three passes are there and make their steps: the first has node 5's own.
fn step_all<R: Threads + Wait + Sync>(
    rt: &R,
    alloc: Global,
    service: &WitnessService,
    crowd: &Crowd,
    way: Way,
    others: usize,
    passes: &mut Vec<Pass>,
) -> bool {
    match (passes.pop(), passes.pop(), passes.pop()) {
        (Some(one), Some(two), Some(three)) => {
            let each = (one, two, three);
            let (one, (two, three)) = step_together(rt, alloc, service, crowd, way, others, each);
            let first = puts_back(passes, one);
            let second = puts_back(passes, two);
            let third = puts_back(passes, three);
            first && second && third
        }
        _ => false,
    }
}

/// A service of the roster with three passes.
fn three_passes(alloc: Global, crowd: &Crowd) -> Option<(WitnessService, Vec<Pass>)> {
    match crowd.handed.roster.try_clone(alloc) {
        Ok(roster) => opened(alloc, roster, 3),
        Err(_) => None,
    }
}

/// The service after all steps, if it closes.
fn closed<R: Threads + Wait + Sync>(
    rt: &R,
    alloc: Global,
    crowd: &Crowd,
    way: Way,
    others: usize,
) -> Option<Closed> {
    match three_passes(alloc, crowd) {
        Some((service, mut passes)) => {
            if step_all(rt, alloc, &service, crowd, way, others, &mut passes) {
                service.close(passes).ok()
            } else {
                None
            }
        }
        None => None,
    }
}

/// Whether node 5's replies are the same, line by line, and all are there.
fn same_lines(one: &Pass, other: &Pass) -> bool {
    let lines = one.receipts();
    let others = other.receipts();
    if lines.len() != OWN_STEPS || others.len() != OWN_STEPS {
        return false;
    }
    for line in 0..OWN_STEPS {
        if !lines[line]
            .note()
            .reply()
            .is_same(others[line].note().reply())
        {
            return false;
        }
    }
    true
}

/// Whether the last line says that the node is trusted.
fn ends_trusted(pass: &Pass) -> bool {
    match pass.receipts().last() {
        Some(receipt) => { matches!(receipt.note().reply(), ReplyOf::Told(Indication::Trusted)) }
        None => false,
    }
}

/// Whether the first passes of both have the same lines.
fn agree(one: &Closed, other: &Closed) -> bool {
    match (one.passes.first(), other.passes.first()) {
        (Some(one), Some(other)) => same_lines(one, other) && ends_trusted(one),
        _ => false,
    }
}

/// Whether a journal has so many places.
fn has_places(closed: &Closed, places: usize) -> bool {
    closed.journal.places().len() == places
}

/// What others are answered at least once: limits are reached, node 1's log is filed and
/// forwarded, node 6 is exposed.
#[derive(Clone, Copy)]
enum Reached {
    Refused(Refusal),
    Filed,
    Forwarded,
    Exposed,
}

const AT_LEAST_ONCE: [Reached; 6] = [
    Reached::Refused(Refusal::BadSignature),
    Reached::Refused(Refusal::LearnedFull),
    Reached::Refused(Refusal::ChallengesFull),
    Reached::Filed,
    Reached::Forwarded,
    Reached::Exposed,
];

/// Whether a reply is this.
fn is_reached(note: &Note, reached: Reached) -> bool {
    match (note.reply(), reached) {
        (ReplyOf::Refused(refusal), Reached::Refused(wanted)) => *refusal == wanted,
        (ReplyOf::Filed, Reached::Filed) => true,
        (ReplyOf::Forwarded(_), Reached::Forwarded) => true,
        (ReplyOf::Told(Indication::Exposed), Reached::Exposed) => true,
        _ => false,
    }
}

/// Whether a reply in a journal is.
fn has_reached(closed: &Closed, reached: Reached) -> bool {
    for note in closed.journal.places() {
        if is_reached(note, reached) {
            return true;
        }
    }
    false
}

/// Whether all of them are reached.
fn are_reached(closed: &Closed) -> bool {
    for reached in AT_LEAST_ONCE {
        if !has_reached(closed, reached) {
            return false;
        }
    }
    true
}

/// Whether a service with node 5's steps alone and one with steps of others agree on node 5.
fn both_agree(one: &Closed, other: &Closed) -> bool {
    agree(one, other)
        && has_places(one, OWN_STEPS)
        && has_places(other, OWN_STEPS + 2 * ALL_OTHERS + 2)
        && are_reached(other)
}

/// Whether a function holds of two values, where both are there. Their type is a parameter, so that the proof
/// knows nothing of what they own.
fn both_hold<T: Drop, F: FnOnce(&T, &T) -> bool>(one: Option<T>, other: Option<T>, hold: F) -> bool
    requires { F.IsAlwaysCallable hold }
{
    match (one, other) {
        (Some(one), Some(other)) => hold(&one, &other),
        _ => false,
    }
}

/// The same of two services: node 5's packets are delivered to the one and admitted before to the other. Two
/// threads make the steps of others; a fork and a filing come with node 1's one job.
fn services_agree<R: Threads + Wait + Sync>(rt: &R, alloc: Global, crowd: &Crowd) -> bool {
    let one = closed(rt, alloc, crowd, Way::Delivered, 0);
    let other = closed(rt, alloc, crowd, Way::Admitted, ALL_OTHERS);
    both_hold(one, other, both_agree)
}

/// The same of packets that are made first.
fn others_change_nothing<R: Threads + Wait + Sync>(rt: &R, alloc: Global) -> bool {
    match all_crowd(alloc) {
        Some(crowd) => services_agree(rt, alloc, &crowd),
        None => false,
    }
}

#[test]
fn others_change_no_reply_in_threads(rt: HostRuntime) {
    assert!(rt; others_change_nothing(&rt, rt.alloc()));
}

/// A new service with one pass.
fn one_pass(alloc: Global) -> Option<(WitnessService, Vec<Pass>)> {
    opened(alloc, roster(alloc)?, 1)
}

/// A service with one pass, which made one step.
fn one_step<R: Wait>(rt: &R, alloc: Global) -> Option<(WitnessService, Vec<Pass>)> {
    let (service, mut passes) = one_pass(alloc)?;
    for pass in passes.iter_mut() {
        end(service.step(rt, alloc, pass, EventOf::Ask(5, Question::Indication)));
    }
    Some((service, passes))
}

/// Whether a service closes with these passes, with so many places.
fn closes(service: WitnessService, passes: Vec<Pass>, places: usize) -> bool {
    match service.close(passes) {
        Ok(closed) => closed.journal.places().len() == places,
        Err(_) => false,
    }
}

/// Whether it doesn't, for the first reason.
fn refuses(service: WitnessService, passes: Vec<Pass>) -> bool {
    match service.close(passes) {
        Ok(_) => false,
        Err(fault) => fault.number() == 1,
    }
}

/// Whether an empty service closes without passes.
fn empty_closes(alloc: Global) -> bool {
    match one_pass(alloc) {
        Some((service, _)) => closes(service, Vec::new(alloc), 0),
        None => false,
    }
}

/// Whether a service with one step closes with its pass.
fn closes_with_its_pass<R: Wait>(rt: &R, alloc: Global) -> bool {
    match one_step(rt, alloc) {
        Some((service, passes)) => closes(service, passes, 1),
        None => false,
    }
}

/// Whether it doesn't without it.
fn refuses_without_pass<R: Wait>(rt: &R, alloc: Global) -> bool {
    match one_step(rt, alloc) {
        Some((service, _)) => refuses(service, Vec::new(alloc)),
        None => false,
    }
}

/// The first of one pair and the second of another, where both are there.
fn crossed<A: Drop, B: Drop>(one: Option<(A, B)>, other: Option<(A, B)>) -> Option<(A, B)> {
    match (one, other) {
        (Some((first, _)), Some((_, second))) => Some((first, second)),
        _ => None,
    }
}

/// Whether an empty service doesn't close with the pass of another one.
fn refuses_another_pass<R: Wait>(rt: &R, alloc: Global) -> bool {
    match crossed(one_pass(alloc), one_step(rt, alloc)) {
        Some((service, passes)) => refuses(service, passes),
        None => false,
    }
}

#[test]
fn a_service_closes_with_all_its_passes_alone(rt: HostRuntime) {
    let alloc = rt.alloc();
    assert!(rt; empty_closes(alloc));
    assert!(rt; closes_with_its_pass(&rt, alloc));
    assert!(rt; refuses_without_pass(&rt, alloc));
    assert!(rt; refuses_another_pass(&rt, alloc));
}
