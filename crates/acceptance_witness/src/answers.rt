//! What books answer, told by values that may be copied, events that are handed to them, and audits from the
//! question to the verdict, with the evidence after it.

use crate::logs::{closing_at, segment_text};
use authenticator::{Authenticator, LogVersion, Roster, check};
use challenge::{Evidence, ReplayFault};
use envelopes::check_envelope;
use merkle_keys::Signer;
use secure_log::{Log, check_segment};
use std::alloc::Global;
use std::sync::Arc;
use witness_books::{Back, JobVerdict, ReplayDone, ReplayJob, SharedSegment};
use witness_service::{Books, Event, EventOf, Indication, Question, Refusal, Reply, ReplyOf};

/// What a reply says; of a list how many there are, of evidence whether there is some.
#[derive(Clone, Copy)]
pub enum Answer {
    Noted,
    Already,
    Opened,
    Accepted,
    Closed,
    /// The first and the last number.
    Asked(u64, u64),
    /// The job's number.
    Job(u64),
    Filed,
    Returned,
    /// The node that signed, and the number.
    Forwarded(u32, u64),
    Empty,
    Told(Indication),
    OpenList(usize),
    EvidenceIs(bool),
    Refused(Refusal),
    /// With the number of the job that comes back.
    FileRefused(Refusal, u64),
    PutBackRefused(Refusal, u64),
}

impl Answer {
    /// Whether another says the same. A derived equality would have the proof of its exactness, for nothing.
    pub fn is_same(self, other: Answer) -> bool {
        self.is_same_word(other) || self.is_same_value(other) || self.is_same_refusal(other)
    }

    /// The same of those that say no more than their name.
    fn is_same_word(self, other: Answer) -> bool {
        matches!(
            (self, other),
            (Answer::Noted, Answer::Noted)
                | (Answer::Already, Answer::Already)
                | (Answer::Opened, Answer::Opened)
                | (Answer::Accepted, Answer::Accepted)
                | (Answer::Closed, Answer::Closed)
                | (Answer::Filed, Answer::Filed)
                | (Answer::Returned, Answer::Returned)
                | (Answer::Empty, Answer::Empty)
        )
    }

    /// The same of those with a value.
    fn is_same_value(self, other: Answer) -> bool {
        match (self, other) {
            (Answer::Asked(first, last), Answer::Asked(one, two)) => first == one && last == two,
            (Answer::Job(number), Answer::Job(one)) => number == one,
            (Answer::Forwarded(node, number), Answer::Forwarded(one, two)) => {
                node == one && number == two
            }
            (Answer::Told(indication), Answer::Told(one)) => indication == one,
            (Answer::OpenList(count), Answer::OpenList(one)) => count == one,
            (Answer::EvidenceIs(is_some), Answer::EvidenceIs(one)) => is_some == one,
            _ => false,
        }
    }

    /// The same of refusals.
    fn is_same_refusal(self, other: Answer) -> bool {
        match (self, other) {
            (Answer::Refused(refusal), Answer::Refused(one)) => refusal == one,
            (Answer::FileRefused(refusal, number), Answer::FileRefused(one, two)) => {
                refusal == one && number == two
            }
            (Answer::PutBackRefused(refusal, number), Answer::PutBackRefused(one, two)) => {
                refusal == one && number == two
            }
            _ => false,
        }
    }
}

/// The number of a job, which is spent.
pub fn spend_job(job: ReplayJob) -> u64 {
    let number = job.plain().number();
    job.discard();
    number
}

/// The number of a job that was done, which is spent.
pub fn spend_done(done: ReplayDone) -> u64 {
    let number = done.plain().job().number();
    done.discard();
    number
}

/// What a reply says. A job or a done value in it is spent.
pub fn answer_of(reply: Reply) -> Answer {
    match reply {
        ReplyOf::Noted => Answer::Noted,
        ReplyOf::Already => Answer::Already,
        ReplyOf::Opened => Answer::Opened,
        ReplyOf::Accepted => Answer::Accepted,
        ReplyOf::Closed => Answer::Closed,
        ReplyOf::Asked { first, last } => Answer::Asked(first.get(), last.get()),
        ReplyOf::Job(job) => Answer::Job(spend_job(job)),
        ReplyOf::Filed => Answer::Filed,
        ReplyOf::Returned => Answer::Returned,
        ReplyOf::Forwarded(shown) => Answer::Forwarded(
            shown.node,
            shown.word.number(LogVersion::One).get(),
        ),
        ReplyOf::Empty => Answer::Empty,
        ReplyOf::Told(indication) => Answer::Told(indication),
        ReplyOf::OpenList(list) => Answer::OpenList(list.len()),
        ReplyOf::EvidenceIs(evidence) => Answer::EvidenceIs(evidence.is_some()),
        ReplyOf::Refused(refusal) => Answer::Refused(refusal),
        ReplyOf::FileRefused(refusal, done) => Answer::FileRefused(refusal, spend_done(done)),
        ReplyOf::PutBackRefused(refusal, job) => Answer::PutBackRefused(refusal, spend_job(job)),
    }
}

/// A reply is ended: a job or a done value in it is spent.
pub fn end(reply: Reply) {
    match reply {
        ReplyOf::Job(job) | ReplyOf::PutBackRefused(_, job) => job.discard(),
        ReplyOf::FileRefused(_, done) => done.discard(),
        _ => {}
    }
}

/// An event is spent, with a job or a done value in it.
pub fn spend(event: Event) {
    match event {
        EventOf::File(done) => done.discard(),
        EventOf::PutBack(job) => job.discard(),
        _ => {}
    }
}

/// Whether an event is answered so.
pub fn answers(alloc: Global, books: &mut Books, event: Event, answer: Answer) -> bool {
    answer_of(books.step(alloc, event)).is_same(answer)
}

/// Whether an event is refused so.
pub fn refuses(alloc: Global, books: &mut Books, event: Event, refusal: Refusal) -> bool {
    answers(alloc, books, event, Answer::Refused(refusal))
}

/// Whether a node's indication is this.
pub fn tells(alloc: Global, books: &mut Books, node: u32, indication: Indication) -> bool {
    let event = EventOf::Ask(node, Question::Indication);
    answers(alloc, books, event, Answer::Told(indication))
}

/// Whether an authenticator that is checked first, by its text, is answered so where it is learned.
pub fn learns(
    alloc: Global,
    books: &mut Books,
    authenticator: &Authenticator,
    answer: Answer,
) -> bool {
    let mut text = Vec::new(alloc);
    authenticator.write(&mut text).is_ok() && learns_text(alloc, books, &text, answer)
}

/// The same by its text.
fn learns_text(alloc: Global, books: &mut Books, text: &[u8], answer: Answer) -> bool {
    match check(alloc, books.roster(), text) {
        Ok(checked) => answers(alloc, books, EventOf::Learn(checked), answer),
        Err(_) => false,
    }
}

/// Whether a challenge with a message is answered so, by its envelope's text.
pub fn challenges(alloc: Global, books: &mut Books, text: &[u8], answer: Answer) -> bool {
    match check_envelope(alloc, books.roster(), text) {
        Ok(checked) => answers(alloc, books, EventOf::SendChallenge(checked), answer),
        Err(_) => false,
    }
}

/// Whether that many challenges to a node are open.
pub fn are_open(alloc: Global, books: &mut Books, node: u32, count: usize) -> bool {
    let event = EventOf::Ask(node, Question::Challenges);
    answers(alloc, books, event, Answer::OpenList(count))
}

/// A segment by its text, closed under a roster.
pub fn shared(alloc: Global, roster: &Roster, text: &[u8]) -> Option<SharedSegment> {
    match check_segment(alloc, roster, LogVersion::One, text) {
        Ok(closed) => SharedSegment::new(alloc, closed).ok(),
        Err(_) => None,
    }
}

/// Whether a segment is answered so where it answers an audit, by its text.
pub fn audited(alloc: Global, books: &mut Books, text: &[u8], answer: Answer) -> bool {
    match shared(alloc, books.roster(), text) {
        Some(segment) => answers(alloc, books, EventOf::Answer(segment), answer),
        None => false,
    }
}

/// Whether a node that signed this is asked for its log from a number on, up to it.
pub fn is_asked(alloc: Global, books: &mut Books, first: u64, closing: &Authenticator) -> bool {
    let asked = Answer::Asked(first, closing.word.number(LogVersion::One).get());
    learns(alloc, books, closing, Answer::Noted)
        && answers(alloc, books, EventOf::Audit(closing.node), asked)
}

/// Whether its answer is accepted too.
pub fn is_given(
    alloc: Global,
    books: &mut Books,
    log: &Log,
    first: u64,
    closing: &Authenticator,
) -> bool {
    match segment_text(alloc, log, first, closing) {
        Some(text) => {
            is_asked(alloc, books, first, closing) && audited(alloc, books, &text, Answer::Accepted)
        }
        None => false,
    }
}

/// The same up to a number of the log, which its node signs.
pub fn is_given_to(
    alloc: Global,
    books: &mut Books,
    log: &Log,
    signer: &mut Signer,
    first: u64,
    last: u32,
) -> bool {
    match closing_at(log, signer, last) {
        Some(closing) => is_given(alloc, books, log, first, &closing),
        None => false,
    }
}

/// The job that begins.
pub fn begun(alloc: Global, books: &mut Books, node: u32) -> Option<ReplayJob> {
    match books.step(alloc, EventOf::Begin(node)) {
        ReplyOf::Job(job) => Some(job),
        reply => match end(reply) {
            () => None,
        },
    }
}

/// The done value of a job that was run.
pub fn ran(back: Back) -> Option<ReplayDone> {
    match back {
        Back::Done(done) => Some(done),
        Back::Job(job) => {
            job.discard();
            None
        }
    }
}

/// The done value of the job that begins.
pub fn done(alloc: Global, books: &mut Books, node: u32) -> Option<ReplayDone> {
    match begun(alloc, books, node) {
        Some(job) => ran(job.run(alloc)),
        None => None,
    }
}

/// What a replay finds.
#[derive(Clone, Copy)]
pub enum Found {
    /// So many authenticators of other nodes.
    Sound(usize),
    /// A wrong reply, and the number of its entry.
    WrongReply(u64),
}

/// Whether a replay that was done found this.
pub fn finds(done: &ReplayDone, found: Found) -> bool {
    match (done.verdict(), found) {
        (JobVerdict::Sound(_, shown), Found::Sound(count)) => shown.len() == count,
        (JobVerdict::Fault(ReplayFault::WrongReply, number), Found::WrongReply(at)) => {
            number.get() == at
        }
        _ => false,
    }
}

/// Whether a done value that found this is filed.
pub fn files(alloc: Global, books: &mut Books, done: ReplayDone, found: Found) -> bool {
    let is_found = finds(&done, found);
    answers(alloc, books, EventOf::File(done), Answer::Filed) && is_found
}

/// Whether the replay of a node's segment that was given begins, finds this, and is filed.
pub fn replays(alloc: Global, books: &mut Books, node: u32, found: Found) -> bool {
    match done(alloc, books, node) {
        Some(done) => files(alloc, books, done, found),
        None => false,
    }
}

/// The evidence against a node.
pub fn evidence(alloc: Global, books: &mut Books, node: u32) -> Option<Arc<Evidence>> {
    match books.step(alloc, EventOf::Ask(node, Question::Evidence)) {
        ReplyOf::EvidenceIs(evidence) => evidence,
        reply => match end(reply) {
            () => None,
        },
    }
}
