//! How far members were audited, as a journal shows it.

ghost use Rattle.std.specs.Prelude.{◌≡◌, ◌==◌, ◌&&◌};
ghost use Rattle.node_book.specs.Events.{event_in};
ghost use Rattle.node_book.specs.replay_jobs.Jobs.{job_verdict, verdict_told};
ghost use Rattle.node_book.specs.witness_spec.Pairs.{last_of};
ghost use Rattle.node_book.specs.Replies.{refusal_in, reply_in};
ghost use Rattle.witness_reports.specs.Audits.{are_forwarded, ends_audits, is_emptied, is_filed_to};
ghost use Rattle.witness_reports.specs.Audits.{is_followed, is_refused_audit, is_sound, learns};
ghost use Rattle.witness_reports.specs.Audits.{was_filed_to, was_refused};
ghost use Rattle.std.specs.List.{list_any};

use authenticator::Authenticator;
use node_book::{EventOf, JobVerdict, PlainDone, PlainEvent, PlainReply, Refusal, ReplyOf};
use witness_service::Note;

/// Whether a segment of the node that ends at this number was filed, and is sound.
pub fn was_filed_to(places: &[Note], node: u32, last: u64) -> bool
    ensures { result ≡ was_filed_to node last places.now }
{
    places.iter().any(|place| is_filed_to(place.event(), place.reply(), node, last))
}

/// Whether an audit of the node was refused for good: what it signed is too far from what is filed, its book
/// or its outbox is full, or an audit before isn't filed yet.
pub fn was_refused(places: &[Note], node: u32) -> bool
    ensures { result ≡ was_refused node places.now }
{
    places.iter().any(|place| is_refused_audit(place.event(), place.reply(), node))
}

/// Whether each authenticator that was taken to be forwarded was learned after that, and whether after each
/// segment that was filed all that it showed of other nodes was taken.
pub fn are_forwarded(places: &[Note]) -> bool
    ensures { result ≡ are_forwarded places.now }
{
    let mut rest = places;
    while let [place, later @ ..] = rest {
        if !is_followed(place.event(), place.reply(), later) {
            return false;
        }
        rest = later;
    }
    true
}

/// Whether the event with its reply is that a sound segment of the node, which ends at this number, is filed.
fn is_filed_to(event: &PlainEvent, reply: &PlainReply, node: u32, last: u64) -> bool
    ensures { result ≡ is_filed_to node last (event_in event.now) (reply_in reply.now) }
{
    match event {
        EventOf::File(done) => match reply {
            ReplyOf::Filed => is_sound_to(done, node, last),
            _ => false,
        },
        _ => false,
    }
}

/// Whether what was done is of the node, ends at this number, and is sound.
fn is_sound_to(done: &PlainDone, node: u32, last: u64) -> bool
    ensures { result ≡ (done.now.node == node) && (is_sound (job_verdict done.now)
        && (last_of done.now.segment.segment == last)) }
{
    let job = done.job();
    let segment = job.segment().closed().segment();
    job.node() == node
        && is_sound(done.verdict())
        && segment.closing().word.number(segment.log_version()).get() == last
}

/// Whether a verdict says that no fault was found.
fn is_sound(verdict: &JobVerdict) -> bool
    ensures { result ≡ is_sound (verdict_told verdict.now) }
{
    match verdict {
        JobVerdict::Sound(_, _) => true,
        JobVerdict::Fault(_, _) => false,
    }
}

/// Whether the event with its reply is that an audit of the node is refused for good.
fn is_refused_audit(event: &PlainEvent, reply: &PlainReply, node: u32) -> bool
    ensures { result ≡ is_refused_audit node (event_in event.now) (reply_in reply.now) }
{
    match event {
        EventOf::Audit(audited) => match reply {
            ReplyOf::Refused(refusal) => *audited == node && ends_audits(*refusal),
            _ => false,
        },
        _ => false,
    }
}

/// Whether a refusal says why a node can't be audited further.
fn ends_audits(refusal: Refusal) -> bool
    ensures { result ≡ ends_audits (refusal_in refusal) }
{
    match refusal {
        Refusal::OutboxFull | Refusal::TooFar | Refusal::Busy | Refusal::BookFull => true,
        _ => false,
    }
}

/// Whether a place has what it asks of those after it.
fn is_followed(event: &PlainEvent, reply: &PlainReply, later: &[Note]) -> bool
    ensures { result ≡ is_followed (event_in event.now) (reply_in reply.now) later.now }
{
    match event {
        EventOf::Forward(_) => match reply {
            ReplyOf::Forwarded(authenticator) => is_learned(later, authenticator),
            _ => true,
        },
        EventOf::File(done) => match reply {
            ReplyOf::Filed => is_emptied(later, done.job().node()),
            _ => true,
        },
        _ => true,
    }
}

/// Whether an authenticator of the same node, word and hash was learned.
fn is_learned(places: &[Note], authenticator: &Authenticator) -> bool
    ensures { result ≡ list_any (λ p. learns authenticator.now p.0) places.now }
{
    places
        .iter()
        .any(|place| learns(place.event(), authenticator))
}

/// Whether the event is that such an authenticator is learned.
fn learns(event: &PlainEvent, authenticator: &Authenticator) -> bool
    ensures { result ≡ learns authenticator.now (event_in event.now) }
{
    match event {
        EventOf::Learn(checked) => {
            let learned = checked.value();
            learned.node == authenticator.node
                && learned.word == authenticator.word
                && learned.hash == authenticator.hash
        }
        _ => false,
    }
}

/// Whether it was said that nothing is left to be forwarded of what the node's segments showed.
fn is_emptied(places: &[Note], node: u32) -> bool
    ensures { result ≡ list_any (λ p. is_emptied node p.0 p.1) places.now }
{
    places
        .iter()
        .any(|place| empties(place.event(), place.reply(), node))
}

/// Whether the event with its reply says so.
fn empties(event: &PlainEvent, reply: &PlainReply, node: u32) -> bool
    ensures { result ≡ is_emptied node (event_in event.now) (reply_in reply.now) }
{
    match event {
        EventOf::Forward(forwarded) => match reply {
            ReplyOf::Empty => *forwarded == node,
            _ => false,
        },
        _ => false,
    }
}
