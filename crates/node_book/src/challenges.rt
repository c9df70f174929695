//! Open challenges.

ghost use Rattle.std.specs.Prelude.{◌≡◌, IfOk, not, map, filter, count_by};
ghost use Rattle.std.specs.List.{list_any};
ghost use Rattle.authenticator.specs.Signing.{is_same};
ghost use Rattle.witness_spec.specs.Owing.{is_open, is_send};
ghost use Rattle.witness_spec.specs.Standing.{is_answered, is_recv_of, is_send_of};
ghost use Rattle.node_book.specs.Replies.{challenge_in};

use authenticator::Signs;
use challenge::Challenge;
use envelopes::Message;
use secure_log::log_entries::{Entry, message_hash};
use secure_log::{BoundedSegment, MAX_ENTRIES};
use std::alloc::{AllocError, Global};

/// Whether a send challenge with this message is open. Takes no memory.
pub(crate) fn is_open(message: &Message, challenges: &[Challenge]) -> bool
    ensures { result ≡ is_open message.now (map challenge_in challenges.now) }
{
    for challenge in challenges {
        if is_send_of(message, challenge) {
            return true;
        }
    }
    false
}

/// How many send challenges are open. Takes no memory.
#[tactic(auto, using(crate::proofs::Mapped::count_by_map))]
pub(crate) fn count_sends(challenges: &[Challenge]) -> usize
    ensures { result ≡ count_by is_send (map challenge_in challenges.now) }
{
    let mut count = 0;
    for challenge in challenges {
        if is_send(challenge) {
            count += 1;
        }
    }
    count
}

/// Closes what a segment answers: an audit, and each send challenge whose message a RECV in it has. Takes no
/// memory. Each RECV's message is hashed only where sender and number are a challenge's.
pub(crate) fn close_answered(challenges: &mut Vec<Challenge>, segment: &BoundedSegment<MAX_ENTRIES>)
    ensures { map challenge_in challenges.new.items ≡
        filter (λ x. not (is_answered segment.now x)) (map challenge_in challenges.old.items) }
{
    challenges.retain(|challenge| !is_answered(segment, challenge));
}

/// Closes each send challenge with this message. Takes no memory.
pub(crate) fn close_send(challenges: &mut Vec<Challenge>, message: &Message)
    ensures { map challenge_in challenges.new.items ≡
        filter (λ x. not (is_send_of message.now x)) (map challenge_in challenges.old.items) }
{
    challenges.retain(|challenge| !is_send_of(message, challenge));
}

/// Copies of challenges, in their order. `AllocError` comes only where a growth was refused.
pub(crate) fn copies_of(
    alloc: Global,
    challenges: &[Challenge],
) -> Result<Vec<Challenge>, AllocError>
    ensures { IfOk result (λ v. v.items ≡ challenges.now) }
{
    let mut copies = Vec::with_capacity(alloc, challenges.len())?;
    for challenge in challenges {
        copies.push(copy_of(alloc, challenge)?)?;
    }
    Ok(copies)
}

/// A copy of a challenge. `AllocError` comes only where a growth was refused.
fn copy_of(alloc: Global, challenge: &Challenge) -> Result<Challenge, AllocError>
    ensures { IfOk result (λ c. c ≡ challenge.now) }
{
    match challenge {
        Challenge::Audit { first, last } => Ok(Challenge::Audit {
            first: *first,
            last: *last,
        }),
        Challenge::Send(envelope) => {
            let envelope = envelope.try_clone(alloc)?;
            Ok(Challenge::Send(envelope))
        }
    }
}

/// Whether a challenge is with a message.
fn is_send(challenge: &Challenge) -> bool
    ensures { result ≡ is_send (challenge_in challenge.now) }
{
    match challenge {
        Challenge::Audit { .. } => false,
        Challenge::Send(_) => true,
    }
}

/// Whether a challenge is with this message. It hashes the challenge's only where sender and number agree.
fn is_send_of(message: &Message, challenge: &Challenge) -> bool
    ensures { result ≡ is_send_of message.now (challenge_in challenge.now) }
{
    match challenge {
        Challenge::Audit { .. } => false,
        Challenge::Send(envelope) => {
            message.from == envelope.from
                && message.seq == envelope.seq.get()
                && is_same(&message.hash, &envelope.message().hash)
        }
    }
}

/// Whether a segment answers a challenge: an audit, or one whose message a RECV in it has.
fn is_answered(segment: &BoundedSegment<MAX_ENTRIES>, challenge: &Challenge) -> bool
    ensures { result ≡ is_answered segment.now (challenge_in challenge.now) }
{
    match challenge {
        Challenge::Audit { .. } => true,
        Challenge::Send(envelope) => {
            is_received(segment.node(), &envelope.message(), segment.entries())
        }
    }
}

/// Whether an entry in the log of `node` is the RECV of a message.
fn is_received(node: u32, message: &Message, entries: &[Entry]) -> bool
    ensures { result ≡ list_any (is_recv_of node message.now) entries.now }
{
    for entry in entries {
        if is_recv_of(node, message, entry) {
            return true;
        }
    }
    false
}

/// Whether one entry is. It hashes the entry's message only where sender and number agree.
fn is_recv_of(node: u32, message: &Message, entry: &Entry) -> bool
    ensures { result ≡ is_recv_of node message.now entry.now }
{
    match entry {
        Entry::Recv {
            from,
            seq,
            prev,
            body,
            ..
        } => {
            message.from == *from
                && message.seq == seq.get()
                && is_same(
                    &message.hash,
                    &message_hash(node, *seq, prev, &body.digest()),
                )
        }
        Entry::Send { .. } | Entry::Ack { .. } | Entry::Clock { .. } | Entry::Check { .. } => false,
    }
}

/// Whether two hashes are the same, byte by byte.
fn is_same(own: &[u8; 32], other: &[u8; 32]) -> bool
    ensures { result ≡ is_same own.now other.now }
{
    own.as_slice() == other.as_slice()
}
