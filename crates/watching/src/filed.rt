//! The segment that was filed sound last, and by which bases books may go on.

ghost use Rattle.std.specs.Prelude.{◌≡◌, ◌∷◌, IfOk, IfSome, IsTrue, List, Some};
ghost use Rattle.secure_log.specs.LogEntries.Words.{logged};
ghost use Rattle.secure_log.specs.declared.log_entries.entry.Entry.{Entry};
ghost use Rattle.replay_jobs.specs.Jobs.{job_verdict};
ghost use Rattle.witness_books.specs.node_book.Events.{event_in};
ghost use Rattle.witness_books.specs.node_book.Replies.{reply_in};
ghost use Rattle.watching.specs.Filed.{HasHash, StandsIn, check_after, check_at, digest_of, last_filed};
ghost use Rattle.watching.specs.Filed.{sound_by, sound_segment};

use challenge::Base;
use replay::state_digest;
use replay_jobs::SharedSegment;
use secure_log::log_entries::Entry;
use secure_log::{ClosedSegment, Mark, Segment, is_same_hash};
use std::alloc::{AllocError, Global};
use witness_books::{Event, EventOf, JobVerdict, ReplayDone, Reply, ReplyOf};

/// The segment that an event files as sound, if it files one. It is left out where its owners can't be counted further.
pub(crate) fn sound_segment(event: &Event) -> Option<SharedSegment>
    ensures { IfSome result (λ c. sound_segment (event_in event.now) ≡ Some c) }
{
    match event {
        EventOf::File(done) => sound_segment_of(done),
        _ => None,
    }
}

/// The segment that a replay found sound, if it did.
fn sound_segment_of(done: &ReplayDone) -> Option<SharedSegment>
    ensures { IfSome result (λ c. sound_by done.now (job_verdict done.now) ≡ Some c) }
{
    match done.verdict() {
        JobVerdict::Sound(_, _) => done.plain().job().segment().try_clone().ok(),
        JobVerdict::Fault(_, _) => None,
    }
}

/// Keeps a segment as the one that was filed sound last, where the reply says that it was filed.
pub(crate) fn keep_filed(
    last: &mut Option<SharedSegment>,
    sound: Option<SharedSegment>,
    reply: &Reply,
)
    ensures { last.new ≡ last_filed last.old sound (reply_in reply.now) }
{
    if let Some(segment) = sound {
        if let ReplyOf::Filed = reply {
            *last = Some(segment);
        }
    }
}

/// Whether the CHECK of a base stands in a segment: at its number, with the digest of its state, and with the hash
/// there. `AllocError` comes only where a growth was refused.
pub(crate) fn stands_in(
    alloc: Global,
    closed: &ClosedSegment,
    base: &Base,
) -> Result<bool, AllocError>
    ensures { IfOk result (λ b. IsTrue b → StandsIn closed.now.segment base.now) }
{
    if closed.segment().node() != base.showing().node() || !has_hash(closed, base) {
        return Ok(false);
    }
    let Some(digest) = check_at(closed.segment(), base.at().get()) else {
        return Ok(false);
    };
    let state = base.state().state(alloc)?;
    Ok(is_same_hash(&digest, &state_digest(alloc, &state)?))
}

/// Whether a segment has the hash of a base's CHECK at its number.
fn has_hash(closed: &ClosedSegment, base: &Base) -> bool
    ensures { IsTrue result → HasHash closed.now.segment base.now }
{
    match closed.mark_at(base.at().get()) {
        Some(Mark::Hash(hash)) => is_same_hash(&hash, &base.hash()),
        Some(Mark::NoEntry) => false,
        None => false,
    }
}

/// The digest of the CHECK with a number in a segment, if it has one there.
fn check_at(segment: &Segment, number: u64) -> Option<[u8; 32]>
    ensures { result ≡ check_at segment.now number }
{
    let before = segment.first().get().saturating_sub(1);
    check_after(
        number.saturating_sub(before),
        segment.skips(),
        segment.entries(),
    )
}

/// The digest of the CHECK that is so many numbers after those before some entries, if one is.
fn check_after(left: u64, skips: &[u32], entries: &[Entry]) -> Option<[u8; 32]>
    ensures { result ≡ check_after left (logged skips.now entries.now) }
{
    let mut ahead = left;
    let mut counts = skips;
    let mut rest = entries;
    while let [entry, others @ ..] = rest {
        let (skipped, more) = first_skip(counts);
        let taken = 1 + u64::from(skipped);
        if taken == ahead {
            return digest_of(entry);
        }
        if taken > ahead {
            return None;
        }
        ahead -= taken;
        counts = more;
        rest = others;
    }
    None
}

/// How many numbers are skipped before the first of some entries, and the rest of the counts.
fn first_skip(skips: &[u32]) -> (u32, &[u32])
    ensures { (e : Entry) (es : List Entry) → logged skips.now (e ∷ es)
        ≡ record { skipped = result.0; entry = e } ∷ logged result.1.now es }
{
    match skips {
        [skipped, rest @ ..] => (*skipped, rest),
        [] => (0, skips),
    }
}

/// The digest of an entry that is a CHECK.
fn digest_of(entry: &Entry) -> Option<[u8; 32]>
    ensures { result ≡ digest_of entry.now }
{
    match entry {
        Entry::Check { digest } => Some(*digest),
        _ => None,
    }
}
