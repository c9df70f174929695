//! Evidence of replays that found faults.

ghost use Rattle.std.specs.Prelude.{◌≡◌, ◌++◌, ◌+◌, ◌≤◌, [], List, IfOk, length, take};
ghost use Rattle.secure_log.specs.LogEntries.Chain.{Logged};
ghost use Rattle.challenge.specs.Charges.{charge_in};
ghost use Rattle.evidence_spec.specs.Evidence.{charge_value, is_whole_charge};
ghost use Rattle.secure_log.specs.Versioned.{is_whole_in, versioned_value};
ghost use Rattle.witness_spec.specs.Exposing.{replay_from};
ghost use Rattle.witness_spec.specs.Starting.{start_hash};
ghost use Rattle.witness_spec.specs.Limits.{MAX_AUDITED};
ghost use Rattle.node_book.specs.Rows.{BaseIsOfLog, ShowsLog, base_in, entries_of, first_shown, replayed_log, segments_in};
ghost use Rattle.node_book.specs.Shown.{IsShown, counts_of};

use authenticator::{LogVersion, Number};
use challenge::{AuditedLog, Base, BasedReplay, Charge, Evidence};
use replay_jobs::SharedSegment;
use secure_log::LogStart;
use secure_log::log_entries::{Entry, skipped_at};
use std::alloc::{AllocError, Global};
use std::sync::Arc;

/// Evidence that a node's log of this version isn't honest: the log from where the audit began, of the entries
/// of the first `before` segments and of the faulty one, which closes it; and the base, if it began at one. Memory is that of
/// one copy of these entries and of what is skipped before them, reserved once, and of one of the base's text;
/// each entry is also written once, into memory that is used again. `AllocError` comes only where a growth was
/// refused.
pub(crate) fn replayed_evidence(
    alloc: Global,
    base: &Option<Arc<Base>>,
    version: LogVersion,
    node: u32,
    segments: &[SharedSegment],
    before: usize,
    faulty: &SharedSegment,
) -> Result<Evidence, AllocError>
    requires version { BaseIsOfLog (base_in base.now) version }
    requires shows { ShowsLog (base_in base.now) version (segments_in segments.now) before
        faulty.now.segment }
    ensures { IfOk result (λ e. e ≡ record {
      node = node;
      charge = replay_from (base_in base.now)
          (replayed_log (base_in base.now) version node (segments_in segments.now) before faulty.now.segment);
    }) }
{
    let shown = shown_of(alloc, &segments[..before], faulty)?;
    let start = LogStart {
        node,
        first: first_shown(&segments[..before], faulty),
        opening: start_hash(base),
    };
    let closing = faulty.closed().segment().closing();
    let log = AuditedLog::log_from(alloc, version, start, shown.skips, shown.entries, closing)?;
    let charge = charge_from(alloc, base, log)?;
    Ok(Evidence::new(node, charge).unwrap())
}

/// The first number of the first of some segments, or that of another one where there are none.
fn first_shown(segments: &[SharedSegment], other: &SharedSegment) -> Number
    ensures { result ≡ first_shown (segments_in segments.now) other.now.segment }
{
    match segments.first() {
        Some(segment) => segment.closed().segment().first(),
        None => other.closed().segment().first(),
    }
}

/// The hash where an audit from a base begins; 32 zero bytes without one.
#[tactic(auto, unfolding(secure_log::specs::LogEntries::Chain::zeros))]
fn start_hash(base: &Option<Arc<Base>>) -> [u8; 32]
    ensures { result ≡ start_hash (base_in base.now) }
{
    match base {
        Some(base) => base.hash(),
        None => [0; 32],
    }
}

/// What a log is that a replay from a base finds a fault in, or one from a log's start without a base.
/// `AllocError` comes only where a growth was refused.
fn charge_from(
    alloc: Global,
    base: &Option<Arc<Base>>,
    log: AuditedLog,
) -> Result<Charge, AllocError>
    requires { BaseIsOfLog (base_in base.now) log.log_version }
    ensures charge { IfOk result (λ c. charge_in c ≡ replay_from (base_in base.now) log) }
    ensures whole { IfOk result (λ c. is_whole_charge (charge_value (charge_in c))
        ≡ is_whole_in log.log_version (versioned_value log.log_version log)) }
{
    match base {
        Some(base) => {
            base.has_text();
            let base = base.to_text(alloc)?;
            Ok(Charge::Based(BasedReplay::new(base, log).unwrap()))
        }
        None => Ok(Charge::Replay(log)),
    }
}

/// Entries, with how many numbers are skipped before each.
#[derive(Drop)]
struct ShownEntries {
    skips: Vec<u32>,
    entries: Vec<Entry>,
}

/// Copies of the entries of segments and of another after them, with what is skipped before each, in memory
/// that is reserved once.
fn shown_of(
    alloc: Global,
    segments: &[SharedSegment],
    faulty: &SharedSegment,
) -> Result<ShownEntries, AllocError>
    requires { length (entries_of (segments_in segments.now)) + length faulty.now.segment.entries ≤
        MAX_AUDITED }
    ensures { IfOk result (λ s. IsShown s (entries_of (segments_in segments.now) ++ faulty.now.segment.entries)) }
{
    let count = count_entries(segments) + faulty.closed().segment().entries().len();
    let mut shown = ShownEntries {
        skips: Vec::with_capacity(alloc, count)?,
        entries: Vec::with_capacity(alloc, count)?,
    };
    match add_segments(alloc, segments, faulty, &mut shown) {
        Ok(()) => Ok(shown),
        Err(refused) => Err(refused),
    }
}

/// Appends the entries of segments and of another after them, each with what is skipped before it. Where a
/// growth was refused, some may have been appended.
fn add_segments(
    alloc: Global,
    segments: &[SharedSegment],
    faulty: &SharedSegment,
    shown: &mut ShownEntries,
) -> Result<(), AllocError>
    requires { IsShown shown.old [] }
    ensures { IfOk result (λ _. IsShown shown.new
        (entries_of (segments_in segments.now) ++ faulty.now.segment.entries)) }
{
    for segment in segments {
        add_segment(alloc, segment, shown)?;
    }
    add_segment(alloc, faulty, shown)
}

/// Appends a copy of each entry of a segment, with what is skipped before it. Where a growth was refused, some
/// may have been appended.
fn add_segment(
    alloc: Global,
    segment: &SharedSegment,
    shown: &mut ShownEntries,
) -> Result<(), AllocError>
    ensures { (log : List Logged) → IsShown shown.old log →
        IfOk result (λ _. IsShown shown.new (log ++ segment.now.segment.entries)) }
{
    let segment = segment.closed().segment();
    add_skips(segment.skips(), segment.entries().len(), &mut shown.skips)?;
    add_copies(alloc, segment.entries(), &mut shown.entries)
}

/// Appends how many numbers are skipped before each of so many entries.
fn add_skips(skips: &[u32], count: usize, out: &mut Vec<u32>) -> Result<(), AllocError>
    ensures { IfOk result (λ _. out.new.items ≡ out.old.items ++ counts_of skips.now count) }
{
    for place in 0..count {
        out.push(skipped_at(skips, place))?;
    }
    Ok(())
}

/// How many entries segments have in all.
fn count_entries(segments: &[SharedSegment]) -> usize
    requires { length (entries_of (segments_in segments.now)) ≤ MAX_AUDITED }
    ensures { result ≡ length (entries_of (segments_in segments.now)) }
{
    let mut count = 0;
    for segment in segments {
        count += segment.closed().segment().entries().len();
    }
    count
}

/// Appends copies of entries. Where a growth was refused, some may have been appended.
fn add_copies(alloc: Global, entries: &[Entry], out: &mut Vec<Entry>) -> Result<(), AllocError>
    ensures { IfOk result (λ _. out.new.items ≡ out.old.items ++ entries.now) }
{
    for entry in entries {
        out.push(entry.try_clone(alloc)?)?;
    }
    Ok(())
}
