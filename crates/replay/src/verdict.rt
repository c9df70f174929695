//! What a replay of a segment finds.

ghost use Rattle.std.specs.Prelude.{◌≡◌, ◌+◌, ◌≤◌, IfOk, length};
ghost use Rattle.std.specs.FinMap.{len};
ghost use Rattle.std.specs.List.{AllByRecursion};
ghost use Rattle.checkpoint.specs.state_machine.declared.states.received.TheConstants.{MAX_RECEIVED};
ghost use Rattle.checkpoint.specs.state_machine.declared.states.sends.TheConstants.{MAX_SENDS};
ghost use Rattle.secure_log.specs.LogEntries.Words.{logged};
ghost use Rattle.replay_spec.specs.Placed.{HasWord, places_from, places_in};
ghost use Rattle.replay_spec.specs.Replay.{verdict_of};
ghost use Rattle.replay.specs.Verdicts.{IsSoundWhereHonest, verdict_in};

use crate::copy::copy_of;
use crate::fault::ReplayFault;
use crate::run::{Ending, ending_of};
use authenticator::{Authenticator, Number, Roster};
use checkpoint::State;
use replay_spec::laws::sound_exactly_if;
use secure_log::ClosedSegment;
use secure_log::log_entries::Entry;
use std::alloc::{AllocError, Global};

/// What a replay of a segment finds.
#[derive(Drop)]
pub enum Verdict {
    /// Each entry may stand after those before it: the state after the last, and the authenticators of other
    /// nodes that the entries show, in order.
    Sound(State, Vec<Authenticator>),
    /// What the first entry that may not stand where it does has wrong, and its number.
    Fault(ReplayFault, Number),
}

/// What a replay of a segment after a state finds. The state is copied once, by its text. `AllocError` comes
/// only where a growth was refused.
pub fn replay(alloc: Global, state: &State, segment: &ClosedSegment) -> Result<Verdict, AllocError>
    requires few_received { len state.now.state.received + length segment.now.segment.entries ≤ MAX_RECEIVED }
    requires few_sends { len state.now.state.sends + length segment.now.segment.entries ≤ MAX_SENDS }
    ensures verdict { IfOk result (λ verdict. verdict_in verdict
        ≡ verdict_of segment.now.roster state.now.state (places_in segment.now.segment)) }
    ensures sound { IfOk result (λ verdict. IsSoundWhereHonest segment.now.roster state.now.state
        (places_in segment.now.segment) (verdict_in verdict)) }
{
    sound_exactly_if();
    let start = copy_of(alloc, state)?;
    let roster = segment.roster();
    let segment = segment.segment();
    replay_entries(
        alloc,
        roster,
        start,
        segment.first(),
        &segment.opening(),
        segment.skips(),
        segment.entries(),
    )
}

/// What a replay of entries after a state of their node finds. Before each entry as many numbers are skipped as
/// the count at its place in `skips` says, and none before those that the counts don't reach; counts past the
/// last entry say nothing. The first entry has the number `first` and as many more as are skipped before it,
/// and stands after the hash `opening`. A log begins with the number 1 after 32 zero bytes and its member's
/// `opening_state`. There may be more entries than a segment holds, and no signature of their own node is
/// asked for. Each entry has a `Word`. `AllocError` comes only where a growth was refused.
pub fn replay_entries(
    alloc: Global,
    roster: &Roster,
    start: State,
    first: Number,
    opening: &[u8; 32],
    skips: &[u32],
    entries: &[Entry],
) -> Result<Verdict, AllocError>
    requires words { AllByRecursion HasWord (places_from first opening.now (logged skips.now entries.now)) }
    requires few_received { len start.state.received + length entries.now ≤ MAX_RECEIVED }
    requires few_sends { len start.state.sends + length entries.now ≤ MAX_SENDS }
    ensures verdict { IfOk result (λ verdict. verdict_in verdict ≡ verdict_of roster.now start.state
        (places_from first opening.now (logged skips.now entries.now))) }
    ensures sound { IfOk result (λ verdict. IsSoundWhereHonest roster.now start.state
        (places_from first opening.now (logged skips.now entries.now)) (verdict_in verdict)) }
{
    sound_exactly_if();
    let found = Vec::new(alloc);
    match ending_of(alloc, roster, start, found, first, opening, skips, entries)? {
        Ending::Sound(state, found) => Ok(Verdict::Sound(state, found)),
        Ending::Fault(fault, number) => Ok(Verdict::Fault(fault, number)),
    }
}
