//! Where a replay of entries ends, without what they show of other nodes.

ghost use Rattle.std.specs.Prelude.{◌+◌, ◌≤◌, IfOk, length};
ghost use Rattle.std.specs.FinMap.{len};
ghost use Rattle.std.specs.List.{AllByRecursion};
ghost use Rattle.secure_log.specs.LogEntries.Words.{logged};
ghost use Rattle.checkpoint.specs.state_machine.declared.states.received.TheConstants.{MAX_RECEIVED};
ghost use Rattle.checkpoint.specs.state_machine.declared.states.sends.TheConstants.{MAX_SENDS};
ghost use Rattle.replay_spec.specs.Placed.{HasWord, places_from};
ghost use Rattle.replay_spec.specs.Replay.{verdict_of};
ghost use Rattle.replay.specs.Verdicts.{IsOutcome};

use crate::fault::ReplayFault;
use crate::kept::NoneKept;
use crate::run::{Ending, ending_of};
use authenticator::{Number, Roster};
use checkpoint::State;
use secure_log::log_entries::Entry;
use std::alloc::{AllocError, Global};

/// Where a replay of entries ends.
#[derive(Drop)]
pub enum Outcome {
    /// Each entry may stand after those before it: the state after the last.
    Sound(State),
    /// What the first entry that may not stand where it does has wrong, and its number.
    Fault(ReplayFault, Number),
}

/// Where a replay of entries after a state of their node ends: as `replay_entries`, but what the entries
/// show of other nodes isn't kept, so that no signature is copied, and numbers may be skipped. Before each
/// entry as many are skipped as the count at its place in `skips` says, and none before those that the counts
/// don't reach; counts past the last entry say nothing. The first entry has the number `first` and as many
/// more as are skipped before it. Each has a `Word`. `AllocError` comes only where a growth was refused.
pub fn replay_outcome(
    alloc: Global,
    roster: &Roster,
    start: State,
    first: Number,
    opening: &[u8; 32],
    skips: &[u32],
    entries: &[Entry],
) -> Result<Outcome, AllocError>
    requires words { AllByRecursion HasWord (places_from first opening.now (logged skips.now entries.now)) }
    requires few_received { len start.state.received + length entries.now ≤ MAX_RECEIVED }
    requires few_sends { len start.state.sends + length entries.now ≤ MAX_SENDS }
    ensures { IfOk result (λ outcome. IsOutcome outcome
        (verdict_of roster.now start.state (places_from first opening.now (logged skips.now entries.now)))) }
{
    match ending_of(
        alloc, roster, start, NoneKept, first, opening, skips, entries,
    )? {
        Ending::Sound(state, NoneKept) => Ok(Outcome::Sound(state)),
        Ending::Fault(fault, number) => Ok(Outcome::Fault(fault, number)),
    }
}
