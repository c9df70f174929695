//! Runs of reference machines through entries.

ghost use Rattle.std.specs.Prelude.{◌≡◌, ◌+◌, ◌≤◌, ◌<◌, ◌++◌, [], List, IfOk, OnOk, length};
ghost use Rattle.std.specs.FinMap.{len};
ghost use Rattle.std.specs.List.{AllByRecursion};
ghost use Rattle.authenticator.specs.declared.authenticator.Authenticator.{Authenticator};
ghost use Rattle.secure_log.specs.LogEntries.Words.{logged};
ghost use Rattle.checkpoint.specs.state_machine.declared.states.received.TheConstants.{MAX_RECEIVED};
ghost use Rattle.checkpoint.specs.state_machine.declared.states.sends.TheConstants.{MAX_SENDS};
ghost use Rattle.replay_spec.specs.Placed.{HasWord, places_from};
ghost use Rattle.replay_spec.specs.Stepping.{shown_by};
ghost use Rattle.replay_spec.specs.Replay.{verdict_of, with_shown};
ghost use Rattle.replay.specs.Steps.{Steps, worded_place};
ghost use Rattle.replay.specs.Endings.{EndsBy};

use crate::fault::ReplayFault;
use crate::kept::Keeps;
use crate::machine::{FreeMachine, Machine, ServerMachine, kind_of};
use crate::steps::StepFault;
use authenticator::{Kind, Number, Roster, Word};
use checkpoint::State;
use replay_spec::laws::steps_as_it_takes;
use secure_log::log_entries::{Entry, entry_word, link_hash, skipped_at};
use std::alloc::{AllocError, Global};

/// Where a run ends.
#[derive(Drop)]
pub(crate) enum Ending<K> {
    /// Each entry may stand after those before it: the state after the last, and what is kept.
    Sound(State, K),
    /// What the first entry that may not stand where it does has wrong, and its number.
    Fault(ReplayFault, Number),
}

/// Where a run of the machine of a state's node ends, with what is kept of what the entries show: the first
/// has the number `first` and what is skipped before it, before each as many numbers are skipped as `skips`
/// says, and the first stands after the hash `opening`. `AllocError` comes only where a growth was refused.
pub(crate) fn ending_of<K: Keeps>(
    alloc: Global,
    roster: &Roster,
    start: State,
    kept: K,
    first: Number,
    opening: &[u8; 32],
    skips: &[u32],
    entries: &[Entry],
) -> Result<Ending<K>, AllocError>
    requires none { K.IsKeptOf kept [] }
    requires words { AllByRecursion HasWord (places_from first opening.now (logged skips.now entries.now)) }
    requires few_received { len start.state.received + length entries.now ≤ MAX_RECEIVED }
    requires few_sends { len start.state.sends + length entries.now ≤ MAX_SENDS }
    ensures { IfOk result (λ ending. EndsBy K.IsKeptOf ending
        (verdict_of roster.now start.state (places_from first opening.now (logged skips.now entries.now)))) }
{
    match kind_of(start.machine()) {
        Kind::Server => {
            let machine = ServerMachine::new(start);
            run(alloc, roster, machine, kept, first, opening, skips, entries)
        }
        Kind::Client => {
            let machine = FreeMachine::new(start);
            run(alloc, roster, machine, kept, first, opening, skips, entries)
        }
    }
}

/// Runs a machine: it takes each entry up to the first that has a fault.
fn run<M: Machine, K: Keeps>(
    alloc: Global,
    roster: &Roster,
    mut machine: M,
    mut kept: K,
    first: Number,
    opening: &[u8; 32],
    skips: &[u32],
    entries: &[Entry],
) -> Result<Ending<K>, AllocError>
    requires none { K.IsKeptOf kept [] }
    requires words { AllByRecursion HasWord (places_from first opening.now (logged skips.now entries.now)) }
    requires few_received { len (M.state machine).received + length entries.now ≤ MAX_RECEIVED }
    requires few_sends { len (M.state machine).sends + length entries.now ≤ MAX_SENDS }
    ensures { IfOk result (λ ending. EndsBy K.IsKeptOf ending
        (verdict_of roster.now (M.state machine)
        (places_from first opening.now (logged skips.now entries.now)))) }
{
    steps_as_it_takes();
    let mut next = first.get();
    let mut before = *opening;
    for place in 0..entries.len() {
        let entry = &entries[place];
        let skipped = skipped_at(skips, place);
        let number = next + u64::from(skipped);
        let word = entry_word(skipped, number);
        match turn(alloc, roster, &mut machine, &mut kept, word, &before, entry) {
            Ok(()) => {}
            Err(StepFault::NoMemory) => return Err(AllocError),
            Err(StepFault::Fault(fault)) => return Ok(Ending::Fault(fault, Number::new(number))),
        }
        before = link_hash(&before, word.get(), entry.kind(), &entry.content_digest());
        next = number + 1;
    }
    Ok(Ending::Sound(machine.into_state(), kept))
}

/// A machine takes an entry with a word, and what that shows is kept.
fn turn<M: Machine, K: Keeps>(
    alloc: Global,
    roster: &Roster,
    machine: &mut M,
    kept: &mut K,
    word: Word,
    before: &[u8; 32],
    entry: &Entry,
) -> Result<(), StepFault>
    requires few_received { len (M.state machine.old).received < MAX_RECEIVED }
    requires few_sends { len (M.state machine.old).sends < MAX_SENDS }
    ensures step { Steps roster.now (M.state machine.old) (worded_place word before.now entry.now) result
        (M.state machine.new) }
    ensures kept { OnOk result ((shown : List Authenticator) → K.IsKeptOf kept.old shown →
        K.IsKeptOf kept.new (shown ++ with_shown (shown_by (M.state machine.old) entry.now) [])) }
{
    kept.keep(alloc, machine.state(), entry)?;
    machine.step(alloc, roster, word, before, entry)
}
