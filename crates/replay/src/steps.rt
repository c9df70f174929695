//! A step of a state.

ghost use Rattle.std.specs.Prelude.{◌≡◌, ◌<◌, IfOk};
ghost use Rattle.std.specs.Option.{option_map};
ghost use Rattle.std.specs.FinMap.{len};
ghost use Rattle.checkpoint.specs.state_machine.declared.states.received.TheConstants.{MAX_RECEIVED};
ghost use Rattle.checkpoint.specs.state_machine.declared.states.sends.TheConstants.{MAX_SENDS};
ghost use Rattle.replay_spec.specs.Stepping.{fault_of};
ghost use Rattle.replay.specs.Faults.{fault_in};
ghost use Rattle.replay.specs.Steps.{Steps, worded_place};
ghost use Rattle.replay.specs.declared.steps.StepFault.TheVariants.{NoMemory};

use crate::fault::ReplayFault;
use crate::messages::{is_bad_ack, is_bad_receive, is_repeated, is_wrong_checkpoint};
use crate::take::take;
use crate::turns::{is_bad_form, is_clock_back, is_wrong_reply};
use authenticator::{Roster, Word};
use checkpoint::{State, renew};
use secure_log::log_entries::Entry;
use std::alloc::{AllocError, Global};
use thiserror::Error;

/// Why a state took no step.
#[derive(Clone, Copy, Debug, PartialEq, Eq, Error)]
pub enum StepFault {
    #[error("out of memory")]
    NoMemory,
    /// The entry may not stand after the state.
    #[error("{0}")]
    Fault(ReplayFault),
}

impl From<AllocError> for StepFault {
    ghost from_gives = { λ _ e. e ≡ NoMemory };

    fn from(_e: AllocError) -> StepFault {
        StepFault::NoMemory
    }
}

/// The state takes an entry of the log of its node, a member of this roster, with a word and after the hash
/// `before`. `Fault` comes exactly where the entry may not stand there, with the first fault that it has in
/// the order BadForm, WrongReply, BadReceive, Repeated, ClockBack, BadAck, WrongCheckpoint; `NoMemory` only
/// where a growth was refused. After either the state is as it was.
pub fn step(
    state: &mut State,
    alloc: Global,
    roster: &Roster,
    word: Word,
    before: &[u8; 32],
    entry: &Entry,
) -> Result<(), StepFault>
    requires few_received { len state.old.state.received < MAX_RECEIVED }
    requires few_sends { len state.old.state.sends < MAX_SENDS }
    ensures { Steps roster.now state.old.state (worded_place word before.now entry.now) result state.new.state }
{
    renew_at_check(alloc, state, entry)?;
    step_once(state, alloc, roster, word, before, entry)
}

/// The same, where a CHECK's digest is computed from those of files that are kept, and the others.
fn step_once(
    state: &mut State,
    alloc: Global,
    roster: &Roster,
    word: Word,
    before: &[u8; 32],
    entry: &Entry,
) -> Result<(), StepFault>
    requires few_received { len state.old.state.received < MAX_RECEIVED }
    requires few_sends { len state.old.state.sends < MAX_SENDS }
    ensures { Steps roster.now state.old.state (worded_place word before.now entry.now) result state.new.state }
{
    if let Some(fault) = fault_of(alloc, roster, state, entry)? {
        return Err(StepFault::Fault(fault));
    }
    take(state, alloc, word, before, entry)?;
    Ok(())
}

/// Before a CHECK the digests of files that the state doesn't keep are computed, and kept for the next one;
/// the state stays.
fn renew_at_check(alloc: Global, state: &mut State, entry: &Entry) -> Result<(), AllocError>
    ensures { state.new.state ≡ state.old.state }
{
    if let Entry::Check { .. } = entry {
        renew(alloc, state)?;
    }
    Ok(())
}

/// The fault of an entry after a state, if it has one: each is looked at only where those above don't apply.
fn fault_of(
    alloc: Global,
    roster: &Roster,
    state: &State,
    entry: &Entry,
) -> Result<Option<ReplayFault>, AllocError>
    ensures { IfOk result (λ fault. option_map fault_in fault
        ≡ fault_of roster.now state.now.state entry.now) }
{
    let machine = state.machine();
    if is_bad_form(machine, entry) {
        return Ok(Some(ReplayFault::BadForm));
    }
    if is_wrong_reply(machine, entry) {
        return Ok(Some(ReplayFault::WrongReply));
    }
    if is_bad_receive(roster, state, entry) {
        return Ok(Some(ReplayFault::BadReceive));
    }
    if is_repeated(state, entry) {
        return Ok(Some(ReplayFault::Repeated));
    }
    if is_clock_back(machine, entry) {
        return Ok(Some(ReplayFault::ClockBack));
    }
    if is_bad_ack(roster, state, entry) {
        return Ok(Some(ReplayFault::BadAck));
    }
    if is_wrong_checkpoint(alloc, state, entry)? {
        return Ok(Some(ReplayFault::WrongCheckpoint));
    }
    Ok(None)
}
