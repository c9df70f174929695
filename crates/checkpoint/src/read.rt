//! States from their texts.

ghost use Rattle.std.specs.Prelude.{◌≡◌, IfOk, IfErr, MatchOption, MatchResult};
ghost use Rattle.xdr.specs.Item.{Fits};
ghost use Rattle.nfs_laws.specs.fs_spec.Trees.{IsTime};
ghost use Rattle.state_spec.specs.server_spec.FileItems.{file_item};
ghost use Rattle.state_machine.specs.file_texts.Parts.{time_of};
ghost use Rattle.state_spec.specs.State as spec;
ghost use Rattle.state_spec.specs.StateItems.{state_item};
ghost use Rattle.state_spec.specs.StateText.{IsStateText, IsGarbage, IsNotAState};
ghost use Rattle.state_spec.specs.StateValues.{state_from};
ghost use Rattle.state_spec.specs.Rules.{KeepsRules};
ghost use Rattle.checkpoint.specs.Parts.SaidParts.{state_said};
ghost use Rattle.checkpoint.specs.Parts.Bounds.{AreBounded, IsBoundedWorld, IsShortStage};
ghost use Rattle.state_machine.specs.Stages.{stage_in};
ghost use Rattle.checkpoint.specs.PartWorlds.{IsServed, stage_given, world_given};
ghost use Rattle.checkpoint.specs.declared.read.StateFault.TheVariants.{Garbage, NoMemory, NotAState};

use crate::parts::{
    MachinePart, PartsFault, StagePart, StatePart, WorldPart, mounts_of, read_parts,
};
use crate::trees::tree_of;
use nfs_items::Time;
use state_machine::states::{Received, Sends};
use state_machine::{MessageBody, Service, Stage, State};
use std::alloc::{AllocError, Global};
use thiserror::Error;

/// Why bytes could not be read as the text of a state.
#[derive(Clone, Copy, Debug, PartialEq, Eq, Error)]
pub enum StateFault {
    #[error("out of memory")]
    NoMemory,
    /// They aren't spelled as a state is: another version, an unknown kind, stage or file type, a count or
    /// length above its bound, or something after the text.
    #[error("the bytes are not spelled as a state is")]
    Garbage,
    /// They are spelled so, and no state says what they say: a limit, an order or a rule of the tree is
    /// broken.
    #[error("the bytes break a limit, an order or a rule of the tree")]
    NotAState,
}

impl StateFault {
    ghost use Rattle.std.specs.Prelude.{◌≡◌};
    ghost use Rattle.checkpoint.specs.ErrorNumbers.{error_number};

    /// The number that programs print: 1 Garbage, 2 NotAState. Being out of memory has none.
    pub fn number(self) -> Option<u32>
        ensures { result ≡ error_number self }
    {
        match self {
            StateFault::Garbage => Some(1),
            StateFault::NotAState => Some(2),
            StateFault::NoMemory => None,
        }
    }
}

impl From<AllocError> for StateFault {
    ghost from_gives = { λ _ e. e ≡ NoMemory };

    fn from(_e: AllocError) -> StateFault {
        StateFault::NoMemory
    }
}

/// The state whose text the bytes are (RFC 4506). `Garbage` comes where they are spelled as no state is,
/// `NotAState` where they are spelled so and no state says what they say, `NoMemory` only where a growth was
/// refused.
pub fn read_state(alloc: Global, bytes: &[u8]) -> Result<State, StateFault>
    ensures found { IfOk result (λ state. IsStateText state.state bytes.now) }
    ensures garbage { IfErr result (λ error. error ≡ Garbage → IsGarbage bytes.now) }
    ensures not_a_state { IfErr result (λ error. error ≡ NotAState → IsNotAState bytes.now) }
    ensures only { (s : spec.State) → IsStateText s bytes.now →
        MatchResult result (λ state. state.state ≡ s) (λ error. error ≡ NoMemory) }
{
    match read_parts(alloc, bytes) {
        Ok(parts) => match state_of(alloc, &parts)? {
            Some(state) => Ok(state),
            None => Err(StateFault::NotAState),
        },
        Err(PartsFault::NoMemory) => Err(StateFault::NoMemory),
        Err(PartsFault::Garbage) => Err(StateFault::Garbage),
    }
}

/// The state of parts. None exactly where they break a rule.
fn state_of(alloc: Global, parts: &StatePart) -> Result<Option<State>, AllocError>
    requires bounds { AreBounded parts.now }
    requires fits { Fits (state_item file_item) (state_said parts.now) }
    ensures { IfOk result (λ state. MatchOption state (KeepsRules (state_said parts.now) → ⊥)
        (λ s. (s.state ≡ state_from (state_said parts.now)) × KeepsRules (state_said parts.now))) }
{
    let Some(received) = Received::of_rising(alloc, &parts.received)? else {
        return Ok(None);
    };
    let Some(sends) = Sends::of_rising(alloc, &parts.sends)? else {
        return Ok(None);
    };
    let Some(clock) = clock_of(parts) else {
        return Ok(None);
    };
    match &parts.machine {
        MachinePart::Server(world) => {
            let Some(service) = service_of(alloc, parts.node, clock, world)? else {
                return Ok(None);
            };
            let stage = stage_of(alloc, &world.stage)?;
            let state = State::server(service, stage, received, sends);
            state.is_a_state();
            Ok(Some(state))
        }
        MachinePart::Client => {
            let state = State::client(parts.node, clock, received, sends);
            state.is_a_state();
            Ok(Some(state))
        }
    }
}

/// The clock of parts. None exactly where it shows no time.
fn clock_of(parts: &StatePart) -> Option<Time>
    ensures { MatchOption result (IsTime (time_of parts.now.clock) → ⊥)
        (λ t. (t ≡ time_of parts.now.clock) × IsTime (time_of parts.now.clock)) }
{
    Time::new(parts.clock.seconds, parts.clock.microseconds)
}

/// The server of a number, of parts and of a clock's last reading. None exactly where the files are no tree
/// within all limits, or a mount breaks a rule.
fn service_of(
    alloc: Global,
    node: u32,
    clock: Time,
    world: &WorldPart,
) -> Result<Option<Service>, AllocError>
    requires { IsBoundedWorld world.now }
    ensures { IfOk result (λ service. MatchOption service (IsServed node world.now → ⊥)
        (λ s. (s.world ≡ world_given node clock world.now) × IsServed node world.now)) }
{
    let Some(tree) = tree_of(alloc, node, world.next, &world.files)? else {
        return Ok(None);
    };
    let Some(mounts) = mounts_of(alloc, &world.mounts)? else {
        return Ok(None);
    };
    Ok(Some(Service::from_parts(tree, clock, mounts)))
}

/// The stage of a part.
fn stage_of(alloc: Global, part: &StagePart) -> Result<Stage, AllocError>
    requires { IsShortStage part.now }
    ensures { IfOk result (λ stage. stage_in stage ≡ stage_given part.now) }
{
    match part {
        StagePart::Idle => Ok(Stage::Idle),
        StagePart::Heard { from, body } => Ok(Stage::Heard {
            from: *from,
            body: MessageBody::new(body.to_vec(alloc)?),
        }),
        StagePart::Owes { to, body } => Ok(Stage::Owes {
            to: *to,
            body: MessageBody::new(body.to_vec(alloc)?),
        }),
    }
}
