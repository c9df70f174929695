//! Whether a base's state owes nothing.

ghost use Rattle.std.specs.Prelude.{◌↔◌, IfOk, IsTrue};
ghost use Rattle.replay_spec.specs.Steps.{OwesNothing};
ghost use Rattle.state_machine.specs.Machines.{machine_in};

use challenge::Base;
use state_machine::{Machine, Stage};
use std::alloc::{AllocError, Global};

/// Whether a base's state owes nothing: a server neither heard a message whose clock reading is to come, nor owes a reply.
/// So it is at each CHECK of an honest log. `AllocError` comes only where a growth was refused.
pub(crate) fn owes_nothing(alloc: Global, base: &Base) -> Result<bool, AllocError>
    ensures { IfOk result (λ b. IsTrue b ↔ OwesNothing base.now.state.machine) }
{
    let state = base.state().state(alloc)?;
    Ok(is_idle(state.machine()))
}

/// Whether a machine owes nothing.
fn is_idle(machine: &Machine) -> bool
    ensures { IsTrue result ↔ OwesNothing (machine_in machine.now) }
{
    match machine {
        Machine::Server(_, Stage::Idle) | Machine::Client(_) => true,
        Machine::Server(_, Stage::Heard { .. } | Stage::Owes { .. }) => false,
    }
}
