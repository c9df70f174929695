//! The text of a state.

ghost use Rattle.std.specs.Prelude.{◌≡◌, IfOk};
ghost use Rattle.xdr.specs.Writing.{Adds};
ghost use Rattle.state_spec.specs.server_spec.FileItems.{file_item, file_value};
ghost use Rattle.state_spec.specs.StateText.{IsStateText};
ghost use Rattle.state_machine.specs.Machines.{machine_in};
ghost use Rattle.checkpoint.specs.Fronts.{files_text};

use crate::front::add_front;
use crate::trees::add_tree;
use state_machine::{Machine, State};
use std::alloc::{AllocError, Global};

/// The text of a state (RFC 4506), as docs/FORMATS.md has it.
pub fn state_text(alloc: Global, state: &State) -> Result<Vec<u8>, AllocError>
    ensures { IfOk result (λ bytes. IsStateText state.now.state bytes.items) }
{
    state.is_a_state();
    let mut out = Vec::new(alloc);
    add_front(state, &mut out)?;
    add_files(state.machine(), &mut out)?;
    Ok(out)
}

/// A server's files after their count; a client has none. Where memory is refused a part may stand.
fn add_files(machine: &Machine, out: &mut Vec<u8>) -> Result<(), AllocError>
    ensures { Adds (files_text file_item file_value (machine_in machine.now))
        out.old.items result out.new.items }
{
    match machine {
        Machine::Server(service, _) => add_tree(service.tree(), out),
        Machine::Client(_) => Ok(()),
    }
}
