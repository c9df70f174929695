//! The digest of a state.

ghost use Rattle.std.specs.Prelude.{◌≡◌, IfOk};
ghost use Rattle.xdr.specs.Item.{fixed};
ghost use Rattle.xdr.specs.Writing.{Adds};
ghost use Rattle.state_spec.specs.server_spec.FileItems.{file_digest};
ghost use Rattle.state_spec.specs.StateText.{state_digest};
ghost use Rattle.state_machine.specs.Machines.{machine_in};
ghost use Rattle.checkpoint.specs.Fronts.{files_text};

use crate::front::add_front;
use crate::trees::add_tree_digests;
use sha2::{Digest, Sha256};
use state_machine::{Machine, State};
use std::alloc::{AllocError, Global};

/// The digest of a state: that of its text with each file's digest in the place of the file's text.
#[tactic(auto, unfolding(state_spec::specs::StateText::state_digest))]
pub fn state_digest(alloc: Global, state: &State) -> Result<[u8; 32], AllocError>
    ensures { IfOk result (λ digest. digest ≡ state_digest state.now.state) }
{
    let mut out = Vec::new(alloc);
    add_front(state, &mut out)?;
    add_digests(alloc, state.machine(), &mut out)?;
    Ok(Sha256::digest(out.as_slice()))
}

/// The digests of a server's files after their count; a client has none. Where memory is refused a part may
/// stand.
fn add_digests(alloc: Global, machine: &Machine, out: &mut Vec<u8>) -> Result<(), AllocError>
    ensures { Adds (files_text (fixed 32) file_digest (machine_in machine.now))
        out.old.items result out.new.items }
{
    match machine {
        Machine::Server(service, _) => {
            let mut buffer = Vec::new(alloc);
            add_tree_digests(service.tree(), &mut buffer, out)
        }
        Machine::Client(_) => Ok(()),
    }
}
