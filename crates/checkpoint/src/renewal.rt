//! Digests of files that are kept from one digest of a state to the next.

ghost use Rattle.std.specs.Prelude.{◌≡◌, ◌≤◌, [], IfOk, OnOk, length};
ghost use Rattle.nfs_laws.specs.fs_spec.Maxima.{max_files};

use state_machine::State;
use std::alloc::{AllocError, Global};

/// Computes the digests of a server's files that are missing, keeps them with the files, and gives how many
/// they were; a client has no files. A call that changes files drops the digests of those files alone, and
/// `state_digest` takes those that are kept. The state stays. Where memory is refused, some more digests may
/// be kept.
pub fn renew(alloc: Global, state: &mut State) -> Result<u32, AllocError>
    ensures same { state.new.state ≡ state.old.state }
    ensures count { IfOk result (λ count. count ≡ length state.old.missing) }
    ensures few { IfOk result (λ count. count ≤ max_files) }
    ensures whole { OnOk result (state.new.missing ≡ []) }
{
    state.renew_digests(alloc)
}
