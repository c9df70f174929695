//! Copies of states.

ghost use Rattle.std.specs.Prelude.{◌≡◌, IfOk};

use checkpoint::{State, read_state, state_text};
use std::alloc::{AllocError, Global};

/// A copy of a state, read from its text.
pub(crate) fn copy_of(alloc: Global, state: &State) -> Result<State, AllocError>
    ensures { IfOk result (λ copy. copy.state ≡ state.now.state) }
{
    let text = state_text(alloc, state)?;
    // The text is a state's: it is refused only where memory runs out.
    match read_state(alloc, &text) {
        Ok(copy) => Ok(copy),
        Err(_) => Err(AllocError),
    }
}
