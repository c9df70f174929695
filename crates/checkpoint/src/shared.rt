//! States that several own.

ghost use Rattle.std.specs.Prelude.{◌≡◌, ◌↔◌, IfOk, IsTrue};
ghost use Rattle.state_spec.specs.StateText.{IsStateText};

use crate::read::read_state;
use crate::text::state_text;
use state_machine::State;
use std::alloc::{AllocError, Global};
use std::marker::Model;
use std::sync::Arc;

/// A state, held as its text, which several own: it takes the memory of the text once, however many own it.
/// A state has one text and a text one state, so that two are compared by their bytes.
#[derive(Drop)]
pub struct SharedState {
    text: Arc<Vec<u8>>,
}

impl Model for SharedState {
    ghost use Rattle.std.specs.Arc.{arc_value};
    ghost use Rattle.state_spec.specs.State.{State};
    ghost use Rattle.state_spec.specs.Codes.{state_code};
    ghost use Rattle.state_spec.specs.StateText.{IsStateText};
    ghost use Rattle.checkpoint.specs.SharedStates.{state_of_text};

    ghost Value = { State };

    ghost coded = { state_code };

    ghost view = { λ s. state_of_text (arc_value s.text).items };

    ghost invariant = { λ s.
        IsStateText (state_of_text (arc_value s.text).items) (arc_value s.text).items };
}

impl SharedState {
    /// A state to be shared, by its text. Takes memory for the text, and once for its owners' count;
    /// `AllocError` comes only where a growth was refused.
    pub fn new(alloc: Global, state: &State) -> Result<SharedState, AllocError>
        ensures { IfOk result (λ s. s ≡ state.now.state) }
    {
        let text = state_text(alloc, state)?;
        match Arc::new(alloc, text) {
            Ok(text) => Ok(SharedState { text }),
            Err(_) => Err(AllocError),
        }
    }

    /// One owner more of the same state. Takes no memory: `AllocError` comes only where the owners can't be
    /// counted further.
    pub fn try_clone(&self) -> Result<SharedState, AllocError>
        ensures { IfOk result (λ s. s ≡ self.now) }
    {
        let text = Arc::try_clone(&self.text)?;
        Ok(SharedState { text })
    }

    /// Whether another is the same state. It compares the texts' bytes, and takes no memory.
    pub fn is_same(&self, other: &SharedState) -> bool
        ensures { IsTrue result ↔ (self.now ≡ other.now) }
    {
        is_same_text(self.text(), other.text())
    }

    /// The text (RFC 4506), as `state_text` gives it.
    pub fn text(&self) -> &[u8]
        ensures { IsStateText self.now result.now }
    {
        &self.text
    }

    /// The state, read from its text. `AllocError` comes only where a growth was refused.
    pub fn state(&self, alloc: Global) -> Result<State, AllocError>
        ensures { IfOk result (λ s. s.state ≡ self.now) }
    {
        // The text is a state's: it is refused only where memory runs out.
        match read_state(alloc, self.text()) {
            Ok(state) => Ok(state),
            Err(_) => Err(AllocError),
        }
    }
}

/// Whether two texts are the same.
fn is_same_text(own: &[u8], other: &[u8]) -> bool
    ensures { IsTrue result ↔ (own.now ≡ other.now) }
{
    own == other
}
