//! What replays keep of what entries show of other nodes.

ghost use Rattle.std.specs.Prelude.{◌≡◌, ◌++◌, [], ⊤, List, OnOk};
ghost use Rattle.authenticator.specs.declared.authenticator.Authenticator.{Authenticator};
ghost use Rattle.replay_spec.specs.Stepping.{shown_by};
ghost use Rattle.replay_spec.specs.Replay.{with_shown};

use crate::shown::shown_by;
use authenticator::Authenticator;
use checkpoint::State;
use secure_log::log_entries::Entry;
use std::alloc::{AllocError, Global};

/// Keeps what entries show of other nodes, or nothing of it.
pub(crate) trait Keeps: Drop {
    // It is what is kept where these authenticators were shown, in order.
    ghost IsKeptOf: { Self → List Authenticator → Type 0 };

    /// Keeps what an entry after a state shows, if it shows something.
    fn keep(&mut self, alloc: Global, state: &State, entry: &Entry) -> Result<(), AllocError>
        ensures { OnOk result ((shown : List Authenticator) → IsKeptOf self.old shown →
            IsKeptOf self.new (shown ++ with_shown (shown_by state.now.state entry.now) [])) };
}

/// All that entries show, copied.
impl Keeps for Vec<Authenticator> {
    ghost IsKeptOf = { λ found shown. found.items ≡ shown };

    fn keep(&mut self, alloc: Global, state: &State, entry: &Entry) -> Result<(), AllocError> {
        if let Some(authenticator) = shown_by(alloc, state, entry)? {
            self.push(authenticator)?;
        }
        Ok(())
    }
}

/// Nothing of what entries show, which takes no memory.
#[derive(Drop)]
pub(crate) struct NoneKept;

impl Keeps for NoneKept {
    ghost IsKeptOf = { λ _ _. ⊤ };

    fn keep(&mut self, _alloc: Global, _state: &State, _entry: &Entry) -> Result<(), AllocError> {
        Ok(())
    }
}
