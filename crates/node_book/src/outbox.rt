//! What is to be forwarded.

ghost use Rattle.std.specs.Prelude.{◌≡◌, ◌+◌, IsTrue, length};
ghost use Rattle.node_book.specs.Shares.{all_items, is_begun};

use authenticator::Authenticator;
use std::alloc::{AllocError, Global};
use std::collections::VecDeque;
use std::sync::Arc;

/// The most authenticators that wait where there is room for another share: 2^63 - 1.
const MOST_WAITING: usize = usize::MAX / 2;

/// Authenticators of other nodes that are to be forwarded, the oldest first: those that replays found, shared
/// with the verdicts; how many of the first share's were taken; and how many wait in all. No share is empty,
/// and the first isn't used up.
#[derive(Drop)]
pub(crate) struct Outbox {
    pub shares: VecDeque<Arc<Vec<Authenticator>>>,
    pub taken: usize,
    pub waiting: usize,
    pub ghost begun: { IsTrue (is_begun shares.items taken) },
    pub ghost counted: { taken + waiting ≡ length (all_items shares.items) },
}

impl Outbox {
    ghost use Rattle.std.specs.Prelude.{◌≡◌, ◌++◌, [], ◌∷◌, IfNone, IfSome, OnOk, drop, length};
    ghost use Rattle.std.specs.Arc.{arc_value};
    ghost use Rattle.node_book.specs.Outboxes.{HasPlace, outbox_in};

    /// An outbox with nothing to forward. Takes no memory.
    pub fn new(alloc: Global) -> Outbox
        ensures { outbox_in result ≡ [] }
    {
        Outbox {
            shares: VecDeque::new(alloc),
            taken: 0,
            waiting: 0,
        }
    }

    /// How many authenticators are to be forwarded.
    pub fn len(&self) -> usize
        ensures { result ≡ length (outbox_in self.now) }
    {
        self.waiting
    }

    /// The oldest authenticator that is to be forwarded, if there is one.
    pub fn first(&self) -> Option<&Authenticator>
        ensures none { IfNone result (outbox_in self.now ≡ []) }
        ensures some { IfSome result (λ a. outbox_in self.now ≡ a.now ∷ drop 1 (outbox_in self.now)) }
    {
        let share = self.shares.front()?;
        Some(&share[self.taken])
    }

    /// Reserves memory for one share more. What is to be forwarded stays in any case. `AllocError` comes only
    /// where a growth was refused, or where 2^63 authenticators or more wait.
    pub fn reserve(&mut self) -> Result<(), AllocError>
        ensures stays { outbox_in self.new ≡ outbox_in self.old }
        ensures place { OnOk result (HasPlace self.new) }
    {
        if self.waiting > MOST_WAITING {
            return Err(AllocError);
        }
        self.shares.reserve(1)
    }

    /// Adds what a replay found, after all others. There is room for it, so it takes no memory. An empty
    /// share is let go at once.
    pub fn add(&mut self, found: Arc<Vec<Authenticator>>)
        requires { HasPlace self.old }
        ensures { outbox_in self.new ≡ outbox_in self.old ++ (arc_value found).items }
    {
        let count = found.len();
        if count > 0 {
            self.waiting += count;
            self.shares.push_back_reserved(found);
        }
    }

    /// The oldest authenticator, if there is one, isn't to be forwarded any more. A share of which all were
    /// taken goes. Takes no memory.
    pub fn drop_first(&mut self)
        ensures { outbox_in self.new ≡ drop 1 (outbox_in self.old) }
    {
        let Some(share) = self.shares.front() else {
            return;
        };
        let count = share.len();
        self.waiting -= 1;
        self.taken += 1;
        if self.taken == count {
            self.taken = 0;
            let _share = self.shares.pop_front();
        }
    }
}
