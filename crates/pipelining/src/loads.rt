//! How many calls each of some ways has.

ghost use Rattle.std.specs.Prelude.{◌≡◌, [], IfNone, IfOk, IfSome, replicate};
ghost use Rattle.pipelining.specs.Loads.{Chooses, Leaves};

use std::alloc::{AllocError, Global};

/// How many calls each of some ways has in flight, or about to be.
#[derive(Drop)]
pub struct Loads {
    pub(crate) loads: Vec<u64>,
}

impl Loads {
    /// Of so many ways, each without a call.
    pub fn new(alloc: Global, ways: usize) -> Result<Loads, AllocError>
        ensures { IfOk result (λ l. l.loads.items ≡ replicate ways 0) }
    {
        let mut loads = Vec::new(alloc);
        loads.resize(ways, 0)?;
        Ok(Loads { loads })
    }

    /// Chooses the way with the fewest calls, the first one of several, for one call more: none exactly where there are no
    /// ways.
    pub fn choose(&mut self) -> Option<usize>
        ensures chosen { IfSome result (λ i. Chooses self.old.loads.items i self.new.loads.items) }
        ensures none { IfNone result (self.old.loads.items ≡ []) }
    {
        let least = self.loads.iter().copied().min()?;
        let way = self.loads.iter().position(|load| *load == least)?;
        self.loads[way] = self.loads[way].saturating_add(1);
        Some(way)
    }

    /// A way has one call less.
    pub fn leave(&mut self, way: usize)
        ensures { Leaves self.old.loads.items way self.new.loads.items }
    {
        if let Some(load) = self.loads.get_mut(way) {
            *load = load.saturating_sub(1);
        }
    }
}
