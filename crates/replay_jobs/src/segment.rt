//! Segments that several own.

ghost use Rattle.std.specs.Prelude.{◌≡◌, ◌↔◌, IfErr, IfOk, IsTrue};
ghost use Rattle.witness_spec.specs.Events.{IsClosedUnder};

use secure_log::ClosedSegment;
use std::alloc::{AllocError, AllocFailed, Global};
use std::marker::Model;
use std::sync::Arc;

/// A closed segment which several own, with its roster: it takes the memory of its entries and their places
/// once, however many own it.
#[derive(Drop)]
pub struct SharedSegment {
    closed: Arc<ClosedSegment>,
}

impl Model for SharedSegment {
    ghost use Rattle.std.specs.Arc.{arc_value};
    ghost use Rattle.secure_log.specs.Versioned.{ClosedParts};
    ghost use Rattle.witness_spec.specs.Events.{IsClosedUnder};

    ghost Value = { ClosedParts };

    ghost view = { λ s. arc_value s.closed };

    ghost invariant = { λ s. IsClosedUnder (arc_value s.closed) };
}

impl SharedSegment {
    /// A segment to be shared. Takes memory once, for its owners' count; where that was refused the segment
    /// comes back.
    pub fn new(
        alloc: Global,
        closed: ClosedSegment,
    ) -> Result<SharedSegment, AllocFailed<ClosedSegment>>
        ensures shared { IfOk result (λ s. s ≡ closed) }
        ensures back { IfErr result (λ e. e.value ≡ closed) }
    {
        // It has a text, and is closed.
        let _segment = closed.segment();
        let closed = Arc::new(alloc, closed)?;
        Ok(SharedSegment { closed })
    }

    /// One owner more of the same segment. Takes no memory: `AllocError` comes only where the owners can't be
    /// counted further.
    pub fn try_clone(&self) -> Result<SharedSegment, AllocError>
        ensures { IfOk result (λ s. s ≡ self.now) }
    {
        let closed = Arc::try_clone(&self.closed)?;
        Ok(SharedSegment { closed })
    }

    /// Whether another is the same segment, closed under the same roster. It compares bytes, and takes no
    /// memory.
    pub fn is_same(&self, other: &SharedSegment) -> bool
        ensures { IsTrue result ↔ (self.now ≡ other.now) }
    {
        self.closed().is_same(other.closed())
    }

    /// The segment, which has a text and is closed under its roster.
    pub fn closed(&self) -> &ClosedSegment
        ensures segment { result.now ≡ self.now }
        ensures closed { IsClosedUnder self.now }
    {
        &self.closed
    }
}
