//! What a step does to the numbers up to which logs were audited.

ghost use Rattle.watching.specs.Ends.{StepsMoveEnds};

/// A replay that is filed, and is sound, moves its node's number to the segment's last; no other step of
/// books moves any.
pub fn steps_move_ends()
    ensures { StepsMoveEnds }
{}
