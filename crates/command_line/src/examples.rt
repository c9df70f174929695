//! Command lines, and what they ask for.

ghost use Rattle.command_line.specs.Examples.{AreRead};

/// Each line asks for what is said of it, or for nothing: does nothing, and tells a caller's proof.
pub fn lines_are_read()
    ensures { AreRead }
{}
