//! What holds of every name that is shown.

ghost use Rattle.std.specs.Prelude.{IsTrue, All};
ghost use Rattle.shown_names.specs.Names.{is_printed, shown_name};

/// A name is shown by printed characters of ASCII and blanks alone: no end of a line, and nothing that a
/// terminal takes for a command.
pub fn names_are_printed(_name: &str)
    ensures { All (λ byte. IsTrue (is_printed byte)) (shown_name _name.now) }
{}
