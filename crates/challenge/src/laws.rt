//! What holds of charges.

ghost use Rattle.challenge.specs.Laws.{OneCharge};

/// A text tells all of a charge that is read from it: two that are read of one text are the same, in every
/// part.
pub fn a_text_has_one_charge()
    ensures { OneCharge }
{}
