//! What a witness never says of an honest node.

ghost use Rattle.witness_spec.specs.Laws.{HonestIsNeverExposed};

use witness_spec::a_base_is_of_the_log;

/// A node whose log, of the version that the roster gives it, is honest from the state that it begins with is
/// never exposed, where its signatures aren't forged and no two texts have one digest.
pub fn honest_is_never_exposed()
    ensures { HonestIsNeverExposed }
{
    a_base_is_of_the_log();
}
