//! What holds of the states of nodes and of their digests.

ghost use Rattle.replay_spec.specs.StateLaws.{DigestsTellStates, TextsAreSpelled, HonestStatesAreSpelled};

use server_spec::laws::worlds_stay_worlds;

/// Two states are the same where their digests are, where no two of the texts under these have one digest.
pub fn digests_tell_states()
    ensures { DigestsTellStates }
{}

/// Each part of a state that has a text has a spelling, and it knows no more messages than a text may have.
pub fn texts_are_spelled()
    ensures { TextsAreSpelled }
{}

/// Each part of the last state of an honest log has a spelling.
pub fn honest_states_are_spelled()
    ensures { HonestStatesAreSpelled }
{
    worlds_stay_worlds();
}
