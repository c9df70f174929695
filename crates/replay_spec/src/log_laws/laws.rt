//! What holds of honest logs.

ghost use Rattle.replay_spec.specs.LogLaws.Laws.{HonestServersReplay, HonestServersStay};
ghost use Rattle.replay_spec.specs.LogLaws.Laws.{NoMessageTwice, NoneOfBefore};
ghost use Rattle.replay_spec.specs.LogLaws.Laws.{ReceivedAreLogged, SendsAreLogged, MessagesAreCounted};
ghost use Rattle.replay_spec.specs.LogLaws.Laws.{MessagesAreCountedOn, NumbersLieBelow};

/// A server that logs what it may hear, the time, and the reply that is owed, is honest, with the state after
/// that; so its log stays honest.
pub fn honest_servers_replay()
    ensures replay { HonestServersReplay }
    ensures log { HonestServersStay }
{}

/// No message is received at two places of an honest log, nor one that was received before it, by sender,
/// word and hash.
pub fn no_message_twice()
    ensures places { NoMessageTwice }
    ensures before { NoneOfBefore }
{}

/// The messages received in the last state of an honest log are those of its RECVs; those sent are those of
/// its SENDs that have no ACK, where its numbers are such as its version has. They are at most as many as its
/// RECVs, and its SENDs.
pub fn messages_are_logged()
    ensures received { ReceivedAreLogged }
    ensures sends { SendsAreLogged }
    ensures count { MessagesAreCounted }
{}

/// After any state honest entries bring at most as many messages as they have RECVs, and SENDs, with numbers
/// up to that of the last entry.
pub fn messages_are_bounded()
    ensures count { MessagesAreCountedOn }
    ensures numbers { NumbersLieBelow }
{}
