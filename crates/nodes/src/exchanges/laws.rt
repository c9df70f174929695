//! What holds of a client and a server that are joined.

ghost use Rattle.nodes.specs.Exchanges.Laws.{AcksAreAccepted, CallsAreAccepted, JoinedAtFirst};
ghost use Rattle.nodes.specs.Exchanges.Laws.{NoReplyIsOwed, RepliesAreOwed};

/// A client and a server of which neither has logged anything, with two numbers, each listed in the other's
/// roster, are joined.
pub fn joined_at_first()
    ensures { JoinedAtFirst }
{}

/// What one shows, the other accepts: the text of a call's envelope opens at the server, and its message is
/// new there; the server's acknowledgement fits the client's SEND, is signed, and is awaited.
pub fn calls_are_accepted()
    ensures calls { CallsAreAccepted }
    ensures acks { AcksAreAccepted }
{}

/// The reply that an exchange gives is the one owed to the record at that time, or none is owed, and the
/// server's world is the one after it (RFC 5531, section 9). The two stay joined.
pub fn exchanges_serve()
    ensures replied { RepliesAreOwed }
    ensures unanswered { NoReplyIsOwed }
{}
