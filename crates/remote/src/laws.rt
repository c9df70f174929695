//! What holds of replies.

ghost use Rattle.remote.specs.Laws.{RepliesAreOwedToCalls};

/// No reply is owed to bytes exactly where they say no call (RFC 5531, section 9), whatever the server's
/// world and the time are.
pub fn replies_are_owed_to_calls()
    ensures { RepliesAreOwedToCalls }
{}
