//! The bytes of messages.

ghost use Rattle.std.specs.Prelude.{◌≡◌, ◌≤◌, length};

use std::marker::Model;

/// The most bytes of a message.
pub const MAX_BODY: usize = 12_288;

/// The bytes of a message, at most `MAX_BODY`.
#[derive(Drop)]
pub struct MessageBody {
    bytes: Vec<u8>,
}

impl Model for MessageBody {
    ghost use Rattle.std.specs.Prelude.{◌≤◌, ℕ, List, length};
    ghost use Rattle.state_spec.specs.Limits.{max_body};

    ghost Value = { List ℕ };

    ghost view = { λ b. b.bytes.items };

    ghost invariant = { λ b. length b.bytes.items ≤ max_body };
}

impl MessageBody {
    /// The body of these bytes.
    pub fn new(bytes: Vec<u8>) -> MessageBody
        requires { length bytes.items ≤ MAX_BODY }
        ensures { result ≡ bytes.items }
    {
        MessageBody { bytes }
    }

    /// Its bytes.
    pub fn bytes(&self) -> &[u8]
        ensures bytes { result.now ≡ self.now }
        ensures few { length self.now ≤ MAX_BODY }
    {
        &self.bytes
    }
}
