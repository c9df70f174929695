//! Messages, as a state knows them.

ghost use Rattle.std.specs.Prelude.{◌≡◌, ◌<◌, ◌^◌, length};
ghost use Rattle.state_machine.specs.States.Bounds.{ReceivedFits};

use std::marker::Model;

/// A message that was received: its sender, its number in the sender's log, and the hash there. Messages are
/// ordered by these three.
#[derive(Clone, Copy, Debug, PartialEq, Eq, PartialOrd, Ord)]
pub struct ReceivedMessage {
    from: u32,
    seq: u64,
    hash: [u8; 32],
}

impl Model for ReceivedMessage {
    ghost use Rattle.state_spec.specs.State.{ReceivedMessage};
    ghost use Rattle.state_spec.specs.Codes.{received_code};

    ghost Value = { ReceivedMessage };

    ghost coded = { received_code };

    ghost view = { λ m. record { from = m.from; seq = m.seq; hash = m.hash } };

    ghost inverse = { λ v. record { from = v.from; seq = v.seq; hash = v.hash } };
}

impl ReceivedMessage {
    pub fn new(from: u32, seq: u64, hash: [u8; 32]) -> ReceivedMessage
        ensures { result ≡ record { from = from; seq = seq; hash = hash } }
    {
        ReceivedMessage { from, seq, hash }
    }

    /// The node that sent it.
    pub fn from(&self) -> u32
        ensures { result ≡ self.now.from }
    {
        self.from
    }

    /// Its number in the sender's log.
    pub fn seq(&self) -> u64
        ensures { result ≡ self.now.seq }
    {
        self.seq
    }

    /// The hash of the sender's log there.
    pub fn hash(&self) -> &[u8; 32]
        ensures { result.now ≡ self.now.hash }
    {
        &self.hash
    }

    /// Its parts are within their bounds: does nothing, and tells a caller's proof.
    pub(crate) fn is_bounded(&self)
        ensures { ReceivedFits self.now }
    {
        let _from = self.from;
        let _seq = self.seq;
    }
}

/// A message that was sent and has no acknowledgement yet: its receiver, the hash before it in the sender's
/// log, and the digest of its body.
#[derive(Clone, Copy, Debug, PartialEq, Eq)]
pub struct SentMessage {
    to: u32,
    prev: [u8; 32],
    body_hash: [u8; 32],
}

impl Model for SentMessage {
    ghost use Rattle.state_spec.specs.State.{SentMessage};
    ghost use Rattle.state_spec.specs.Codes.{sent_code};

    ghost Value = { SentMessage };

    ghost coded = { sent_code };

    ghost view = { λ m. record { to = m.to; prev = m.prev; body_hash = m.body_hash } };

    ghost inverse = { λ v. record { to = v.to; prev = v.prev; body_hash = v.body_hash } };
}

impl SentMessage {
    pub fn new(to: u32, prev: [u8; 32], body_hash: [u8; 32]) -> SentMessage
        ensures { result ≡ record { to = to; prev = prev; body_hash = body_hash } }
    {
        SentMessage {
            to,
            prev,
            body_hash,
        }
    }

    /// The node that it was sent to.
    pub fn to(&self) -> u32
        ensures { result ≡ self.now.to }
    {
        self.to
    }

    /// The hash before it in the sender's log.
    pub fn prev(&self) -> &[u8; 32]
        ensures { result.now ≡ self.now.prev }
    {
        &self.prev
    }

    /// The digest of its body.
    pub fn body_hash(&self) -> &[u8; 32]
        ensures { result.now ≡ self.now.body_hash }
    {
        &self.body_hash
    }

    /// Its parts are within their bounds: does nothing, and tells a caller's proof.
    pub(crate) fn is_bounded(&self)
        ensures to { self.now.to < 2 ^ 32 }
        ensures prev { length self.now.prev ≡ 32 }
        ensures body_hash { length self.now.body_hash ≡ 32 }
    {
        let _to = self.to;
    }
}
