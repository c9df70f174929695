//! Envelopes.

ghost use Rattle.std.specs.Prelude.{◌≡◌, IfOk};
ghost use Rattle.envelopes.specs.Envelope.{envelope_in, envelope_item, envelope_message, envelope_shows};
ghost use Rattle.envelopes.specs.Envelope.{envelope_value};

use crate::message::Message;
use secure_log::log_entries::{Body, SignatureText, message_hash};
use secure_log::{Signs, Word, is_same_hash};
use std::alloc::{AllocError, Global};

/// A message from one node to another, with its sender's signature of the SEND that it logged for it. Nothing
/// is checked of it: `check_envelope` makes a `Checked` value of one that a member signed.
#[derive(Drop)]
pub struct Envelope {
    /// The sender.
    pub from: u32,
    /// The receiver.
    pub to: u32,
    /// The message's word in the sender's log.
    pub seq: Word,
    /// The hash before it there.
    pub prev: [u8; 32],
    /// The message.
    pub body: Body,
    /// The sender's signature of its log's hash at the SEND.
    pub signature: SignatureText,
}

/// A view of an envelope, whose body and signature stand elsewhere, as in its sender's log.
#[derive(Clone, Copy)]
pub struct EnvelopeRef<'a> {
    /// The sender.
    pub from: u32,
    /// The receiver.
    pub to: u32,
    /// The message's word in the sender's log.
    pub seq: Word,
    /// The hash before it there.
    pub prev: [u8; 32],
    /// The message.
    pub body: &'a Body,
    /// The sender's signature of its log's hash at the SEND.
    pub signature: &'a SignatureText,
}

impl EnvelopeRef<'_> {
    /// An envelope of copies of its body and signature. `AllocError` comes only where a growth was refused.
    pub fn to_envelope(&self, alloc: Global) -> Result<Envelope, AllocError>
        ensures { IfOk result (λ e. e ≡ envelope_in self.now) }
    {
        let body = self.body.try_clone(alloc)?;
        let signature = self.signature.try_clone(alloc)?;
        Ok(Envelope {
            from: self.from,
            to: self.to,
            seq: self.seq,
            prev: self.prev,
            body,
            signature,
        })
    }
}

impl Envelope {
    /// A view of it.
    pub fn view(&self) -> EnvelopeRef<'_>
        ensures { envelope_in result ≡ self.now }
    {
        EnvelopeRef {
            from: self.from,
            to: self.to,
            seq: self.seq,
            prev: self.prev,
            body: &self.body,
            signature: &self.signature,
        }
    }

    /// The message in it. Takes no memory.
    pub fn message(&self) -> Message
        ensures { result ≡ envelope_message self.now }
    {
        Message {
            from: self.from,
            seq: self.seq.get(),
            hash: message_hash(self.to, self.seq, &self.prev, &self.body.digest()),
        }
    }
}

impl Signs for Envelope {
    ghost shows = { envelope_shows };

    ghost item = { envelope_item };

    ghost said = { envelope_value };

    fn signer(&self) -> u32 {
        self.from
    }

    fn fits(&self) {
        let _from = self.from;
        let _to = self.to;
        self.seq.fits();
        let _prev = self.prev;
        let _body = self.body.bytes();
        self.signature.signature().fits();
    }

    fn is_same(&self, other: &Envelope) -> bool {
        self.from == other.from
            && self.to == other.to
            && self.seq == other.seq
            && is_same_hash(&self.prev, &other.prev)
            && self.body.is_same(&other.body)
            && self.signature.is_same(&other.signature)
    }

    fn try_clone(&self, alloc: Global) -> Result<Envelope, AllocError> {
        self.view().to_envelope(alloc)
    }
}
