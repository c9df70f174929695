//! Acknowledgements.

ghost use Rattle.std.specs.Prelude.{◌≡◌, IfOk};
ghost use Rattle.envelopes.specs.Acknowledgement.{ack_in, ack_item, ack_shows, ack_value, acked_message};

use crate::message::Message;
use secure_log::log_entries::{Receipt, SignatureText, message_hash, receipt_hash};
use secure_log::{Authenticator, Signs, Word, is_same_hash};
use std::alloc::{AllocError, Global};

/// That a node logged a message, with its signature of the RECV. Nothing is checked of it: `check_ack` makes
/// a `Checked` value of one that a member signed.
#[derive(Drop)]
pub struct Ack {
    /// Who has the message.
    pub by: u32,
    /// The word of its RECV there.
    pub number: Word,
    /// The hash before that.
    pub prev: [u8; 32],
    /// The message's sender.
    pub from: u32,
    /// The message's word in the sender's log.
    pub seq: Word,
    /// The hash before it there.
    pub sender_prev: [u8; 32],
    /// The digest of its body.
    pub body_hash: [u8; 32],
    /// The digest of the sender's signature's text.
    pub signature_hash: [u8; 32],
    /// The signature of who has the message, of its log's hash at the RECV.
    pub signature: SignatureText,
}

/// A view of an acknowledgement, whose signature stands elsewhere, as with its node's log.
#[derive(Clone, Copy)]
pub struct AckRef<'a> {
    /// Who has the message.
    pub by: u32,
    /// The word of its RECV there.
    pub number: Word,
    /// The hash before that.
    pub prev: [u8; 32],
    /// The message's sender.
    pub from: u32,
    /// The message's word in the sender's log.
    pub seq: Word,
    /// The hash before it there.
    pub sender_prev: [u8; 32],
    /// The digest of its body.
    pub body_hash: [u8; 32],
    /// The digest of the sender's signature's text.
    pub signature_hash: [u8; 32],
    /// The signature of who has the message, of its log's hash at the RECV.
    pub signature: &'a SignatureText,
}

impl AckRef<'_> {
    /// An acknowledgement with a copy of the signature. `AllocError` comes only where a growth was refused.
    pub fn to_ack(&self, alloc: Global) -> Result<Ack, AllocError>
        ensures { IfOk result (λ a. a ≡ ack_in self.now) }
    {
        let signature = self.signature.try_clone(alloc)?;
        Ok(Ack {
            by: self.by,
            number: self.number,
            prev: self.prev,
            from: self.from,
            seq: self.seq,
            sender_prev: self.sender_prev,
            body_hash: self.body_hash,
            signature_hash: self.signature_hash,
            signature,
        })
    }
}

impl Ack {
    /// A view of it.
    pub fn view(&self) -> AckRef<'_>
        ensures { ack_in result ≡ self.now }
    {
        AckRef {
            by: self.by,
            number: self.number,
            prev: self.prev,
            from: self.from,
            seq: self.seq,
            sender_prev: self.sender_prev,
            body_hash: self.body_hash,
            signature_hash: self.signature_hash,
            signature: &self.signature,
        }
    }

    /// The message that was received. Takes no memory.
    pub fn message(&self) -> Message
        ensures { result ≡ acked_message self.now }
    {
        Message {
            from: self.from,
            seq: self.seq.get(),
            hash: message_hash(self.by, self.seq, &self.sender_prev, &self.body_hash),
        }
    }

    /// The hash of the receiver's log that is signed, at the RECV. Takes no memory.
    pub fn hash(&self) -> [u8; 32]
        ensures { result ≡ (ack_shows self.now).hash }
    {
        let receipt = Receipt {
            from: self.from,
            seq: self.seq,
            sender_prev: self.sender_prev,
            body: self.body_hash,
            signature: self.signature_hash,
        };
        receipt_hash(&receipt, self.number, &self.prev)
    }

    /// The receiver's authenticator that it shows, with a copy of the signature. Takes memory three times.
    pub fn authenticator(&self, alloc: Global) -> Result<Authenticator, AllocError>
        ensures { IfOk result (λ a. a ≡ ack_shows self.now) }
    {
        let signature = self.signature.signature().try_clone(alloc)?;
        Ok(Authenticator {
            node: self.by,
            word: self.number,
            hash: self.hash(),
            signature,
        })
    }
}

impl Signs for Ack {
    ghost shows = { ack_shows };

    ghost item = { ack_item };

    ghost said = { ack_value };

    fn signer(&self) -> u32 {
        self.by
    }

    fn fits(&self) {
        let _by = self.by;
        self.number.fits();
        let _prev = self.prev;
        let _from = self.from;
        self.seq.fits();
        let _sender_prev = self.sender_prev;
        let _body_hash = self.body_hash;
        let _signature_hash = self.signature_hash;
        self.signature.signature().fits();
    }

    fn is_same(&self, other: &Ack) -> bool {
        self.by == other.by
            && self.number == other.number
            && is_same_hash(&self.prev, &other.prev)
            && self.from == other.from
            && self.seq == other.seq
            && is_same_hash(&self.sender_prev, &other.sender_prev)
            && is_same_hash(&self.body_hash, &other.body_hash)
            && is_same_hash(&self.signature_hash, &other.signature_hash)
            && self.signature.is_same(&other.signature)
    }

    fn try_clone(&self, alloc: Global) -> Result<Ack, AllocError> {
        self.view().to_ack(alloc)
    }
}
