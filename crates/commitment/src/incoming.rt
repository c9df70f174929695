//! Bytes that are handed to a node, with what was read and checked of them before the node is at hand.

ghost use Rattle.std.specs.Prelude.{◌≡◌, ◌↔◌, IsTrue};
ghost use Rattle.xdr.specs.Item.{Value};
ghost use Rattle.xdr.specs.Texts.Text.{GivesText, Text};
ghost use Rattle.xdr.specs.Texts.TextFault.{is_no_text};
ghost use Rattle.authenticator.specs.Signed.{IsSignedBy, IsSignedIn};
ghost use Rattle.envelopes.specs.Acknowledgement.{ack_text, ack_value};
ghost use Rattle.envelopes.specs.Envelope.{envelope_text, envelope_value};

use authenticator::{Member, Roster, Signs};
use envelopes::{Ack, Envelope, acknowledged_by, sent_by};
use secure_log::log_entries::SignatureText;
use std::alloc::Global;
use std::marker::Model;
use xdr::texts::{TextFault, read_text};

/// A value that is read as a whole text, and of which it can be checked whether a member signed what it shows.
pub trait Verify: Signs {
    /// How its values are spelled, and which of them have a text.
    ghost text: { Text };

    /// What a value says.
    ghost value: { Self → Value text.item };

    /// The value whose text the bytes are. `NotAText` comes exactly where they are the text of none, `NoMemory`
    /// only where a growth was refused.
    fn read(alloc: Global, bytes: &[u8]) -> Result<Self, TextFault>
    where
        Self: Sized,
        ensures { GivesText is_no_text text value bytes.now result };

    /// Whether the member signed it. Takes no memory.
    fn is_signed_by(&self, member: &Member) -> bool
        ensures { IsTrue result ↔ IsSignedBy member.now (Self.shows self.now) };
}

impl Verify for Envelope {
    ghost text = { envelope_text };

    ghost value = { envelope_value };

    fn read(alloc: Global, bytes: &[u8]) -> Result<Envelope, TextFault> {
        read_text(alloc, bytes)
    }

    fn is_signed_by(&self, member: &Member) -> bool {
        sent_by(member, self)
    }
}

impl Verify for Ack {
    ghost text = { ack_text };

    ghost value = { ack_value };

    fn read(alloc: Global, bytes: &[u8]) -> Result<Ack, TextFault> {
        read_text(alloc, bytes)
    }

    fn is_signed_by(&self, member: &Member) -> bool {
        acknowledged_by(member, self)
    }
}

/// Whether a member signed a value.
#[derive(Clone, Copy)]
struct Verdict {
    member: Member,
    is_signed: bool,
}

/// A value that was read, with the verdict on its signature, if there is one.
#[derive(Drop)]
pub struct ReadValue<T: Verify> {
    value: T,
    verdict: Option<Verdict>,
}

impl<T: Verify> Model for ReadValue<T> {
    ghost use Rattle.std.specs.Prelude.{◌↔◌, IfSome, IsTrue};
    ghost use Rattle.authenticator.specs.Signed.{IsSignedBy};

    ghost Value = { T };

    ghost view = { λ r. r.value };

    ghost invariant = { λ r. IfSome r.verdict (λ v.
        IsTrue v.is_signed ↔ IsSignedBy v.member (T.shows r.value)) };
}

impl<T: Verify> ReadValue<T> {
    /// A value on whose signature there is no verdict.
    fn new(value: T) -> ReadValue<T>
        ensures { result ≡ value }
    {
        ReadValue {
            value,
            verdict: None,
        }
    }

    /// The value with a verdict, where the roster has the member that it names as its signer.
    fn judged(value: T, roster: &Roster) -> ReadValue<T>
        ensures { result ≡ value }
    {
        match roster.member(value.signer()) {
            Some(member) => {
                let is_signed = value.is_signed_by(&member);
                ReadValue {
                    value,
                    verdict: Some(Verdict { member, is_signed }),
                }
            }
            None => ReadValue::new(value),
        }
    }

    /// The value.
    pub fn value(&self) -> &T
        ensures { result.now ≡ self.now }
    {
        &self.value
    }

    /// The value alone.
    pub fn into_value(self) -> T
        ensures { result ≡ self }
    {
        let ReadValue { value, verdict: _ } = self;
        value
    }

    /// Whether it is signed by the member that it names. Where there is a verdict on that very member the
    /// signature isn't checked again. Takes no memory.
    pub fn is_signed_in(&self, roster: &Roster) -> bool
        ensures { IsTrue result ↔ IsSignedIn roster.now (T.shows self.now) }
    {
        match roster.member(self.value.signer()) {
            Some(member) => self.is_signed_by(&member),
            None => false,
        }
    }

    /// Whether a member signed it.
    fn is_signed_by(&self, member: &Member) -> bool
        ensures { IsTrue result ↔ IsSignedBy member.now (T.shows self.now) }
    {
        match &self.verdict {
            Some(verdict) if is_same_member(&verdict.member, member) => verdict.is_signed,
            _ => self.value.is_signed_by(member),
        }
    }
}

/// Whether two members are the same in every field.
fn is_same_member(own: &Member, other: &Member) -> bool
    ensures { IsTrue result ↔ (own.now ≡ other.now) }
{
    own == other
}

/// The bytes of a text that a node is handed, as an envelope's or an acknowledgement's. What a node answers to
/// them depends on the bytes alone. Whoever has a node under a lock reads and checks them before it takes the
/// lock.
#[derive(Drop)]
pub struct Incoming<'a, T: Verify> {
    bytes: &'a [u8],
    read: Option<ReadValue<T>>,
}

impl<'a, T: Verify> Model for Incoming<'a, T> {
    ghost use Rattle.std.specs.Prelude.{◌≡◌, IfSome, List, ℕ, Some};
    ghost use Rattle.xdr.specs.Texts.Text.{text_at};

    ghost Value = { List ℕ };

    ghost view = { λ i. i.bytes.now };

    ghost invariant = { λ i. IfSome i.read (λ r. text_at T.text i.bytes.now ≡ Some (T.value r)) };
}

impl<'a, T: Verify> Incoming<'a, T> {
    /// Bytes that aren't read yet.
    pub fn new(bytes: &'a [u8]) -> Incoming<'a, T>
        ensures { result ≡ bytes.now }
    {
        Incoming { bytes, read: None }
    }

    /// Whether these are the bytes. It compares them, and takes no memory.
    pub fn is_of(&self, bytes: &[u8]) -> bool
        ensures { IsTrue result ↔ (self.now ≡ bytes.now) }
    {
        self.bytes == bytes
    }

    /// The value whose text they are: `NotAText` comes exactly where they are the text of none, `NoMemory` only
    /// where a growth was refused. Nothing is read again.
    pub fn read(self, alloc: Global) -> Result<ReadValue<T>, TextFault>
        ensures { GivesText is_no_text T.text T.value self.entry result }
    {
        match self.read {
            Some(read) => Ok(read),
            None => read_value(alloc, self.bytes),
        }
    }
}

/// The value whose text the bytes are.
fn read_value<T: Verify>(alloc: Global, bytes: &[u8]) -> Result<ReadValue<T>, TextFault>
    ensures { GivesText is_no_text T.text T.value bytes.now result }
{
    match T::read(alloc, bytes) {
        Ok(value) => Ok(ReadValue::new(value)),
        Err(fault) => Err(fault),
    }
}

impl<'a> Incoming<'a, Envelope> {
    /// The bytes of an envelope, which are read, and whose signature is checked by a roster. Where `shown` is
    /// that signature, as its sender has it in the same process, the digest of its text isn't made again. Where
    /// memory is refused they aren't read yet. What a node answers is the same, whatever roster and signature
    /// these are.
    pub fn envelope(
        alloc: Global,
        roster: &Roster,
        bytes: &'a [u8],
        shown: Option<&SignatureText>,
    ) -> Incoming<'a, Envelope>
        ensures { result ≡ bytes.now }
    {
        let Ok(mut envelope) = Envelope::read(alloc, bytes) else {
            return Incoming::new(bytes);
        };
        envelope.signature.keep_digest(shown);
        let read = Some(ReadValue::judged(envelope, roster));
        Incoming { bytes, read }
    }
}

impl<'a> Incoming<'a, Ack> {
    /// The bytes of an acknowledgement, which are read, and whose signature is checked by a roster. Where memory
    /// is refused they aren't read yet. What a node answers is the same, whatever roster this is.
    pub fn ack(alloc: Global, roster: &Roster, bytes: &'a [u8]) -> Incoming<'a, Ack>
        ensures { result ≡ bytes.now }
    {
        let Ok(ack) = Ack::read(alloc, bytes) else {
            return Incoming::new(bytes);
        };
        let read = Some(ReadValue::judged(ack, roster));
        Incoming { bytes, read }
    }
}
