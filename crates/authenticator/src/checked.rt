//! Values that are checked to be signed.

ghost use Rattle.std.specs.Prelude.{◌≡◌, ◌↔◌, IfOk, IsTrue, Some, ℕ};
ghost use Rattle.xdr.specs.Item.{Fits, Item, Value};
ghost use Rattle.authenticator.specs.Roster.{member_of};
ghost use Rattle.authenticator.specs.Signed.{IsSignedBy, IsSignedIn, authenticator_item};
ghost use Rattle.authenticator.specs.Signed.{authenticator_value};
ghost use Rattle.authenticator.specs.Checking.{Checks};
ghost use Rattle.authenticator.specs.declared.authenticator.Authenticator.{Authenticator};

use crate::authenticator::{Authenticator, is_signed_by};
use crate::hash::is_same_hash;
use crate::member::Member;
use crate::refusal::Refusal;
use crate::roster::{Roster, is_same_member};
use std::alloc::{AllocError, Global};
use xdr::texts::{TextFault, read_text};

/// A value that shows what a node signed: an authenticator, or what one is made of. It has a text, and can be
/// compared and copied, so that this holds of a `Checked` one, too.
pub trait Signs: Drop {
    /// The node's authenticator that the value shows.
    ghost shows: { Self → Authenticator };

    /// How its values are spelled.
    ghost item: { Item };

    /// What the text of a value says.
    ghost said: { Self → Value item };

    /// The number of the node that signs.
    fn signer(&self) -> u32
        ensures { result ≡ (shows self.now).node };

    /// It has a text, as its parts' types keep it: does nothing, and tells a caller's proof.
    fn fits(&self)
        ensures { Fits item (said self.now) };

    /// Whether another value is the same in every part. It compares bytes, and takes no memory.
    fn is_same(&self, other: &Self) -> bool
        ensures { IsTrue result ↔ (self.now ≡ other.now) };

    /// A copy. No text is written for it. `AllocError` comes only where a growth was refused.
    fn try_clone(&self, alloc: Global) -> Result<Self, AllocError>
    where
        Self: Sized,
        ensures { IfOk result (λ copy. copy ≡ self.now) };
}

impl Signs for Authenticator {
    ghost shows = { λ a. a };

    ghost item = { authenticator_item };

    ghost said = { authenticator_value };

    fn signer(&self) -> u32 {
        self.node
    }

    fn fits(&self) {
        let _node = self.node;
        self.word.fits();
        let _hash = self.hash;
        self.signature.fits();
    }

    fn is_same(&self, other: &Authenticator) -> bool {
        self.node == other.node
            && self.word == other.word
            && is_same_hash(&self.hash, &other.hash)
            && self.signature.is_same(&other.signature)
    }

    fn try_clone(&self, alloc: Global) -> Result<Authenticator, AllocError> {
        let signature = self.signature.try_clone(alloc)?;
        Ok(Authenticator {
            node: self.node,
            word: self.word,
            hash: self.hash,
            signature,
        })
    }
}

/// A value, which has a text, with the member that signed what it shows, under the root and height that it
/// was checked under.
#[derive(Drop)]
pub struct Checked<T: Signs> {
    value: T,
    member: Member,
    pub ghost node: { (T.shows value).node ≡ member.node },
    pub ghost signed: { IsSignedBy member (T.shows value) },
}

impl<T: Signs> Checked<T> {
    /// The value, checked already: by `is_signed_by` or the like. It tests nothing.
    #[tactic(auto, using(crate::proofs::Members::member_node))]
    pub fn vouch(roster: &Roster, value: T) -> Checked<T>
        requires { IsSignedIn roster.now (T.shows value) }
        ensures value { result.value ≡ value }
        ensures member { member_of roster.now (T.shows value).node ≡ Some result.member }
    {
        let member = roster.member(value.signer()).unwrap();
        Checked { value, member }
    }

    /// The value, which has a text.
    pub fn value(&self) -> &T
        ensures value { result.now ≡ self.now.value }
        ensures signed { IsSignedBy self.now.member (T.shows self.now.value) }
        ensures text { Fits T.item (T.said self.now.value) }
    {
        self.value.fits();
        &self.value
    }

    /// The member that signed, with the root and height that the value was checked under.
    pub fn member(&self) -> &Member
        ensures member { result.now ≡ self.now.member }
        ensures node { (T.shows self.now.value).node ≡ self.now.member.node }
    {
        &self.member
    }

    /// Whether another is the same value, checked under the same member. Takes no memory.
    pub fn is_same(&self, other: &Checked<T>) -> bool
        ensures { IsTrue result ↔
            ((self.now.value ≡ other.now.value) × (self.now.member ≡ other.now.member)) }
    {
        is_same_member(&self.member, &other.member) && self.value.is_same(&other.value)
    }

    /// A copy, checked under the same member; nothing is checked again. `AllocError` comes only where a
    /// growth was refused.
    pub fn try_clone(&self, alloc: Global) -> Result<Checked<T>, AllocError>
        ensures value { IfOk result (λ c. c.value ≡ self.now.value) }
        ensures member { IfOk result (λ c. c.member ≡ self.now.member) }
    {
        let value = self.value.try_clone(alloc)?;
        Ok(Checked {
            value,
            member: self.member,
        })
    }

    /// The value alone.
    pub fn into_value(self) -> T
        ensures { result ≡ self.value }
    {
        let Checked { value, member: _ } = self;
        value
    }
}

/// Checks an authenticator's text: `Garbage` where it is none, else `UnknownNode` where the node that it
/// names is no member, else `BadSignature` where that one didn't sign it. `NoMemory` comes only where a
/// growth was refused.
pub fn check(
    alloc: Global,
    roster: &Roster,
    bytes: &[u8],
) -> Result<Checked<Authenticator>, Refusal>
    ensures { Checks roster.now bytes.now (λ c. c.value) (λ c. c.member) result }
{
    let authenticator: Authenticator = match read_text(alloc, bytes) {
        Ok(authenticator) => authenticator,
        Err(TextFault::NoMemory) => return Err(Refusal::NoMemory),
        Err(TextFault::NotAText) => return Err(Refusal::Garbage),
    };
    let Some(member) = roster.member(authenticator.node) else {
        return Err(Refusal::UnknownNode);
    };
    if !is_signed_by(&member, &authenticator) {
        return Err(Refusal::BadSignature);
    }
    Ok(Checked::vouch(roster, authenticator))
}
