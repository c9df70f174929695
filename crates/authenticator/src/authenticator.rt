//! Authenticators.

ghost use Rattle.std.specs.Prelude.{◌≡◌, ◌↔◌, IsTrue, OnOk};
ghost use Rattle.xdr.specs.Item.{Fits, spelling, number_spelling};
ghost use Rattle.xdr.specs.Reading.{GivesUnless};
ghost use Rattle.xdr.specs.ReadFault.{xdr_fault};
ghost use Rattle.xdr.specs.Writing.{Writes, Adds};
ghost use Rattle.merkle_keys.specs.Signing.{Signed};
ghost use Rattle.authenticator.specs.Signed.{IsSignedBy, signed_digest, authenticator_item};
ghost use Rattle.authenticator.specs.Signed.{authenticator_value, authenticator_text};

use crate::member::Member;
use crate::number::Word;
use merkle_keys::{Signature, verify};
use sha2::{Digest, Sha256};
use std::alloc::{AllocError, Global};
use xdr::texts::FromText;
use xdr::{FromXdr, ReadFault, Reader, Writer, put_back_on_err};

/// What a node says by its signature: that its log has this hash at the entry with this word. Nothing is
/// checked of it: `check` makes a `Checked` value of one that is a member's and signed.
#[derive(Drop)]
pub struct Authenticator {
    /// The number of the node that signs.
    pub node: u32,
    /// The word of the entry in its log.
    pub word: Word,
    /// The hash of its log there.
    pub hash: [u8; 32],
    /// Its signature of `signed_digest` of these.
    pub signature: Signature,
}

/// The digest that a node signs for an entry's word and the hash there. Takes no memory.
#[tactic(auto, unfolding(crate::specs::Signed::signed_digest))]
pub fn signed_digest(node: u32, word: Word, hash: &[u8; 32]) -> [u8; 32]
    ensures { result ≡ signed_digest node word hash.now }
{
    let mut text = Sha256::new();
    text.update(word_text(node));
    text.update(hyper_text(word.get()));
    text.update(hash);
    text.finalize()
}

/// The number in four bytes, high byte first.
#[tactic(auto, unfolding(xdr::specs::Item::number_spelling))]
fn word_text(word: u32) -> [u8; 4]
    ensures { result ≡ number_spelling 4 word }
{
    word.to_be_bytes()
}

/// The number in eight bytes, high byte first.
#[tactic(auto, unfolding(xdr::specs::Item::number_spelling))]
fn hyper_text(hyper: u64) -> [u8; 8]
    ensures { result ≡ number_spelling 8 hyper }
{
    hyper.to_be_bytes()
}

/// Whether the signature is this member's. Takes no memory.
pub fn is_signed_by(member: &Member, authenticator: &Authenticator) -> bool
    ensures { IsTrue result ↔ IsSignedBy member.now authenticator.now }
{
    is_signed(
        member,
        authenticator.node,
        authenticator.word,
        &authenticator.hash,
        &authenticator.signature,
    )
}

/// Whether a member signed that the log of this node has this hash at this word, as `is_signed_by` of an
/// authenticator of these. Takes no memory.
pub fn is_signed(
    member: &Member,
    node: u32,
    word: Word,
    hash: &[u8; 32],
    signature: &Signature,
) -> bool
    ensures { IsTrue result ↔
        Signed member.now.root member.now.height (signed_digest node word hash.now) signature.now }
{
    let digest = signed_digest(node, word, hash);
    verify(&member.root, member.height, &digest, signature)
}

impl<'a> FromXdr<'a> for Authenticator {
    ghost item = { authenticator_item };

    ghost value = { authenticator_value };

    fn read(alloc: Global, reader: &mut Reader<'a>) -> Result<Authenticator, ReadFault> {
        let start = reader.rest();
        let read = read_fields(alloc, reader);
        put_back_on_err(reader, start, read)
    }
}

fn read_fields<'a>(alloc: Global, reader: &mut Reader<'a>) -> Result<Authenticator, ReadFault>
    ensures { GivesUnless xdr_fault authenticator_item authenticator_value reader.old result reader.new }
{
    let node = reader.u32()?;
    let word = Word::read(alloc, reader)?;
    let hash = *reader.fixed::<32>()?;
    let signature = Signature::read(alloc, reader)?;
    Ok(Authenticator {
        node,
        word,
        hash,
        signature,
    })
}

impl<'a> FromText<'a> for Authenticator {
    ghost text = { authenticator_text };

    ghost value = { authenticator_value };

    fn read_front(alloc: Global, reader: &mut Reader<'a>) -> Result<Authenticator, ReadFault> {
        Authenticator::read(alloc, reader)
    }

    fn has_text(&self) -> bool {
        true
    }
}

impl Authenticator {
    /// Appends the text. Where memory was refused the bytes are as they were.
    pub fn write(&self, out: &mut Vec<u8>) -> Result<(), AllocError>
        ensures fits { OnOk result (Fits authenticator_item (authenticator_value self.now)) }
        ensures text { Writes authenticator_item (authenticator_value self.now)
            out.old.items result out.new.items }
    {
        let start = out.len();
        match add_fields(self, out) {
            Ok(()) => Ok(()),
            Err(refused) => {
                out.truncate(start);
                Err(refused)
            }
        }
    }
}

fn add_fields(authenticator: &Authenticator, out: &mut Vec<u8>) -> Result<(), AllocError>
    ensures fits { OnOk result (Fits authenticator_item (authenticator_value authenticator.now)) }
    ensures text { Adds (spelling authenticator_item (authenticator_value authenticator.now))
        out.old.items result out.new.items }
{
    out.put_u32(authenticator.node)?;
    authenticator.word.write(out)?;
    out.put_fixed(&authenticator.hash)?;
    authenticator.signature.write(out)
}
