//! Signatures as texts (RFC 4506).

ghost use Rattle.std.specs.Prelude.{◌≡◌, ◌≤◌, ◌++◌, ℕ, List, length, IfOk};
ghost use Rattle.std.specs.List.{flat_map};
ghost use Rattle.sha2.specs.Sha256.{sha256};
ghost use Rattle.lamport.specs.sha256_lanes.OneMessage.{HoldsMessage};
ghost use Rattle.xdr.specs.Item.{Fits, Value, fixed, array, spelling};
ghost use Rattle.xdr.specs.Reading.{GivesUnless, ReadsUnless};
ghost use Rattle.xdr.specs.ReadFault.{xdr_fault};
ghost use Rattle.xdr.specs.Writing.{Writes, Adds};
ghost use Rattle.merkle_keys.specs.Signing.{signature_item, signature_value};

use crate::signature::{MAX_HEIGHT, Signature};
use crate::texts::Texts;
use lamport::{OneMessage, TEXT_SIZE};
use std::alloc::{AllocError, Global};
use xdr::{FromXdr, ReadFault, Reader, Writer, XdrFault, all_or_nothing, put_back_on_err};

impl<'a> FromXdr<'a> for Signature {
    ghost item = { signature_item };

    ghost value = { signature_value };

    fn read(alloc: Global, reader: &mut Reader<'a>) -> Result<Signature, ReadFault> {
        let start = reader.rest();
        let read = read_fields(alloc, reader);
        put_back_on_err(reader, start, read)
    }
}

fn read_fields<'a>(alloc: Global, reader: &mut Reader<'a>) -> Result<Signature, ReadFault>
    ensures { GivesUnless xdr_fault signature_item signature_value reader.old result reader.new }
{
    let leaf = reader.u32()?;
    let shown = Vec::from_slice(alloc, reader.fixed::<TEXT_SIZE>()?)?;
    let other = Vec::from_slice(alloc, reader.fixed::<TEXT_SIZE>()?)?;
    let path = read_path(alloc, reader)?;
    Ok(Signature {
        leaf,
        texts: Texts::read(shown, other),
        path,
    })
}

fn read_path<'a>(alloc: Global, reader: &mut Reader<'a>) -> Result<Vec<[u8; 32]>, ReadFault>
    ensures few { IfOk result (λ v. length v.items ≤ MAX_HEIGHT) }
    ensures text { GivesUnless xdr_fault (array MAX_HEIGHT (fixed 32)) (λ v. v.items)
        reader.old result reader.new }
{
    let count = reader.u32()?;
    if count > MAX_HEIGHT {
        return Err(ReadFault::Fault(XdrFault::TooLong));
    }
    let mut path = Vec::with_capacity(alloc, count as usize)?;
    for _ in 0..count {
        path.push(read_hash(reader)?)?;
    }
    Ok(path)
}

fn read_hash(reader: &mut Reader<'_>) -> Result<[u8; 32], ReadFault>
    ensures { ReadsUnless xdr_fault (fixed 32) (λ b. b) reader.old result reader.new }
{
    Ok(*reader.fixed::<32>()?)
}

impl Signature {
    /// Appends the text. Where memory was refused the bytes are as they were.
    pub fn write(&self, out: &mut Vec<u8>) -> Result<(), AllocError>
        ensures fits { Fits signature_item (signature_value self.now) }
        ensures text { Writes signature_item (signature_value self.now) out.old.items result out.new.items }
    {
        let start = out.len();
        let written = match &self.texts {
            Texts::Stored(texts) => {
                add_fields(self.leaf, &texts.shown, &texts.other, &self.path, out)
            }
            Texts::Bound(key) => {
                let made = key.texts();
                add_fields(self.leaf, &made.shown, &made.other, &self.path, out)
            }
        };
        all_or_nothing(out, start, written)
    }

    /// It has a text, as its type keeps it: does nothing, and tells a caller's proof.
    pub fn fits(&self)
        ensures { Fits signature_item (signature_value self.now) }
    {
        self.texts.have_sizes();
        rest_fits(self.leaf, &self.path);
    }

    /// The digest of the text, which isn't written for that. Takes no memory.
    #[tactic(auto, unfolding(xdr::specs::Item::number_spelling))]
    pub fn text_digest(&self) -> [u8; 32]
        ensures { result ≡ sha256 (spelling signature_item (signature_value self.now)) }
    {
        let mut text = OneMessage::new();
        text.update(&self.leaf.to_be_bytes());
        self.texts.hash_into(&mut text);
        hash_path(&self.path, &mut text);
        text.finalize()
    }
}

/// Adds the text of a path to what is hashed.
#[tactic(auto, unfolding(xdr::specs::Item::number_spelling))]
fn hash_path(path: &[[u8; 32]], text: &mut OneMessage)
    requires { length path.now ≤ MAX_HEIGHT }
    ensures { (front : List ℕ) → HoldsMessage text.old front →
        HoldsMessage text.new (front ++ spelling (array MAX_HEIGHT (fixed 32)) path.now) }
{
    text.update(&(path.len() as u32).to_be_bytes());
    hash_each(path, text);
}

/// Adds hashes to what is hashed.
fn hash_each(path: &[[u8; 32]], text: &mut OneMessage)
    ensures { (front : List ℕ) → HoldsMessage text.old front →
        HoldsMessage text.new (front ++ flat_map (spelling (fixed 32)) path.now) }
{
    for hash in path {
        text.update(hash);
    }
}

/// A leaf and a path have a text beside any texts of their size: does nothing, and tells a caller's proof.
fn rest_fits(leaf: u32, path: &[[u8; 32]])
    requires { length path.now ≤ MAX_HEIGHT }
    ensures { (shown other : List ℕ) → length shown ≡ TEXT_SIZE → length other ≡ TEXT_SIZE →
        Fits signature_item (leaf, (shown, (other, path.now))) }
{
    let _levels = path.len();
}

fn add_fields(
    leaf: u32,
    shown: &[u8],
    other: &[u8],
    path: &[[u8; 32]],
    out: &mut Vec<u8>,
) -> Result<(), AllocError>
    requires shown { length shown.now ≡ TEXT_SIZE }
    requires other { length other.now ≡ TEXT_SIZE }
    requires path { length path.now ≤ MAX_HEIGHT }
    ensures fits { Fits signature_item (leaf, (shown.now, (other.now, path.now))) }
    ensures text { Adds (spelling signature_item (leaf, (shown.now, (other.now, path.now))))
        out.old.items result out.new.items }
{
    out.put_u32(leaf)?;
    out.put_fixed(shown)?;
    out.put_fixed(other)?;
    add_path(path, out)
}

fn add_path(path: &[[u8; 32]], out: &mut Vec<u8>) -> Result<(), AllocError>
    requires { length path.now ≤ MAX_HEIGHT }
    ensures { Adds (spelling (array MAX_HEIGHT (fixed 32)) path.now) out.old.items result out.new.items }
{
    out.put_u32(path.len() as u32)?;
    for hash in path {
        out.put_fixed(hash)?;
    }
    Ok(())
}
