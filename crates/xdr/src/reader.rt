//! Reads items from the front of bytes (RFC 4506).

ghost use Rattle.std.specs.Prelude.{◌≡◌, ◌==◌, ◌<◌, ◌^◌, List, ℕ, Option, length, OnOk, OnErr};
ghost use Rattle.std.specs.List.{list_all};
ghost use Rattle.xdr.specs.Reading.{Reads, GivesFront, GivesUnless, ReadsUnless};
ghost use Rattle.xdr.specs.declared.fault.XdrFault.{XdrFault};
ghost use Rattle.xdr.specs.Item.{Item, Value, word, hyper, flag, opaque, fixed};

use crate::fault::XdrFault;
use byteorder::{BigEndian, ByteOrder};
use std::marker::Model;

/// What is left of some bytes. A call takes one item from the front, and no memory. A call that is refused
/// leaves the reader as it was, and names the first fault from left to right.
#[derive(Drop)]
pub struct Reader<'a> {
    bytes: &'a [u8],
}

impl<'a> Model for Reader<'a> {
    ghost Value = { List ℕ };

    ghost view = { λ r. r.bytes.now };
}

impl<'a> Reader<'a> {
    /// A reader of all of `bytes`.
    pub fn new(bytes: &'a [u8]) -> Self
        ensures { result ≡ bytes.now }
    {
        Reader { bytes }
    }

    /// The bytes that are left.
    pub fn rest(&self) -> &'a [u8]
        ensures { result.now ≡ self.now }
    {
        let Reader { bytes } = self;
        bytes
    }

    /// An unsigned integer or an enum, 4 bytes (sections 4.2 and 4.3): `Short` where fewer are left.
    #[tactic(auto, unfolding(crate::specs::Reading::number_at))]
    pub fn u32(&mut self) -> Result<u32, XdrFault>
        ensures { Reads word (λ n. n) self.old result self.new }
    {
        if self.bytes.len() < 4 {
            return Err(XdrFault::Short);
        }
        let n = BigEndian::read_u32(self.bytes);
        self.bytes = &self.bytes[4..];
        Ok(n)
    }

    /// An unsigned hyper integer, 8 bytes (section 4.5): `Short` where fewer are left.
    #[tactic(auto, unfolding(crate::specs::Reading::number_at))]
    pub fn u64(&mut self) -> Result<u64, XdrFault>
        ensures { Reads hyper (λ n. n) self.old result self.new }
    {
        if self.bytes.len() < 8 {
            return Err(XdrFault::Short);
        }
        let n = BigEndian::read_u64(self.bytes);
        self.bytes = &self.bytes[8..];
        Ok(n)
    }

    /// A bool, 4 bytes (section 4.4): `Short` where fewer are left, `BadBool` where they are neither 0 nor 1.
    #[tactic(auto, unfolding(crate::specs::Reading::flag_at))]
    pub fn bool(&mut self) -> Result<bool, XdrFault>
        ensures { Reads flag (λ b. b) self.old result self.new }
    {
        let (n, rest) = split_number(self.bytes)?;
        let flag = match n {
            0 => false,
            1 => true,
            _ => return Err(XdrFault::BadBool),
        };
        self.bytes = rest;
        Ok(flag)
    }

    /// Opaque data or a string of at most `max` bytes (sections 4.10 and 4.11): `Short` where the length
    /// isn't there, `TooLong` where it is above `max`, `Short` where the bytes or their padding aren't there,
    /// `Padding` where that isn't zero.
    // Each call has a few: inlined, what is read stays in registers (docs/SPEED.md).
    #[inline(always)]
    #[tactic(auto, unfolding(crate::specs::Reading::opaque_at))]
    pub fn opaque(&mut self, max: u32) -> Result<&'a [u8], XdrFault>
        ensures { Reads (opaque max) (λ b. b.now) self.old result self.new }
    {
        let (len, rest) = split_number(self.bytes)?;
        if len > max {
            return Err(XdrFault::TooLong);
        }
        let (body, rest) = split_padded(rest, len as usize)?;
        self.bytes = rest;
        Ok(body)
    }

    /// Opaque data of `N` bytes (section 4.9): `Short` where they or their padding aren't there, `Padding`
    /// where that isn't zero.
    #[tactic(auto, unfolding(crate::specs::Reading::fixed_at))]
    pub fn fixed<const N: usize>(&mut self) -> Result<&'a [u8; N], XdrFault>
        requires { N < 2 ^ 32 }
        ensures { Reads (fixed N) (λ b. b.now) self.old result self.new }
    {
        let (_, rest) = split_padded(self.bytes, N)?;
        let Some((body, _)) = self.bytes.split_first_chunk::<N>() else {
            return Err(XdrFault::Short);
        };
        self.bytes = rest;
        Ok(body)
    }
}

/// Puts the reader back to `start`, what its `rest` gave before, where `read` is an error, and else leaves it
/// where it stands. It gives `read`. So a function that reads several fields leaves a refused reader as it
/// was.
pub fn put_back_on_err<'a, T, E>(
    reader: &mut Reader<'a>,
    start: &'a [u8],
    read: Result<T, E>,
) -> Result<T, E>
    ensures reader { (fault : E → Option XdrFault) (a : Item) (view : T → Value a) →
        GivesUnless fault a view start.now read reader.old →
        ReadsUnless fault a view start.now result reader.new }
    ensures kept { OnOk read (reader.new ≡ reader.old) }
    ensures back { OnErr read (reader.new ≡ start.now) }
    ensures read { result ≡ read }
{
    if read.is_err() {
        reader.bytes = start;
    }
    read
}

/// A number of 4 bytes, and what follows it.
#[tactic(auto, unfolding(crate::specs::Reading::number_at))]
fn split_number(bytes: &[u8]) -> Result<(u32, &[u8]), XdrFault>
    ensures { GivesFront word (λ x. (x.0, x.1.now)) bytes.now result }
{
    if bytes.len() < 4 {
        return Err(XdrFault::Short);
    }
    Ok((BigEndian::read_u32(bytes), &bytes[4..]))
}

/// Opaque data of `len` bytes, and what follows its padding.
#[tactic(auto, unfolding(crate::specs::Reading::fixed_at))]
fn split_padded(bytes: &[u8], len: usize) -> Result<(&[u8], &[u8]), XdrFault>
    requires { len < 2 ^ 32 }
    ensures { GivesFront (fixed len) (λ x. (x.0.now, x.1.now)) bytes.now result }
{
    let padding = (4 - len % 4) % 4;
    if bytes.len() < len + padding {
        return Err(XdrFault::Short);
    }
    let (body, rest) = bytes.split_at(len);
    let (zeros, rest) = rest.split_at(padding);
    if !are_zero(zeros) {
        return Err(XdrFault::Padding);
    }
    Ok((body, rest))
}

/// Whether each byte is 0.
fn are_zero(bytes: &[u8]) -> bool
    ensures { result ≡ list_all (λ b. b == 0) bytes.now }
{
    bytes.iter().all(|b| *b == 0)
}
