//! Lists after their count.

ghost use Rattle.std.specs.Prelude.{◌≡◌, List, ℕ, map, IfErr, IsSome};
ghost use Rattle.xdr.specs.Item.{Item, Value, word, array};
ghost use Rattle.xdr.specs.Reading.{GivesUnless, ReadsUnless};
ghost use Rattle.xdr.specs.ReadFault.{xdr_fault};
ghost use Rattle.xdr.specs.declared.list.ReadFault.TheVariants.{NoMemory, Fault};

use crate::fault::XdrFault;
use crate::reader::{Reader, put_back_on_err};
use std::alloc::{AllocError, AllocFailed, Global};
use thiserror::Error;

/// Why a value that takes memory could not be read. `NoMemory` comes only where a growth was refused; a
/// `Fault` is the first one from left to right.
#[derive(Debug, Drop, Error)]
pub enum ReadFault {
    #[error("out of memory")]
    NoMemory,
    #[error(transparent)]
    Fault(XdrFault),
}

impl From<XdrFault> for ReadFault {
    ghost from_gives = { λ f e. e ≡ Fault f };

    fn from(fault: XdrFault) -> ReadFault {
        ReadFault::Fault(fault)
    }
}

impl From<AllocError> for ReadFault {
    ghost from_gives = { λ _ e. e ≡ NoMemory };

    fn from(_e: AllocError) -> ReadFault {
        ReadFault::NoMemory
    }
}

impl<T: Drop> From<AllocFailed<T>> for ReadFault {
    ghost from_gives = { λ _ e. e ≡ NoMemory };

    fn from(_e: AllocFailed<T>) -> ReadFault {
        ReadFault::NoMemory
    }
}

/// A type whose values have a spelling.
pub trait FromXdr<'a>: Drop {
    /// How its values are spelled: its type in XDR.
    ghost item: { Item };

    /// What a value says.
    ghost value: { Self → Value item };

    /// Reads a value from the front. After an `Err` the reader is as it was.
    fn read(alloc: Global, reader: &mut Reader<'a>) -> Result<Self, ReadFault>
    where
        Self: Sized,
        ensures { ReadsUnless xdr_fault item value reader.old result reader.new };
}

impl<'a> FromXdr<'a> for u32 {
    ghost item = { word };

    ghost value = { λ n. n };

    fn read(_alloc: Global, reader: &mut Reader<'a>) -> Result<u32, ReadFault>
        ensures reads { ReadsUnless xdr_fault word (λ n. n) reader.old result reader.new }
        ensures fault { IfErr result (λ e. IsSome (xdr_fault e)) }
    {
        Ok(reader.u32()?)
    }
}

/// Reads an array of at most `max` items (RFC 4506, section 4.13). `Short` where the count isn't there,
/// `TooLong` where it is above `max`, else the first fault of the items. After an `Err` the reader is as it
/// was.
pub fn read_array<'a, T: FromXdr<'a>>(
    alloc: Global,
    reader: &mut Reader<'a>,
    max: u32,
) -> Result<Vec<T>, ReadFault>
    ensures { ReadsUnless xdr_fault (array max T.item) (λ v. map T.value v.items)
        reader.old result reader.new }
{
    let start = reader.rest();
    let read = array_items(alloc, reader, max);
    put_back_on_err(reader, start, read)
}

/// Reads an array. After an `Err` the reader may stand within it.
fn array_items<'a, T: FromXdr<'a>>(
    alloc: Global,
    reader: &mut Reader<'a>,
    max: u32,
) -> Result<Vec<T>, ReadFault>
    ensures { GivesUnless xdr_fault (array max T.item) (λ v. map T.value v.items)
        reader.old result reader.new }
{
    let count = reader.u32()?;
    if count > max {
        return Err(ReadFault::Fault(XdrFault::TooLong));
    }
    let mut items = Vec::new(alloc);
    for _ in 0..count {
        items.push(T::read(alloc, reader)?)?;
    }
    Ok(items)
}
