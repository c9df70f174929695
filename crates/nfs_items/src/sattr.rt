//! Attributes that a call brings.

ghost use Rattle.std.specs.Prelude.{◌≡◌};
ghost use Rattle.xdr.specs.Reading.{Gives, Reads};

use std::marker::Model;
use xdr::{Reader, XdrFault, put_back_on_err};

/// A time as a call brings it (RFC 1094, section 2.3.4): any two words.
#[derive(Clone, Copy, Debug, PartialEq, Eq)]
pub struct RawTime {
    pub seconds: u32,
    pub microseconds: u32,
}

impl Model for RawTime {
    ghost use Rattle.nfs_items.specs.Timeval.{Timeval, timeval_code};

    ghost Value = { Timeval };

    ghost coded = { timeval_code };

    ghost view = { λ t. record { seconds = t.seconds; microseconds = t.microseconds } };

    ghost inverse = { λ v. record { seconds = v.seconds; microseconds = v.microseconds } };
}

/// The attributes that a call brings (RFC 1094, section 2.3.6, sattr): any words, of which some mean that
/// nothing is given.
#[derive(Clone, Copy, Debug, PartialEq, Eq)]
pub struct Sattr {
    pub mode: u32,
    pub uid: u32,
    pub gid: u32,
    /// In bytes.
    pub size: u32,
    pub atime: RawTime,
    pub mtime: RawTime,
}

impl Sattr {
    ghost use Rattle.nfs_items.specs.Sattr.{sattr, sattr_value};

    /// Reads the attributes from the front, six items one after the other. After an `Err` (`Short` where
    /// bytes are lacking) the reader is as it was.
    pub fn read(reader: &mut Reader<'_>) -> Result<Sattr, XdrFault>
        ensures { Reads sattr sattr_value reader.old result reader.new }
    {
        let start = reader.rest();
        let read = read_fields(reader);
        put_back_on_err(reader, start, read)
    }
}

ghost use Rattle.nfs_items.specs.Timeval.{timeval, timeval_value};
ghost use Rattle.nfs_items.specs.Sattr.{sattr, sattr_value};

fn read_time(reader: &mut Reader<'_>) -> Result<RawTime, XdrFault>
    ensures { Gives timeval timeval_value reader.old result reader.new }
{
    let seconds = reader.u32()?;
    let microseconds = reader.u32()?;
    Ok(RawTime {
        seconds,
        microseconds,
    })
}

fn read_fields(reader: &mut Reader<'_>) -> Result<Sattr, XdrFault>
    ensures { Gives sattr sattr_value reader.old result reader.new }
{
    let mode = reader.u32()?;
    let uid = reader.u32()?;
    let gid = reader.u32()?;
    let size = reader.u32()?;
    let atime = read_time(reader)?;
    let mtime = read_time(reader)?;
    Ok(Sattr {
        mode,
        uid,
        gid,
        size,
        atime,
        mtime,
    })
}
