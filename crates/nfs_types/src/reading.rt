//! Reads the arguments of procedures.

ghost use Rattle.std.specs.Prelude.{◌≡◌, ℕ, List, IfOk, IsOkAnd};
ghost use Rattle.nfs_items.specs.xdr.Reading.{Gives};
ghost use Rattle.nfs_types.specs.Items.{diropargs};
ghost use Rattle.nfs_types.specs.Calls.{Call};
ghost use Rattle.nfs_types.specs.Texts.{procedure_in, SaysCall};
ghost use Rattle.nfs_types.specs.Bounds.{HasBounds};
ghost use Rattle.nfs_types.specs.Arguments.{diropargs_value, call_of, GivesCall, ReadsCall};
ghost use Rattle.nfs_types.specs.declared.arguments.NfsProcedure.TheVariants as procedures;

use crate::arguments::{DirOpArgs, NfsArgs, NfsProcedure};
use crate::limits::{MAXDATA, MAXNAMLEN, MAXPATHLEN};
use nfs_items::{FileHandleRef, Reader, Sattr, XdrFault};

/// Reads a procedure's arguments from the front of bytes, and ignores what follows them (RFC 1094,
/// section 2.2). The fault is the first from left to right.
pub fn read_args(procedure: NfsProcedure, bytes: &[u8]) -> Result<NfsArgs<'_>, XdrFault>
    ensures found { IfOk result (λ a. (rest : List ℕ) × SaysCall procedure bytes.now (call_of a) rest) }
    ensures only { (call : Call) (rest : List ℕ) → SaysCall procedure bytes.now call rest →
        IsOkAnd result (λ a. call_of a ≡ call) }
    ensures exact { ReadsCall procedure bytes.now result }
    ensures own { IfOk result (λ a. procedure_in (call_of a) ≡ procedure) }
    ensures bounds { IfOk result (λ a. HasBounds (call_of a)) }
{
    read_arguments(procedure, &mut Reader::new(bytes))
}

fn read_arguments<'a>(
    procedure: NfsProcedure,
    reader: &mut Reader<'a>,
) -> Result<NfsArgs<'a>, XdrFault>
    ensures { GivesCall procedure reader.old result reader.new }
{
    match procedure {
        NfsProcedure::Null => Ok(NfsArgs::Null),
        NfsProcedure::Getattr => read_getattr(reader),
        NfsProcedure::Setattr => read_setattr(reader),
        NfsProcedure::Root => Ok(NfsArgs::Root),
        NfsProcedure::Lookup => read_lookup(reader),
        NfsProcedure::Readlink => read_readlink(reader),
        NfsProcedure::Read => read_read(reader),
        NfsProcedure::Writecache => Ok(NfsArgs::Writecache),
        NfsProcedure::Write => read_write(reader),
        NfsProcedure::Create => read_create(reader),
        NfsProcedure::Remove => read_remove(reader),
        NfsProcedure::Rename => read_rename(reader),
        NfsProcedure::Link => read_link(reader),
        NfsProcedure::Symlink => read_symlink(reader),
        NfsProcedure::Mkdir => read_mkdir(reader),
        NfsProcedure::Rmdir => read_rmdir(reader),
        NfsProcedure::Readdir => read_readdir(reader),
        NfsProcedure::Statfs => read_statfs(reader),
    }
}

fn read_dir_op<'a>(reader: &mut Reader<'a>) -> Result<DirOpArgs<'a>, XdrFault>
    ensures { Gives diropargs diropargs_value reader.old result reader.new }
{
    let dir = FileHandleRef::read(reader)?; // before the name
    let name = reader.opaque(MAXNAMLEN)?;
    Ok(DirOpArgs { dir, name })
}

fn read_getattr<'a>(reader: &mut Reader<'a>) -> Result<NfsArgs<'a>, XdrFault>
    ensures { GivesCall procedures.Getattr reader.old result reader.new }
{
    Ok(NfsArgs::Getattr(FileHandleRef::read(reader)?))
}

fn read_setattr<'a>(reader: &mut Reader<'a>) -> Result<NfsArgs<'a>, XdrFault>
    ensures { GivesCall procedures.Setattr reader.old result reader.new }
{
    let file = FileHandleRef::read(reader)?;
    let attributes = Sattr::read(reader)?;
    Ok(NfsArgs::Setattr { file, attributes })
}

fn read_lookup<'a>(reader: &mut Reader<'a>) -> Result<NfsArgs<'a>, XdrFault>
    ensures { GivesCall procedures.Lookup reader.old result reader.new }
{
    Ok(NfsArgs::Lookup(read_dir_op(reader)?))
}

fn read_readlink<'a>(reader: &mut Reader<'a>) -> Result<NfsArgs<'a>, XdrFault>
    ensures { GivesCall procedures.Readlink reader.old result reader.new }
{
    Ok(NfsArgs::Readlink(FileHandleRef::read(reader)?))
}

/// READ's totalcount means nothing.
fn read_read<'a>(reader: &mut Reader<'a>) -> Result<NfsArgs<'a>, XdrFault>
    ensures { GivesCall procedures.Read reader.old result reader.new }
{
    let file = FileHandleRef::read(reader)?;
    let offset = reader.u32()?;
    let count = reader.u32()?;
    let _totalcount = reader.u32()?;
    Ok(NfsArgs::Read {
        file,
        offset,
        count,
    })
}

/// WRITE's beginoffset and totalcount mean nothing.
fn read_write<'a>(reader: &mut Reader<'a>) -> Result<NfsArgs<'a>, XdrFault>
    ensures { GivesCall procedures.Write reader.old result reader.new }
{
    let file = FileHandleRef::read(reader)?;
    let _beginoffset = reader.u32()?;
    let offset = reader.u32()?; // of the data
    let _totalcount = reader.u32()?;
    let data = reader.opaque(MAXDATA)?;
    Ok(NfsArgs::Write { file, offset, data })
}

fn read_create<'a>(reader: &mut Reader<'a>) -> Result<NfsArgs<'a>, XdrFault>
    ensures { GivesCall procedures.Create reader.old result reader.new }
{
    let place = read_dir_op(reader)?;
    let attributes = Sattr::read(reader)?;
    Ok(NfsArgs::Create { place, attributes })
}

fn read_remove<'a>(reader: &mut Reader<'a>) -> Result<NfsArgs<'a>, XdrFault>
    ensures { GivesCall procedures.Remove reader.old result reader.new }
{
    Ok(NfsArgs::Remove(read_dir_op(reader)?))
}

fn read_rename<'a>(reader: &mut Reader<'a>) -> Result<NfsArgs<'a>, XdrFault>
    ensures { GivesCall procedures.Rename reader.old result reader.new }
{
    let from = read_dir_op(reader)?;
    let to = read_dir_op(reader)?;
    Ok(NfsArgs::Rename { from, to })
}

fn read_link<'a>(reader: &mut Reader<'a>) -> Result<NfsArgs<'a>, XdrFault>
    ensures { GivesCall procedures.Link reader.old result reader.new }
{
    let file = FileHandleRef::read(reader)?;
    let place = read_dir_op(reader)?;
    Ok(NfsArgs::Link { file, place })
}

fn read_symlink<'a>(reader: &mut Reader<'a>) -> Result<NfsArgs<'a>, XdrFault>
    ensures { GivesCall procedures.Symlink reader.old result reader.new }
{
    let place = read_dir_op(reader)?;
    let target = reader.opaque(MAXPATHLEN)?;
    let attributes = Sattr::read(reader)?;
    Ok(NfsArgs::Symlink {
        place,
        target,
        attributes,
    })
}

fn read_mkdir<'a>(reader: &mut Reader<'a>) -> Result<NfsArgs<'a>, XdrFault>
    ensures { GivesCall procedures.Mkdir reader.old result reader.new }
{
    let place = read_dir_op(reader)?;
    let attributes = Sattr::read(reader)?;
    Ok(NfsArgs::Mkdir { place, attributes })
}

fn read_rmdir<'a>(reader: &mut Reader<'a>) -> Result<NfsArgs<'a>, XdrFault>
    ensures { GivesCall procedures.Rmdir reader.old result reader.new }
{
    Ok(NfsArgs::Rmdir(read_dir_op(reader)?))
}

fn read_readdir<'a>(reader: &mut Reader<'a>) -> Result<NfsArgs<'a>, XdrFault>
    ensures { GivesCall procedures.Readdir reader.old result reader.new }
{
    let dir = FileHandleRef::read(reader)?;
    let cookie = u32::from_be_bytes(*reader.fixed::<4>()?);
    let count = reader.u32()?;
    Ok(NfsArgs::Readdir { dir, cookie, count })
}

fn read_statfs<'a>(reader: &mut Reader<'a>) -> Result<NfsArgs<'a>, XdrFault>
    ensures { GivesCall procedures.Statfs reader.old result reader.new }
{
    Ok(NfsArgs::Statfs(FileHandleRef::read(reader)?))
}
