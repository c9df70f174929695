//! Procedures that read alone.

ghost use Rattle.std.specs.Prelude.{◌≡◌, true};
ghost use Rattle.xdr.specs.Writing.{Appends};
ghost use Rattle.nfs_items.specs.CallerOf.{caller_of};
ghost use Rattle.file_tree.specs.nfs_types.Calls.{Attributes, DirOp, Target, Bytes, Entries, Free};
ghost use Rattle.file_tree.specs.nfs_types.Texts.{answer_text};
ghost use Rattle.file_tree.specs.nfs_types.Arguments.{call_of};
ghost use Rattle.nfs_items.specs.Attributes.{outcome_of};
ghost use Rattle.file_tree.specs.nfs_types.Results.{dir_op_of};
ghost use Rattle.nfs_laws.specs.nfs_spec.Effects.{getattr, lookup};
ghost use Rattle.nfs_laws.specs.nfs_spec.NfsCalls.{number_for, call_does};
ghost use Rattle.nfs_laws.specs.nfs_spec.Procedures.{read_link, read, read_dir, stat_fs};
ghost use Rattle.nfs_laws.specs.Steps.Answers.{only_reads};

use crate::handles::number_for;
use file_tree::{
    DirOpArgs, DirOpOk, NfsArgs, NfsResult, Tree, write_attributes, write_dir_op, write_result,
};
use nfs_items::{Fattr, FileHandle, FileHandleRef, Stat, Time, Who};
use std::alloc::{AllocError, Global};

/// GETATTR (section 2.2.2). Stale where the file handle names no file here.
fn getattr(tree: &Tree, file: FileHandleRef) -> Result<Fattr, Stat>
    ensures { result ≡ getattr tree.now.files file.entry.0.now }
{
    match file.number_in(tree.fsid()) {
        Some(number) => tree.attributes(number),
        None => Err(Stat::Stale),
    }
}

/// LOOKUP (section 2.2.5). Stale where the file handle names no file here.
fn lookup(tree: &Tree, who: &Who, args: DirOpArgs) -> Result<DirOpOk, Stat>
    ensures { outcome_of dir_op_of result
        ≡ lookup tree.now.files (caller_of who.now) args.entry.dir.0.now args.entry.name.now }
{
    let Some(dir) = args.dir.number_in(tree.fsid()) else {
        return Err(Stat::Stale);
    };
    let number = tree.lookup(who, dir, args.name)?;
    let attributes = tree.attributes(number)?;
    Ok(DirOpOk {
        file: FileHandle::new(tree.fsid(), number),
        attributes,
    })
}

/// The answer to GETATTR.
fn add_attributes(tree: &Tree, file: FileHandleRef, out: &mut Vec<u8>) -> Result<(), AllocError>
    ensures { Appends (answer_text (Attributes (getattr tree.now.files file.entry.0.now)))
        out.old.items result out.new.items }
{
    write_attributes(&getattr(tree, file), out)
}

/// The answer to LOOKUP.
fn add_found(tree: &Tree, who: &Who, args: DirOpArgs, out: &mut Vec<u8>) -> Result<(), AllocError>
    ensures { Appends
        (answer_text (DirOp
        (lookup tree.now.files (caller_of who.now) args.entry.dir.0.now args.entry.name.now)))
        out.old.items result out.new.items }
{
    write_dir_op(&lookup(tree, who, args), out)
}

/// READLINK (section 2.2.6).
fn add_target(tree: &Tree, file: FileHandleRef, out: &mut Vec<u8>) -> Result<(), AllocError>
    ensures { Appends
        (answer_text (Target (read_link tree.now.files (number_for tree.now.files file.entry.0.now))))
        out.old.items result out.new.items }
{
    let target = tree.read_link(number_for(tree, file));
    write_result(&NfsResult::Target(target), out)
}

/// READ (section 2.2.7).
fn add_bytes(
    tree: &Tree,
    who: &Who,
    file: FileHandleRef,
    offset: u32,
    count: u32,
    out: &mut Vec<u8>,
) -> Result<(), AllocError>
    ensures { Appends
        (answer_text (Bytes
        (read tree.now.files (caller_of who.now) (number_for tree.now.files file.entry.0.now) offset count)))
        out.old.items result out.new.items }
{
    let read = tree.read(who, number_for(tree, file), offset, count);
    write_result(&NfsResult::Bytes(read), out)
}

/// READDIR (section 2.2.17).
fn add_entries(
    tree: &Tree,
    alloc: Global,
    who: &Who,
    dir: FileHandleRef,
    cookie: u32,
    count: u32,
    out: &mut Vec<u8>,
) -> Result<(), AllocError>
    ensures { Appends (answer_text
        (Entries (read_dir tree.now.files (caller_of who.now)
        (number_for tree.now.files dir.entry.0.now) cookie count)))
        out.old.items result out.new.items }
{
    let page = tree.list(alloc, who, number_for(tree, dir), cookie, count)?;
    write_result(&NfsResult::Entries(page), out)
}

/// STATFS (section 2.2.18).
fn add_figures(tree: &Tree, file: FileHandleRef, out: &mut Vec<u8>) -> Result<(), AllocError>
    ensures { Appends
        (answer_text (Free (stat_fs tree.now.files (number_for tree.now.files file.entry.0.now))))
        out.old.items result out.new.items }
{
    let figures = tree.figures(number_for(tree, file));
    write_result(&NfsResult::Free(figures), out)
}

/// Appends what a caller is answered by a procedure that reads alone. Where memory is refused, the bytes are
/// as they were.
pub(crate) fn answer_read(
    tree: &Tree,
    alloc: Global,
    who: &Who,
    now: Time,
    args: &NfsArgs,
    out: &mut Vec<u8>,
) -> Result<(), AllocError>
    requires { only_reads (call_of args.now) ≡ true }
    ensures text { Appends
        (answer_text (call_does tree.now.files (caller_of who.now) now (call_of args.now)).0)
        out.old.items result out.new.items }
    ensures files { (call_does tree.now.files (caller_of who.now) now (call_of args.now)).1 ≡ tree.now.files }
{
    match args {
        NfsArgs::Getattr(file) => add_attributes(tree, *file, out),
        NfsArgs::Lookup(args) => add_found(tree, who, *args, out),
        NfsArgs::Readlink(file) => add_target(tree, *file, out),
        NfsArgs::Read {
            file,
            offset,
            count,
        } => add_bytes(tree, who, *file, *offset, *count, out),
        NfsArgs::Readdir { dir, cookie, count } => {
            add_entries(tree, alloc, who, *dir, *cookie, *count, out)
        }
        NfsArgs::Statfs(file) => add_figures(tree, *file, out),
        _ => write_result(&NfsResult::Nothing, out),
    }
}
