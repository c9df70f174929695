//! Procedures that change files.

ghost use Rattle.std.specs.Prelude.{◌≡◌, ◌≤◌, false, length};
ghost use Rattle.nfs_items.specs.CallerOf.{caller_of};
ghost use Rattle.nfs_laws.specs.fs_spec.Maxima.{max_name, max_target};
ghost use Rattle.file_tree.specs.nfs_types.Bounds.{HasBounds};
ghost use Rattle.file_tree.specs.nfs_types.Calls.{Setattr, Write, Create, Remove, Rename, Link, Symlink};
ghost use Rattle.file_tree.specs.nfs_types.Calls.{Mkdir, Rmdir};
ghost use Rattle.file_tree.specs.nfs_types.Arguments.{call_of};
ghost use Rattle.nfs_laws.specs.Steps.Answers.{only_reads};
ghost use Rattle.nfs_procs.specs.Changed.{IsDone, IsChanged};

use crate::handles::{file_after, number_for};
use file_tree::{DirOpArgs, NfsArgs, NfsResult, Tree};
use nfs_items::{FileHandleRef, Sattr, Time, Who};
use std::alloc::{AllocError, Global};

/// SETATTR (section 2.2.3).
fn setattr(
    tree: &mut Tree,
    who: &Who,
    now: Time,
    file: FileHandleRef,
    attributes: &Sattr,
) -> Result<NfsResult<'static>, AllocError>
    ensures { IsChanged tree.old.files (caller_of who.now) now
        (Setattr file.entry.0.now attributes.now) result tree.new.files }
{
    let number = number_for(tree, file);
    let done = tree.set_attributes(who, now, number, attributes)?;
    Ok(NfsResult::Attributes(done))
}

/// WRITE (section 2.2.9).
fn write(
    tree: &mut Tree,
    who: &Who,
    now: Time,
    file: FileHandleRef,
    offset: u32,
    bytes: &[u8],
) -> Result<NfsResult<'static>, AllocError>
    ensures { IsChanged tree.old.files (caller_of who.now) now
        (Write file.entry.0.now offset bytes.now) result tree.new.files }
{
    let number = number_for(tree, file);
    let done = tree.write(who, now, number, offset, bytes)?;
    Ok(NfsResult::Attributes(done))
}

/// CREATE (section 2.2.10).
fn create(
    tree: &mut Tree,
    alloc: Global,
    who: &Who,
    now: Time,
    place: DirOpArgs,
    attributes: &Sattr,
) -> Result<NfsResult<'static>, AllocError>
    requires { length place.name.now ≤ max_name }
    ensures { IsChanged tree.old.files (caller_of who.now) now
        (Create place.entry.dir.0.now place.entry.name.now attributes.now) result tree.new.files }
{
    let dir = number_for(tree, place.dir);
    let made = tree.create(alloc, who, now, dir, place.name, attributes)?;
    Ok(NfsResult::DirOp(file_after(tree, made)))
}

/// REMOVE (section 2.2.11).
fn remove(tree: &mut Tree, who: &Who, now: Time, place: DirOpArgs) -> NfsResult<'static>
    ensures { IsDone tree.old.files (caller_of who.now) now
        (Remove place.entry.dir.0.now place.entry.name.now) result tree.new.files }
{
    let dir = number_for(tree, place.dir);
    NfsResult::Status(tree.remove(who, now, dir, place.name))
}

/// RMDIR (section 2.2.16).
fn remove_dir(tree: &mut Tree, who: &Who, now: Time, place: DirOpArgs) -> NfsResult<'static>
    ensures { IsDone tree.old.files (caller_of who.now) now
        (Rmdir place.entry.dir.0.now place.entry.name.now) result tree.new.files }
{
    let dir = number_for(tree, place.dir);
    NfsResult::Status(tree.remove_dir(who, now, dir, place.name))
}

/// RENAME (section 2.2.12).
fn rename(
    tree: &mut Tree,
    alloc: Global,
    who: &Who,
    now: Time,
    from: DirOpArgs,
    to: DirOpArgs,
) -> Result<NfsResult<'static>, AllocError>
    requires { length to.name.now ≤ max_name }
    ensures { IsChanged tree.old.files (caller_of who.now) now
        (Rename from.entry.dir.0.now from.entry.name.now to.entry.dir.0.now to.entry.name.now)
        result tree.new.files }
{
    let (source, target) = (number_for(tree, from.dir), number_for(tree, to.dir));
    let done = tree.rename(alloc, who, now, source, from.name, target, to.name)?;
    Ok(NfsResult::Status(done))
}

/// LINK (section 2.2.13).
fn link(
    tree: &mut Tree,
    alloc: Global,
    who: &Who,
    now: Time,
    file: FileHandleRef,
    place: DirOpArgs,
) -> Result<NfsResult<'static>, AllocError>
    requires { length place.name.now ≤ max_name }
    ensures { IsChanged tree.old.files (caller_of who.now) now
        (Link file.entry.0.now place.entry.dir.0.now place.entry.name.now) result tree.new.files }
{
    let (number, dir) = (number_for(tree, file), number_for(tree, place.dir));
    let done = tree.link(alloc, who, now, number, dir, place.name)?;
    Ok(NfsResult::Status(done))
}

/// SYMLINK (section 2.2.14).
fn symlink(
    tree: &mut Tree,
    alloc: Global,
    who: &Who,
    now: Time,
    place: DirOpArgs,
    target: &[u8],
    attributes: &Sattr,
) -> Result<NfsResult<'static>, AllocError>
    requires name { length place.name.now ≤ max_name }
    requires target { length target.now ≤ max_target }
    ensures { IsChanged tree.old.files (caller_of who.now) now
        (Symlink place.entry.dir.0.now place.entry.name.now target.now attributes.now) result tree.new.files }
{
    let dir = number_for(tree, place.dir);
    let made = tree.symlink(alloc, who, now, dir, place.name, target)?;
    Ok(NfsResult::Status(made.map(|_number| ())))
}

/// MKDIR (section 2.2.15).
fn make_dir(
    tree: &mut Tree,
    alloc: Global,
    who: &Who,
    now: Time,
    place: DirOpArgs,
    attributes: &Sattr,
) -> Result<NfsResult<'static>, AllocError>
    requires { length place.name.now ≤ max_name }
    ensures { IsChanged tree.old.files (caller_of who.now) now
        (Mkdir place.entry.dir.0.now place.entry.name.now attributes.now) result tree.new.files }
{
    let dir = number_for(tree, place.dir);
    let made = tree.make_dir(alloc, who, now, dir, place.name, attributes)?;
    Ok(NfsResult::DirOp(file_after(tree, made)))
}

/// Does what a call that changes files asks for. Where memory is refused, the files are as they were.
pub(crate) fn change(
    tree: &mut Tree,
    alloc: Global,
    who: &Who,
    now: Time,
    args: &NfsArgs,
) -> Result<NfsResult<'static>, AllocError>
    requires changes { only_reads (call_of args.now) ≡ false }
    requires bounds { HasBounds (call_of args.now) }
    ensures { IsChanged tree.old.files (caller_of who.now) now (call_of args.now) result tree.new.files }
{
    match args {
        NfsArgs::Setattr { file, attributes } => setattr(tree, who, now, *file, attributes),
        NfsArgs::Write { file, offset, data } => write(tree, who, now, *file, *offset, data),
        NfsArgs::Create { place, attributes } => {
            create(tree, alloc, who, now, *place, attributes)
        }
        NfsArgs::Rename { from, to } => rename(tree, alloc, who, now, *from, *to),
        NfsArgs::Link { file, place } => link(tree, alloc, who, now, *file, *place),
        NfsArgs::Symlink {
            place,
            target,
            attributes,
        } => symlink(tree, alloc, who, now, *place, target, attributes),
        NfsArgs::Mkdir { place, attributes } => {
            make_dir(tree, alloc, who, now, *place, attributes)
        }
        NfsArgs::Remove(place) => Ok(remove(tree, who, now, *place)),
        NfsArgs::Rmdir(place) => Ok(remove_dir(tree, who, now, *place)),
        _ => unreachable!(),
    }
}
