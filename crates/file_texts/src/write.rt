//! Files as texts (RFC 4506).

ghost use Rattle.std.specs.Prelude.{◌≡◌, ◌≤◌, OnOk, length, map};
ghost use Rattle.std.specs.List.{flat_map, AllByRecursion};
ghost use Rattle.xdr.specs.Item.{Fits, array, choice, spelling};
ghost use Rattle.xdr.specs.Writing.{Adds};
ghost use Rattle.fs_spec.specs.nfs_items.Timeval.{timeval, timeval_value};
ghost use Rattle.fs_spec.specs.Maxima.{max_file_size, max_target, max_name};
ghost use Rattle.fs_spec.specs.Files.{listing_in};
ghost use Rattle.tree_rules.specs.inodes.Directories.Entries.{entries_of};
ghost use Rattle.tree_rules.specs.inodes.Inodes.{body_in, file_in};
ghost use Rattle.server_spec.specs.FileItems.{entry_item, attributes_item, attributes_value, kind_item};
ghost use Rattle.server_spec.specs.FileItems.{kind_value, is_file_kind, file_item, file_value};
ghost use Rattle.file_texts.specs.Bounds.{IsWritable};
ghost use Rattle.file_texts.specs.Stored.{entry_in};
ghost use Rattle.tree_rules.specs.declared.limits.TheConstants.{MAX_DIRECTORY_ENTRIES};

use fs_spec::Time;
use indexmap::map::Slice;
use std::alloc::AllocError;
use tree_rules::{Body, Directory, Entry, Inode};
use xdr::Writer;

/// Appends the text of a file with its number; where memory is refused a part of it may stand.
pub fn add_file(number: u32, inode: &Inode, out: &mut Vec<u8>) -> Result<(), AllocError>
    requires { IsWritable (body_in inode.now.body) }
    ensures fits { OnOk result (Fits file_item (file_value (number, file_in inode.now))) }
    ensures text { Adds (spelling file_item (file_value (number, file_in inode.now)))
        out.old.items result out.new.items }
{
    out.put_u32(number)?;
    add_kind(inode, out)
}

/// What stands after a file's number.
fn add_kind(inode: &Inode, out: &mut Vec<u8>) -> Result<(), AllocError>
    requires { IsWritable (body_in inode.now.body) }
    ensures fits { OnOk result
        (Fits (choice is_file_kind kind_item) (kind_value (file_in inode.now) (body_in inode.now.body))) }
    ensures text { Adds
        (spelling (choice is_file_kind kind_item) (kind_value (file_in inode.now) (body_in inode.now.body)))
        out.old.items result out.new.items }
{
    match &inode.body {
        Body::Regular(bytes) => add_regular(inode, bytes, out),
        Body::Symlink(target) => add_symlink(inode, target, out),
        Body::Directory { listing, .. } => add_directory(inode, listing, out),
    }
}

fn add_regular(inode: &Inode, bytes: &[u8], out: &mut Vec<u8>) -> Result<(), AllocError>
    requires { length bytes.now ≤ max_file_size }
    ensures fits { OnOk result
        (Fits (choice is_file_kind kind_item) (1, (attributes_value (file_in inode.now), bytes.now))) }
    ensures text { Adds
        (spelling (choice is_file_kind kind_item) (1, (attributes_value (file_in inode.now), bytes.now)))
        out.old.items result out.new.items }
{
    out.put_u32(1)?;
    add_attributes(inode, out)?;
    out.put_opaque(bytes)
}

fn add_symlink(inode: &Inode, target: &[u8], out: &mut Vec<u8>) -> Result<(), AllocError>
    requires { length target.now ≤ max_target }
    ensures fits { OnOk result
        (Fits (choice is_file_kind kind_item) (5, (attributes_value (file_in inode.now), target.now))) }
    ensures text { Adds
        (spelling (choice is_file_kind kind_item) (5, (attributes_value (file_in inode.now), target.now)))
        out.old.items result out.new.items }
{
    out.put_u32(5)?;
    add_attributes(inode, out)?;
    out.put_opaque(target)
}

fn add_directory(inode: &Inode, listing: &Directory, out: &mut Vec<u8>) -> Result<(), AllocError>
    requires few { length listing.now.entries ≤ MAX_DIRECTORY_ENTRIES }
    requires names { AllByRecursion (λ e. length e.0 ≤ max_name) listing.now.entries }
    ensures fits { OnOk result (Fits (choice is_file_kind kind_item)
        (2, (attributes_value (file_in inode.now), (listing.now.next, listing.now.entries)))) }
    ensures text { Adds (spelling (choice is_file_kind kind_item)
        (2, (attributes_value (file_in inode.now), (listing.now.next, listing.now.entries))))
        out.old.items result out.new.items }
{
    out.put_u32(2)?;
    add_attributes(inode, out)?;
    out.put_u32(listing.next())?;
    add_entries(listing, out)
}

/// A directory's entries after their count.
fn add_entries(listing: &Directory, out: &mut Vec<u8>) -> Result<(), AllocError>
    requires few { length listing.now.entries ≤ MAX_DIRECTORY_ENTRIES }
    requires names { AllByRecursion (λ e. length e.0 ≤ max_name) listing.now.entries }
    ensures fits { OnOk result (Fits (array MAX_DIRECTORY_ENTRIES entry_item) listing.now.entries) }
    ensures text { Adds (spelling (array MAX_DIRECTORY_ENTRIES entry_item) listing.now.entries)
        out.old.items result out.new.items }
{
    out.put_u32(listing.len() as u32)?;
    add_each(listing.entries(), out)
}

/// Entries one after the other.
fn add_each(entries: Slice<'_, Vec<u8>, Entry>, out: &mut Vec<u8>) -> Result<(), AllocError>
    requires { AllByRecursion (λ e. length e.0 ≤ max_name) (entries_of entries) }
    ensures fits { OnOk result (AllByRecursion (Fits entry_item) (entries_of entries.entry)) }
    ensures text { Adds (flat_map (λ e. spelling entry_item (entry_in e)) entries.entry)
        out.old.items result out.new.items }
{
    for (name, entry) in entries {
        add_entry(name, entry, out)?;
    }
    Ok(())
}

fn add_entry(name: &[u8], entry: &Entry, out: &mut Vec<u8>) -> Result<(), AllocError>
    requires { length name.now ≤ max_name }
    ensures fits { OnOk result (Fits entry_item (name.now, (entry.now.number, entry.now.cookie))) }
    ensures text { Adds (spelling entry_item (name.now, (entry.now.number, entry.now.cookie)))
        out.old.items result out.new.items }
{
    out.put_opaque(name)?;
    out.put_u32(entry.number)?;
    out.put_u32(entry.cookie)
}

fn add_attributes(inode: &Inode, out: &mut Vec<u8>) -> Result<(), AllocError>
    ensures fits { OnOk result (Fits attributes_item (attributes_value (file_in inode.now))) }
    ensures text { Adds (spelling attributes_item (attributes_value (file_in inode.now)))
        out.old.items result out.new.items }
{
    out.put_u32(u32::from(inode.mode))?;
    out.put_u32(inode.uid)?;
    out.put_u32(inode.gid)?;
    add_time(inode.atime, out)?;
    add_time(inode.mtime, out)?;
    add_time(inode.ctime, out)
}

fn add_time(time: Time, out: &mut Vec<u8>) -> Result<(), AllocError>
    ensures fits { OnOk result (Fits timeval (timeval_value time)) }
    ensures text { Adds (spelling timeval (timeval_value time)) out.old.items result out.new.items }
{
    out.put_u32(time.seconds())?;
    out.put_u32(time.microseconds())
}
