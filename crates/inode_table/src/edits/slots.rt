//! Edits of the inode of a number; where it has none, nothing changes.

ghost use Rattle.std.specs.Prelude.{◌≡◌, ◌<◌, ◌+◌, ◌-◌, ◌^◌, ℕ, IfOk, IsSome, OnOk, OnErr, Some, None};
ghost use Rattle.std.specs.Prelude.{length, true, if◌then◌else◌};
ghost use Rattle.fs_spec.specs.Files.{File, is_directory, listing_in};
ghost use Rattle.fs_spec.specs.Listing.{with_entry, without_entry};
ghost use Rattle.fs_spec.specs.Trees.{IsBody};
ghost use Rattle.fs_spec.specs.Changes.Edits.{map_listing};
ghost use Rattle.fs_spec.specs.Changes.Limits.{blocks_in};
ghost use Rattle.nfs_count_laws.specs.nfs_spec.Changes.{apply_fields, with_ctime, with_mtime};
ghost use Rattle.nfs_count_laws.specs.CountChanges.{is_last_name};
ghost use Rattle.nfs_count_laws.specs.nfs_laws.Sizes.Bounds.{HasWords};
ghost use Rattle.tree_rules.specs.inodes.Contents.{body_with_bytes_at};
ghost use Rattle.tree_rules.specs.inodes.Given.{given_in};
ghost use Rattle.tree_rules.specs.inodes.declared.inode.Inode as stored;
ghost use Rattle.tree_rules.specs.inodes.Inodes.{body_in, fattr_of, file_in, inode_at, links_at, parent_in};
ghost use Rattle.tree_rules.specs.inodes.Inodes.{stored_at};
ghost use Rattle.inode_table.specs.Edits.Slots.{AddsEntry, AddsInode, AddsNamed, AreAlike, ChangesFile};
ghost use Rattle.inode_table.specs.Edits.Slots.{ChangesLinks, DropsName, IsBlockChange, MayUnname};
ghost use Rattle.inode_table.specs.Edits.Slots.{RemovesInode, SetsParent, TakesEntry, Unnames};

use fs_spec::{Fattr, Time};
use std::alloc::AllocError;
use std::collections::BTreeMap;
use tree_rules::{Given, Inode};

/// mtime and ctime become now.
pub fn touch(inodes: &mut BTreeMap<u32, Inode>, number: u32, now: Time)
    ensures { ChangesFile number (with_mtime now) inodes.old.entries inodes.new.entries }
{
    if let Some(inode) = inodes.get_mut(&number) {
        inode.touch(now);
    }
}

/// ctime becomes now.
pub fn set_ctime(inodes: &mut BTreeMap<u32, Inode>, number: u32, now: Time)
    ensures { ChangesFile number (with_ctime now) inodes.old.entries inodes.new.entries }
{
    if let Some(inode) = inodes.get_mut(&number) {
        inode.set_ctime(now);
    }
}

/// The blocks that a file takes before and after an edit of it, and its attributes after it.
#[derive(Clone, Copy)]
pub struct Edited {
    pub before: u32,
    pub after: u32,
    pub attributes: Fattr,
}

/// Owner, group and seconds of an inode are words: does nothing, and tells a caller's proof.
fn inode_has_words(inode: &Inode)
    ensures { HasWords (file_in inode.now) }
{
    let _uid = inode.uid;
    let _gid = inode.gid;
    let _atime = inode.atime.seconds();
    let _mtime = inode.mtime.seconds();
    let _ctime = inode.ctime.seconds();
}

/// Sets the attributes of an inode that are given, as `Inode::set`, and gives its blocks and attributes.
fn set_inode(
    inode: &mut Inode,
    fsid: u32,
    number: u32,
    now: Time,
    given: &Given,
) -> Result<Edited, AllocError>
    requires old { IsBody (body_in inode.old.body) }
    requires new { IsBody (apply_fields now (given_in given.now) (file_in inode.old)).body }
    ensures file { OnOk result (file_in inode.new
        ≡ apply_fields now (given_in given.now) (file_in inode.old)) }
    ensures nlink { inode.new.nlink ≡ inode.old.nlink }
    ensures parent { parent_in inode.new.body ≡ parent_in inode.old.body }
    ensures blocks { IfOk result (λ edited. (edited.before ≡ blocks_in (body_in inode.old.body))
        × (edited.after ≡ blocks_in (body_in inode.new.body))) }
    ensures attributes { IfOk result (λ edited. edited.attributes ≡ fattr_of fsid number inode.new) }
    ensures words { OnOk result (HasWords (file_in inode.new)) }
    ensures err { OnErr result (file_in inode.new ≡ file_in inode.old) }
{
    let before = inode.body.blocks();
    inode.set(now, given)?;
    inode_has_words(inode);
    Ok(Edited {
        before,
        after: inode.body.blocks(),
        attributes: inode.attributes(fsid, number),
    })
}

/// Writes bytes into an inode at an offset, as `Inode::write`, and gives its blocks and attributes.
fn write_inode(
    inode: &mut Inode,
    fsid: u32,
    number: u32,
    now: Time,
    offset: u32,
    bytes: &[u8],
) -> Result<Edited, AllocError>
    requires bytes { length bytes.now < 2 ^ 32 }
    requires old { IsBody (body_in inode.old.body) }
    requires new { IsBody (body_with_bytes_at offset bytes.now (body_in inode.old.body)) }
    ensures file { OnOk result (file_in inode.new ≡ with_mtime now (record (file_in inode.old) {
      body = body_with_bytes_at offset bytes.now (body_in inode.old.body);
    })) }
    ensures nlink { inode.new.nlink ≡ inode.old.nlink }
    ensures parent { parent_in inode.new.body ≡ parent_in inode.old.body }
    ensures blocks { IfOk result (λ edited. (edited.before ≡ blocks_in (body_in inode.old.body))
        × (edited.after ≡ blocks_in (body_in inode.new.body))) }
    ensures attributes { IfOk result (λ edited. edited.attributes ≡ fattr_of fsid number inode.new) }
    ensures words { OnOk result (HasWords (file_in inode.new)) }
    ensures err { OnErr result (file_in inode.new ≡ file_in inode.old) }
{
    let before = inode.body.blocks();
    inode.write(now, offset, bytes)?;
    inode_has_words(inode);
    Ok(Edited {
        before,
        after: inode.body.blocks(),
        attributes: inode.attributes(fsid, number),
    })
}

/// Sets the attributes that are given, as `Inode::set`, and gives the blocks and attributes of the file, for
/// a server's number; its owner, group and seconds are words. Where memory is refused nothing changes.
pub fn set(
    inodes: &mut BTreeMap<u32, Inode>,
    fsid: u32,
    number: u32,
    now: Time,
    given: &Given,
) -> Result<Edited, AllocError>
    requires there { IsSome (inode_at inodes.old.entries number) }
    requires old { (f : File) → stored_at inodes.old.entries number ≡ Some f → IsBody f.body }
    requires new { (f : File) → stored_at inodes.old.entries number ≡ Some f →
        IsBody (apply_fields now (given_in given.now) f).body }
    ensures ok { OnOk result (ChangesFile number (apply_fields now (given_in given.now))
        inodes.old.entries inodes.new.entries) }
    ensures blocks { IfOk result (λ edited.
        IsBlockChange number edited.before edited.after inodes.old.entries inodes.new.entries) }
    ensures attributes { IfOk result (λ edited. (inode : stored.Inode) →
        inode_at inodes.new.entries number ≡ Some inode → edited.attributes ≡ fattr_of fsid number inode) }
    ensures words { OnOk result ((f : File) → stored_at inodes.new.entries number ≡ Some f → HasWords f) }
    ensures err { OnErr result (AreAlike inodes.old.entries inodes.new.entries) }
{
    match inodes.get_mut(&number) {
        Some(inode) => set_inode(inode, fsid, number, now, given),
        None => unreachable!(),
    }
}

/// Writes bytes at an offset, as `Inode::write`, and gives the blocks and attributes of the file, for a
/// server's number; its owner, group and seconds are words. Where memory is refused nothing changes.
pub fn write(
    inodes: &mut BTreeMap<u32, Inode>,
    fsid: u32,
    number: u32,
    now: Time,
    offset: u32,
    bytes: &[u8],
) -> Result<Edited, AllocError>
    requires bytes { length bytes.now < 2 ^ 32 }
    requires there { IsSome (inode_at inodes.old.entries number) }
    requires old { (f : File) → stored_at inodes.old.entries number ≡ Some f → IsBody f.body }
    requires new { (f : File) → stored_at inodes.old.entries number ≡ Some f →
        IsBody (body_with_bytes_at offset bytes.now f.body) }
    ensures ok { OnOk result (ChangesFile number
        (λ f. with_mtime now (record f { body = body_with_bytes_at offset bytes.now f.body }))
        inodes.old.entries inodes.new.entries) }
    ensures blocks { IfOk result (λ edited.
        IsBlockChange number edited.before edited.after inodes.old.entries inodes.new.entries) }
    ensures attributes { IfOk result (λ edited. (inode : stored.Inode) →
        inode_at inodes.new.entries number ≡ Some inode → edited.attributes ≡ fattr_of fsid number inode) }
    ensures words { OnOk result ((f : File) → stored_at inodes.new.entries number ≡ Some f → HasWords f) }
    ensures err { OnErr result (AreAlike inodes.old.entries inodes.new.entries) }
{
    match inodes.get_mut(&number) {
        Some(inode) => write_inode(inode, fsid, number, now, offset, bytes),
        None => unreachable!(),
    }
}

/// Puts a name last in a directory, as `Inode::put`. Where memory is refused nothing changes.
pub fn put_name(
    inodes: &mut BTreeMap<u32, Inode>,
    dir: u32,
    name: Vec<u8>,
    number: u32,
) -> Result<(), AllocError>
    requires { (inode : stored.Inode) → inode_at inodes.old.entries dir ≡ Some inode →
        (listing_in (body_in inode.body)).next < 2 ^ 32 - 1 }
    ensures ok { OnOk result (ChangesFile dir (map_listing (λ l. with_entry l name.items number))
        inodes.old.entries inodes.new.entries) }
    ensures err { OnErr result (AreAlike inodes.old.entries inodes.new.entries) }
{
    match inodes.get_mut(&dir) {
        Some(inode) => inode.put(name, number),
        None => Ok(()),
    }
}

/// Takes a name out of a directory, if it is there.
fn take_name(inodes: &mut BTreeMap<u32, Inode>, dir: u32, name: &[u8])
    ensures { ChangesFile dir (map_listing (λ l. without_entry l name.now))
        inodes.old.entries inodes.new.entries }
{
    if let Some(inode) = inodes.get_mut(&dir) {
        inode.take(name);
    }
}

/// One link more.
pub fn add_link(inodes: &mut BTreeMap<u32, Inode>, number: u32)
    requires there { IsSome (inode_at inodes.old.entries number) }
    requires bound { links_at inodes.old.entries number < 2 ^ 32 - 1 }
    ensures others { ChangesLinks number inodes.old.entries inodes.new.entries }
    ensures own { links_at inodes.new.entries number ≡ links_at inodes.old.entries number + 1 }
{
    if let Some(inode) = inodes.get_mut(&number) {
        inode.nlink += 1;
    }
}

/// One link less, of at least one.
pub fn drop_link(inodes: &mut BTreeMap<u32, Inode>, number: u32)
    requires { 0 < links_at inodes.old.entries number }
    ensures others { ChangesLinks number inodes.old.entries inodes.new.entries }
    ensures own { links_at inodes.new.entries number + 1 ≡ links_at inodes.old.entries number }
{
    if let Some(inode) = inodes.get_mut(&number) {
        inode.nlink -= 1;
    }
}

/// The directory above a directory becomes another; other files stay.
pub fn set_parent(inodes: &mut BTreeMap<u32, Inode>, number: u32, parent: u32)
    ensures { SetsParent number parent inodes.old.entries inodes.new.entries }
{
    if let Some(inode) = inodes.get_mut(&number) {
        inode.set_parent(parent);
    }
}

/// One more inode, under a free number. Where memory is refused nothing changes.
fn add(inodes: &mut BTreeMap<u32, Inode>, number: u32, inode: Inode) -> Result<(), AllocError>
    ensures ok { OnOk result (AddsInode number inode inodes.old.entries inodes.new.entries) }
    ensures err { OnErr result (AreAlike inodes.old.entries inodes.new.entries) }
{
    inodes.insert(number, inode)?;
    Ok(())
}

/// Takes an inode out.
fn remove(inodes: &mut BTreeMap<u32, Inode>, number: u32)
    ensures { RemovesInode number inodes.old.entries inodes.new.entries }
{
    inodes.remove(&number);
}

/// Takes an inode out, and gives the blocks of its file.
fn remove_file(inodes: &mut BTreeMap<u32, Inode>, number: u32) -> u32
    requires { (f : File) → stored_at inodes.old.entries number ≡ Some f → IsBody f.body }
    ensures change { RemovesInode number inodes.old.entries inodes.new.entries }
    ensures freed { (f : File) → stored_at inodes.old.entries number ≡ Some f → result ≡ blocks_in f.body }
{
    match inodes.remove(&number) {
        Some(inode) => inode.body.blocks(),
        None => 0,
    }
}

/// Whether a directory has the number.
pub fn is_directory(inodes: &BTreeMap<u32, Inode>, number: u32) -> bool
    ensures { (f : File) → stored_at inodes.now.entries number ≡ Some f → result ≡ is_directory f.body }
{
    match inodes.get(&number) {
        Some(inode) => inode.body.is_directory(),
        None => false,
    }
}

/// What a name stands for that goes.
#[derive(Clone, Copy)]
pub struct NamedFile {
    pub is_directory: bool,
    /// Whether the file goes with the name: a directory always, another file with its only one.
    pub goes: bool,
}

/// What a name of the file of a number stands for.
pub fn named(inodes: &BTreeMap<u32, Inode>, number: u32) -> NamedFile
    ensures directory { (f : File) → stored_at inodes.now.entries number ≡ Some f →
        result.is_directory ≡ is_directory f.body }
    ensures goes { (f : File) → stored_at inodes.now.entries number ≡ Some f →
        result.goes ≡ is_last_name f.body (links_at inodes.now.entries number) }
{
    match inodes.get(&number) {
        Some(inode) => {
            let is_directory = inode.body.is_directory();
            NamedFile {
                is_directory,
                goes: is_directory || inode.nlink == 1,
            }
        }
        None => NamedFile {
            is_directory: false,
            goes: false,
        },
    }
}

/// Takes a name out of a directory, which has one link less if the name was a directory's.
pub fn take_entry(inodes: &mut BTreeMap<u32, Inode>, dir: u32, name: &[u8], of_directory: bool)
    requires { of_directory ≡ true → 0 < links_at inodes.old.entries dir }
    ensures { TakesEntry dir name.now of_directory inodes.old.entries inodes.new.entries }
{
    take_name(inodes, dir, name);
    if of_directory {
        drop_link(inodes, dir);
    }
}

/// Takes a link off a file, whose ctime becomes now, or the file out where the link is its last; the blocks
/// that are free then.
pub fn drop_name(inodes: &mut BTreeMap<u32, Inode>, now: Time, number: u32, is_last: bool) -> u32
    requires body { (f : File) → stored_at inodes.old.entries number ≡ Some f → IsBody f.body }
    requires linked { 0 < links_at inodes.old.entries number }
    ensures change { DropsName now number is_last inodes.old.entries inodes.new.entries }
    ensures freed { (f : File) → stored_at inodes.old.entries number ≡ Some f →
        result ≡ (if is_last then blocks_in f.body else 0) }
{
    if is_last {
        return remove_file(inodes, number);
    }
    drop_link(inodes, number);
    set_ctime(inodes, number, now);
    0
}

/// Takes a name of a file out of a directory, and the file with it where it was its last by its links, else
/// the file's ctime becomes now; the blocks that are free then.
pub fn unlink(
    inodes: &mut BTreeMap<u32, Inode>,
    now: Time,
    dir: u32,
    name: &[u8],
    number: u32,
) -> u32
    requires { (f : File) × MayUnname inodes.old.entries dir number f }
    ensures { (f : File) → stored_at inodes.old.entries number ≡ Some f →
        Unnames now dir name.now number f result inodes.old.entries inodes.new.entries }
{
    let named = named(inodes, number);
    take_entry(inodes, dir, name, named.is_directory);
    drop_name(inodes, now, number, named.goes)
}

/// Puts a name last in a directory, which has one link more if the name is a directory's. Where memory is
/// refused nothing changes.
fn add_entry(
    inodes: &mut BTreeMap<u32, Inode>,
    dir: u32,
    name: Vec<u8>,
    number: u32,
    of_directory: bool,
) -> Result<(), AllocError>
    requires there { IsSome (inode_at inodes.old.entries dir) }
    requires room { (inode : stored.Inode) → inode_at inodes.old.entries dir ≡ Some inode →
        (listing_in (body_in inode.body)).next < 2 ^ 32 - 1 }
    requires bound { links_at inodes.old.entries dir < 2 ^ 32 - 1 }
    ensures ok { OnOk result
        (AddsEntry dir name.items number of_directory inodes.old.entries inodes.new.entries) }
    ensures err { OnErr result (AreAlike inodes.old.entries inodes.new.entries) }
{
    put_name(inodes, dir, name, number)?;
    if of_directory {
        add_link(inodes, dir);
    }
    Ok(())
}

/// An inode with the links of a new file and, of a directory, the one above it.
pub fn with_links(mut inode: Inode, of_directory: bool, parent: u32) -> Inode
    ensures file { file_in result ≡ file_in inode }
    ensures nlink { result.nlink ≡ (if of_directory then 2 else 1) }
    ensures parent { is_directory (body_in inode.body) ≡ true → parent_in result.body ≡ parent }
{
    inode.nlink = if of_directory { 2 } else { 1 };
    inode.set_parent(parent);
    inode
}

/// Puts a new inode under a free number, with a name last in a directory, which is touched. Where memory is
/// refused nothing changes.
pub fn add_named(
    inodes: &mut BTreeMap<u32, Inode>,
    now: Time,
    dir: u32,
    name: Vec<u8>,
    number: u32,
    inode: Inode,
    of_directory: bool,
) -> Result<(), AllocError>
    requires directory { (f : File) × (stored_at inodes.old.entries dir ≡ Some f)
        × ((listing_in f.body).next < 2 ^ 32 - 1) }
    requires free { stored_at inodes.old.entries number ≡ None }
    requires bound { links_at inodes.old.entries dir < 2 ^ 32 - 1 }
    ensures ok { OnOk result (AddsNamed now dir name.items number inode of_directory
        inodes.old.entries inodes.new.entries) }
    ensures err { OnErr result (AreAlike inodes.old.entries inodes.new.entries) }
{
    add(inodes, number, inode)?;
    if let Err(error) = add_entry(inodes, dir, name, number, of_directory) {
        remove(inodes, number);
        return Err(error);
    }
    touch(inodes, dir, now);
    Ok(())
}
