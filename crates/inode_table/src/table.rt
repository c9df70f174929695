//! The table.

ghost use Rattle.std.specs.Prelude.{◌≡◌, ◌≢◌, ◌≤◌, ◌<◌, ◌+◌, ◌^◌, ℕ, List, [], IfOk, IfSome, OnOk, OnErr};
ghost use Rattle.std.specs.Prelude.{IsTrue, IsSome, Ok, Some, None, length, option_map, true, false};
ghost use Rattle.std.specs.FinMap as finite;
ghost use Rattle.fs_spec.specs.nfs_items.Terms.{FileNumber, Cookie};
ghost use Rattle.fs_spec.specs.Files.{Regular, File, Files, file_at, directory_entries, parent_of, listing};
ghost use Rattle.fs_spec.specs.Files.{listing_in};
ghost use Rattle.fs_spec.specs.Files.{is_directory, IsDirectory};
ghost use Rattle.fs_spec.specs.Maxima.{max_name};
ghost use Rattle.fs_spec.specs.Names.{is_name};
ghost use Rattle.fs_spec.specs.Trees.{IsBody, IsFile, IsFileTree, IsTime};
ghost use Rattle.fs_spec.specs.Changes.Edits.{with_changed_file, with_name};
ghost use Rattle.fs_spec.specs.Changes.Limits.{file_count, entry_count, block_count, blocks_in, has_room};
ghost use Rattle.nfs_count_laws.specs.nfs_spec.FileAttributes.{attributes_of};
ghost use Rattle.nfs_count_laws.specs.nfs_spec.Effects.{attributes_at};
ghost use Rattle.nfs_count_laws.specs.nfs_spec.Changes.{touch, touch_ctime, unlink, apply_fields};
ghost use Rattle.nfs_count_laws.specs.nfs_spec.Opening.{opening_files};
ghost use Rattle.nfs_count_laws.specs.nfs_spec.Procedures.{add_file, move_entry, with_bytes_written};
ghost use Rattle.nfs_count_laws.specs.nfs_laws.Laws.{AreValidFields};
ghost use Rattle.nfs_count_laws.specs.nfs_laws.Room.{HasRoomToMake, HasRoomToLink};
ghost use Rattle.nfs_count_laws.specs.nfs_laws.Sizes.Bounds.{AreWords};
ghost use Rattle.tree_rules.specs.inodes.Given.{given_in};
ghost use Rattle.tree_rules.specs.FileRules.Rules.{AreRising, numbers_of};
ghost use Rattle.tree_rules.specs.inodes.Inodes.{body_in, file_in, files_of, fattr_of, KeepsParent};
ghost use Rattle.tree_rules.specs.Listed.{files_in};
ghost use Rattle.nfs_count_laws.specs.CountChanges.{MayMake, MayLink, MayUnlink, MayMove};
ghost use Rattle.tree_rules.specs.inodes.Edits.{MaySet, MayWriteAt};

use crate::edits::{renaming, slots};
use crate::links::linked_inodes;
use crate::opening::{hello_inode, root_inode};
use fs_spec::{Fattr, Time};
use std::alloc::{AllocError, Global};
use std::collections::BTreeMap;
use std::collections::btree_map::Iter;
use std::marker::Model;
use tree_rules::{Given, Inode, total_usage};

/// The files of a server under their numbers, of which the root's is 1. A number is never used again.
#[derive(Drop)]
pub struct InodeTable {
    fsid: u32,
    next: u32,
    /// Directory entries in all.
    entries: u32,
    /// Blocks of regular files in all.
    blocks: u32,
    inodes: BTreeMap<u32, Inode>,
}

impl Model for InodeTable {
    ghost use Rattle.fs_spec.specs.Files.{Files, files_code};
    ghost use Rattle.tree_rules.specs.inodes.Inodes.{files_of};
    ghost use Rattle.inode_table.specs.Kept.{AreKept};

    ghost Value = { Files };

    ghost coded = { files_code };

    ghost view = { λ t. files_of t.fsid t.next t.inodes.entries };

    ghost invariant = { λ t. AreKept t.fsid t.next t.entries t.blocks t.inodes.entries };
}

/// The microseconds of a time are below 1,000,000, and its seconds a word: does nothing, and tells a caller's
/// proof.
fn time_is_valid(now: Time)
    ensures time { IsTime now }
    ensures word { now.seconds < 2 ^ 32 }
{
    let _seconds = now.seconds();
    let _microseconds = now.microseconds();
}

impl InodeTable {
    /// The files that each server begins with, for the server of a number: the directory `/` and the file
    /// `/hello`.
    pub fn opening(alloc: Global, fsid: u32) -> Result<InodeTable, AllocError>
        ensures { IfOk result (λ table. table ≡ opening_files fsid) }
    {
        let mut inodes = BTreeMap::new(alloc);
        inodes.insert(1, root_inode(alloc)?)?;
        inodes.insert(2, hello_inode(alloc)?)?;
        Ok(InodeTable {
            fsid,
            next: 3,
            entries: 1,
            blocks: 1,
            inodes,
        })
    }

    /// Files that come from outside, for the server of a number, with the number that the next new file gets:
    /// a tree within all limits, by rising number. What the inodes keep beside their files is counted afresh,
    /// and not looked at.
    pub fn of_inodes(
        alloc: Global,
        fsid: u32,
        next: u32,
        inodes: Vec<(u32, Inode)>,
    ) -> Result<InodeTable, AllocError>
        requires rising { AreRising (numbers_of inodes.items) }
        requires tree { IsFileTree (files_of fsid next inodes.items) }
        requires room { IsTrue (has_room (files_of fsid next inodes.items)) }
        requires words { AreWords (files_of fsid next inodes.items) }
        ensures { IfOk result (λ table. table ≡ files_of fsid next inodes.items) }
    {
        let usage = total_usage(&inodes).unwrap();
        Ok(InodeTable {
            fsid,
            next,
            entries: usage.entries,
            blocks: usage.blocks,
            inodes: linked_inodes(alloc, inodes)?,
        })
    }

    /// The inodes, lent, with their numbers, which rise.
    pub fn inodes(&self) -> Iter<'_, u32, Inode>
        ensures { files_in result ≡ finite.entries self.now.files }
    {
        self.inodes.iter()
    }

    /// The number of the server whose files these are.
    pub fn fsid(&self) -> u32
        ensures { result ≡ self.now.fsid }
    {
        self.fsid
    }

    /// The number that the next new file gets.
    pub fn next(&self) -> u32
        ensures { result ≡ self.now.next }
    {
        self.next
    }

    /// How many files, directories and links there are.
    pub fn file_count(&self) -> usize
        ensures { result ≡ file_count self.now }
    {
        self.inodes.len()
    }

    /// How many directory entries there are in all.
    pub fn entry_count(&self) -> u32
        ensures { result ≡ entry_count self.now }
    {
        self.entries
    }

    /// How many blocks the regular files take in all.
    pub fn block_count(&self) -> u32
        ensures { result ≡ block_count self.now }
    {
        self.blocks
    }

    /// The files are a tree within its limits, as each call keeps them: does nothing, and tells a caller's
    /// proof.
    pub fn files_are_a_tree(&self)
        ensures tree { IsFileTree self.now }
        ensures room { IsTrue (has_room self.now) }
        ensures words { AreWords self.now }
    {
        let _fsid = self.fsid;
    }

    /// The file of a number; what it keeps beside the file is what counting over all files gives.
    pub fn get(&self, number: u32) -> Option<&Inode>
        ensures file { option_map (λ inode. file_in inode.now) result ≡ file_at self.now number }
        ensures attributes { IfSome result (λ inode.
            fattr_of self.now.fsid number inode.now ≡ attributes_of self.now number (file_in inode.now)) }
        ensures parent { IfSome result (λ inode. KeepsParent inode.now.body (parent_of self.now number)) }
        ensures body { IfSome result (λ inode. IsBody (body_in inode.now.body)) }
    {
        self.inodes.get(&number)
    }

    /// Sets the attributes of a file that are given (RFC 1094, section 2.2.3): ctime becomes now if there are
    /// any, and mtime if a size is given, before a given mtime. Gives the attributes of the file after it.
    /// Where memory is refused nothing changes.
    pub fn set(&mut self, now: Time, number: u32, given: &Given) -> Result<Fattr, AllocError>
        requires valid { AreValidFields (given_in given.now) }
        requires sized { MaySet self.old number (given_in given.now) }
        ensures ok { OnOk result (self.new
            ≡ with_changed_file self.old number (apply_fields now (given_in given.now))) }
        ensures attributes { IfOk result (λ attributes. attributes_at self.new number ≡ Ok attributes) }
        ensures err { OnErr result (self.new ≡ self.old) }
    {
        time_is_valid(now);
        let edited = slots::set(&mut self.inodes, self.fsid, number, now, given)?;
        self.blocks = self.blocks - edited.before + edited.after;
        Ok(edited.attributes)
    }

    /// Writes bytes into a regular file at an offset (RFC 1094, section 2.2.9), with zeros between its end
    /// and an offset past it; mtime and ctime become now. Gives the attributes of the file after it. Where
    /// memory is refused nothing changes.
    pub fn write(
        &mut self,
        now: Time,
        number: u32,
        offset: u32,
        bytes: &[u8],
    ) -> Result<Fattr, AllocError>
        requires { (old : List ℕ) × MayWriteAt self.old number offset bytes.now old }
        ensures ok { OnOk result ((old : List ℕ) → MayWriteAt self.old number offset bytes.now old →
            self.new ≡ with_changed_file self.old number (with_bytes_written now offset bytes.now old)) }
        ensures attributes { IfOk result (λ attributes. attributes_at self.new number ≡ Ok attributes) }
        ensures err { OnErr result (self.new ≡ self.old) }
    {
        time_is_valid(now);
        let edited = slots::write(&mut self.inodes, self.fsid, number, now, offset, bytes)?;
        self.blocks = self.blocks - edited.before + edited.after;
        Ok(edited.attributes)
    }

    /// Puts a new file under the next number, which it gives, with a free name in a directory, and touches
    /// the directory. The inode's links and parent are set. Where memory is refused nothing changes.
    pub fn make(
        &mut self,
        now: Time,
        dir: u32,
        name: Vec<u8>,
        inode: Inode,
    ) -> Result<u32, AllocError>
        requires { MayMake self.old dir name.items (file_in inode) }
        ensures number { IfOk result (λ number. number ≡ self.old.next) }
        ensures ok { OnOk result (self.new ≡ add_file now self.old dir name.items (file_in inode)) }
        ensures err { OnErr result (self.new ≡ self.old) }
    {
        time_is_valid(now);
        let number = self.next;
        let blocks = inode.body.blocks();
        let of_directory = inode.body.is_directory();
        let inode = slots::with_links(inode, of_directory, dir);
        slots::add_named(
            &mut self.inodes,
            now,
            dir,
            name,
            number,
            inode,
            of_directory,
        )?;
        self.next += 1;
        self.entries += 1;
        self.blocks += blocks;
        Ok(number)
    }

    /// Gives a file or symbolic link one more name, free in its directory; the file's ctime becomes now, and
    /// the directory is touched. Where memory is refused nothing changes.
    pub fn link(
        &mut self,
        now: Time,
        number: u32,
        dir: u32,
        name: Vec<u8>,
    ) -> Result<(), AllocError>
        requires { (f : File) × MayLink self.old number dir name.items f }
        ensures ok { OnOk result (self.new
            ≡ touch now (with_name (touch_ctime now self.old number) dir name.items number) dir) }
        ensures err { OnErr result (self.new ≡ self.old) }
    {
        time_is_valid(now);
        slots::put_name(&mut self.inodes, dir, name, number)?;
        slots::add_link(&mut self.inodes, number);
        slots::set_ctime(&mut self.inodes, number, now);
        slots::touch(&mut self.inodes, dir, now);
        self.entries += 1;
        Ok(())
    }

    /// Takes a name out of a directory, and the file with it where that was its last (RFC 1094, sections
    /// 2.2.11 and 2.2.16); else the file's ctime becomes now. The directory is touched.
    pub fn unlink(&mut self, now: Time, dir: u32, name: &[u8], number: u32)
        requires { (cookie : Cookie) × (f : File) × MayUnlink self.old dir name.now number cookie f }
        ensures { self.new ≡ touch now (unlink now self.old dir name.now number) dir }
    {
        time_is_valid(now);
        let freed = slots::unlink(&mut self.inodes, now, dir, name, number);
        slots::touch(&mut self.inodes, dir, now);
        self.entries -= 1;
        self.blocks -= freed;
    }

    /// Puts the entry of a file last in a directory, with a new cookie and over what may stand at the new
    /// name, which goes as by `unlink`; the file's ctime becomes now, and both directories are touched. Where
    /// memory is refused nothing changes.
    pub fn rename(
        &mut self,
        now: Time,
        number: u32,
        from: u32,
        from_name: &[u8],
        to: u32,
        to_name: Vec<u8>,
        target: Option<u32>,
    ) -> Result<(), AllocError>
        requires { (f : File) × (cookie : Cookie)
            × MayMove self.old number from from_name.now to to_name.items f cookie target }
        ensures ok { OnOk result (self.new
            ≡ move_entry now self.old number from from_name.now to to_name.items target) }
        ensures err { OnErr result (self.new ≡ self.old) }
    {
        time_is_valid(now);
        let of_directory = slots::is_directory(&self.inodes, number);
        slots::put_name(&mut self.inodes, to, to_name, number)?;
        let blocks = renaming::drop_target(&mut self.inodes, now, to, target);
        slots::take_entry(&mut self.inodes, from, from_name, of_directory);
        renaming::add_subdirectory(&mut self.inodes, to, of_directory);
        slots::set_parent(&mut self.inodes, number, to);
        slots::set_ctime(&mut self.inodes, number, now);
        slots::touch(&mut self.inodes, from, now);
        slots::touch(&mut self.inodes, to, now);
        self.entries -= renaming::replaced_count(target);
        self.blocks -= blocks;
        Ok(())
    }
}
