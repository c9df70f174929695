//! Calls that make files.

ghost use Rattle.std.specs.Prelude.{◌≡◌, ◌≤◌, ◌+◌, [], ◌∷◌, Ok, None, length};
ghost use Rattle.nfs_spec.specs.nfs_items.CallerOf.{caller_of};
ghost use Rattle.nfs_spec.specs.fs_spec.Files.{listing_in, directory_entries};
ghost use Rattle.nfs_spec.specs.fs_spec.Maxima.{max_name, max_number, max_target};
ghost use Rattle.nfs_spec.specs.fs_spec.Trees.{IsFile};
ghost use Rattle.nfs_spec.specs.Sattr.{given_fields};
ghost use Rattle.nfs_spec.specs.Procedures.{create, make, make_dir, symlink};
ghost use Rattle.inode_table.specs.nfs_laws.Laws.{AreValidFields, NamesIn};
ghost use Rattle.inode_table.specs.inodes.Given.{given_in};
ghost use Rattle.inode_table.specs.inodes.Inodes.{body_in, file_in};
ghost use Rattle.file_tree.specs.FileChecks.Creates.{DecidesCreate};
ghost use Rattle.file_tree.specs.Performs.{Performs, IfDone, KeepsDigests, changed_by_create};

use crate::file_checks::{check_make, find_to_create};
use crate::tree::Tree;
use inode_table::{Body, Directory, Given, Inode};
use nfs_spec::{Sattr, Stat, Time, Who};
use std::alloc::{AllocError, Global};

/// Attributes of which none is given.
const NOTHING_GIVEN: Given = Given {
    mode: None,
    uid: None,
    gid: None,
    size: None,
    atime: None,
    mtime: None,
};

impl Tree {
    /// Makes a regular file, or sets the attributes of the one that has the name (RFC 1094, section 2.2.10);
    /// gives its number. Stale, NotDir, Acces; where the name is taken Exist unless by a regular file, else
    /// as `set_attributes`; where it is free Acces, FBig and NoSpc. A refusal, or running out of memory,
    /// leaves the files as they were.
    pub fn create(
        &mut self,
        alloc: Global,
        who: &Who,
        now: Time,
        dir: u32,
        name: &[u8],
        attributes: &Sattr,
    ) -> Result<Result<u32, Stat>, AllocError>
        requires { length name.now ≤ max_name }
        ensures effect { Performs
            (create self.old.files (caller_of who.now) now dir name.now (given_fields now attributes.now))
            self.old.files result self.new.files }

        // Where the name was free, there is one path more for each of the directory.
        ensures paths { directory_entries self.old.files dir name.now ≡ None →
            IfDone result (λ number. NamesIn self.old.files self.new.files dir name.now number) }

        ensures digests { KeepsDigests
            (changed_by_create (given_fields now attributes.now) self.old.files dir name.now)
            self.old result self.new }
    {
        let given = Given::of(attributes, now);
        match find_to_create(&self.table, who, dir, name, given.size) {
            Ok(None) => self.create_new(alloc, who, now, dir, name, &given),
            Ok(Some(number)) => match self.set(who, now, number, &given)? {
                Ok(_attributes) => Ok(Ok(number)),
                Err(stat) => Ok(Err(stat)),
            },
            Err(stat) => Ok(Err(stat)),
        }
    }

    /// Makes a regular file, where that is granted and the name is free.
    fn create_new(
        &mut self,
        alloc: Global,
        who: &Who,
        now: Time,
        dir: u32,
        name: &[u8],
        given: &Given,
    ) -> Result<Result<u32, Stat>, AllocError>
        requires name { length name.now ≤ max_name }
        requires valid { AreValidFields (given_in given.now) }
        requires granted { DecidesCreate self.old.files (caller_of who.now) now dir name.now
            (given_in given.now)
            (Ok None) }
        ensures effect { Performs
            (create self.old.files (caller_of who.now) now dir name.now (given_in given.now))
            self.old.files result self.new.files }
        ensures paths { IfDone result (λ number. NamesIn self.old.files self.new.files dir name.now number) }
        ensures digests { KeepsDigests (changed_by_create (given_in given.now) self.old.files dir name.now)
            self.old result self.new }
    {
        self.table.files_are_a_tree();
        let body = Body::zeros(alloc, given.size.unwrap_or(0))?;
        let inode = Inode::new(who, now, given, 0o644, body);
        let number = self.table.make(now, dir, name.to_vec(alloc)?, inode)?;
        self.digests.forget(dir);
        Ok(Ok(number))
    }

    /// Makes a directory (RFC 1094, section 2.2.15), and gives its number. Stale, NotDir, Acces, Exist and
    /// NoSpc, in this order. A refusal, or running out of memory, leaves the files as they were.
    pub fn make_dir(
        &mut self,
        alloc: Global,
        who: &Who,
        now: Time,
        dir: u32,
        name: &[u8],
        attributes: &Sattr,
    ) -> Result<Result<u32, Stat>, AllocError>
        requires { length name.now ≤ max_name }
        ensures effect { Performs
            (make_dir self.old.files (caller_of who.now) now dir name.now (given_fields now attributes.now))
            self.old.files result self.new.files }
        ensures paths { IfDone result (λ number. NamesIn self.old.files self.new.files dir name.now number) }
        ensures digests { KeepsDigests (λ number. dir ∷ number ∷ []) self.old result self.new }
    {
        let given = Given::of(attributes, now);
        let body = Body::Directory {
            parent: dir,
            listing: Directory::new(alloc)?,
        };
        self.make(
            alloc,
            who,
            now,
            dir,
            name,
            Inode::new(who, now, &given, 0o755, body),
        )
    }

    /// Makes a symbolic link (RFC 1094, section 2.2.14), and gives its number. Stale, NotDir, Acces, Exist
    /// and NoSpc, in this order. A refusal, or running out of memory, leaves the files as they were.
    pub fn symlink(
        &mut self,
        alloc: Global,
        who: &Who,
        now: Time,
        dir: u32,
        name: &[u8],
        target: &[u8],
    ) -> Result<Result<u32, Stat>, AllocError>
        requires name { length name.now ≤ max_name }
        requires target { length target.now ≤ max_target }
        ensures effect { Performs (symlink self.old.files (caller_of who.now) now dir name.now target.now)
            self.old.files result self.new.files }
        ensures paths { IfDone result (λ number. NamesIn self.old.files self.new.files dir name.now number) }
        ensures digests { KeepsDigests (λ number. dir ∷ number ∷ []) self.old result self.new }
    {
        let body = Body::Symlink(target.to_vec(alloc)?);
        self.make(
            alloc,
            who,
            now,
            dir,
            name,
            Inode::new(who, now, &NOTHING_GIVEN, 0o777, body),
        )
    }

    /// Makes a file that lists nothing, with a free name, and gives its number.
    fn make(
        &mut self,
        alloc: Global,
        who: &Who,
        now: Time,
        dir: u32,
        name: &[u8],
        inode: Inode,
    ) -> Result<Result<u32, Stat>, AllocError>
        requires name { length name.now ≤ max_name }
        requires file { IsFile (file_in inode) }
        requires empty { (listing_in (body_in inode.body)).entries ≡ [] }
        requires cookie { (listing_in (body_in inode.body)).next ≤ max_number + 1 }
        ensures effect { Performs (make self.old.files (caller_of who.now) now dir name.now (file_in inode))
            self.old.files result self.new.files }
        ensures paths { IfDone result (λ number. NamesIn self.old.files self.new.files dir name.now number) }
        ensures digests { KeepsDigests (λ number. dir ∷ number ∷ []) self.old result self.new }
    {
        self.table.files_are_a_tree();
        if let Err(stat) = check_make(&self.table, who, dir, name, inode.body.blocks()) {
            return Ok(Err(stat));
        }
        let number = self.table.make(now, dir, name.to_vec(alloc)?, inode)?;
        self.digests.forget(dir);
        Ok(Ok(number))
    }
}
