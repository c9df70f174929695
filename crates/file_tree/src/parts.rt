//! A tree from its files, and its files in order.

ghost use Rattle.std.specs.Prelude.{◌≡◌, ◌≤◌, ◌&&◌, [], IfOk, IfSome, IsTrue, OnOk, is_none};
ghost use Rattle.std.specs.Prelude.{is_some, length};
ghost use Rattle.nfs_spec.specs.fs_spec.Files.{file_at};
ghost use Rattle.std.specs.FinMap as finite;
ghost use Rattle.nfs_spec.specs.fs_spec.Maxima.{max_files};
ghost use Rattle.nfs_spec.specs.fs_spec.Trees.{IsFileTree};
ghost use Rattle.nfs_spec.specs.fs_spec.Changes.Limits.{has_room};
ghost use Rattle.inode_table.specs.nfs_laws.Sizes.Bounds.{AreWords};
ghost use Rattle.inode_table.specs.tree_rules.FileRules.Rules.{AreRising, numbers_of};
ghost use Rattle.inode_table.specs.inodes.Inodes.{files_of};
ghost use Rattle.inode_table.specs.tree_rules.Listed.{files_in};
ghost use Rattle.file_tree.specs.KeptDigests.{AreAllMissing, IsDigestAt, KeepsAll, is_missing};

use crate::digests::FileDigests;
use crate::tree::Tree;
use inode_table::{Inode, InodeTable};
use std::alloc::{AllocError, Global};
use std::collections::btree_map::Iter;

impl Tree {
    /// The tree of files that come from outside, for the server of a number, with the number that the next
    /// new file gets. They are a tree within all limits (`tree_rules::is_tree` and `total_usage` tell), by
    /// rising number. What the inodes keep beside their files, `nlink` and the parent of a directory, is
    /// counted afresh and not looked at. No digest is kept yet.
    pub fn of_inodes(
        alloc: Global,
        fsid: u32,
        next: u32,
        inodes: Vec<(u32, Inode)>,
    ) -> Result<Tree, AllocError>
        requires rising { AreRising (numbers_of inodes.items) }
        requires tree { IsFileTree (files_of fsid next inodes.items) }
        requires room { IsTrue (has_room (files_of fsid next inodes.items)) }
        requires words { AreWords (files_of fsid next inodes.items) }
        ensures files { IfOk result (λ tree. tree.files ≡ files_of fsid next inodes.items) }
        ensures missing { IfOk result AreAllMissing }
    {
        Ok(Tree {
            table: InodeTable::of_inodes(alloc, fsid, next, inodes)?,
            digests: FileDigests::new(alloc),
        })
    }

    /// The number that the next new file gets.
    pub fn next(&self) -> u32
        ensures { result ≡ self.now.files.next }
    {
        self.table.next()
    }

    /// The digest of the text of a number's file (`file_texts::file_digest`), where one is kept.
    pub fn kept_digest(&self, number: u32) -> Option<&[u8; 32]>
        ensures digest { IfSome result (λ digest. IsDigestAt self.now.files number digest.now) }
        ensures missing { is_missing self.now number
            ≡ (is_some (file_at self.now.files number) && is_none result) }
    {
        self.digests.get(number)
    }

    /// Computes the digests of files' texts that are missing, and gives how many they were; the files stay.
    /// From then on all are kept, and a call that changes files drops the digests of those files alone. Where
    /// memory is refused, some more may be kept.
    pub fn renew_digests(&mut self, alloc: Global) -> Result<u32, AllocError>
        ensures same { self.new.files ≡ self.old.files }
        ensures count { IfOk result (λ count. count ≡ length self.old.missing) }
        ensures few { IfOk result (λ count. count ≤ max_files) }
        ensures whole { OnOk result (self.new.missing ≡ []) }
        ensures stay { KeepsAll self.old self.new }
    {
        self.table.files_are_a_tree();
        self.digests.renew(alloc, &self.table)
    }

    /// The files, lent as inodes with their numbers, which rise.
    pub fn inodes(&self) -> Iter<'_, u32, Inode>
        ensures { files_in result ≡ finite.entries self.now.files.files }
    {
        self.table.inodes()
    }
}
