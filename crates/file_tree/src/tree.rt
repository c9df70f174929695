//! The tree.

ghost use Rattle.std.specs.Prelude.{◌≡◌, ℕ, List, IfOk, OnOk, IsTrue, Some, None, Err};
ghost use Rattle.nfs_spec.specs.nfs_items.CallerOf.{caller_of};
ghost use Rattle.nfs_spec.specs.fs_spec.Files.{directory_entries};
ghost use Rattle.nfs_spec.specs.fs_spec.Names.{is_name, dot_dot};
ghost use Rattle.nfs_spec.specs.fs_spec.Trees.{IsFileTree};
ghost use Rattle.nfs_spec.specs.fs_spec.Changes.Limits.{has_room};
ghost use Rattle.nfs_spec.specs.Effects.{attributes_at, number_at_name};
ghost use Rattle.nfs_spec.specs.Opening.{opening_files};
ghost use Rattle.inode_table.specs.nfs_laws.Sizes.Bounds.{AreWords};
ghost use Rattle.file_tree.specs.KeptDigests.{AreAllMissing};
ghost use Rattle.file_tree.specs.LookUps.{LeadsOn, LeadsBack};

use crate::digests::FileDigests;
use inode_table::InodeTable;
use nfs_spec::{Fattr, Stat, Who};
use std::alloc::{AllocError, Global};
use std::marker::Model;

/// The files of a server under their numbers, of which the root's is 1. A number is never used again.
#[derive(Drop)]
pub struct Tree {
    pub(crate) table: InodeTable,
    /// Digests of the files' texts, of as many as are kept.
    pub(crate) digests: FileDigests,
}

impl Model for Tree {
    ghost use Rattle.file_tree.specs.KeptDigests.{AreKept, KeptFiles, kept_files_code, missing_in};

    ghost Value = { KeptFiles };

    ghost coded = { kept_files_code };

    ghost view = { λ t. record { files = t.table; missing = missing_in t.digests t.table } };

    ghost invariant = { λ t. AreKept t.digests t.table };
}

impl Tree {
    /// The files that each server begins with, for the server of a number: the directory `/` and the file
    /// `/hello`.
    pub fn opening(alloc: Global, fsid: u32) -> Result<Tree, AllocError>
        ensures files { IfOk result (λ tree. tree.files ≡ opening_files fsid) }
        ensures missing { IfOk result AreAllMissing }
    {
        Ok(Tree {
            table: InodeTable::opening(alloc, fsid)?,
            digests: FileDigests::new(alloc),
        })
    }

    /// The number of the server whose files these are.
    pub fn fsid(&self) -> u32
        ensures { result ≡ self.now.files.fsid }
    {
        self.table.fsid()
    }

    /// The files are a tree within its limits, as each call keeps them: does nothing, and tells a caller's
    /// proof.
    pub fn files_are_a_tree(&self)
        ensures tree { IsFileTree self.now.files }
        ensures room { IsTrue (has_room self.now.files) }
        ensures words { AreWords self.now.files }
    {
        self.table.files_are_a_tree();
    }

    /// The attributes of a file (RFC 1094, section 2.3.5). Stale where no file has the number.
    pub fn attributes(&self, number: u32) -> Result<Fattr, Stat>
        ensures { result ≡ attributes_at self.now.files number }
    {
        let Some(inode) = self.table.get(number) else {
            return Err(Stat::Stale);
        };
        Ok(inode.attributes(self.table.fsid(), number))
    }

    /// The number that a directory has at a name (RFC 1094, section 2.2.5): `.` is itself, and `..` the
    /// directory above, which for the root is the root. Stale where no file has the directory's number,
    /// NotDir where that file is none, Acces where the caller may not search it, and then NoEnt.
    pub fn lookup(&self, who: &Who, dir: u32, name: &[u8]) -> Result<u32, Stat>
        ensures result { result ≡ number_at_name self.now.files (caller_of who.now) dir name.now }

        // A path to the directory, one name longer, leads to the number.
        ensures found { IfOk result (λ number. IsTrue (is_name name.now) →
            LeadsOn (directory_entries self.now.files) dir name.now (Some number)) }
        ensures absent { result ≡ Err Stat.NoEnt → IsTrue (is_name name.now) →
            LeadsOn (directory_entries self.now.files) dir name.now None }

        // A path to the directory, one name shorter, leads to the one above.
        ensures above { name.now ≡ dot_dot → IfOk result (λ number.
            LeadsBack (directory_entries self.now.files) dir number) }
    {
        self.table.files_are_a_tree();
        match self.table.get(dir) {
            Some(inode) => inode.number_at(who, dir, name),
            None => Err(Stat::Stale),
        }
    }
}
