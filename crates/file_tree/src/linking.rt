//! Calls that give a file one more name, or take one away.

ghost use Rattle.std.specs.Prelude.{◌≡◌, ◌≤◌, ◌∷◌, [], length};
ghost use Rattle.nfs_spec.specs.nfs_items.CallerOf.{caller_of};
ghost use Rattle.nfs_spec.specs.fs_spec.Maxima.{max_name};
ghost use Rattle.nfs_spec.specs.Procedures.{link};
ghost use Rattle.inode_table.specs.nfs_laws.Laws.{NamesIn};
ghost use Rattle.file_tree.specs.Performs.{Performs, IfDone, KeepsDigests};

use crate::file_checks::check_link;
use crate::tree::Tree;
use nfs_spec::{Stat, Time, Who};
use std::alloc::{AllocError, Global};

impl Tree {
    /// Gives a file or symbolic link one more name (RFC 1094, section 2.2.13). Of the file Stale and IsDir;
    /// then Stale, NotDir, Acces, Exist and NoSpc, in this order. A refusal, or running out of memory, leaves
    /// the files as they were.
    pub fn link(
        &mut self,
        alloc: Global,
        who: &Who,
        now: Time,
        number: u32,
        dir: u32,
        name: &[u8],
    ) -> Result<Result<(), Stat>, AllocError>
        requires { length name.now ≤ max_name }
        ensures effect { Performs (link self.old.files (caller_of who.now) now number dir name.now)
            self.old.files result self.new.files }
        ensures paths { IfDone result (λ done. NamesIn self.old.files self.new.files dir name.now number) }
        ensures digests { KeepsDigests (λ _. dir ∷ number ∷ []) self.old result self.new }
    {
        self.table.files_are_a_tree();
        if let Err(stat) = check_link(&self.table, who, number, dir, name) {
            return Ok(Err(stat));
        }
        self.table.link(now, number, dir, name.to_vec(alloc)?)?;
        self.digests.forget(number);
        self.digests.forget(dir);
        Ok(Ok(()))
    }
}
