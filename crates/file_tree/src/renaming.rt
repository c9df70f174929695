//! RENAME.

ghost use Rattle.std.specs.Prelude.{◌≡◌, ◌≤◌, length};
ghost use Rattle.nfs_spec.specs.nfs_items.CallerOf.{caller_of};
ghost use Rattle.nfs_spec.specs.fs_spec.Maxima.{max_name};
ghost use Rattle.nfs_spec.specs.Procedures.{rename};
ghost use Rattle.inode_table.specs.nfs_laws.Steps.Granted.{IsSameFile};
ghost use Rattle.inode_table.specs.nfs_laws.Laws.{RenamesIn};
ghost use Rattle.file_tree.specs.Performs.{Performs, IfDone, KeepsDigests, changed_by_rename};

use crate::name_checks::{Move, check_rename};
use crate::tree::Tree;
use nfs_spec::{Stat, Time, Who};
use std::alloc::{AllocError, Global};

impl Tree {
    /// Gives an entry another name, in the same or another directory, over what may stand there (RFC 1094,
    /// section 2.2.12); of one file under both names nothing changes. Of each directory Stale and NotDir,
    /// then Acces of each; NoEnt; Acces where a directory would come into itself; NotDir, IsDir and NotEmpty
    /// of what stands at the new name; NoSpc. A refusal, or running out of memory, leaves the files as they
    /// were.
    pub fn rename(
        &mut self,
        alloc: Global,
        who: &Who,
        now: Time,
        from: u32,
        from_name: &[u8],
        to: u32,
        to_name: &[u8],
    ) -> Result<Result<(), Stat>, AllocError>
        requires { length to_name.now ≤ max_name }
        ensures effect { Performs
            (rename self.old.files (caller_of who.now) now from from_name.now to to_name.now)
            self.old.files result self.new.files }

        // All that was below the one path is below the other.
        ensures paths { IfDone result (λ done.
            (IsSameFile self.old.files from from_name.now to to_name.now → ⊥) →
            RenamesIn self.old.files self.new.files from from_name.now to to_name.now) }
        ensures digests { KeepsDigests
            (λ _. changed_by_rename self.old.files from from_name.now to to_name.now)
            self.old result self.new }
    {
        self.table.files_are_a_tree();
        let moved = match check_rename(&self.table, who, from, from_name, to, to_name) {
            Ok(moved) => moved,
            Err(stat) => return Ok(Err(stat)),
        };
        let Some(Move { number, target }) = moved else {
            return Ok(Ok(()));
        };
        let name = to_name.to_vec(alloc)?;
        self.table
            .rename(now, number, from, from_name, to, name, target)?;
        self.digests.forget(target.unwrap_or(number));
        self.digests.forget(number);
        self.digests.forget(to);
        self.digests.forget(from);
        Ok(Ok(()))
    }
}
