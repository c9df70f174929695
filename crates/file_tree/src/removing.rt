//! Calls that take names out.

ghost use Rattle.std.specs.Prelude.{◌≡◌, ◌∷◌, OnOk};
ghost use Rattle.nfs_spec.specs.nfs_items.CallerOf.{caller_of};
ghost use Rattle.nfs_spec.specs.Procedures.{remove, remove_dir};
ghost use Rattle.inode_table.specs.nfs_laws.Laws.{UnnamesIn};
ghost use Rattle.file_tree.specs.NameChecks.Names.{MayGo, unnamed_by};
ghost use Rattle.file_tree.specs.Performs.{Does, Keeps, named_in};

use crate::name_checks::{check_remove, check_remove_dir};
use crate::tree::Tree;
use nfs_spec::{Stat, Time, Who};

impl Tree {
    /// Takes a name of a file or symbolic link out (RFC 1094, section 2.2.11), and with its last name the
    /// file. Stale, NotDir, Acces, NoEnt and IsDir, in this order. A refusal leaves the files as they were.
    pub fn remove(&mut self, who: &Who, now: Time, dir: u32, name: &[u8]) -> Result<(), Stat>
        ensures effect { Does (remove self.old.files (caller_of who.now) now dir name.now)
            self.old.files result self.new.files }

        // One path less for each of the directory.
        ensures paths { OnOk result (UnnamesIn self.old.files self.new.files dir name.now) }
        ensures digests { Keeps (λ _. dir ∷ named_in self.old.files dir name.now) self.old result self.new }
    {
        self.table.files_are_a_tree();
        let checked = check_remove(&self.table, who, dir, name);
        self.unname(now, dir, name, checked)
    }

    /// Takes a directory out, which must be empty (RFC 1094, section 2.2.16). Stale, NotDir, Acces and NoEnt;
    /// then NotDir of what isn't a directory, and NotEmpty, in this order. A refusal leaves the files as they
    /// were.
    pub fn remove_dir(&mut self, who: &Who, now: Time, dir: u32, name: &[u8]) -> Result<(), Stat>
        ensures effect { Does (remove_dir self.old.files (caller_of who.now) now dir name.now)
            self.old.files result self.new.files }
        ensures paths { OnOk result (UnnamesIn self.old.files self.new.files dir name.now) }
        ensures digests { Keeps (λ _. dir ∷ named_in self.old.files dir name.now) self.old result self.new }
    {
        self.table.files_are_a_tree();
        let checked = check_remove_dir(&self.table, who, dir, name);
        self.unname(now, dir, name, checked)
    }

    /// Takes a name out by what a check gave: the number that stands at it, or a refusal.
    fn unname(
        &mut self,
        now: Time,
        dir: u32,
        name: &[u8],
        checked: Result<u32, Stat>,
    ) -> Result<(), Stat>
        requires { MayGo self.old.files dir name.now checked }
        ensures effect { Does (unnamed_by now self.old.files dir name.now checked)
            self.old.files result self.new.files }
        ensures digests { Keeps (λ _. dir ∷ named_in self.old.files dir name.now) self.old result self.new }
    {
        let number = checked?;
        self.table.unlink(now, dir, name, number);
        self.digests.forget(number);
        self.digests.forget(dir);
        Ok(())
    }
}
