//! Calls that change what a file holds: its attributes and its bytes.

ghost use Rattle.std.specs.Prelude.{◌≡◌, ◌==◌, length, not};
ghost use Rattle.nfs_spec.specs.nfs_items.CallerOf.{caller_of};
ghost use Rattle.nfs_spec.specs.Sattr.{given_fields, gives_any};
ghost use Rattle.nfs_spec.specs.Procedures.{set_attributes, write};
ghost use Rattle.inode_table.specs.nfs_laws.Laws.{AreValidFields};
ghost use Rattle.inode_table.specs.inodes.Given.{given_in};
ghost use Rattle.file_tree.specs.Performs.{KeepsDigests, PerformsAt, number_if};

use crate::file_checks::{check_set, check_write};
use crate::tree::Tree;
use inode_table::Given;
use nfs_spec::{Fattr, Sattr, Stat, Time, Who};
use std::alloc::AllocError;

impl Tree {
    /// Sets the attributes of a file that are given (RFC 1094, section 2.2.3), and gives all of them after
    /// it. Stale, then Perm, then IsDir, NxIo, Acces, FBig and NoSpc where a size is given. A refusal, or
    /// running out of memory, leaves the files as they were.
    pub fn set_attributes(
        &mut self,
        who: &Who,
        now: Time,
        number: u32,
        attributes: &Sattr,
    ) -> Result<Result<Fattr, Stat>, AllocError>
        ensures effect { PerformsAt
            (set_attributes self.old.files (caller_of who.now) now number (given_fields now attributes.now))
            number self.old.files result self.new.files }
        ensures digests { KeepsDigests
            (λ _. number_if (gives_any (given_fields now attributes.now)) number)
            self.old result self.new }
    {
        self.set(who, now, number, &Given::of(attributes, now))
    }

    /// The same for what attributes give.
    pub(crate) fn set(
        &mut self,
        who: &Who,
        now: Time,
        number: u32,
        given: &Given,
    ) -> Result<Result<Fattr, Stat>, AllocError>
        requires { AreValidFields (given_in given.now) }
        ensures effect { PerformsAt
            (set_attributes self.old.files (caller_of who.now) now number (given_in given.now))
            number self.old.files result self.new.files }
        ensures digests { KeepsDigests (λ _. number_if (gives_any (given_in given.now)) number)
            self.old result self.new }
    {
        if let Err(stat) = check_set(&self.table, who, number, given) {
            return Ok(Err(stat));
        }
        let attributes = self.table.set(now, number, given)?;
        if !given.is_any() {
            return Ok(Ok(attributes));
        }
        self.digests.forget(number);
        Ok(Ok(attributes))
    }

    /// Writes bytes into a regular file at an offset (RFC 1094, section 2.2.9), with zeros between its end
    /// and an offset past it; no bytes change nothing. Gives the attributes after it. Stale, IsDir, NxIo,
    /// Acces, FBig and NoSpc, in this order. A refusal, or running out of memory, leaves the files as they
    /// were.
    pub fn write(
        &mut self,
        who: &Who,
        now: Time,
        number: u32,
        offset: u32,
        bytes: &[u8],
    ) -> Result<Result<Fattr, Stat>, AllocError>
        ensures effect { PerformsAt (write self.old.files (caller_of who.now) now number offset bytes.now)
            number self.old.files result self.new.files }
        ensures digests { KeepsDigests (λ _. number_if (not (length bytes.now == 0)) number)
            self.old result self.new }
    {
        if let Err(stat) = check_write(&self.table, who, number, offset, bytes) {
            return Ok(Err(stat));
        }
        if bytes.is_empty() {
            return Ok(self.attributes(number));
        }
        let attributes = self.table.write(now, number, offset, bytes)?;
        self.digests.forget(number);
        Ok(Ok(attributes))
    }
}
