//! Digests of the texts of files, kept beside the files.

ghost use Rattle.std.specs.Prelude.{◌≡◌, ◌≤◌, ◌⊎◌, [], List, ℕ, IfOk, IsSome, OnOk};
ghost use Rattle.std.specs.Prelude.{Some, None, length};
ghost use Rattle.std.specs.Option.{option_copied};
ghost use Rattle.std.specs.FinMap as finite;
ghost use Rattle.nfs_spec.specs.nfs_items.Terms.{FileNumber};
ghost use Rattle.nfs_spec.specs.fs_spec.Maxima.{max_files};
ghost use Rattle.inode_table.specs.inodes.Inodes.{body_in, file_in};
ghost use Rattle.inode_table.specs.tree_rules.Listed.{files_in};
ghost use Rattle.file_texts.specs.Bounds.{IsWritable};
ghost use Rattle.file_texts.specs.server_spec.FileItems.{file_digest};
ghost use Rattle.file_tree.specs.KeptDigests.{AreKept, Forgets, count_missing, kept_at, missing_in};

use file_texts::file_digest;
use inode_table::{Inode, InodeTable};
use std::alloc::{AllocError, Global};
use std::collections::BTreeMap;
use std::collections::btree_map::Iter;

/// Digests of the texts of files, under the files' numbers.
#[derive(Drop)]
pub struct FileDigests {
    by_number: BTreeMap<u32, [u8; 32]>,
}

impl FileDigests {
    /// No digest. No memory is taken.
    pub fn new(alloc: Global) -> FileDigests
        ensures { (n : FileNumber) → kept_at result n ≡ None }
    {
        FileDigests {
            by_number: BTreeMap::new(alloc),
        }
    }

    /// The digest that is kept for a number.
    pub fn get(&self, number: u32) -> Option<&[u8; 32]>
        ensures { option_copied result ≡ kept_at self.now number }
    {
        self.by_number.get(&number)
    }

    /// Drops the digest of a number, if one is kept, and no other.
    pub fn forget(&mut self, number: u32)
        ensures { Forgets number self.old self.new }
    {
        self.by_number.remove(&number);
    }

    /// Computes the digests that are missing of a table's files, and gives how many they were; those that are
    /// kept stay. Where memory is refused, some more may be kept.
    pub fn renew(&mut self, alloc: Global, table: &InodeTable) -> Result<u32, AllocError>
        requires { AreKept self.old table.now }
        ensures count { IfOk result (λ count. count ≡ length (missing_in self.old table.now)) }
        ensures few { IfOk result (λ count. count ≤ max_files) }
        ensures whole { OnOk result (missing_in self.new table.now ≡ []) }
        ensures stay { (n : FileNumber) → IsSome (kept_at self.old n) → IsSome (kept_at self.new n) }
        ensures kept { AreKept self.new table.now }
    {
        table.files_are_a_tree();
        let count = self.count_missing(table.inodes());
        let mut buffer = Vec::new(alloc);
        for (number, inode) in table.inodes() {
            self.keep(*number, inode, &mut buffer)?;
        }
        Ok(count)
    }

    /// How many files have no digest.
    fn count_missing(&self, inodes: Iter<'_, u32, Inode>) -> u32
        requires { length inodes ≤ max_files }
        ensures count { result ≡ count_missing self.now (files_in inodes.entry) }
        ensures few { result ≤ max_files }
    {
        let mut count = 0;
        for (number, _) in inodes {
            if self.get(*number).is_none() {
                count += 1;
            }
        }
        count
    }

    /// Computes the digest of a file that has none, and keeps it. `buffer` is room for its text.
    fn keep(&mut self, number: u32, inode: &Inode, buffer: &mut Vec<u8>) -> Result<(), AllocError>
        requires { IsWritable (body_in inode.now.body) }
        ensures here { OnOk result (IsSome (kept_at self.new number)) }
        ensures stay { (n : FileNumber) → IsSome (kept_at self.old n) → IsSome (kept_at self.new n) }
        ensures new { (n : FileNumber) (digest : List ℕ) → kept_at self.new n ≡ Some digest →
            (kept_at self.old n ≡ Some digest)
            ⊎ ((n ≡ number) × (digest ≡ file_digest (number, file_in inode.now))) }
    {
        if self.get(number).is_some() {
            return Ok(());
        }
        let digest = file_digest(number, inode, buffer)?;
        self.by_number.insert(number, digest)?;
        Ok(())
    }
}
