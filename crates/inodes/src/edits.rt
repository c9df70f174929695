//! Edits of an inode by what becomes of other files.

use crate::inode::{Body, Inode};
use nfs_spec::Time;
use std::alloc::AllocError;

impl Inode {
    ghost use Rattle.std.specs.Prelude.{◌≡◌, ◌<◌, ◌^◌, ◌-◌, OnOk, OnErr, if◌then◌else◌};
    ghost use Rattle.nfs_spec.specs.fs_spec.Files.{is_directory, listing_in};
    ghost use Rattle.nfs_spec.specs.fs_spec.Listing.{with_entry, without_entry};
    ghost use Rattle.nfs_spec.specs.fs_spec.Changes.Edits.{map_listing};
    ghost use Rattle.nfs_spec.specs.Changes.{with_ctime, with_mtime};
    ghost use Rattle.inodes.specs.Inodes.{body_in, file_in, parent_in};

    /// mtime and ctime become now.
    pub fn touch(&mut self, now: Time)
        ensures file { file_in self.new ≡ with_mtime now (file_in self.old) }
        ensures nlink { self.new.nlink ≡ self.old.nlink }
        ensures parent { parent_in self.new.body ≡ parent_in self.old.body }
    {
        self.mtime = now;
        self.ctime = now;
    }

    /// ctime becomes now.
    pub fn set_ctime(&mut self, now: Time)
        ensures file { file_in self.new ≡ with_ctime now (file_in self.old) }
        ensures nlink { self.new.nlink ≡ self.old.nlink }
        ensures parent { parent_in self.new.body ≡ parent_in self.old.body }
    {
        self.ctime = now;
    }

    /// Puts a name last in a directory, with the next cookie, in place of the entry that it has; other files
    /// stay. Where memory is refused nothing changes.
    pub fn put(&mut self, name: Vec<u8>, number: u32) -> Result<(), AllocError>
        requires { (listing_in (body_in self.old.body)).next < 2 ^ 32 - 1 }
        ensures file { OnOk result (file_in self.new
            ≡ map_listing (λ l. with_entry l name.items number) (file_in self.old)) }
        ensures nlink { self.new.nlink ≡ self.old.nlink }
        ensures parent { parent_in self.new.body ≡ parent_in self.old.body }
        ensures err { OnErr result (file_in self.new ≡ file_in self.old) }
    {
        match &mut self.body {
            Body::Directory { listing, .. } => listing.put(name, number),
            Body::Regular(_) | Body::Symlink(_) => Ok(()),
        }
    }

    /// Takes a name out of a directory, if it is there; the others keep their order and their cookies. Other
    /// files stay.
    pub fn take(&mut self, name: &[u8])
        ensures file { file_in self.new
            ≡ map_listing (λ l. without_entry l name.now) (file_in self.old) }
        ensures nlink { self.new.nlink ≡ self.old.nlink }
        ensures parent { parent_in self.new.body ≡ parent_in self.old.body }
    {
        if let Body::Directory { listing, .. } = &mut self.body {
            listing.remove(name);
        }
    }

    /// The directory above a directory becomes the one of a number; other files stay.
    pub fn set_parent(&mut self, number: u32)
        ensures file { file_in self.new ≡ file_in self.old }
        ensures nlink { self.new.nlink ≡ self.old.nlink }
        ensures parent { parent_in self.new.body
            ≡ (if is_directory (body_in self.old.body) then number else parent_in self.old.body) }
    {
        if let Body::Directory { parent, .. } = &mut self.body {
            *parent = number;
        }
    }
}
