//! What a file refuses a caller.

use crate::directories::{Directory, is_name};
use crate::given::Given;
use crate::inode::{Body, Inode, MAX_FILE_SIZE};
use nfs_spec::{Stat, Who};

impl Inode {
    ghost use Rattle.std.specs.Prelude.{◌≡◌, ◌==◌, ◌||◌, ◌&&◌};
    ghost use Rattle.std.specs.Result.{result_map_both};
    ghost use Rattle.nfs_spec.specs.nfs_items.CallerOf.{caller_of};
    ghost use Rattle.nfs_spec.specs.nfs_items.declared.stat.Stat.TheVariants as stats;
    ghost use Rattle.nfs_spec.specs.Changes.{check_owner, check_resize, is_in_group, may_give_group};
    ghost use Rattle.nfs_spec.specs.ProcedureChecks.{NumberedDir, check_edit, listing_or, owns};
    ghost use Rattle.inodes.specs.Given.{given_in};
    ghost use Rattle.inodes.specs.Inodes.{body_in, file_in};

    /// Whether a caller may give the file to a user: user 0 to any, the owner to itself.
    fn may_give_user(&self, who: &Who, uid: u32) -> bool
        ensures { result ≡ ((who.now.uid == 0)
            || (owns (caller_of who.now) (file_in self.now) && (uid == self.now.uid))) }
    {
        who.uid == 0 || (self.owns(who) && uid == self.uid)
    }

    /// Whether a caller may give the file to a group: user 0 to any, the owner to the same or one of its own.
    fn may_give_group(&self, who: &Who, gid: u32) -> bool
        ensures { result ≡ may_give_group (caller_of who.now) (file_in self.now) gid }
    {
        who.uid == 0 || (self.owns(who) && (gid == self.gid || is_in_group(who, gid)))
    }

    /// Perm where a caller may not set what is given (RFC 1094, section 2.2.3): mode and times are set by the
    /// owner and user 0; the user by user 0, and by the owner to itself; the group by user 0, and by the
    /// owner to the same or one of its own.
    pub fn check_owner(&self, who: &Who, given: &Given) -> Result<(), Stat>
        ensures { result ≡ check_owner (caller_of who.now) (file_in self.now) (given_in given.now) }
    {
        if !self.owns(who) && who.uid != 0 && given.has_mode_or_times() {
            return Err(Stat::Perm);
        }
        if let Some(uid) = given.uid
            && !self.may_give_user(who, uid)
        {
            return Err(Stat::Perm);
        }
        if let Some(gid) = given.gid
            && !self.may_give_group(who, gid)
        {
            return Err(Stat::Perm);
        }
        Ok(())
    }

    /// Where a size is given: IsDir for a directory, NxIo for a symbolic link; then Acces without write
    /// permission, then FBig above `MAX_FILE_SIZE` bytes.
    pub fn check_resize(&self, who: &Who, size: Option<u32>) -> Result<(), Stat>
        ensures { result ≡ check_resize (caller_of who.now) (file_in self.now) size }
    {
        let Some(size) = size else {
            return Ok(());
        };
        self.bytes()?;
        if !self.may_write(who) {
            return Err(Stat::Acces);
        }
        if size > MAX_FILE_SIZE {
            return Err(Stat::FBig);
        }
        Ok(())
    }

    /// Acces where a caller may not put a name into this directory or take it out: what may not be a name, or
    /// no permission to search and to write.
    pub fn check_edit(&self, who: &Who, name: &[u8]) -> Result<(), Stat>
        ensures { (d : NumberedDir) → d.file ≡ file_in self.now →
            result ≡ check_edit (caller_of who.now) d name.now }
    {
        if is_name(name) && self.may_search(who) && self.may_write(who) {
            Ok(())
        } else {
            Err(Stat::Acces)
        }
    }

    /// What a directory lists. NotDir for other files.
    pub fn directory(&self) -> Result<&Directory, Stat>
        ensures { result_map_both (λ listing. listing.now) (λ e. e) result
            ≡ listing_or stats.NotDir (body_in self.now.body) }
    {
        match &self.body {
            Body::Directory { listing, .. } => Ok(listing),
            Body::Regular(_) | Body::Symlink(_) => Err(Stat::NotDir),
        }
    }
}

ghost use Rattle.std.specs.Prelude.{◌≡◌};
ghost use Rattle.nfs_spec.specs.nfs_items.CallerOf.{caller_of};
ghost use Rattle.nfs_spec.specs.Changes.{is_in_group};

/// Whether a group is one of a caller's.
fn is_in_group(who: &Who, gid: u32) -> bool
    ensures { result ≡ is_in_group (caller_of who.now) gid }
{
    who.gid == gid || who.gids.as_slice().contains(&gid)
}
