//! Inodes from the parts of their texts.

ghost use Rattle.std.specs.Prelude.{◌≡◌, IfOk, MatchOption};
ghost use Rattle.fs_spec.specs.Trees.{IsTime};
ghost use Rattle.tree_rules.specs.inodes.Inodes.{body_in, file_in};
ghost use Rattle.file_texts.specs.Alone.{IsBodyAlone, IsFileAlone};
ghost use Rattle.file_texts.specs.Bounds.{IsWritable};
ghost use Rattle.file_texts.specs.Parts.{time_of, body_of, file_of};

use crate::parts::{BodyPart, FilePart, TimePart};
use fs_spec::Time;
use std::alloc::{AllocError, Global};
use tree_rules::{Body, Inode, directory_of};

/// The first number that is no mode: a mode has twelve bits.
const MODES: u32 = 0o10000;

/// The inode of a file's parts. None exactly where they break a rule that a file keeps by itself. What it
/// keeps beside the file, its links and the directory above, says nothing yet.
pub fn inode_of(alloc: Global, part: &FilePart) -> Result<Option<Inode>, AllocError>
    requires { IsWritable (body_of part.now.body) }
    ensures { IfOk result (λ inode. MatchOption inode (IsFileAlone (file_of part.now) → ⊥)
        (λ i. (file_in i ≡ file_of part.now) × IsFileAlone (file_of part.now))) }
{
    let attributes = &part.attributes;
    if attributes.mode >= MODES {
        return Ok(None);
    }
    let Some(atime) = time_of(&attributes.atime) else {
        return Ok(None);
    };
    let Some(mtime) = time_of(&attributes.mtime) else {
        return Ok(None);
    };
    let Some(ctime) = time_of(&attributes.ctime) else {
        return Ok(None);
    };
    let Some(body) = body_of(alloc, &part.body)? else {
        return Ok(None);
    };
    Ok(Some(Inode {
        mode: attributes.mode as u16,
        nlink: 0,
        uid: attributes.uid,
        gid: attributes.gid,
        atime,
        mtime,
        ctime,
        body,
    }))
}

/// The time of a part. None where the microseconds are 1,000,000 or more.
fn time_of(part: &TimePart) -> Option<Time>
    ensures { MatchOption result (IsTime (time_of part.now) → ⊥)
        (λ time. (time ≡ time_of part.now) × IsTime (time_of part.now)) }
{
    Time::new(part.seconds, part.microseconds)
}

/// The body of a part, whose directory above says nothing yet. None exactly where a directory's entries break
/// a rule.
fn body_of(alloc: Global, part: &BodyPart) -> Result<Option<Body>, AllocError>
    requires { IsWritable (body_of part.now) }
    ensures { IfOk result (λ body. MatchOption body (IsBodyAlone (body_of part.now) → ⊥)
        (λ b. (body_in b ≡ body_of part.now) × IsBodyAlone (body_of part.now))) }
{
    match part {
        BodyPart::Regular(bytes) => Ok(Some(Body::Regular(bytes.to_vec(alloc)?))),
        BodyPart::Symlink(target) => Ok(Some(Body::Symlink(target.to_vec(alloc)?))),
        BodyPart::Directory { next, entries } => match directory_of(alloc, *next, entries)? {
            Some(listing) => Ok(Some(Body::Directory { parent: 0, listing })),
            None => Ok(None),
        },
    }
}
