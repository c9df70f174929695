//! Inodes from the parts of many files.

ghost use Rattle.std.specs.Prelude.{◌≡◌, IfOk, MatchOption};
ghost use Rattle.std.specs.List.{All};
ghost use Rattle.tree_rules.specs.Listed.{files_in};
ghost use Rattle.file_texts.specs.Alone.{AreAlone};
ghost use Rattle.file_texts.specs.Bounds.{IsWritable};
ghost use Rattle.file_texts.specs.Parts.{body_of, files_given};

use crate::inode::inode_of;
use crate::parts::FilePart;
use std::alloc::{AllocError, Global};
use tree_rules::Inode;

/// The inodes of files by rising number. None exactly where the numbers don't rise strictly from 1 to below
/// `next`, or a file breaks a rule that it keeps by itself. What they keep beside their files, their links
/// and the directories above, says nothing yet.
pub fn inodes_of(
    alloc: Global,
    next: u32,
    parts: &[FilePart],
) -> Result<Option<Vec<(u32, Inode)>>, AllocError>
    requires { All (λ part. IsWritable (body_of part.body)) parts.now }
    ensures { IfOk result (λ inodes. MatchOption inodes (AreAlone next (files_given parts.now) → ⊥)
        (λ v. (files_in v.items ≡ files_given parts.now) × AreAlone next (files_given parts.now))) }
{
    let mut inodes = Vec::new(alloc);
    let mut low = 1;
    for part in parts {
        if part.number < low {
            return Ok(None);
        }
        if next <= part.number {
            return Ok(None);
        }
        let Some(inode) = inode_of(alloc, part)? else {
            return Ok(None);
        };
        inodes.push((part.number, inode))?;
        low = part.number + 1;
    }
    Ok(Some(inodes))
}
