//! The digest of a file's text.

ghost use Rattle.std.specs.Prelude.{◌≡◌, IfOk};
ghost use Rattle.tree_rules.specs.inodes.Inodes.{body_in, file_in};
ghost use Rattle.file_texts.specs.Bounds.{IsWritable};
ghost use Rattle.server_spec.specs.FileItems.{file_digest};

use crate::write::add_file;
use sha2::{Digest, Sha256};
use std::alloc::AllocError;
use tree_rules::Inode;

/// The digest of the text of a file with its number. `buffer` is room for the text: what it holds before and
/// after means nothing.
#[tactic(auto, unfolding(server_spec::specs::FileItems::file_digest))]
pub fn file_digest(number: u32, inode: &Inode, buffer: &mut Vec<u8>) -> Result<[u8; 32], AllocError>
    requires { IsWritable (body_in inode.now.body) }
    ensures { IfOk result (λ digest. digest ≡ file_digest (number, file_in inode.now)) }
{
    buffer.clear();
    add_file(number, inode, buffer)?;
    Ok(Sha256::digest(buffer.as_slice()))
}
