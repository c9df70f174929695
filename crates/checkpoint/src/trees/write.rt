//! A server's files after their count (RFC 4506, section 4.13).

ghost use Rattle.std.specs.Prelude.{◌≡◌, IfOk, OnOk, Some, map};
ghost use Rattle.std.specs.List.{AllByRecursion, flat_map};
ghost use Rattle.std.specs.FinMap as finite;
ghost use Rattle.xdr.specs.Item.{Fits, array, fixed, spelling};
ghost use Rattle.xdr.specs.Writing.{Adds};
ghost use Rattle.nfs_laws.specs.fs_spec.Files.{file_at};
ghost use Rattle.nfs_laws.specs.fs_spec.Maxima.{max_files};
ghost use Rattle.inodes.specs.Inodes.{body_in, file_in};
ghost use Rattle.file_tree.specs.KeptDigests.{IsWritableAt};
ghost use Rattle.file_tree.specs.tree_rules.Listed.{files_in};
ghost use Rattle.state_machine.specs.file_texts.Bounds.{IsWritable};
ghost use Rattle.state_spec.specs.server_spec.FileItems.{file_digest, file_item, file_value};

use file_tree::Tree;
use inodes::Inode;
use state_machine::{add_file, file_digest};
use std::alloc::AllocError;
use std::collections::btree_map::Iter;
use xdr::Writer;

/// Appends a server's files after their count, by rising number; where memory is refused a part may stand.
pub fn add_tree(tree: &Tree, out: &mut Vec<u8>) -> Result<(), AllocError>
    ensures fits { OnOk result (Fits (array max_files file_item)
        (map file_value (finite.entries tree.now.files.files))) }
    ensures text { Adds (spelling (array max_files file_item)
        (map file_value (finite.entries tree.now.files.files))) out.old.items result out.new.items }
{
    tree.files_are_a_tree();
    out.put_u32(tree.inodes().len() as u32)?;
    add_files(tree.inodes(), out)
}

/// The same with each file's digest in the place of its text, the one that is kept where one is. `buffer` is
/// used for each other text in turn.
pub fn add_tree_digests(
    tree: &Tree,
    buffer: &mut Vec<u8>,
    out: &mut Vec<u8>,
) -> Result<(), AllocError>
    ensures fits { OnOk result (Fits (array max_files (fixed 32))
        (map file_digest (finite.entries tree.now.files.files))) }
    ensures text { Adds (spelling (array max_files (fixed 32))
        (map file_digest (finite.entries tree.now.files.files))) out.old.items result out.new.items }
{
    tree.files_are_a_tree();
    out.put_u32(tree.inodes().len() as u32)?;
    add_digests(tree, tree.inodes(), buffer, out)
}

/// Files one after the other.
fn add_files(inodes: Iter<'_, u32, Inode>, out: &mut Vec<u8>) -> Result<(), AllocError>
    requires { AllByRecursion (λ e. IsWritable (file_in e.1).body) inodes }
    ensures fits { OnOk result
        (AllByRecursion (Fits file_item) (map (λ e. file_value (e.0, file_in e.1)) inodes.entry)) }
    ensures text { Adds (flat_map (λ e. spelling file_item (file_value (e.0, file_in e.1))) inodes.entry)
        out.old.items result out.new.items }
{
    for (number, inode) in inodes {
        add_file(*number, inode, out)?;
    }
    Ok(())
}

/// Digests of a tree's files one after the other.
fn add_digests(
    tree: &Tree,
    inodes: Iter<'_, u32, Inode>,
    buffer: &mut Vec<u8>,
    out: &mut Vec<u8>,
) -> Result<(), AllocError>
    requires { AllByRecursion (IsWritableAt tree.now.files) inodes }
    ensures fits { OnOk result
        (AllByRecursion (Fits (fixed 32)) (map (λ e. file_digest (e.0, file_in e.1)) inodes.entry)) }
    ensures text { Adds (flat_map (λ e. spelling (fixed 32) (file_digest (e.0, file_in e.1))) inodes.entry)
        out.old.items result out.new.items }
{
    for (number, inode) in inodes {
        add_digest(tree, *number, inode, buffer, out)?;
    }
    Ok(())
}

/// The digest of a tree's file, appended.
fn add_digest(
    tree: &Tree,
    number: u32,
    inode: &Inode,
    buffer: &mut Vec<u8>,
    out: &mut Vec<u8>,
) -> Result<(), AllocError>
    requires there { file_at tree.now.files number ≡ Some (file_in inode.now) }
    requires writable { IsWritable (body_in inode.now.body) }
    ensures fits { OnOk result (Fits (fixed 32) (file_digest (number, file_in inode.now))) }
    ensures text { Adds (spelling (fixed 32) (file_digest (number, file_in inode.now)))
        out.old.items result out.new.items }
{
    let digest = digest_of(tree, number, inode, buffer)?;
    out.put_fixed(&digest)
}

/// The digest that is kept of the text of a tree's file, or, where none is, the one that is computed.
fn digest_of(
    tree: &Tree,
    number: u32,
    inode: &Inode,
    buffer: &mut Vec<u8>,
) -> Result<[u8; 32], AllocError>
    requires there { file_at tree.now.files number ≡ Some (file_in inode.now) }
    requires writable { IsWritable (body_in inode.now.body) }
    ensures { IfOk result (λ digest. digest ≡ file_digest (number, file_in inode.now)) }
{
    match tree.kept_digest(number) {
        Some(digest) => Ok(*digest),
        None => file_digest(number, inode, buffer),
    }
}
