//! The way up from a directory.

ghost use Rattle.std.specs.Prelude.{◌≡◌};
ghost use Rattle.nfs_spec.specs.fs_spec.Files.{parent_of, IsDirectory};
ghost use Rattle.nfs_spec.specs.Procedures.{is_above};

use inode_table::{Body, Inode, InodeTable};

/// The number of the directory above a directory; the root's is the root.
fn parent_of(table: &InodeTable, dir: u32) -> u32
    requires { IsDirectory table.now dir }
    ensures { result ≡ parent_of table.now dir }
{
    match table.get(dir) {
        Some(
            Inode {
                body: Body::Directory { parent, .. },
                ..
            },
        ) => *parent,
        _ => unreachable!(),
    }
}

/// Whether a number is that of a directory or of one above it. No way up is longer than there are files.
pub fn is_above(table: &InodeTable, upper: u32, dir: u32) -> bool
    requires { IsDirectory table.now dir }
    ensures { result ≡ is_above table.now upper dir }
{
    table.files_are_a_tree();
    let mut number = dir;
    for _step in 0..table.file_count() {
        if upper == number {
            return true;
        }
        if number == 1 {
            return false;
        }
        number = parent_of(table, number);
    }
    upper == number
}
