//! Walks along paths, which look at no permission.

ghost use Rattle.std.specs.Prelude.{◌≡◌, option_map};
ghost use Rattle.nfs_spec.specs.fs_spec.Listing.{file_number};
ghost use Rattle.nfs_spec.specs.fs_spec.Files.{directory_entries};

use crate::tree::Tree;
use inode_table::Body;

impl Tree {
    /// The number that a directory lists under a name, whoever asks; none where the directory's number is no
    /// directory's, or it lists no such name. It lists neither `.` nor `..`.
    pub fn child(&self, dir: u32, name: &[u8]) -> Option<u32>
        ensures { result ≡ option_map file_number (directory_entries self.now.files dir name.now) }
    {
        match &self.table.get(dir)?.body {
            Body::Directory { listing, .. } => listing.find(name).map(|entry| entry.number),
            Body::Regular(_) | Body::Symlink(_) => None,
        }
    }
}
