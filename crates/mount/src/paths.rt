//! Paths of bytes (RFC 1094, appendix A.4.3).

ghost use Rattle.std.specs.Prelude.{◌≡◌, ◌==◌, is_some};
ghost use Rattle.std.specs.List.{list_all};
ghost use Rattle.file_tree.specs.fs_spec.Files.{directory_entries};
ghost use Rattle.file_tree.specs.fs_spec.Paths.{path_at};
ghost use Rattle.mount_types.specs.Mounts.{root_path};
ghost use Rattle.server_spec.specs.Paths.{slash, names_between, names_on};
ghost use Rattle.server_spec.specs.Walks.{is_root, is_there, number_after};

use file_tree::Tree;

/// The byte between names.
const SLASH: u8 = b'/';

/// The number of the root.
pub const ROOT: u32 = 1;

/// The path of the root.
pub fn root_path() -> &'static [u8]
    ensures { result.now ≡ root_path }
{
    b"/"
}

/// Whether there are slashes alone.
fn are_slashes(bytes: &[u8]) -> bool
    ensures { result ≡ list_all (λ byte. byte == slash) bytes.now }
{
    bytes.iter().all(|byte| *byte == SLASH)
}

/// Whether a path names the root: slashes alone, and at least one.
pub fn is_root(path: &[u8]) -> bool
    ensures { result ≡ is_root (names_on path.now) }
{
    !path.is_empty() && are_slashes(path)
}

/// The number of what stands between two slashes, in a directory; the directory's own where nothing does.
fn number_after(tree: &Tree, dir: u32, name: &[u8]) -> Option<u32>
    ensures { result ≡ number_after (directory_entries tree.now.files) dir name.now }
{
    if name.is_empty() {
        Some(dir)
    } else {
        tree.child(dir, name)
    }
}

/// Whether the names between slashes lead from the root to something. Permissions aren't looked at.
fn lead_somewhere(tree: &Tree, names: &[u8]) -> bool
    ensures { result ≡ is_some (path_at (directory_entries tree.now.files) (names_between names.now)) }
{
    let mut dir = ROOT;
    for name in names.split(|byte| *byte == SLASH) {
        let Some(number) = number_after(tree, dir, name) else {
            return false;
        };
        dir = number;
    }
    true
}

/// Whether a path begins with a slash and leads to something. Permissions aren't looked at.
pub fn is_there(tree: &Tree, path: &[u8]) -> bool
    ensures { result ≡ is_there (directory_entries tree.now.files) (names_on path.now) }
{
    match path.split_first() {
        Some((first, names)) => *first == SLASH && lead_somewhere(tree, names),
        None => false,
    }
}
