//! What holds of every tree of files.

ghost use Rattle.std.specs.Prelude.{◌≡◌, ◌≢◌, [], ◌∷◌, ◌++◌, List, ℕ, Option, Some, None, IsSome, option_map};
ghost use Rattle.nfs_items.specs.Terms.{Name, FileNumber, Cookie};
ghost use Rattle.fs_spec.specs.Names.{FilePath};
ghost use Rattle.fs_spec.specs.Listing.{DirectoryEntry};
ghost use Rattle.fs_spec.specs.Paths.{DirectoryEntries, walk, path_at, ChangesEntry, HasOnePathEach};
ghost use Rattle.fs_spec.specs.Files.{Files, file_at, IsDirectory, directory_entries, without_entries};
ghost use Rattle.fs_spec.specs.Trees.{IsFileTree};

/// The walk along a path changes under a change of one entry only where it passes that entry.
pub fn walks_change_where_they_pass()
    ensures { (at to : DirectoryEntries) (directory : FileNumber) (name : Name) →
        (entry : Option DirectoryEntry) → ChangesEntry at to directory name entry →
        (from : DirectoryEntry) (path : FilePath) →
        ((front rest : FilePath) (cookie : Cookie) →
        walk at from front ≡ Some (directory, cookie) → path ≢ front ++ name ∷ rest) →
        walk to from path ≡ walk at from path }
{}

/// A directory has one path.
pub fn directories_have_one_path()
    ensures { (fs : Files) → IsFileTree fs → HasOnePathEach (IsDirectory fs) (directory_entries fs) }
{}

/// What stands above the last name of a path is the path of a directory, and that directory has the name.
pub fn parents_are_directories()
    ensures { (fs : Files) → IsFileTree fs →
        (path : FilePath) (name : Name) (number : FileNumber) (cookie : Cookie) →
        path_at (directory_entries fs) (path ++ name ∷ []) ≡ Some (number, cookie) →
        (parent : FileNumber) × (parent_cookie : Cookie)
        × (path_at (directory_entries fs) path ≡ Some (parent, parent_cookie))
        × IsDirectory fs parent × (directory_entries fs parent name ≡ Some (number, cookie)) }
{}

/// The numbers of files are those that paths lead to: a number with no path left is gone.
pub fn numbers_have_paths()
    ensures path { (fs : Files) → IsFileTree fs → (number : FileNumber) → IsSome (file_at fs number) →
        (path : FilePath) × (cookie : Cookie) ×
        (path_at (directory_entries fs) path ≡ Some (number, cookie)) }
    ensures there { (fs : Files) → IsFileTree fs → (path : FilePath) (number : FileNumber) (cookie : Cookie) →
        path_at (directory_entries fs) path ≡ Some (number, cookie) → IsSome (file_at fs number) }
    ensures gone { (fs : Files) → IsFileTree fs → (number : FileNumber) →
        ((path : FilePath) (cookie : Cookie) → path_at (directory_entries fs) path ≢ Some (number, cookie)) →
        file_at fs number ≡ None }
{}

/// Files are told by their paths and by what each file holds beside its names: its attributes, its bytes or
/// target, or its next cookie.
pub fn files_are_told_by_paths()
    ensures { (one other : Files) → IsFileTree one → IsFileTree other →
        one.fsid ≡ other.fsid → one.next ≡ other.next →
        ((path : FilePath) → path_at (directory_entries one) path ≡ path_at (directory_entries other) path) →
        ((number : FileNumber) →
        option_map without_entries (file_at one number) ≡ option_map without_entries (file_at other number)) →
        one ≡ other }
{}
