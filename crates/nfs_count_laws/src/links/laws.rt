//! What holds of nlinks.

ghost use Rattle.std.specs.Prelude.{◌≡◌, ◌≢◌, ℕ, ◌+◌, ◌==◌, [], true, Some, None, if◌then◌else◌};
ghost use Rattle.nfs_items.specs.Terms.{FileNumber, Cookie, Name};
ghost use Rattle.nfs_laws.specs.fs_spec.Files.{File, Files, file_at, listing_in, is_directory, IsDirectory};
ghost use Rattle.nfs_laws.specs.fs_spec.Files.{directory_entries};
ghost use Rattle.nfs_laws.specs.fs_spec.Trees.{IsFileTree};
ghost use Rattle.nfs_laws.specs.fs_spec.Changes.Edits.{with_new_file, with_changed_file, without_file};
ghost use Rattle.nfs_laws.specs.fs_spec.Changes.Edits.{with_name, without_name};
ghost use Rattle.nfs_count_laws.specs.Links.Links.{link_count, counted_for};

/// Other contents leave each nlink. A name more of a file counts for the file, and of a directory for the
/// directory that has the name; a name less counts no more there. A new directory begins with two.
pub fn edits_count_links()
    ensures contents { (fs : Files) (k : FileNumber) (change : File → File) →
        ((f : File) → file_at fs k ≡ Some f → listing_in (change f).body ≡ listing_in f.body) →
        ((f : File) → file_at fs k ≡ Some f → is_directory (change f).body ≡ is_directory f.body) →
        (n : FileNumber) → link_count (with_changed_file fs k change) n ≡ link_count fs n }
    ensures name_more { (fs : Files) (dir number : FileNumber) (name : Name) (f : File) → IsFileTree fs →
        IsDirectory fs dir → directory_entries fs dir name ≡ None → file_at fs number ≡ Some f →
        (n : FileNumber) → link_count (with_name fs dir name number) n
        ≡ link_count fs n + (if counted_for dir number f == n then 1 else 0) }
    ensures name_less { (fs : Files) (dir number : FileNumber) (cookie : Cookie) (name : Name) (f : File) →
        IsFileTree fs → directory_entries fs dir name ≡ Some (number, cookie) → file_at fs number ≡ Some f →
        (n : FileNumber) → link_count fs n
        ≡ link_count (without_name fs dir name) n + (if counted_for dir number f == n then 1 else 0) }
    ensures new_file { (fs : Files) (f : File) → IsFileTree fs → (listing_in f.body).entries ≡ [] →
        (link_count (with_new_file fs f) fs.next ≡ (if is_directory f.body then 2 else 0))
        × ((n : FileNumber) → n ≢ fs.next → link_count (with_new_file fs f) n ≡ link_count fs n) }
{}
