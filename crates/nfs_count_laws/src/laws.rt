//! What holds of the numbers that are kept beside files.

ghost use Rattle.std.specs.Prelude.{◌≡◌, ◌≢◌, ℕ, ◌+◌, ◌==◌, ◌<◌, ◌≤◌, ◌^◌, Some};
ghost use Rattle.nfs_items.specs.Timeval.{Timeval};
ghost use Rattle.nfs_items.specs.Terms.{FileNumber, Cookie, Name};
ghost use Rattle.nfs_laws.specs.fs_spec.Maxima.{max_entries, max_blocks};
ghost use Rattle.nfs_laws.specs.fs_spec.Files.{File, Files, file_at, IsDirectory, directory_entries};
ghost use Rattle.nfs_laws.specs.fs_spec.Files.{names_of};
ghost use Rattle.nfs_laws.specs.fs_spec.Trees.{IsTime};
ghost use Rattle.nfs_laws.specs.fs_spec.Changes.Edits.{with_changed_file, with_name, without_name};
ghost use Rattle.nfs_laws.specs.fs_spec.Changes.Limits.{blocks_in};
ghost use Rattle.nfs_laws.specs.nfs_spec.Changes.{touch, touch_ctime, unlink};
ghost use Rattle.nfs_laws.specs.nfs_spec.Procedures.{add_file};
ghost use Rattle.nfs_count_laws.specs.Counted.{IsKept};
ghost use Rattle.nfs_count_laws.specs.CountChanges.{MayChange, MayMake, CountsMade, MayLink, MayUnlink};
ghost use Rattle.nfs_count_laws.specs.CountChanges.{is_last_name, blocks_freed, CountsUnlinked};

/// Other contents of a file, with the same entries, leave what is kept as it is, but for the blocks; times
/// leave it all.
pub fn contents_leave_the_links()
    ensures alike { (fs : Files) (links above links' above' : FileNumber → ℕ)
        (entries blocks entries' blocks' : ℕ) → IsKept fs links above entries blocks →
        ((n : FileNumber) → links' n ≡ links n) → ((n : FileNumber) → above' n ≡ above n) →
        entries' ≡ entries → blocks' ≡ blocks → IsKept fs links' above' entries' blocks' }
    ensures change { (fs : Files) (links above links' above' : FileNumber → ℕ)
        (entries blocks entries' blocks' : ℕ) (k : FileNumber) (f : File) (change : File → File) →
        IsKept fs links above entries blocks → MayChange fs k f change →
        ((n : FileNumber) → links' n ≡ links n) → ((n : FileNumber) → above' n ≡ above n) →
        entries' ≡ entries → blocks' + blocks_in f.body ≡ blocks + blocks_in (change f).body →
        blocks' ≤ max_blocks → IsKept (with_changed_file fs k change) links' above' entries' blocks' }
    ensures touch { (now : Timeval) → IsTime now → now.seconds < 2 ^ 32 →
        (fs : Files) (links above : FileNumber → ℕ) (entries blocks : ℕ) →
        IsKept fs links above entries blocks → (k : FileNumber) →
        IsKept (touch now fs k) links above entries blocks }
    ensures touch_ctime { (now : Timeval) → IsTime now → now.seconds < 2 ^ 32 →
        (fs : Files) (links above : FileNumber → ℕ) (entries blocks : ℕ) →
        IsKept fs links above entries blocks → (k : FileNumber) →
        IsKept (touch_ctime now fs k) links above entries blocks }
{}

/// A new file counts for itself, and a directory in the one that it is made in too.
pub fn making_counts_the_new_file()
    ensures { (now : Timeval) → IsTime now → now.seconds < 2 ^ 32 →
        (fs : Files) (links above links' above' : FileNumber → ℕ) (entries blocks entries' blocks' : ℕ) →
        IsKept fs links above entries blocks → (dir : FileNumber) (name : Name) (f : File) →
        MayMake fs dir name f → CountsMade fs dir f links above links' above' →
        entries' ≡ entries + 1 → blocks' ≡ blocks + blocks_in f.body →
        IsKept (add_file now fs dir name f) links' above' entries' blocks' }
{}

/// Another name of a file counts for the file.
pub fn linking_counts_one_name_more()
    ensures { (now : Timeval) → IsTime now → now.seconds < 2 ^ 32 →
        (fs : Files) (links above links' above' : FileNumber → ℕ) (entries blocks entries' blocks' : ℕ) →
        IsKept fs links above entries blocks → (from dir : FileNumber) (name : Name) (f : File) →
        MayLink fs from dir name f → links' from ≡ links from + 1 →
        ((n : FileNumber) → n ≢ from → links' n ≡ links n) → ((n : FileNumber) → above' n ≡ above n) →
        entries' ≡ entries + 1 → blocks' ≡ blocks →
        IsKept (touch now (with_name (touch_ctime now fs from) dir name from) dir)
        links' above' entries' blocks' }
{}

/// A name that goes counts no more, and its nlink tells whether a file goes with a name of it.
pub fn unlinking_counts_one_name_less()
    ensures last { (fs : Files) (links above : FileNumber → ℕ) (entries blocks : ℕ) →
        IsKept fs links above entries blocks →
        (dir : FileNumber) (name : Name) (number : FileNumber) (cookie : Cookie) (f : File) →
        MayUnlink fs dir name number cookie f →
        (names_of (without_name fs dir name) number == 0) ≡ is_last_name f.body (links number) }
    ensures unlink { (now : Timeval) → IsTime now → now.seconds < 2 ^ 32 →
        (fs : Files) (links above links' above' : FileNumber → ℕ) (entries blocks entries' blocks' : ℕ) →
        IsKept fs links above entries blocks →
        (dir : FileNumber) (name : Name) (number : FileNumber) (cookie : Cookie) (f : File) →
        MayUnlink fs dir name number cookie f → CountsUnlinked dir number f.body links links' →
        ((n : FileNumber) → n ≢ number → above' n ≡ above n) →
        entries' + 1 ≡ entries → blocks' + blocks_freed f.body (links number) ≡ blocks →
        IsKept (touch now (unlink now fs dir name number) dir) links' above' entries' blocks' }
{}

/// A file has one link at least, and two more than there are entries at most; a directory that names another
/// has three at least, and is the one above it. Entries and blocks are within the limits of a server.
pub fn kept_numbers_are_bounded()
    ensures some { (fs : Files) (links above : FileNumber → ℕ) (entries blocks : ℕ) →
        IsKept fs links above entries blocks →
        (n : FileNumber) (f : File) → file_at fs n ≡ Some f → 1 ≤ links n }
    ensures most { (fs : Files) (links above : FileNumber → ℕ) (entries blocks : ℕ) →
        IsKept fs links above entries blocks →
        (n : FileNumber) (f : File) → file_at fs n ≡ Some f → links n ≤ entries + 2 }
    ensures parent { (fs : Files) (links above : FileNumber → ℕ) (entries blocks : ℕ) →
        IsKept fs links above entries blocks →
        (dir : FileNumber) (name : Name) (n : FileNumber) (cookie : Cookie) →
        directory_entries fs dir name ≡ Some (n, cookie) → IsDirectory fs n → 3 ≤ links dir }
    ensures above { (fs : Files) (links above : FileNumber → ℕ) (entries blocks : ℕ) →
        IsKept fs links above entries blocks →
        (dir : FileNumber) (name : Name) (n : FileNumber) (cookie : Cookie) →
        directory_entries fs dir name ≡ Some (n, cookie) → IsDirectory fs n → above n ≡ dir }
    ensures entries { (fs : Files) (links above : FileNumber → ℕ) (entries blocks : ℕ) →
        IsKept fs links above entries blocks → entries ≤ max_entries }
    ensures blocks { (fs : Files) (links above : FileNumber → ℕ) (entries blocks : ℕ) →
        IsKept fs links above entries blocks → blocks ≤ max_blocks }
{}
