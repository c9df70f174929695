//! What holds of calls of READDIR, one after the other.

ghost use Rattle.std.specs.Prelude.{◌≡◌, ◌↔◌, min, true, [], ◌∷◌, ◌++◌, List, ℕ};
ghost use Rattle.nfs_spec.specs.nfs_items.Timeval.{Timeval};
ghost use Rattle.nfs_spec.specs.nfs_items.Caller.{Caller};
ghost use Rattle.nfs_spec.specs.nfs_items.Handle.{FileHandle};
ghost use Rattle.nfs_spec.specs.fs_spec.Maxima.{max_data};
ghost use Rattle.nfs_spec.specs.nfs_items.Terms.{FileNumber, Cookie};
ghost use Rattle.nfs_spec.specs.fs_spec.Listing.{Listing, IsRising};
ghost use Rattle.nfs_spec.specs.fs_spec.Files.{Files};
ghost use Rattle.nfs_spec.specs.fs_spec.Trees.{IsFileTree};
ghost use Rattle.nfs_spec.specs.nfs_types.Calls.{PageEntry};
ghost use Rattle.nfs_spec.specs.Readdir.{dir_entries, page_of};
ghost use Rattle.nfs_laws.specs.Readdir.Pages.{pages, last_cookie, entries_above, RisesAbove, IsLongestFront};
ghost use Rattle.nfs_laws.specs.Readdir.ReaddirCalls.{Lists, readdir_page, readdir_gives};

/// READDIR's pages, each from the last cookie of the one before, give each entry once and in order; eof says
/// that none is left; and a page is the longest front whose costs fit.
pub fn pages_give_each_entry_once()
    ensures once { (es : List PageEntry) → RisesAbove 0 es → (counts : List ℕ) (cookie : Cookie) →
        entries_above cookie es
        ≡ pages counts cookie es ++ entries_above (last_cookie cookie (pages counts cookie es)) es }
    ensures eof { (es : List PageEntry) → RisesAbove 0 es → (cookie : Cookie) (count : ℕ) →
        (((page_of cookie count es).eof ≡ true)
        ↔ (entries_above (last_cookie cookie (page_of cookie count es).entries) es ≡ [])) }
    ensures longest { (es : List PageEntry) (cookie : Cookie) (count : ℕ) →
        IsLongestFront (min count max_data) (entries_above cookie es) (page_of cookie count es).entries }
    ensures rising { (fs : Files) (dir : FileNumber) (l : Listing) →
        IsRising 3 l.entries l.next → RisesAbove 0 (dir_entries fs dir l) }
{}

/// Calls of READDIR of a directory that the caller may read, each from the last cookie of the one before,
/// give the front of the listing, each entry once and in order, and what is left is above the last cookie;
/// with a call that answers eof they have given the whole.
pub fn readdir_gives_the_listing_once()
    ensures front { (fs : Files) (who : Caller) (now : Timeval) (dir : FileHandle) (es : List PageEntry) →
        IsFileTree fs → Lists fs who dir es → (counts : List ℕ) →
        es ≡ readdir_gives fs who now dir 0 counts
        ++ entries_above (last_cookie 0 (readdir_gives fs who now dir 0 counts)) es }
    ensures whole { (fs : Files) (who : Caller) (now : Timeval) (dir : FileHandle) (es : List PageEntry) →
        IsFileTree fs → Lists fs who dir es → (counts : List ℕ) (count : ℕ) →
        (readdir_page fs who now dir (last_cookie 0 (readdir_gives fs who now dir 0 counts)) count).eof
        ≡ true →
        readdir_gives fs who now dir 0 (counts ++ count ∷ []) ≡ es }
{}
