//! What every call leaves.

ghost use Rattle.std.specs.Prelude.{◌≡◌, ◌≢◌, ◌+◌, ◌<◌, ℕ, IsTrue, List, Some, None, Ok};
ghost use Rattle.nfs_spec.specs.nfs_items.Timeval.{Timeval};
ghost use Rattle.nfs_spec.specs.nfs_items.Caller.{Caller};
ghost use Rattle.nfs_spec.specs.nfs_items.Terms.{FileNumber, Cookie, Name};
ghost use Rattle.nfs_spec.specs.fs_spec.Files.{Files, file_at, listing, IsDirectory, directory_entries};
ghost use Rattle.nfs_spec.specs.fs_spec.Files.{names_of};
ghost use Rattle.nfs_spec.specs.fs_spec.Trees.{IsTime, IsFileTree};
ghost use Rattle.nfs_spec.specs.fs_spec.Changes.Limits.{has_room};
ghost use Rattle.nfs_spec.specs.Procedures.{remove, remove_dir};
ghost use Rattle.nfs_spec.specs.nfs_types.Calls.{Call};
ghost use Rattle.nfs_spec.specs.NfsCalls.{call_does};
ghost use Rattle.nfs_spec.specs.Opening.{opening_files};
ghost use Rattle.nfs_laws.specs.Trees.Anew.{GivesAnew};
ghost use Rattle.nfs_laws.specs.Steps.Answers.{refusal_in};
ghost use Rattle.nfs_laws.specs.Frames.Named.{IsNoneOf, files_named_by, files_made, files_set_by};
ghost use Rattle.nfs_laws.specs.Frames.Named.{files_written_by, KeepsKind, KeepsAttributes, KeepsBytes};
ghost use Rattle.nfs_laws.specs.Frames.Named.{KeepsAt};
ghost use Rattle.nfs_laws.specs.Frames.Done.{Did};
ghost use Rattle.nfs_laws.specs.Frames.Gone.{IsGone, HasOneNameLess};
ghost use Rattle.nfs_laws.specs.Frames.Runs.{Request, files_after, AreBounded};

/// What a call doesn't name stays: the node's number, the next number but where a file was made, and every
/// file that isn't among those that the call names. No number gets a file but the next one.
pub fn calls_keep_the_files_they_do_not_name()
    ensures node { (fs : Files) (who : Caller) (now : Timeval) (call : Call) →
        (call_does fs who now call).1.fsid ≡ fs.fsid }
    ensures next { (fs : Files) (who : Caller) (now : Timeval) (call : Call) →
        (call_does fs who now call).1.next ≡ fs.next + files_made fs call (call_does fs who now call).0 }
    ensures others { (fs : Files) (who : Caller) (now : Timeval) (call : Call) (n : FileNumber) →
        IsNoneOf n (files_named_by fs call) → file_at (call_does fs who now call).1 n ≡ file_at fs n }
    ensures absent { (fs : Files) (who : Caller) (now : Timeval) (call : Call) (n : FileNumber) →
        n ≢ fs.next → file_at fs n ≡ None → file_at (call_does fs who now call).1 n ≡ None }
{}

/// In a tree a call that is not refused does to the files that it names what its procedure says: it changes
/// the parts that are said, and of these files too the rest stays.
pub fn calls_change_what_they_name()
    ensures { (fs : Files) (who : Caller) (now : Timeval) (call : Call) → IsFileTree fs →
        refusal_in (call_does fs who now call).0 ≡ None → Did fs who now call (call_does fs who now call).1 }
{}

/// In a tree a file stays of its kind, and a symbolic link has its target; mode, owner, group and atime are
/// set by SETATTR and by CREATE of a file that is there alone, and bytes by these and WRITE.
pub fn files_stay_what_they_are()
    ensures kinds { (fs : Files) (who : Caller) (now : Timeval) (call : Call) (n : FileNumber) →
        IsFileTree fs →
        KeepsAt (λ old new. KeepsKind old.body new.body) fs (call_does fs who now call).1 n }
    ensures attributes { (fs : Files) (who : Caller) (now : Timeval) (call : Call) (n : FileNumber) →
        IsFileTree fs →
        IsNoneOf n (files_set_by fs call) → KeepsAt KeepsAttributes fs (call_does fs who now call).1 n }
    ensures bytes { (fs : Files) (who : Caller) (now : Timeval) (call : Call) (n : FileNumber) →
        IsFileTree fs →
        IsNoneOf n (files_written_by fs call) →
        KeepsAt (λ old new. KeepsBytes old.body new.body) fs (call_does fs who now call).1 n }
{}

/// Calls one after the other keep a tree a tree, and pass no limit that was not passed: so from the files
/// that a server begins with no limit is ever passed.
pub fn runs_keep_a_tree_within_its_limits()
    ensures tree { (fs : Files) (requests : List Request) → IsFileTree fs → AreBounded requests →
        IsFileTree (files_after fs requests) }
    ensures room { (fs : Files) (requests : List Request) → IsFileTree fs → AreBounded requests →
        IsTrue (has_room fs) → IsTrue (has_room (files_after fs requests)) }
    ensures opening { (fsid : ℕ) (requests : List Request) → AreBounded requests →
        IsFileTree (files_after (opening_files fsid) requests)
        × IsTrue (has_room (files_after (opening_files fsid) requests)) }
{}

/// Over calls one after the other too no number and no cookie is used again: a number that was given and has
/// no file gets none, and in a directory an entry with a cookie that was given before is the entry that had
/// it.
pub fn runs_give_nothing_again()
    ensures anew { (fs : Files) (requests : List Request) → IsFileTree fs → AreBounded requests →
        GivesAnew fs (files_after fs requests) }
    ensures number { (fs : Files) (requests : List Request) (n : FileNumber) → IsFileTree fs →
        AreBounded requests →
        n < fs.next → file_at fs n ≡ None → file_at (files_after fs requests) n ≡ None }
    ensures cookie { (fs : Files) (requests : List Request) (n k : FileNumber) (c : Cookie) (name : Name) →
        IsFileTree fs →
        AreBounded requests → IsDirectory fs n → c < (listing fs n).next →
        directory_entries (files_after fs requests) n name ≡ Some (k, c) →
        directory_entries fs n name ≡ Some (k, c) }
{}

/// REMOVE of a file's last name takes the file away, so that no path leads to its number; RMDIR takes the
/// directory away. Where a name is left, REMOVE leaves the file with one name less, and its ctime is the time
/// of the call.
pub fn the_last_name_takes_the_file()
    ensures last { (fs after : Files) (who : Caller) (now : Timeval) (dir : FileNumber) (name : Name)
        (n : FileNumber) (c : Cookie) →
        IsFileTree fs → IsTime now → directory_entries fs dir name ≡ Some (n, c) → names_of fs n ≡ 1 →
        remove fs who now dir name ≡ Ok (tt, after) → IsGone after n }
    ensures more { (fs after : Files) (who : Caller) (now : Timeval) (dir : FileNumber) (name : Name)
        (n : FileNumber) (c : Cookie) →
        IsFileTree fs → IsTime now → directory_entries fs dir name ≡ Some (n, c) → 1 < names_of fs n →
        remove fs who now dir name ≡ Ok (tt, after) → HasOneNameLess fs after now n }
    ensures directory { (fs after : Files) (who : Caller) (now : Timeval) (dir : FileNumber) (name : Name)
        (n : FileNumber) (c : Cookie) → IsFileTree fs → IsTime now →
        directory_entries fs dir name ≡ Some (n, c) →
        remove_dir fs who now dir name ≡ Ok (tt, after) → IsGone after n }
{}
