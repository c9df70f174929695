//! What holds of every call.

ghost use Rattle.std.specs.Prelude.{◌≡◌, ◌↔◌, ◌≤◌, ◌+◌, IsTrue, ℕ, List, [], length, true, false, Some, None};
ghost use Rattle.std.specs.Prelude.{Ok};
ghost use Rattle.nfs_spec.specs.nfs_items.Timeval.{Timeval};
ghost use Rattle.nfs_spec.specs.nfs_items.Caller.{Caller};
ghost use Rattle.nfs_spec.specs.nfs_items.declared.stat.Stat.{Stat};
ghost use Rattle.nfs_spec.specs.nfs_items.declared.attributes.Fattr.{Fattr};
ghost use Rattle.nfs_spec.specs.nfs_items.Terms.{FileNumber, Name};
ghost use Rattle.nfs_spec.specs.fs_spec.Maxima.{max_name, max_target, max_blocks, max_number};
ghost use Rattle.nfs_spec.specs.fs_spec.Files.{File, Files, file_at, IsDirectory, is_directory, listing};
ghost use Rattle.nfs_spec.specs.fs_spec.Files.{listing_in, directory_entries, names_of};
ghost use Rattle.nfs_spec.specs.fs_spec.Trees.{IsTime, IsFileTree};
ghost use Rattle.nfs_spec.specs.fs_spec.Changes.Edits.{with_changed_file, with_name};
ghost use Rattle.nfs_spec.specs.fs_spec.Changes.Limits.{has_room, block_count, blocks_in};
ghost use Rattle.nfs_spec.specs.FileAttributes.{subdirectories};
ghost use Rattle.nfs_spec.specs.Effects.{attributes_at};
ghost use Rattle.nfs_spec.specs.Sattr.{GivenFields};
ghost use Rattle.nfs_spec.specs.Changes.{touch, touch_ctime};
ghost use Rattle.nfs_spec.specs.Procedures.{add_file, create, make_dir, symlink, link, remove, remove_dir};
ghost use Rattle.nfs_spec.specs.Procedures.{rename};
ghost use Rattle.nfs_spec.specs.nfs_types.Calls.{Call};
ghost use Rattle.nfs_spec.specs.NfsCalls.{call_does};
ghost use Rattle.nfs_laws.specs.Trees.Anew.{GivesAnew};
ghost use Rattle.nfs_laws.specs.Steps.Answers.{refusal_in, only_reads};
ghost use Rattle.nfs_laws.specs.Steps.Granted.{IsSameFile};
ghost use Rattle.nfs_laws.specs.Room.{HasRoomToMake, HasRoomToLink};
ghost use Rattle.nfs_laws.specs.Laws.{AreValidFields, IsBounded, NamesIn, UnnamesIn, RenamesIn};

/// Every call leaves a tree a tree.
pub fn trees_stay_trees()
    ensures { (fs : Files) (who : Caller) (now : Timeval) (call : Call) →
        IsFileTree fs → IsTime now → IsBounded call → IsFileTree (call_does fs who now call).1 }
{}

/// Numbers and cookies are never used again: what is there after a call was there before it, or has a number
/// not given before; an entry of a directory was in it, or has a cookie not given in it before.
pub fn nothing_is_given_again()
    ensures { (fs : Files) (who : Caller) (now : Timeval) (call : Call) →
        IsFileTree fs → IsTime now → IsBounded call → GivesAnew fs (call_does fs who now call).1 }
{}

/// No call passes a limit: on files, entries, blocks, numbers or cookies.
pub fn no_limit_is_passed()
    ensures { (fs : Files) (who : Caller) (now : Timeval) (call : Call) →
        IsFileTree fs → IsTime now → IsBounded call →
        IsTrue (has_room fs) → IsTrue (has_room (call_does fs who now call).1) }
{}

/// Where no limit is passed before, the room that a call asks for is told by the files before it: for a new
/// file by how many files, entries and blocks there are, the next number and the directory's next cookie; for
/// another name of a file by the entries and the cookie; for other bytes of a file by the blocks.
pub fn room_is_told_before()
    ensures make { (fs : Files) (now : Timeval) (dir : FileNumber) (name : Name) (d f : File) →
        IsFileTree fs → IsTrue (has_room fs) → file_at fs dir ≡ Some d → is_directory d.body ≡ true →
        directory_entries fs dir name ≡ None →
        (listing_in f.body).entries ≡ [] → (listing_in f.body).next ≤ max_number + 1 →
        (IsTrue (has_room (add_file now fs dir name f))
        ↔ HasRoomToMake fs (listing_in d.body).next (blocks_in f.body)) }
    ensures link { (fs : Files) (now : Timeval) (from dir : FileNumber) (name : Name) (d : File) →
        IsTrue (has_room fs) → file_at fs dir ≡ Some d → is_directory d.body ≡ true →
        directory_entries fs dir name ≡ None →
        (IsTrue (has_room (touch now (with_name (touch_ctime now fs from) dir name from) dir))
        ↔ HasRoomToLink fs (listing_in d.body).next) }
    ensures write { (fs : Files) (n : FileNumber) (change : File → File) (f : File) →
        IsTrue (has_room fs) → file_at fs n ≡ Some f → listing_in (change f).body ≡ listing_in f.body →
        (IsTrue (has_room (with_changed_file fs n change))
        ↔ (block_count fs + blocks_in (change f).body ≤ max_blocks + blocks_in f.body)) }
{}

/// A refusal leaves the files as they were.
pub fn refusals_leave_files()
    ensures { (fs : Files) (who : Caller) (now : Timeval) (call : Call) (stat : Stat) →
        refusal_in (call_does fs who now call).0 ≡ Some stat → (call_does fs who now call).1 ≡ fs }
{}

/// A call that only reads leaves the files as they are.
pub fn readers_leave_files()
    ensures { (fs : Files) (who : Caller) (now : Timeval) (call : Call) →
        only_reads call ≡ true → (call_does fs who now call).1 ≡ fs }
{}

/// The answer and the files after a call are told by the files before it, the caller's user and groups, the
/// time and the call.
pub fn calls_are_determined()
    ensures { (fs : Files) (one other : Caller) (now : Timeval) (call : Call) →
        one.uid ≡ other.uid → one.gid ≡ other.gid → one.gids ≡ other.gids →
        call_does fs one now call ≡ call_does fs other now call }
{}

/// CREATE of a name that isn't there, MKDIR and SYMLINK add one path, with the next number and the
/// directory's next cookie; LINK adds one path to an old number.
pub fn making_adds_a_path()
    ensures create { (fs after : Files) (who : Caller) (now : Timeval) (dir : FileNumber) (name : Name)
        (a : GivenFields) (number : FileNumber) → IsFileTree fs → IsTime now → AreValidFields a →
        length name ≤ max_name → create fs who now dir name a ≡ Ok (number, after) →
        directory_entries fs dir name ≡ None → (number ≡ fs.next) × NamesIn fs after dir name number }
    ensures make_dir { (fs after : Files) (who : Caller) (now : Timeval) (dir : FileNumber) (name : Name)
        (a : GivenFields) (number : FileNumber) → IsFileTree fs → IsTime now → AreValidFields a →
        length name ≤ max_name → make_dir fs who now dir name a ≡ Ok (number, after) →
        (number ≡ fs.next) × NamesIn fs after dir name number }
    ensures symlink { (fs after : Files) (who : Caller) (now : Timeval) (dir : FileNumber) (name : Name)
        (target : List ℕ) (number : FileNumber) → IsFileTree fs → IsTime now → length name ≤ max_name →
        length target ≤ max_target → symlink fs who now dir name target ≡ Ok (number, after) →
        (number ≡ fs.next) × NamesIn fs after dir name number }
    ensures link { (fs after : Files) (who : Caller) (now : Timeval) (from dir : FileNumber) (name : Name) →
        IsFileTree fs → IsTime now → length name ≤ max_name →
        link fs who now from dir name ≡ Ok (tt, after) → NamesIn fs after dir name from }
{}

/// REMOVE and RMDIR take one path out.
pub fn removing_takes_a_path()
    ensures remove { (fs after : Files) (who : Caller) (now : Timeval) (dir : FileNumber) (name : Name) →
        IsFileTree fs → IsTime now →
        remove fs who now dir name ≡ Ok (tt, after) → UnnamesIn fs after dir name }
    ensures remove_dir { (fs after : Files) (who : Caller) (now : Timeval) (dir : FileNumber) (name : Name) →
        IsFileTree fs → IsTime now →
        remove_dir fs who now dir name ≡ Ok (tt, after) → UnnamesIn fs after dir name }
{}

/// RENAME moves a path and all below it, with a new cookie; of the same file it changes nothing.
pub fn renaming_moves_paths()
    ensures { (fs after : Files) (who : Caller) (now : Timeval) (from : FileNumber) (from_name : Name)
        (to : FileNumber) (to_name : Name) → IsFileTree fs → IsTime now → length to_name ≤ max_name →
        rename fs who now from from_name to to_name ≡ Ok (tt, after) →
        (IsSameFile fs from from_name to to_name → after ≡ fs)
        × ((IsSameFile fs from from_name to to_name → ⊥) → RenamesIn fs after from from_name to to_name) }
{}

/// The nlink that attributes tell is the number of names, and of a directory two and its subdirectories; in a
/// tree it is never 0, and of a file with two names at least two.
pub fn links_are_counted()
    ensures names { (fs : Files) (n : FileNumber) (f : File) (a : Fattr) → file_at fs n ≡ Some f →
        is_directory f.body ≡ false → attributes_at fs n ≡ Ok a → a.nlink ≡ names_of fs n }
    ensures directory { (fs : Files) (n : FileNumber) (a : Fattr) → IsDirectory fs n →
        attributes_at fs n ≡ Ok a → a.nlink ≡ 2 + subdirectories fs (listing fs n) }
    ensures some { (fs : Files) (n : FileNumber) (a : Fattr) → IsFileTree fs →
        attributes_at fs n ≡ Ok a → 1 ≤ a.nlink }
    ensures two { (fs : Files) (n dir other c b : ℕ) (x y : List ℕ) (a : Fattr) →
        directory_entries fs dir x ≡ Some (n, c) → directory_entries fs other y ≡ Some (n, b) →
        ((dir ≡ other) × (x ≡ y) → ⊥) → attributes_at fs n ≡ Ok a → 2 ≤ a.nlink }
{}
