//! What becomes of the files that a procedure names.

ghost use Rattle.std.specs.Prelude.{◌≡◌, ◌≢◌, ℕ, List, [], replicate, unwrap_or, Some, None, Ok};
ghost use Rattle.nfs_spec.specs.nfs_items.Timeval.{Timeval};
ghost use Rattle.nfs_spec.specs.nfs_items.Caller.{Caller};
ghost use Rattle.nfs_spec.specs.nfs_items.Terms.{FileNumber, Cookie, Name};
ghost use Rattle.nfs_spec.specs.fs_spec.Files.{Body, Regular, Symlink, Directory, File, Files, file_at};
ghost use Rattle.nfs_spec.specs.fs_spec.Files.{directory_entries};
ghost use Rattle.nfs_spec.specs.fs_spec.Trees.{IsFileTree};
ghost use Rattle.nfs_spec.specs.Sattr.{GivenFields, no_fields};
ghost use Rattle.nfs_spec.specs.Changes.{new_file};
ghost use Rattle.nfs_spec.specs.Procedures.{set_attributes, write, create, make_dir, symlink, link, remove};
ghost use Rattle.nfs_spec.specs.Procedures.{remove_dir, rename};
ghost use Rattle.nfs_laws.specs.Steps.Granted.{IsSameFile, new_regular, new_directory, new_link};
ghost use Rattle.nfs_laws.specs.Changes.Changed.{Becomes, IsSetTo, IsRewritten, IsWritten, IsResized};
ghost use Rattle.nfs_laws.specs.Changes.Changed.{ChangesBytes, Makes, Links, Unnames, Moves};

/// SETATTR keeps what isn't given, and CREATE of a name that is there does as SETATTR; WRITE keeps all but
/// the bytes, mtime and ctime, and of no bytes everything.
pub fn setting_keeps_the_rest()
    ensures set_attributes { (fs after : Files) (who : Caller) (now : Timeval) (n : FileNumber)
        (a : GivenFields) →
        set_attributes fs who now n a ≡ Ok (tt, after) → Becomes fs after n (IsSetTo now a) }
    ensures create { (fs after : Files) (who : Caller) (now : Timeval) (dir n : FileNumber) (cookie : Cookie)
        (number : FileNumber)
        (name : Name) (a : GivenFields) → directory_entries fs dir name ≡ Some (n, cookie) →
        create fs who now dir name a ≡ Ok (number, after) →
        (number ≡ n) × (set_attributes fs who now n a ≡ Ok (tt, after)) }
    ensures write { (fs after : Files) (who : Caller) (now : Timeval) (n : FileNumber) (offset : ℕ)
        (new : List ℕ) →
        new ≢ [] → write fs who now n offset new ≡ Ok (tt, after) → Becomes fs after n (IsRewritten now) }
    ensures nothing { (fs after : Files) (who : Caller) (now : Timeval) (n : FileNumber) (offset : ℕ) →
        write fs who now n offset [] ≡ Ok (tt, after) → after ≡ fs }
{}

/// CREATE of a name that isn't there, MKDIR and SYMLINK put a new file under the next number, and its name
/// last in the directory; LINK puts a name there of a file that keeps all but ctime. Of the directory all
/// else stays but mtime and ctime.
pub fn making_keeps_the_rest()
    ensures create { (fs after : Files) (who : Caller) (now : Timeval) (dir number : FileNumber) (name : Name)
        (a : GivenFields) → IsFileTree fs → directory_entries fs dir name ≡ None →
        create fs who now dir name a ≡ Ok (number, after) →
        Makes now fs after dir name number
        (new_regular who now a) }
    ensures make_dir { (fs after : Files) (who : Caller) (now : Timeval) (dir number : FileNumber)
        (name : Name)
        (a : GivenFields) → IsFileTree fs → make_dir fs who now dir name a ≡ Ok (number, after) →
        Makes now fs after dir name number
        (new_directory who now a) }
    ensures symlink { (fs after : Files) (who : Caller) (now : Timeval) (dir number : FileNumber)
        (name : Name) (target : List ℕ) → IsFileTree fs →
        symlink fs who now dir name target ≡ Ok (number, after) →
        Makes now fs after dir name number (new_link who now target) }
    ensures link { (fs after : Files) (who : Caller) (now : Timeval) (from dir : FileNumber) (name : Name) →
        link fs who now from dir name ≡ Ok (tt, after) → Links now fs after from dir name }
{}

/// A new file's owner and group are the caller's, whatever is given; only user 0 gives others. Its mode and
/// times are those given, else the procedure's mode and the time of the call; ctime is always that.
pub fn new_files_are_their_callers()
    ensures caller { (who : Caller) (now : Timeval) (a : GivenFields) (mode : ℕ) (body : Body) → who.uid ≢ 0 →
        ((new_file who now a mode body).uid ≡ who.uid) × ((new_file who now a mode body).gid ≡ who.gid) }
    ensures root { (who : Caller) (now : Timeval) (a : GivenFields) (mode : ℕ) (body : Body) → who.uid ≡ 0 →
        ((new_file who now a mode body).uid ≡ unwrap_or a.uid 0)
        × ((new_file who now a mode body).gid ≡ unwrap_or a.gid who.gid) }
    ensures given { (who : Caller) (now : Timeval) (a : GivenFields) (mode : ℕ) (body : Body) →
        ((new_file who now a mode body).mode ≡ unwrap_or a.mode mode)
        × ((new_file who now a mode body).atime ≡ unwrap_or a.atime now)
        × ((new_file who now a mode body).mtime ≡ unwrap_or a.mtime now)
        × ((new_file who now a mode body).ctime ≡ now) }
{}

/// REMOVE takes the name out of the directory, and what it stood for is gone with its last name, else keeps
/// all but ctime; RMDIR too, and what it stood for is gone. Of the directory all else stays but mtime and
/// ctime.
pub fn removing_keeps_the_rest()
    ensures remove { (fs after : Files) (who : Caller) (now : Timeval) (dir : FileNumber) (name : Name) →
        IsFileTree fs → remove fs who now dir name ≡ Ok (tt, after) → Unnames now fs after dir name }
    ensures remove_dir { (fs after : Files) (who : Caller) (now : Timeval) (dir : FileNumber) (name : Name) →
        IsFileTree fs → remove_dir fs who now dir name ≡ Ok (tt, after) → Unnames now fs after dir name }
    ensures gone { (fs after : Files) (who : Caller) (now : Timeval) (dir n : FileNumber) (cookie : Cookie)
        (name : Name) →
        IsFileTree fs → directory_entries fs dir name ≡ Some (n, cookie) →
        remove_dir fs who now dir name ≡ Ok (tt, after) →
        file_at after n ≡ None }
{}

/// RENAME of another file takes the name out of the one directory and puts it last in the other; the file
/// keeps all but ctime, and what stood at the new name loses it. Of the directories all else stays but mtime
/// and ctime.
pub fn renaming_keeps_the_rest()
    ensures { (fs after : Files) (who : Caller) (now : Timeval) (from to : FileNumber)
        (from_name to_name : Name) →
        IsFileTree fs → rename fs who now from from_name to to_name ≡ Ok (tt, after) →
        (IsSameFile fs from from_name to to_name → ⊥) → Moves now fs after from from_name to to_name }
{}

/// Byte i is the one written, else the old one, else zero: after WRITE of some bytes, after SETATTR with a
/// size, and after CREATE of a new name with a size, where all are zero.
pub fn bytes_are_what_was_written()
    ensures write { (fs after : Files) (who : Caller) (now : Timeval) (n : FileNumber) (offset : ℕ)
        (new : List ℕ) →
        new ≢ [] → write fs who now n offset new ≡ Ok (tt, after) →
        Becomes fs after n (ChangesBytes (IsWritten offset new)) }
    ensures set_attributes { (fs after : Files) (who : Caller) (now : Timeval) (n : FileNumber) (size : ℕ)
        (a : GivenFields) → a.size ≡ Some size → set_attributes fs who now n a ≡ Ok (tt, after) →
        Becomes fs after n (ChangesBytes (IsResized size)) }
    ensures create { (fs after : Files) (who : Caller) (now : Timeval) (dir number : FileNumber) (size : ℕ)
        (name : Name)
        (a : GivenFields) → IsFileTree fs → a.size ≡ Some size → directory_entries fs dir name ≡ None →
        create fs who now dir name a ≡ Ok (number, after) →
        (g : File) × (file_at after number ≡ Some g) × (g.body ≡ Regular (replicate size 0)) }
{}
