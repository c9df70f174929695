//! What holds of every effect.

ghost use Rattle.std.specs.Prelude.{◌≡◌, ◌≢◌, [], ◌∷◌, ◌++◌, List, ℕ, Some, Ok, Err, IsTrue, IsSome};
ghost use Rattle.fs_spec.specs.nfs_items.Timeval.{Timeval};
ghost use Rattle.fs_spec.specs.nfs_items.Caller.{Caller, nobody};
ghost use Rattle.fs_spec.specs.nfs_items.Handle.{FileHandle, number_in, handle_of};
ghost use Rattle.fs_spec.specs.nfs_items.declared.stat.Stat.{Stat};
ghost use Rattle.fs_spec.specs.nfs_items.declared.stat.Stat.TheVariants as stats;
ghost use Rattle.fs_spec.specs.nfs_items.declared.attributes.FileType.TheVariants as types;
ghost use Rattle.fs_spec.specs.nfs_items.Terms.{Name, FileNumber};
ghost use Rattle.nfs_types.specs.Calls.{Call};
ghost use Rattle.nfs_types.specs.Texts.{procedure_in, IsAnswerTo};
ghost use Rattle.fs_spec.specs.Names.{FilePath, dot, dot_dot, is_name};
ghost use Rattle.fs_spec.specs.Files.{Files, file_at};
ghost use Rattle.fs_spec.specs.Trees.{IsFileTree};
ghost use Rattle.fs_spec.specs.Changes.Limits.{has_room};
ghost use Rattle.nfs_spec.specs.Effects.{getattr, lookup};
ghost use Rattle.nfs_spec.specs.Opening.{epoch, hello, opening_files};
ghost use Rattle.nfs_spec.specs.NfsCalls.{call_does};
ghost use Rattle.nfs_spec.specs.LawTerms.{lookup_at_path, IsSearchable};

/// LOOKUP gives what a path with the name at its end leads to; of `.` the directory itself, and of `..` the
/// directory of the path without its last name, which for the root is the root.
pub fn lookup_goes_by_paths()
    ensures name { (fs : Files) (who : Caller) (dir : FileHandle) (name : Name) (path : FilePath) →
        IsSearchable fs who dir path → IsTrue (is_name name) →
        lookup fs who dir name ≡ lookup_at_path fs (path ++ name ∷ []) }
    ensures dot { (fs : Files) (who : Caller) (dir : FileHandle) (path : FilePath) →
        IsSearchable fs who dir path → lookup fs who dir dot ≡ lookup_at_path fs path }
    ensures above { (fs : Files) (who : Caller) (dir : FileHandle) (last : Name) (front : FilePath) →
        IsFileTree fs → IsSearchable fs who dir (front ++ last ∷ []) →
        lookup fs who dir dot_dot ≡ lookup_at_path fs front }
    ensures root { (fs : Files) (who : Caller) (dir : FileHandle) →
        IsSearchable fs who dir [] → lookup fs who dir dot_dot ≡ lookup_at_path fs [] }
{}

/// In a tree the handle of a file that is there is not STALE.
pub fn what_is_there_is_not_stale()
    ensures getattr { (fs : Files) (file : FileHandle) (number : FileNumber) →
        number_in fs.fsid file ≡ Some number → IsSome (file_at fs number) →
        getattr fs file ≢ Err stats.Stale }
    ensures lookup { (fs : Files) (who : Caller) (dir : FileHandle) (name : Name) (number : FileNumber) →
        IsFileTree fs →
        number_in fs.fsid dir ≡ Some number → IsSome (file_at fs number) →
        lookup fs who dir name ≢ Err stats.Stale }
{}

/// GETATTR of the root, and LOOKUP of `hello` in it, in the files that a server begins with.
pub fn opening_files_show()
    ensures root { getattr (opening_files 1) (handle_of 1 1) ≡ Ok (record {
      file_type = types.Directory;
      mode = 0x41ff;
      nlink = 2;
      uid = 0;
      gid = 0;
      size = 0x200;
      blocksize = 0x200;
      rdev = 0;
      blocks = 1;
      fsid = 1;
      fileid = 1;
      atime = epoch;
      mtime = epoch;
      ctime = epoch;
    }) }
    ensures hello { lookup (opening_files 1) nobody (handle_of 1 1) hello ≡ Ok (
      handle_of 1 2,
      record {
        file_type = types.Regular;
        mode = 0x81a4;
        nlink = 1;
        uid = 0;
        gid = 0;
        size = 6;
        blocksize = 0x200;
        rdev = 0;
        blocks = 1;
        fsid = 1;
        fileid = 2;
        atime = epoch;
        mtime = epoch;
        ctime = epoch;
      },
    ) }
{}

/// The files that a server begins with are a tree, and pass no limit.
pub fn opening_files_are_a_tree()
    ensures tree { (fsid : ℕ) → IsFileTree (opening_files fsid) }
    ensures room { (fsid : ℕ) → IsTrue (has_room (opening_files fsid)) }
{}

/// A call is answered by an answer of its procedure.
pub fn calls_are_answered_by_their_procedures()
    ensures { (fs : Files) (who : Caller) (now : Timeval) (call : Call) →
        IsAnswerTo (procedure_in call) (call_does fs who now call).0 }
{}
