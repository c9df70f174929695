//! What follows from each procedure's Ok.

ghost use Rattle.std.specs.Prelude.{◌≡◌, ℕ, List, Ok};
ghost use Rattle.nfs_spec.specs.nfs_items.Timeval.{Timeval};
ghost use Rattle.nfs_spec.specs.nfs_items.Caller.{Caller};
ghost use Rattle.nfs_spec.specs.nfs_items.declared.attributes.Fattr.{Fattr};
ghost use Rattle.nfs_spec.specs.nfs_items.Handle.{FileHandle};
ghost use Rattle.nfs_spec.specs.nfs_items.Terms.{FileNumber, Cookie, Name};
ghost use Rattle.nfs_spec.specs.fs_spec.Files.{Files};
ghost use Rattle.nfs_spec.specs.Sattr.{GivenFields};
ghost use Rattle.nfs_spec.specs.Effects.{attributes_at, getattr, lookup};
ghost use Rattle.nfs_spec.specs.nfs_types.Calls.{Page};
ghost use Rattle.nfs_spec.specs.Procedures.{set_attributes, read_link, read, write, create, make_dir};
ghost use Rattle.nfs_spec.specs.Procedures.{symlink, link, remove, remove_dir, rename, read_dir};
ghost use Rattle.nfs_laws.specs.Steps.Granted.{SetOk, WriteOk, CreateOk, MakeDirOk, SymlinkOk, LinkOk};
ghost use Rattle.nfs_laws.specs.Steps.Granted.{RemoveOk, RemoveDirOk, RenameOk};
ghost use Rattle.nfs_laws.specs.Steps.Read.{AttributesOk, GetattrOk, LookupOk, ReadLinkOk, ReadOk, ReadDirOk};

/// A procedure that changes files and answers Ok passed each of its checks, and its effect is what is said.
pub fn granted_changes_pass_their_checks()
    ensures set_attributes { (fs after : Files) (who : Caller) (now : Timeval) (n : FileNumber)
        (a : GivenFields) → set_attributes fs who now n a ≡ Ok (tt, after) → SetOk fs who now n a after }
    ensures write { (fs after : Files) (who : Caller) (now : Timeval) (n : FileNumber) (offset : ℕ)
        (new : List ℕ) → write fs who now n offset new ≡ Ok (tt, after) →
        WriteOk fs who now n offset new after }
    ensures create { (fs after : Files) (who : Caller) (now : Timeval) (dir : FileNumber) (name : Name)
        (a : GivenFields) (number : FileNumber) → create fs who now dir name a ≡ Ok (number, after) →
        CreateOk fs who now dir name a number after }
    ensures make_dir { (fs after : Files) (who : Caller) (now : Timeval) (dir : FileNumber) (name : Name)
        (a : GivenFields) (number : FileNumber) → make_dir fs who now dir name a ≡ Ok (number, after) →
        MakeDirOk fs who now dir name a number after }
    ensures symlink { (fs after : Files) (who : Caller) (now : Timeval) (dir : FileNumber) (name : Name)
        (target : List ℕ) (number : FileNumber) → symlink fs who now dir name target ≡ Ok (number, after) →
        SymlinkOk fs who now dir name target number after }
    ensures link { (fs after : Files) (who : Caller) (now : Timeval) (from dir : FileNumber) (name : Name) →
        link fs who now from dir name ≡ Ok (tt, after) → LinkOk fs who now from dir name after }
    ensures remove { (fs after : Files) (who : Caller) (now : Timeval) (dir : FileNumber) (name : Name) →
        remove fs who now dir name ≡ Ok (tt, after) → RemoveOk fs who now dir name after }
    ensures remove_dir { (fs after : Files) (who : Caller) (now : Timeval) (dir : FileNumber) (name : Name) →
        remove_dir fs who now dir name ≡ Ok (tt, after) → RemoveDirOk fs who now dir name after }
    ensures rename { (fs after : Files) (who : Caller) (now : Timeval) (from to : FileNumber)
        (from_name to_name : Name) → rename fs who now from from_name to to_name ≡ Ok (tt, after) →
        RenameOk fs who now from from_name to to_name after }
{}

/// A procedure that only reads and answers Ok passed each of its checks, and its answer is what is said.
pub fn granted_reads_pass_their_checks()
    ensures attributes { (fs : Files) (n : FileNumber) (a : Fattr) → attributes_at fs n ≡ Ok a →
        AttributesOk fs n a }
    ensures getattr { (fs : Files) (handle : FileHandle) (a : Fattr) →
        getattr fs handle ≡ Ok a → GetattrOk fs handle a }
    ensures lookup { (fs : Files) (who : Caller) (dir : FileHandle) (name : Name) (handle : FileHandle)
        (a : Fattr) → lookup fs who dir name ≡ Ok (handle, a) → LookupOk fs who dir name handle a }
    ensures read_link { (fs : Files) (n : FileNumber) (target : List ℕ) →
        read_link fs n ≡ Ok target → ReadLinkOk fs n target }
    ensures read { (fs : Files) (who : Caller) (n : FileNumber) (offset count : ℕ) (a : Fattr)
        (part : List ℕ) → read fs who n offset count ≡ Ok (a, part) → ReadOk fs who n offset count a part }
    ensures read_dir { (fs : Files) (who : Caller) (n : FileNumber) (cookie : Cookie) (count : ℕ)
        (page : Page) → read_dir fs who n cookie count ≡ Ok page → ReadDirOk fs who n cookie count page }
{}
