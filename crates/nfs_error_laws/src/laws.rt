//! The stat of a procedure, and of a call, is that of the first check that fails (RFC 1094, section 2.2).
//! `stat_in` and `refusal_in` are the stat of a result and of an answer, none where they are Ok.

ghost use Rattle.std.specs.Prelude.{◌≡◌, ◌≢◌, ℕ, List, Some};
ghost use Rattle.nfs_items.specs.Timeval.{Timeval};
ghost use Rattle.nfs_items.specs.Caller.{Caller};
ghost use Rattle.nfs_items.specs.Terms.{FileNumber, Cookie, Name};
ghost use Rattle.nfs_items.specs.declared.stat.Stat.{Stat};
ghost use Rattle.nfs_items.specs.declared.stat.Stat.TheVariants as stats;
ghost use Rattle.fs_spec.specs.Files.{Files};
ghost use Rattle.fs_spec.specs.Trees.{IsFileTree};
ghost use Rattle.nfs_spec.specs.Effects.{attributes_at, number_at_name};
ghost use Rattle.nfs_spec.specs.LawTerms.{stat_in};
ghost use Rattle.nfs_spec.specs.Sattr.{GivenFields};
ghost use Rattle.nfs_spec.specs.Procedures.{set_attributes, read_link, read, write, create, remove, rename};
ghost use Rattle.nfs_spec.specs.Procedures.{link, symlink, make_dir, remove_dir, read_dir, stat_fs};
ghost use Rattle.nfs_types.specs.Calls.{Call};
ghost use Rattle.nfs_spec.specs.NfsCalls.{call_does};
ghost use Rattle.nfs_laws.specs.Steps.Answers.{refusal_in};
ghost use Rattle.nfs_error_laws.specs.Checks.{first_failing};
ghost use Rattle.nfs_error_laws.specs.Tables.{file_checks, set_checks, lookup_checks, read_link_checks};
ghost use Rattle.nfs_error_laws.specs.Tables.{read_checks, write_checks, create_checks, remove_checks};
ghost use Rattle.nfs_error_laws.specs.Tables.{rename_checks, link_checks, symlink_checks, make_dir_checks};
ghost use Rattle.nfs_error_laws.specs.Tables.{remove_dir_checks, read_dir_checks, checks_of};

/// The stat is that of the first check that fails, and there is none where all pass: of the procedures that
/// only read.
pub fn stats_are_of_the_first_failing_check()
    ensures getattr { (fs : Files) (n : FileNumber) →
        stat_in (attributes_at fs n) ≡ first_failing (file_checks fs n) }
    ensures lookup { (fs : Files) (who : Caller) (dir : FileNumber) (name : Name) →
        stat_in (number_at_name fs who dir name) ≡ first_failing (lookup_checks fs who dir name) }
    ensures read_link { (fs : Files) (n : FileNumber) →
        stat_in (read_link fs n) ≡ first_failing (read_link_checks fs n) }
    ensures read { (fs : Files) (who : Caller) (n : FileNumber) (offset count : ℕ) →
        stat_in (read fs who n offset count) ≡ first_failing (read_checks fs who n) }
    ensures read_dir { (fs : Files) (who : Caller) (dir : FileNumber) (cookie : Cookie) (count : ℕ) →
        stat_in (read_dir fs who dir cookie count) ≡ first_failing (read_dir_checks fs who dir) }
    ensures figures { (fs : Files) (n : FileNumber) →
        stat_in (stat_fs fs n) ≡ first_failing (file_checks fs n) }
{}

/// So it is of WRITE, where the last two checks are asked only of some bytes, and of MKDIR and SYMLINK.
pub fn stats_of_changes_are_of_the_first_failing_check()
    ensures write { (fs : Files) (who : Caller) (now : Timeval) (n : FileNumber) (offset : ℕ) (new : List ℕ) →
        stat_in (write fs who now n offset new) ≡ first_failing (write_checks fs who now n offset new) }
    ensures make_dir { (fs : Files) (who : Caller) (now : Timeval) (dir : FileNumber) (name : Name)
        (a : GivenFields) →
        stat_in (make_dir fs who now dir name a) ≡ first_failing (make_dir_checks fs who now dir name a) }
    ensures symlink { (fs : Files) (who : Caller) (now : Timeval) (dir : FileNumber) (name : Name)
        (target : List ℕ) →
        stat_in (symlink fs who now dir name target)
        ≡ first_failing (symlink_checks fs who now dir name target) }
{}

/// SETATTR: a file; the owner or user 0, for each of mode, times, uid and gid as they are given; and of a
/// given size that the file is a regular one, write permission, the greatest size, and room.
pub fn stats_of_set_attributes()
    ensures { (fs : Files) (who : Caller) (now : Timeval) (n : FileNumber) (a : GivenFields) →
        stat_in (set_attributes fs who now n a) ≡ first_failing (set_checks fs who now n a) }
{}

/// CREATE: a directory, the name, search permission; of a name that is there EXIST unless it is a regular
/// file's, and then the checks of SETATTR; of a new one write permission, the greatest size, and room.
pub fn stats_of_create()
    ensures { (fs : Files) (who : Caller) (now : Timeval) (dir : FileNumber) (name : Name) (a : GivenFields) →
        IsFileTree fs →
        stat_in (create fs who now dir name a) ≡ first_failing (create_checks fs who now dir name a) }
{}

/// REMOVE: a directory, the name, search and write permission; that the name is there, and is no directory's.
pub fn stats_of_remove()
    ensures { (fs : Files) (who : Caller) (now : Timeval) (dir : FileNumber) (name : Name) → IsFileTree fs →
        stat_in (remove fs who now dir name) ≡ first_failing (remove_checks fs who dir name) }
{}

/// RMDIR: a directory, the name, search and write permission; that the name is there, is a directory's, and
/// that one lists nothing.
pub fn stats_of_remove_dir()
    ensures { (fs : Files) (who : Caller) (now : Timeval) (dir : FileNumber) (name : Name) → IsFileTree fs →
        stat_in (remove_dir fs who now dir name) ≡ first_failing (remove_dir_checks fs who dir name) }
{}

/// LINK: a file that is no directory; then a directory, the name, search and write permission, that the name
/// is free, and room.
pub fn stats_of_link()
    ensures { (fs : Files) (who : Caller) (now : Timeval) (from dir : FileNumber) (name : Name) →
        stat_in (link fs who now from dir name) ≡ first_failing (link_checks fs who now from dir name) }
{}

/// RENAME: both directories; both names, each with search and write permission; that the first name is there.
/// Where both stand for one file there is no more; else that the directory isn't moved into itself or below,
/// that the kinds go together, that the target lists nothing, and that a cookie is left.
pub fn stats_of_rename()
    ensures { (fs : Files) (who : Caller) (now : Timeval) (from : FileNumber) (from_name : Name)
        (to : FileNumber)
        (to_name : Name) → IsFileTree fs →
        stat_in (rename fs who now from from_name to to_name)
        ≡ first_failing (rename_checks fs who from from_name to to_name) }
{}

/// Each call's stat is that of the first of its checks that fails; where all pass, it isn't refused.
pub fn stats_of_calls()
    ensures { (fs : Files) (who : Caller) (now : Timeval) (call : Call) → IsFileTree fs →
        refusal_in (call_does fs who now call).0 ≡ first_failing (checks_of fs who now call) }
{}

/// No call is refused with IO, NODEV, ROFS, NAMETOOLONG, DQUOT or WFLUSH.
pub fn some_stats_are_never_given()
    ensures { (fs : Files) (who : Caller) (now : Timeval) (call : Call) (stat : Stat) →
        refusal_in (call_does fs who now call).0 ≡ Some stat →
        (stat ≢ stats.Io) × (stat ≢ stats.NoDev) × (stat ≢ stats.RoFs) × (stat ≢ stats.NameTooLong)
        × (stat ≢ stats.DQuot) × (stat ≢ stats.WFlush) }
{}
