//! What holds of the numbers that are kept, as an entry moves.

ghost use Rattle.std.specs.Prelude.{ℕ, ◌<◌, ◌^◌, Option};
ghost use Rattle.nfs_items.specs.Timeval.{Timeval};
ghost use Rattle.nfs_items.specs.Terms.{FileNumber, Cookie, Name};
ghost use Rattle.nfs_laws.specs.fs_spec.Files.{File, Files};
ghost use Rattle.nfs_laws.specs.fs_spec.Trees.{IsTime};
ghost use Rattle.nfs_laws.specs.nfs_spec.Procedures.{move_entry};
ghost use Rattle.nfs_count_laws.specs.Counted.{IsKept};
ghost use Rattle.nfs_count_laws.specs.CountChanges.{MayMove, CountsCleared, CountsMoved};

/// What stood at the new name counts no more; then a directory counts in the one that it goes to, and no more
/// in the one that it leaves.
pub fn moving_counts_the_entry_where_it_goes()
    ensures { (now : Timeval) → IsTime now → now.seconds < 2 ^ 32 →
        (fs : Files) (links links₁ links₂ links' above above' : FileNumber → ℕ)
        (entries blocks entries' blocks' : ℕ) → IsKept fs links above entries blocks →
        (number from : FileNumber) (from_name : Name) (to : FileNumber) (to_name : Name) (f : File)
        (cookie : Cookie) (target : Option FileNumber) →
        MayMove fs number from from_name to to_name f cookie target →
        CountsCleared fs to target links links₁ entries blocks entries' blocks' →
        CountsMoved number from to f target links₁ links₂ links' above above' →
        IsKept (move_entry now fs number from from_name to to_name target) links' above' entries' blocks' }
{}
