//! What holds of trees.

ghost use Rattle.std.specs.Prelude.{◌≡◌, ◌↔◌, ℕ, true};
ghost use Rattle.nfs_spec.specs.nfs_items.Terms.{FileNumber};
ghost use Rattle.nfs_spec.specs.fs_spec.Paths.{IsAbove};
ghost use Rattle.nfs_spec.specs.fs_spec.Files.{Files, IsDirectory, directory_entries};
ghost use Rattle.nfs_spec.specs.fs_spec.Trees.{IsFileTree};
ghost use Rattle.nfs_spec.specs.Procedures.{is_above};

/// What is above a directory is what paths lead down from.
pub fn above_is_by_paths()
    ensures { (fs : Files) (upper dir : FileNumber) → IsFileTree fs → IsDirectory fs dir →
        ((is_above fs upper dir ≡ true) ↔ IsAbove (directory_entries fs) upper dir) }
{}
