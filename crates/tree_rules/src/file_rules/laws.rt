//! What holds of files in a list by rising number.

ghost use Rattle.std.specs.Prelude.{◌≡◌, ◌<◌, ◌↔◌, ℕ, List, length, slice_index};
ghost use Rattle.nfs_items.specs.Terms.{FileNumber};
ghost use Rattle.nfs_laws.specs.fs_spec.Files.{File, IsDirectory, names_of, parent_of};
ghost use Rattle.nfs_laws.specs.fs_spec.Trees.{IsFileTree};
ghost use Rattle.tree_rules.specs.FileRules.Rules.{AreFiles, AreKnown, AreNamesCounted, AreRising};
ghost use Rattle.tree_rules.specs.FileRules.Rules.{FollowsRules, IsAt};
ghost use Rattle.tree_rules.specs.FileRules.Rules.{files_listed, numbers_of};

/// Files that are well each by itself are a tree exactly where they follow the rules; each name stands for a
/// file then.
pub fn rules_make_a_tree()
    ensures rules { (fsid : ℕ) (next : FileNumber) (es : List (FileNumber × File)) → AreFiles next es →
        (names above : List ℕ) → AreNamesCounted es names above → (steps : ℕ) → length es < steps →
        (FollowsRules es names above steps ↔ IsFileTree (files_listed fsid next es)) }
    ensures known { (fsid : ℕ) (next : FileNumber) (es : List (FileNumber × File)) → AreFiles next es →
        IsFileTree (files_listed fsid next es) → AreKnown es }
{}

/// The files of a tree are well each by itself.
pub fn trees_are_of_files()
    ensures { (fsid : ℕ) (next : FileNumber) (es : List (FileNumber × File)) → AreRising (numbers_of es) →
        IsFileTree (files_listed fsid next es) → AreFiles next es }
{}

/// In a tree the names that are counted of a place are those of its number, and the directory above another
/// directory is the one that was noted.
pub fn counts_are_of_the_tree()
    ensures names { (fsid : ℕ) (next : FileNumber) (es : List (FileNumber × File)) → AreFiles next es →
        (names above : List ℕ) → AreNamesCounted es names above →
        (k : ℕ) (n : FileNumber) (f : File) → IsAt es k n f →
        slice_index names k ≡ names_of (files_listed fsid next es) n }
    ensures parent { (fsid : ℕ) (next : FileNumber) (es : List (FileNumber × File)) → AreFiles next es →
        IsFileTree (files_listed fsid next es) →
        (names above : List ℕ) → AreNamesCounted es names above →
        (k : ℕ) (n : FileNumber) (f : File) → IsAt es k n f → IsDirectory (files_listed fsid next es) n →
        (g : File) × IsAt es (slice_index above k) (parent_of (files_listed fsid next es) n) g }
{}
