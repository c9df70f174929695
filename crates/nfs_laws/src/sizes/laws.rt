//! What calls give has a spelling.

ghost use Rattle.std.specs.Prelude.{◌≡◌, ◌≤◌, IsTrue, false, length};
ghost use Rattle.nfs_spec.specs.nfs_items.Timeval.{Timeval};
ghost use Rattle.nfs_spec.specs.nfs_items.Caller.{Caller};
ghost use Rattle.nfs_spec.specs.fs_spec.Files.{Files};
ghost use Rattle.nfs_spec.specs.fs_spec.Trees.{IsTime, IsFileTree};
ghost use Rattle.nfs_spec.specs.fs_spec.Changes.Limits.{has_room};
ghost use Rattle.nfs_spec.specs.nfs_types.Calls.{Call};
ghost use Rattle.nfs_spec.specs.nfs_types.Bounds.{HasBounds};
ghost use Rattle.nfs_spec.specs.NfsCalls.{call_does};
ghost use Rattle.nfs_laws.specs.Laws.{IsBounded};
ghost use Rattle.nfs_spec.specs.nfs_types.Texts.{IsSpelled, answer_text};
ghost use Rattle.nfs_spec.specs.nfs_types.declared.limits.TheConstants.{SHORT_ANSWER};
ghost use Rattle.nfs_laws.specs.Steps.Answers.{only_reads};
ghost use Rattle.nfs_laws.specs.Sizes.Bounds.{AreWords, SaysWords, HasWordsIn, longest_answer};

/// Where the files are a tree that passes no limit, and their owners, groups and seconds and those that a
/// call brings are words, they are words after it, and its answer has a spelling: names, targets, data,
/// numbers, cookies and counts are within their bounds.
pub fn answers_have_a_spelling()
    ensures words { (fs : Files) (who : Caller) (now : Timeval) (call : Call) →
        AreWords fs → SaysWords who now → HasWordsIn call → AreWords (call_does fs who now call).1 }
    ensures spelled { (fs : Files) (who : Caller) (now : Timeval) (call : Call) →
        IsFileTree fs → IsTrue (has_room fs) → AreWords fs →
        IsTime now → SaysWords who now → IsBounded call → HasWordsIn call →
        IsSpelled (call_does fs who now call).0 }
{}

/// An answer to a call on a file tree takes at most 8,268 bytes, and one to a call that changes files at most
/// `SHORT_ANSWER`, whatever the files.
pub fn answers_fit_a_reply()
    ensures any { (fs : Files) (who : Caller) (now : Timeval) (call : Call) → IsFileTree fs →
        length (answer_text (call_does fs who now call).0) ≤ longest_answer }
    ensures changes { (fs : Files) (who : Caller) (now : Timeval) (call : Call) → only_reads call ≡ false →
        length (answer_text (call_does fs who now call).0) ≤ SHORT_ANSWER }
{}

/// A call that was read from bytes meets what the laws of procedures ask of calls: its names and target are
/// within their lengths, and the attributes that it brings are words.
pub fn read_calls_are_bounded()
    ensures { (call : Call) → HasBounds call → IsBounded call × HasWordsIn call }
{}
