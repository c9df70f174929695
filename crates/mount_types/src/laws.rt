//! What holds of arguments and answers in bytes.

ghost use Rattle.std.specs.Prelude.{◌≡◌, ◌↔◌, ◌<◌, ◌++◌, ℕ, List, None};
ghost use Rattle.nfs_items.specs.xdr.Item.{Fits};
ghost use Rattle.nfs_items.specs.Programs.{ReadsWhatIsSaid, HasFaultsOfItems, SaysOneCall, SaysOwnCalls};
ghost use Rattle.nfs_items.specs.Programs.{KeepsBounds, SpellsAnswers};
ghost use Rattle.mount_types.specs.declared.arguments.MountProcedure.{MountProcedure};
ghost use Rattle.mount_types.specs.Calls.{MountAnswer};
ghost use Rattle.mount_types.specs.Bounds.{HasBounds};
ghost use Rattle.mount_types.specs.Texts.{mount_program, procedure_of, procedure_at, answer_item};
ghost use Rattle.mount_types.specs.Texts.{answer_value};
ghost use Rattle.mount_types.specs.Texts.{answer_text, IsAnswerTo};

use crate::limits::{MNTNAMLEN, MNTPATHLEN};

/// A procedure's arguments are read exactly where their spelling stands at the front, whatever stands after
/// it; the fault is that of reading their item; the numbers of procedures are 0 to 5; and bytes say one call
/// at most, which is of that procedure.
pub fn arguments_are_read_as_spelled()
    ensures exact { ReadsWhatIsSaid mount_program }
    ensures faults { HasFaultsOfItems mount_program }
    ensures none { (n : ℕ) → ((procedure_at n ≡ None) ↔ (5 < n)) }
    ensures one_call { SaysOneCall mount_program }
    ensures own { SaysOwnCalls mount_program }
{}

/// A call that is read from bytes has a path of at most 1,024 bytes (RFC 1094, appendix A.3).
pub fn calls_are_bounded()
    ensures { KeepsBounds mount_program HasBounds }
{}

/// An answer's text can be read back, and says the answer, exactly where the answer's value fits.
pub fn answers_are_spelled()
    ensures { SpellsAnswers mount_program }
{}

/// An answer of a procedure is of the procedure's results, and no answer of a procedure begins another, so
/// each has one meaning.
pub fn answers_have_one_meaning()
    ensures item { (procedure : MountProcedure) (a : MountAnswer) → IsAnswerTo procedure a →
        answer_item a ≡ (procedure_of procedure).results }
    ensures meaning { (procedure : MountProcedure) (a b : MountAnswer) (x y : List ℕ) →
        IsAnswerTo procedure a → IsAnswerTo procedure b →
        Fits (answer_item a) (answer_value a) → Fits (answer_item b) (answer_value b) →
        answer_text a ++ x ≡ answer_text b ++ y → (a ≡ b) × (x ≡ y) }
{}

/// The limits that the definitions cite (RFC 1094, appendix A.3), in bytes.
pub fn limits_are_as_documented()
    ensures path { MNTPATHLEN ≡ 1024 }
    ensures name { MNTNAMLEN ≡ 255 }
{}
