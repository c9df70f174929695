//! What holds of answers in bytes.

ghost use Rattle.std.specs.Prelude.{◌≡◌, ◌++◌, ℕ, List};
ghost use Rattle.nfs_items.specs.Programs.{SpellsAnswers};
ghost use Rattle.nfs_types.specs.declared.arguments.NfsProcedure.{NfsProcedure};
ghost use Rattle.nfs_types.specs.Calls.{Answer};
ghost use Rattle.nfs_types.specs.Texts.{nfs_program, procedure_of, answer_item, answer_text, IsSpelled};
ghost use Rattle.nfs_types.specs.Texts.{IsAnswerTo};

/// An answer's text can be read back, and says the answer, exactly where the answer's value fits.
pub fn answers_are_spelled()
    ensures { SpellsAnswers nfs_program }
{}

/// An answer of a procedure is of the procedure's results.
pub fn answers_are_of_their_procedure()
    ensures { (procedure : NfsProcedure) (a : Answer) → IsAnswerTo procedure a →
        answer_item a ≡ (procedure_of procedure).results }
{}

/// No answer of a procedure begins another, so each has one meaning.
pub fn answers_have_one_meaning()
    ensures { (procedure : NfsProcedure) (a b : Answer) (x y : List ℕ) →
        IsAnswerTo procedure a → IsAnswerTo procedure b →
        IsSpelled a → IsSpelled b → answer_text a ++ x ≡ answer_text b ++ y → (a ≡ b) × (x ≡ y) }
{}
