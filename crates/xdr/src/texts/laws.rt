//! What holds of each text.

ghost use Rattle.std.specs.Prelude.{◌≡◌, ◌↔◌, List, ℕ, Some};
ghost use Rattle.xdr.specs.Item.{Value, IsBytes};
ghost use Rattle.xdr.specs.Texts.Text.{Text, IsText, text_at};

/// A text is read exactly where its bytes are the spelling of a value that passes its test, and nothing more.
/// It has one value at most.
pub fn reads_each_text()
    ensures exact { (t : Text) (v : Value t.item) (bytes : List ℕ) → IsBytes bytes →
        ((text_at t bytes ≡ Some v) ↔ IsText t v bytes) }
    ensures one_value { (t : Text) (v w : Value t.item) (bytes : List ℕ) →
        IsText t v bytes → IsText t w bytes → v ≡ w }
{}
