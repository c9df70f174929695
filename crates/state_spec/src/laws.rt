//! What holds of the states of nodes and of their texts.

ghost use Rattle.std.specs.Prelude.{◌≡◌, ◌↔◌, ℕ, List, [], ◌∷◌, ◌++◌, replicate, length, Some};
ghost use Rattle.xdr.specs.Item.{Fits, IsBytes};
ghost use Rattle.xdr.specs.Texts.Text.{text_at};
ghost use Rattle.server_spec.specs.FileItems.{file_item};
ghost use Rattle.state_spec.specs.State.{State, IsState, opening_server};
ghost use Rattle.state_spec.specs.StateItems.{state_item};
ghost use Rattle.state_spec.specs.StateText.{Said, said, spelled_text, IsStateText, IsGarbage, IsNotAState};
ghost use Rattle.state_spec.specs.StateText.{digest_text};
ghost use Rattle.state_spec.specs.StateValues.{state_from};
ghost use Rattle.state_spec.specs.Rules.{ListsRise, KeepsRules};

/// A text is that of one state at most, and then it is neither Garbage nor NotAState.
pub fn a_text_has_one_state()
    ensures one { (s t : State) (bytes : List ℕ) → IsStateText s bytes → IsStateText t bytes → s ≡ t }
    ensures no_garbage { (s : State) (bytes : List ℕ) → IsStateText s bytes → IsGarbage bytes → ⊥ }
    ensures is_state { (s : State) (bytes : List ℕ) → IsStateText s bytes → IsNotAState bytes → ⊥ }
{}

/// The state that a value gives is the one that says the value, if one does.
pub fn values_give_their_states()
    ensures { (s : State) → IsState s → state_from (said s) ≡ s }
{}

/// The state that a value gives says that value exactly where its three lists rise.
pub fn states_say_what_rises()
    ensures { (v : Said) → Fits (state_item file_item) v → ((said (state_from v) ≡ v) ↔ ListsRise v) }
{}

/// What bytes say is said by a state exactly where it keeps the rules.
pub fn rules_tell_states()
    ensures { (v : Said) → Fits (state_item file_item) v →
        (((s : State) × IsState s × (said s ≡ v)) ↔ KeepsRules v) }
{}

/// Bytes are the text of the state that they give, where they are spelled as a state is and keep the rules;
/// where they don't keep them, they are NotAState.
pub fn rules_tell_texts()
    ensures text { (v : Said) (bytes : List ℕ) → IsBytes bytes → text_at spelled_text bytes ≡ Some v →
        KeepsRules v → IsStateText (state_from v) bytes }
    ensures no_state { (v : Said) (bytes : List ℕ) → IsBytes bytes → text_at spelled_text bytes ≡ Some v →
        (KeepsRules v → ⊥) → IsNotAState bytes }
    ensures kept { (s : State) (bytes : List ℕ) → IsStateText s bytes → KeepsRules (said s) }
{}

/// The text of the state that the server of node 1 begins with has 172 bytes, and the text under its digest
/// 108.
pub fn opening_text()
    ensures is_state { IsState (opening_server 1) }
    ensures text { IsStateText (opening_server 1) (
        0 ∷ 0 ∷ 0 ∷ 1 ∷ 0 ∷ 0 ∷ 0 ∷ 1 ∷ 0 ∷ 0 ∷ 0 ∷ 1 ∷ replicate 20 0
        ++ 0 ∷ 0 ∷ 0 ∷ 3 ∷ 0 ∷ 0 ∷ 0 ∷ 0 ∷ 0 ∷ 0 ∷ 0 ∷ 2 ∷ []
        ++ 0 ∷ 0 ∷ 0 ∷ 1 ∷ 0 ∷ 0 ∷ 0 ∷ 2 ∷ 0 ∷ 0 ∷ 1 ∷ 255 ∷ replicate 32 0
        ++ 0 ∷ 0 ∷ 0 ∷ 4 ∷ 0 ∷ 0 ∷ 0 ∷ 1 ∷ 0 ∷ 0 ∷ 0 ∷ 5 ∷ 104 ∷ 101 ∷ 108 ∷ 108 ∷ 111 ∷ 0 ∷ 0 ∷ 0
        ∷ 0 ∷ 0 ∷ 0 ∷ 2 ∷ 0 ∷ 0 ∷ 0 ∷ 3 ∷ []
        ++ 0 ∷ 0 ∷ 0 ∷ 2 ∷ 0 ∷ 0 ∷ 0 ∷ 1 ∷ 0 ∷ 0 ∷ 1 ∷ 164 ∷ replicate 32 0
        ++ 0 ∷ 0 ∷ 0 ∷ 6 ∷ 104 ∷ 101 ∷ 108 ∷ 108 ∷ 111 ∷ 10 ∷ 0 ∷ 0 ∷ []) }
    ensures digest { length (digest_text (opening_server 1)) ≡ 108 }
{}
