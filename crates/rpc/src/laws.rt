//! What holds of calls.

ghost use Rattle.std.specs.Prelude.{◌≡◌, ◌↔◌, List, ℕ, Ok};
ghost use Rattle.xdr.specs.Item.{IsBytes};
ghost use Rattle.rpc.specs.Call.{Message, Says, message_at};

/// Reading gives a call exactly where the bytes say it.
pub fn reads_what_is_said()
    ensures { (bytes : List ℕ) (m : Message) (rest : List ℕ) → IsBytes bytes →
        ((message_at bytes ≡ Ok (m, rest)) ↔ Says bytes m rest) }
{}

/// Bytes say one call at most, with one text after it.
pub fn says_one_call()
    ensures { (bytes : List ℕ) (m n : Message) (x y : List ℕ) →
        Says bytes m x → Says bytes n y → (m ≡ n) × (x ≡ y) }
{}
