//! Arguments in bytes.

ghost use Rattle.std.specs.Prelude.{◌≡◌, ◌<◌, ◌^◌, ◌++◌, ℕ, List, length, [], ◌∷◌, Ok, Err};
ghost use Rattle.nfs_items.specs.xdr.declared.fault.XdrFault.TheVariants as faults;
ghost use Rattle.nfs_items.specs.xdr.Item.{number_spelling};
ghost use Rattle.nfs_items.specs.xdr.Reading.{read_at};
ghost use Rattle.nfs_types.specs.declared.arguments.NfsProcedure.TheVariants as procedures;
ghost use Rattle.nfs_types.specs.Items.{filename};
ghost use Rattle.nfs_types.specs.Texts.{call_at};

/// A name of three bytes with its one byte of padding, and the same with the padding 1; any name of 255 bytes
/// with its one, and with the padding 1, so that CREATE's arguments are refused. A name whose length word is
/// above 255 is refused by that word, whatever stands after it, and WRITE's data at a length above 8192; so
/// CREATE's and WRITE's arguments are.
pub fn names_are_read()
    ensures name { read_at filename (0 ∷ 0 ∷ 0 ∷ 3 ∷ 0x61 ∷ 0x62 ∷ 0x63 ∷ 0 ∷ [])
        ≡ Ok (0x61 ∷ 0x62 ∷ 0x63 ∷ [], []) }
    ensures padding { read_at filename (0 ∷ 0 ∷ 0 ∷ 3 ∷ 0x61 ∷ 0x62 ∷ 0x63 ∷ 1 ∷ []) ≡ Err faults.Padding }
    ensures whole { (name rest : List ℕ) → length name ≡ 255 →
        read_at filename ((number_spelling 4 255 ++ (name ++ 0 ∷ [])) ++ rest) ≡ Ok (name, rest) }
    ensures odd { (handle name rest : List ℕ) → length handle ≡ 32 → length name ≡ 255 →
        call_at procedures.Create (handle ++ (number_spelling 4 255 ++ (name ++ 1 ∷ rest)))
        ≡ Err faults.Padding }
    ensures long { (len : ℕ) (rest : List ℕ) → 255 < len → len < 2 ^ 32 →
        read_at filename (number_spelling 4 len ++ rest) ≡ Err faults.TooLong }
    ensures create { (handle : List ℕ) (len : ℕ) (rest : List ℕ) →
        length handle ≡ 32 → 255 < len → len < 2 ^ 32 →
        call_at procedures.Create (handle ++ (number_spelling 4 len ++ rest)) ≡ Err faults.TooLong }
    ensures write { (handle : List ℕ) (begin offset total len : ℕ) (rest : List ℕ) →
        length handle ≡ 32 → begin < 2 ^ 32 → offset < 2 ^ 32 → total < 2 ^ 32 → 8192 < len → len < 2 ^ 32 →
        call_at procedures.Write (handle ++ (number_spelling 4 begin ++ (number_spelling 4 offset
        ++ (number_spelling 4 total ++ (number_spelling 4 len ++ rest)))))
        ≡ Err faults.TooLong }
{}
