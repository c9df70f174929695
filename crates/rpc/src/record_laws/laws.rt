//! What holds of the texts of records.

ghost use Rattle.std.specs.Prelude.{◌≡◌, List, ℕ};
ghost use Rattle.xdr.specs.Item.{IsBytes};
ghost use Rattle.rpc.specs.Records.Record.{Front, BeginsWith};
ghost use Rattle.rpc.specs.Records.Stream.{AreRecords};

/// At most one of these holds of some bytes: they are empty; a record stands at their front, and
/// then which one, its text and what follows are told by the bytes; they end within a record; they
/// pass a limit.
pub fn one_reading()
    ensures { (bytes : List ℕ) (a b : Front) → BeginsWith bytes a → BeginsWith bytes b → a ≡ b }
{}

/// At least one of them holds of any bytes.
pub fn some_reading()
    ensures { (bytes : List ℕ) → IsBytes bytes → (front : Front) × BeginsWith bytes front }
{}

/// A text is one list of records at most, however each is cut.
pub fn one_list_of_records()
    ensures { (text : List ℕ) (rs ss : List (List ℕ)) →
        AreRecords text rs → AreRecords text ss → rs ≡ ss }
{}
