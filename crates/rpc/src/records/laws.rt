//! The limits of records; what holds of their texts stands in `record_laws`.

ghost use Rattle.std.specs.Prelude.{◌≡◌};
ghost use Rattle.rpc.specs.declared.records.record.TheConstants.{MAX_RECORD, MAX_FRAGMENTS};

/// The limits of a record.
pub fn limits()
    ensures bytes { MAX_RECORD ≡ 12288 }
    ensures fragments { MAX_FRAGMENTS ≡ 16384 }
{}
