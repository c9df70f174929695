//! Hashes, compared.

ghost use Rattle.std.specs.Prelude.{◌≡◌, ◌↔◌, IsTrue};

/// Whether two hashes are the same, byte by byte. Takes no memory.
pub fn is_same_hash(own: &[u8; 32], other: &[u8; 32]) -> bool
    ensures { IsTrue result ↔ (own.now ≡ other.now) }
{
    own.as_slice() == other.as_slice()
}
