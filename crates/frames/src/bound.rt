//! How many bytes a record may have.

ghost use Rattle.std.specs.Prelude.{◌≡◌, ℕ, List};

/// The most bytes of a record that is taken whatever it begins with.
pub const SHORT: usize = 29_288;

/// The first bytes of a record, by which a longer one is judged.
pub const FRONT: usize = 48;

/// Says how many bytes a record may have, by its first bytes.
pub trait Bound {
    // The number, by the bytes.
    ghost most: { Self → List ℕ → ℕ };

    /// The most bytes of a record that has these first. It is asked of records above `SHORT` alone, by their
    /// first `FRONT` bytes.
    fn most(&self, front: &[u8]) -> u32
        ensures { result ≡ most self.now front.now };
}

/// The same bound for each record.
#[derive(Clone, Copy, Debug)]
pub struct UpTo(pub u32);

impl Bound for UpTo {
    ghost most = { λ bound front. bound.0 };

    fn most(&self, _front: &[u8]) -> u32 {
        self.0
    }
}
