//! Bytes that are taken item by item.

ghost use Rattle.std.specs.Prelude.{◌≡◌, ◌≤◌, ◌-◌, length, drop};

use std::marker::Model;

/// Fewer taken bytes aren't given back.
const GIVEN_BACK: usize = 1 << 24;

/// Bytes that are taken from the front, item by item. Those that were taken are given back to memory where
/// they are a quarter of what is left, so that what is left is moved a few times in all.
#[derive(Drop)]
pub(crate) struct Source {
    bytes: Vec<u8>,
    at: usize,
}

impl Model for Source {
    ghost use Rattle.std.specs.Prelude.{◌≤◌, ℕ, List, length, drop};

    ghost Value = { List ℕ };

    ghost view = { λ s. drop s.at s.bytes.items };

    ghost invariant = { λ s. s.at ≤ length s.bytes.items };
}

impl Source {
    /// All of some bytes.
    pub fn new(bytes: Vec<u8>) -> Source
        ensures { result ≡ bytes.items }
    {
        Source { bytes, at: 0 }
    }

    /// The bytes that are left.
    pub fn rest(&self) -> &[u8]
        ensures { result.now ≡ self.now }
    {
        &self.bytes[self.at..]
    }

    /// Takes all but so many bytes.
    pub fn keep(&mut self, left: usize)
        requires { left ≤ length self.old }
        ensures { self.new ≡ drop (length self.old - left) self.old }
    {
        self.at = self.bytes.len() - left;
        if self.at >= GIVEN_BACK && self.at >= left / 4 {
            self.bytes.copy_within(self.at.., 0);
            self.bytes.truncate(left);
            self.bytes.shrink_to_fit();
            self.at = 0;
        }
    }
}
