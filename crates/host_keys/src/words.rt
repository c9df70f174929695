//! The words of a line.

ghost use Rattle.std.specs.Prelude.{◌≡◌, ◌↔◌, ℕ, List, ◌∷◌, [], IfNone, IsSome, IsTrue, MatchOption, decimal};
ghost use Rattle.hex.specs.Hex.{encode_lower};
ghost use Rattle.host_keys.specs.Lines.{IsDigest, IsWithin, Takes, TakesOnly, words_of, left_in};

use crate::values::{digest_of, number_of};

/// The words of a line that are left: they stand with one space between, so that the words and the line tell
/// each other.
#[derive(Drop)]
pub(crate) struct Words<'a> {
    rest: Option<&'a str>,
}

impl<'a> Words<'a> {
    /// All words of a line.
    pub(crate) fn new(line: &'a str) -> Words<'a>
        ensures { left_in result ≡ words_of line.now }
    {
        Words { rest: Some(line) }
    }

    /// The next word, if one is left.
    pub(crate) fn next(&mut self) -> Option<&'a str>
        ensures { MatchOption result ((left_in self.old ≡ []) × (left_in self.new ≡ []))
            (λ word. left_in self.old ≡ word.now ∷ left_in self.new) }
    {
        let rest = self.rest?;
        match rest.split_once(' ') {
            Some((word, more)) => {
                self.rest = Some(more);
                Some(word)
            }
            None => {
                self.rest = None;
                Some(rest)
            }
        }
    }

    /// Takes the next word if it is this one.
    pub(crate) fn literal(&mut self, literal: &str) -> Option<()>
        ensures found { IsSome result → left_in self.old ≡ literal.now ∷ left_in self.new }
        ensures none { IfNone result ((rest : List (List ℕ)) → left_in self.old ≡ literal.now ∷ rest → ⊥) }
    {
        if self.next()? == literal {
            Some(())
        } else {
            None
        }
    }

    /// Takes the next word if it is the decimal digits of a number from the one to the other.
    pub(crate) fn number(&mut self, least: u32, most: u32) -> Option<u32>
        ensures found { Takes (IsWithin least most) (λ n. decimal n ∷ []) (left_in self.old) result
            (left_in self.new) }
        ensures only { TakesOnly (IsWithin least most) (λ n. decimal n ∷ []) (left_in self.old) result
            (left_in self.new) }
    {
        number_of(self.next()?, least, most)
    }

    /// Takes the next word if it is the lower-case hexadecimal digits of 32 bytes.
    pub(crate) fn digest(&mut self) -> Option<[u8; 32]>
        ensures found { Takes IsDigest (λ d. encode_lower d ∷ []) (left_in self.old) result
            (left_in self.new) }
        ensures only { TakesOnly IsDigest (λ d. encode_lower d ∷ []) (left_in self.old) result
            (left_in self.new) }
    {
        digest_of(self.next()?)
    }

    /// Whether no word is left.
    pub(crate) fn is_at_end(&self) -> bool
        ensures { IsTrue result ↔ (left_in self.now ≡ []) }
    {
        self.rest.is_none()
    }
}
