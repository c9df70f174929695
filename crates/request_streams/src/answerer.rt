//! Who answers requests.

ghost use Rattle.std.specs.Prelude.{List, ℕ};
ghost use Rattle.request_streams.specs.Serving.{IsAnswerIf};

use frames::Bound;
use std::alloc::Global;

/// What became of a record.
#[derive(Clone, Copy, Debug, PartialEq, Eq)]
pub enum Outcome {
    /// It has a reply.
    Replied,
    /// It is no call, and gets no reply (RFC 5531, section 9).
    NoCall,
    /// A growth was refused, for the reply too. What was asked may have been done.
    NoMemory,
}

/// Who answers requests, one at a time, of at most as many bytes as it allows.
///
/// Its ghost member says which texts are answers to a record.
pub trait Answerer: Bound {
    // The text is an answer to the record.
    ghost answers: { Self → List ℕ → List ℕ → Type 0 };

    /// Answers a record, in place of what `out` holds.
    fn answer(&mut self, alloc: Global, bytes: &[u8], out: &mut Vec<u8>) -> Outcome
        ensures answer { IsAnswerIf (answers self.old) bytes.now out.new.items result }
        ensures kept { (bytes text : List ℕ) → answers self.new bytes text → answers self.old bytes text };
}
