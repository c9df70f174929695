//! The line of a node.

ghost use Rattle.std.specs.Prelude.{◌≡◌, IfOk, string_bytes};
ghost use Rattle.watching.specs.Telling.{told_line};

use std::alloc::{AllocError, Global};
use witness_books::Indication;
use witness_calls::indication_word;

/// What a witness's books say of a member.
#[derive(Clone, Copy, Debug)]
pub struct NodeTold {
    /// Its number.
    pub node: u32,
    /// Its failure indication.
    pub indication: Indication,
    /// How many challenges to it are open.
    pub open: usize,
    /// The number of the base from which its audit began, if it began from one.
    pub from: Option<u64>,
    /// The last number of its log that was filed sound; where none was, that of its base, or 0.
    pub end: u64,
}

impl NodeTold {
    /// The line that says it, as in `1 trusted 0 to 4096`: the node, the word of its indication, how many
    /// challenges are open, and the last number that was filed sound. Of a node whose audit began from a base
    /// it is as in `1 trusted 0 from 1024 to 4096`, with the base's number.
    pub fn line(&self, alloc: Global) -> Result<String, AllocError>
        ensures { IfOk result (λ line. string_bytes line ≡ told_line self.now) }
    {
        let word = indication_word(self.indication);
        match self.from {
            Some(from) => {
                format!(in alloc;
                    "{} {word} {} from {from} to {}",
                    self.node, self.open, self.end
                )
            }
            None => format!(in alloc; "{} {word} {} to {}", self.node, self.open, self.end),
        }
    }
}
