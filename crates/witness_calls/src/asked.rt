//! What an open audit asks for.

ghost use Rattle.std.specs.Prelude.{OnOk};
ghost use Rattle.witness_calls.specs.Telling.{AsksOpen};

use crate::caller::Caller;
use crate::said::Said;
use challenge::Challenge;
use std::alloc::AllocError;
use std::sync::Wait;

/// The first and the last number of the part of a log that is asked for.
#[derive(Clone, Copy, Debug, PartialEq, Eq)]
pub struct Asked {
    /// The first number.
    pub first: u64,
    /// The last number.
    pub last: u64,
}

impl<'a, R: Wait> Caller<'a, R> {
    /// What is asked of a node by the audit that is open, if one is. `AllocError` comes
    /// where memory was refused.
    pub fn asked(&mut self, node: u32) -> Result<Option<Asked>, AllocError>
        ensures { OnOk result (AsksOpen self.old node self.new) }
    {
        let said = self.challenges(node);
        if said.is_no_memory() {
            return Err(AllocError);
        }
        Ok(asked_of(&said))
    }
}

/// What the open audit asks for, where a witness told the open challenges.
fn asked_of(said: &Said) -> Option<Asked> {
    match said {
        Said::Open(challenges) => audit_among(challenges),
        _ => None,
    }
}

/// What the audit among some challenges asks for.
fn audit_among(challenges: &[Challenge]) -> Option<Asked> {
    for challenge in challenges {
        if let Challenge::Audit { first, last } = challenge {
            return Some(Asked {
                first: first.get(),
                last: last.get(),
            });
        }
    }
    None
}
