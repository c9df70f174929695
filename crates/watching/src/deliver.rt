//! What becomes of a packet.

ghost use Rattle.std.specs.Prelude.{◌≡◌, false, IfOk, OnOk};
ghost use Rattle.witness_books.specs.node_book.Replies.{reply_in};
ghost use Rattle.witness_spec.specs.Replies.{is_want_of_memory};
ghost use Rattle.watching.specs.Telling.{IsTaken, delivered_number};

use std::alloc::AllocError;
use witness_books::{Refusal, Reply};
use witness_calls::Said;

/// What became of a packet.
#[derive(Clone, Copy, Debug, PartialEq, Eq)]
pub enum Delivered {
    /// It was taken.
    Taken,
    /// It was taken before.
    Already,
    /// It was refused, and nothing changed.
    Refused(Refusal),
}

impl Delivered {
    /// The number by which it is told: 0 where the packet was taken, 10 where it was before, else 16 and the
    /// refusal's number.
    pub fn number(self) -> u32
        ensures { result ≡ delivered_number self }
    {
        match self {
            Delivered::Taken => 0,
            Delivered::Already => 10,
            Delivered::Refused(refusal) => 16 + refusal.number(),
        }
    }

    /// What a reply to a packet says of it. `AllocError` comes where memory was refused.
    pub(crate) fn of(reply: Reply) -> Result<Delivered, AllocError>
        ensures taken { IfOk result (λ d. IsTaken (reply_in reply) d) }
        ensures enough { OnOk result (is_want_of_memory (reply_in reply) ≡ false) }
    {
        let said = Said::of(reply);
        if said.is_no_memory() {
            return Err(AllocError);
        }
        match said {
            Said::Noted | Said::Opened | Said::Accepted | Said::Closed => Ok(Delivered::Taken),
            Said::Already => Ok(Delivered::Already),
            Said::Refused(refusal) => Ok(Delivered::Refused(refusal)),
            _ => Err(AllocError),
        }
    }
}
