//! What a witness says of a node, in one line.

ghost use Rattle.std.specs.Prelude.{◌≡◌, IfErr, IfOk};
ghost use Rattle.witness_books.specs.node_book.witness_spec.Events.{Ask, ItsChallenges};
ghost use Rattle.witness_calls.specs.Telling.{IsListed, Says, Tells, Withholds, indication_word};

use crate::caller::Caller;
use crate::said::{Said, indication_word};
use std::sync::Wait;
use witness_service::Indication;

/// What a witness says of a node.
#[derive(Clone, Copy)]
pub struct Told {
    /// The node's number.
    pub node: u32,
    /// The node's failure indication.
    pub indication: Indication,
    /// How many challenges to it are open.
    pub open: usize,
}

impl Told {
    /// The word of the indication.
    pub fn word(&self) -> &'static str
        ensures { result.now ≡ indication_word self.now.indication }
    {
        indication_word(self.indication)
    }
}

impl<'a, R: Wait> Caller<'a, R> {
    /// Asks what the witness says of a node, and for its open challenges. Where it doesn't tell these, what
    /// it says comes back.
    pub fn told(&mut self, node: u32) -> Result<Told, Said>
        ensures told { IfOk result (λ told. Tells self.old node told self.new) }
        ensures said { IfErr result (λ said. Withholds self.old node said self.new) }
    {
        match self.indication(node) {
            Said::Told(indication) => self.told_as(node, indication),
            said => Err(said),
        }
    }

    /// The same of a node with this indication.
    fn told_as(&mut self, node: u32, indication: Indication) -> Result<Told, Said>
        ensures told { IfOk result (λ told. IsListed self.old node indication told self.new) }
        ensures said { IfErr result (λ said. Says self.old (Ask node ItsChallenges) said self.new) }
    {
        match self.challenges(node) {
            Said::Open(challenges) => Ok(Told {
                node,
                indication,
                open: challenges.len(),
            }),
            said => Err(said),
        }
    }
}
