//! What a witness keeps of a node beside its books.

ghost use Rattle.std.specs.Prelude.{◌≡◌, IfSome, List, OnErr, OnOk};
ghost use Rattle.std.specs.List.{AllZip};
ghost use Rattle.challenge.specs.declared.challenge.Challenge.{Challenge};
ghost use Rattle.witness_process.specs.Lines.{IsSaidAt, saying_of};
ghost use Rattle.witness_process.specs.Opened.{IsListed, oldest_in};

use crate::account::Account;
use crate::due::{Saying, line_due, seconds_open};
use crate::opened::{OpenChallenge, Wanted, note_opened, oldest_of, open_after};
use crate::sets::BookSets;
use peer_calls::Numbers;
use std::alloc::{AllocError, Global};
use watching::Host;

/// What a witness keeps of a node beside its books.
#[derive(Drop)]
pub(crate) struct Row {
    /// The node.
    pub(crate) node: u32,
    /// What the books told of it.
    account: Account,
    /// Its open challenges, and since when each is.
    challenges: Vec<OpenChallenge>,
    /// What was said of it last.
    printed: Option<Saying>,
    /// Whether the books may have changed since.
    pub(crate) is_stale: bool,
    /// Whether a segment of its log came that is to be replayed.
    pub(crate) has_given: bool,
    /// Whether the evidence against it was put in its place.
    pub(crate) has_evidence: bool,
}

impl Row {
    /// What is kept of a node of which nothing was said.
    pub(crate) fn new(alloc: Global, node: u32, account: Account) -> Row {
        Row {
            node,
            account,
            challenges: Vec::new(alloc),
            printed: None,
            is_stale: false,
            has_given: false,
            has_evidence: false,
        }
    }

    /// Asks the books what they say of the node, and which challenges to it are open: one that was open before keeps its
    /// time. Where memory is refused it is still stale, and the challenges are those of before.
    pub(crate) fn refresh(
        &mut self,
        alloc: Global,
        books: &mut BookSets,
        host: &mut Host,
    ) -> Result<(), AllocError>
        ensures lists { OnOk result ((asked : List Challenge)
            × AllZip (IsListed self.old.challenges.items host.old.time) asked self.new.challenges.items) }
        ensures stays { OnErr result (self.new.challenges.items ≡ self.old.challenges.items) }
    {
        self.is_stale = true;
        let challenges = books.wanted(alloc, self.node)?;
        let listed = open_after(alloc, &challenges, &self.challenges, host.time)?;
        if let Some(account) = books.ask(alloc, self.node)? {
            self.account = account;
        }
        if let Some(oldest) = oldest_of(&listed) {
            note_opened(&mut host.opened, self.node, oldest.since);
        }
        self.challenges = listed;
        self.is_stale = false;
        Ok(())
    }

    /// The line of the node that is due at a time, if one is. It counts as said.
    #[tactic(auto, using(crate::proofs::OfLines::said_at))]
    pub(crate) fn take_due(&mut self, time: u64, patience: u32) -> Option<Saying>
        ensures said { IfSome result (IsSaidAt time patience) }
        ensures says { IfSome result (λ saying.
            saying ≡ saying_of self.old.account (oldest_in self.old.challenges.items)) }
    {
        let oldest = oldest_of(&self.challenges);
        let seconds = seconds_open(oldest, time);
        let told = self.account.told();
        let saying = line_due(&told, oldest, seconds, patience, self.printed)?;
        self.printed = Some(saying);
        Some(saying)
    }

    /// The part of its log that is asked for, if an audit is open.
    pub(crate) fn audit(&self) -> Option<Numbers> {
        for challenge in &self.challenges {
            if let Wanted::Segment { first, last } = challenge.wanted {
                return Some(Numbers { first, last });
            }
        }
        None
    }
}
