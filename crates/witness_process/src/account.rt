//! What the books told of a member.

ghost use Rattle.std.specs.Prelude.{◌≡◌, IfOk, IfSome};
ghost use Rattle.witness_books.specs.Books.{beginning_of};
ghost use Rattle.watching.specs.Telling.{TellsIf, WereAsked};
ghost use Rattle.witness_process.specs.Lines.{WasTold};

use std::alloc::{AllocError, Global};
use std::marker::Model;
use watching::{NodeTold, Standing};

/// What a witness's books told of a member. Its type keeps that books told it which stood for a history.
#[derive(Drop)]
pub(crate) struct Account {
    told: NodeTold,
}

impl Model for Account {
    ghost use Rattle.watching.specs.declared.told.NodeTold.{NodeTold};
    ghost use Rattle.witness_process.specs.Lines.{WasTold};

    ghost Value = { NodeTold };

    ghost view = { λ a. a.told };

    ghost invariant = { λ a. WasTold a.told };
}

impl Account {
    /// Asks the books of a node; none where it is no member. `AllocError` comes only where a growth was refused.
    #[tactic(auto, using(crate::proofs::OfLines::was_told, crate::proofs::OfLines::is_of_node))]
    pub(crate) fn ask(
        standing: &mut Standing,
        alloc: Global,
        node: u32,
    ) -> Result<Option<Account>, AllocError>
        ensures beginning { beginning_of standing.new.books ≡ beginning_of standing.old.books }
        ensures node { IfOk result (λ asked. IfSome asked (λ a. a.node ≡ node)) }
        ensures told { IfOk result (λ asked. TellsIf standing.old.books node asked standing.new.books) }
        ensures asked { WereAsked standing.old.books node standing.new.books }
        ensures shown { standing.new.shown ≡ standing.old.shown }
    {
        standing.books().stand();
        match standing.told(alloc, node)? {
            Some(told) => Ok(Some(Account { told })),
            None => Ok(None),
        }
    }

    /// What was told.
    pub(crate) fn told(&self) -> NodeTold
        ensures told { result ≡ self.now }
        ensures books { WasTold result }
    {
        self.told
    }
}
