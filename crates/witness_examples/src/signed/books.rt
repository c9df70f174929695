//! Books that stand for histories of signed values.

ghost use Rattle.std.specs.Prelude.{ℕ, List, [], ◌∷◌};
ghost use Rattle.witness_spec.specs.Starting.{from_the_first};
ghost use Rattle.witness_spec.specs.Histories.{Stands};
ghost use Rattle.witness_spec.specs.Contract.{AreBooks, starting_books};
ghost use Rattle.witness_examples.specs.Signed.Audited.{alone, audited_events};
ghost use Rattle.witness_examples.specs.Signed.Shown.{both, forked_events, challenged_event};
ghost use Rattle.witness_examples.specs.Signed.Shown.{acknowledged_events};
ghost use Rattle.witness_examples.specs.Signed.Books.{audited_book, forked_book, challenged_books};

use crate::signed::audits::signed_histories_are_possible;
use crate::signed::messages::{signed_acknowledgements_are_possible, signed_forks_are_possible};

/// After the events of an audit, a history of signed values, these books stand; so do others after two hashes
/// at one number, whose first stays kept and whose evidence is of both; and after a challenge, where the
/// sender's book is as it was. Once the challenge is closed, the books at first stand again.
pub fn books_stand_after_histories()
    ensures audited { (secret : List ℕ) →
        Stands (from_the_first (alone secret)) (audited_book secret ∷ []) (audited_events secret) }
    ensures forked { (secret : List ℕ) →
        Stands (from_the_first (alone secret)) (forked_book secret ∷ []) (forked_events secret) }
    ensures challenged { (secret other : List ℕ) →
        Stands (from_the_first (both secret other)) (challenged_books secret other) (challenged_event other) }
    ensures acknowledged { (secret other : List ℕ) →
        Stands (from_the_first (both secret other)) (starting_books (from_the_first (both secret other)))
        (acknowledged_events secret other) }
{
    signed_histories_are_possible();
    signed_forks_are_possible();
    signed_acknowledgements_are_possible();
}

/// So they are books as a program has them: each stand for a history.
pub fn books_are_possible()
    ensures audited { (secret : List ℕ) → AreBooks (from_the_first (alone secret)) (audited_book secret ∷ []) }
    ensures forked { (secret : List ℕ) → AreBooks (from_the_first (alone secret)) (forked_book secret ∷ []) }
{
    signed_histories_are_possible();
    signed_forks_are_possible();
    books_stand_after_histories();
}
