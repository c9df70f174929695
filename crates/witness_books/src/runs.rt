//! Events one after the other.

ghost use Rattle.std.specs.Prelude.{◌≡◌, ◌+◌, ◌≤◌, [], IfErr, IfOk, OnErr, map, vec_capacity, vec_len};
ghost use Rattle.std.specs.List.{AllZip};
ghost use Rattle.node_book.specs.witness_spec.Contract.{RunsTo};
ghost use Rattle.node_book.specs.Events.{event_in};
ghost use Rattle.node_book.specs.Replies.{reply_in};
ghost use Rattle.witness_books.specs.Books.{beginning_of, parts_in};
ghost use Rattle.witness_books.specs.Headline.{KeepsHeadline};
ghost use Rattle.witness_books.specs.Memory.{RunOutForMore, RunsOutWhereItMay};
ghost use Rattle.witness_books.specs.Witnessed.{AreStarted, IsWitnessed};

use crate::books::Books;
use crate::laws::runs_keep_the_headline;
use node_book::{Event, Reply, runs_are_histories};
use std::alloc::{AllocError, Global};

/// Hands these events to the books, one after the other, the oldest first, and gives their replies in the
/// same order: each event is a step of its own, from the books that the one before left. Room for all replies
/// is taken first: where that was refused all events come back, and no step was made. An event for which
/// memory runs out later is answered so (`Books::step`), and those after it are steps all the same. From the
/// books before any step, the events with their replies are a history, and the books stand for it.
pub fn run(alloc: Global, books: &mut Books, events: Vec<Event>) -> Result<Vec<Reply>, Vec<Event>>
    ensures beginning { beginning_of books.new ≡ beginning_of books.old }
    ensures runs { IfOk result (λ replies. RunsTo (beginning_of books.old) (parts_in books.old)
        (map event_in events.items) (map reply_in replies.items) (parts_in books.new)) }
    ensures headline { IfOk result (λ replies. KeepsHeadline (beginning_of books.old) (parts_in books.old)
        (map event_in events.items) (map reply_in replies.items) (parts_in books.new)) }
    ensures memory { IfOk result (λ replies. AllZip
        (λ event reply. RunsOutWhereItMay books.old.roster (event_in event) (reply_in reply))
        events.items replies.items) }
    ensures more { IfOk result (λ replies. RunOutForMore (beginning_of books.old) (parts_in books.old)
        (map event_in events.items) (map reply_in replies.items)) }
    ensures witnessed { IfOk result (λ replies. AreStarted books.old → IsWitnessed (beginning_of books.old)
        (map event_in events.items) (map reply_in replies.items) books.new) }
    ensures back { IfErr result (λ e. e ≡ events) }
    ensures stays { OnErr result (books.new ≡ books.old) }
{
    runs_are_histories();
    runs_keep_the_headline();
    match Vec::with_capacity(alloc, events.len()) {
        Ok(replies) => Ok(run_all(alloc, books, events, replies)),
        Err(AllocError) => Err(events),
    }
}

/// The replies to these events, put where there is room for them.
fn run_all(
    alloc: Global,
    books: &mut Books,
    events: Vec<Event>,
    mut replies: Vec<Reply>,
) -> Vec<Reply>
    requires none { replies.items ≡ [] }
    requires room { vec_len replies + vec_len events ≤ vec_capacity replies }
    ensures beginning { beginning_of books.new ≡ beginning_of books.old }
    ensures runs { RunsTo (beginning_of books.old) (parts_in books.old) (map event_in events.items)
        (map reply_in result.items) (parts_in books.new) }
    ensures memory { AllZip
        (λ event reply. RunsOutWhereItMay books.old.roster (event_in event) (reply_in reply))
        events.items result.items }
    ensures more { RunOutForMore (beginning_of books.old) (parts_in books.old) (map event_in events.items)
        (map reply_in result.items) }
{
    runs_are_histories();
    let mut rest = events.into_iter();
    'steps: while let Some(event) = rest.next() {
        let reply = books.step(alloc, event);
        replies.push_reserved(reply);
    }
    rest.destroy_empty();
    replies
}
