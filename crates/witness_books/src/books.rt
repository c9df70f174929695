//! The books of all members.

ghost use Rattle.std.specs.Prelude.{◌≡◌, ◌∷◌, [], None, false, true, IfErr, IfOk, Some, map};
ghost use Rattle.authenticator.specs.Roster.{IsRoster, member_of};
ghost use Rattle.node_book.specs.Rows.{known_in};
ghost use Rattle.node_book.specs.witness_spec.Contract.{AreBooks, IsNotedStep, StepsTo, starting_books};
ghost use Rattle.node_book.specs.witness_spec.Histories.{Stands};
ghost use Rattle.node_book.specs.witness_spec.Replies.{is_want_of_memory};
ghost use Rattle.node_book.specs.witness_spec.Starting.{IsBeginning, from_the_first};
ghost use Rattle.node_book.specs.witness_book_laws.Books.{book_starting};
ghost use Rattle.node_book.specs.Events.{event_in, step_in};
ghost use Rattle.node_book.specs.Replies.{reply_in};
ghost use Rattle.node_book.specs.Stepping.{NotedSteps, Steps};
ghost use Rattle.witness_books.specs.Books.{bases_in, beginning_of, is_refusal, parts_in};
ghost use Rattle.witness_books.specs.Headline.{KeepsHeadline};
ghost use Rattle.witness_books.specs.Memory.{RunOutForMore, RunsOutWhereItMay};
ghost use Rattle.witness_books.specs.Notes.{AreNotes, AreNotesOf};
ghost use Rattle.witness_books.specs.Places.{CanStep, OneDoes, place_from};
ghost use Rattle.witness_books.specs.Starts.{MayStart, StartFails, handed};
ghost use Rattle.witness_books.specs.Witnessed.{AreStarted};

use crate::laws::steps_keep_the_headline;
use crate::note::{Note, event_twice, note_refusal, notes_of};
use crate::route::{Routed, refuse_event, route};
use crate::start::{StartFault, books_at_first, check_start, share_bases};
use authenticator::{Checked, Member, Roster};
use node_book::{
    Base, Book, Event, PlainReply, Refusal, Reply, Step, books_are_ready, books_can_stand,
    journals_are_histories, left_out_changes_nothing, what_leaves_books,
};
use std::alloc::{AllocError, AllocFailed, Global};
use std::marker::Model;
use std::sync::Arc;

/// What a witness keeps of the members of a roster (PeerReview, SOSP 2007): a book of each. The audit of a
/// member begins at its log's first entry, or at a base that was handed in with the roster.
#[derive(Drop)]
pub struct Books {
    roster: Roster,
    bases: Vec<Arc<Base>>,
    books: Vec<Book>,
}

impl Model for Books {
    ghost use Rattle.witness_books.specs.Books.{BooksParts, KeepsBooks, bases_in, books_code};

    ghost Value = { BooksParts };

    ghost coded = { books_code };

    ghost view = { λ b. record {
      roster = b.roster;
      bases = bases_in b.bases.items;
      books = b.books.items;
    } };

    ghost invariant = { λ b. KeepsBooks (record {
      roster = b.roster;
      bases = bases_in b.bases.items;
      books = b.books.items;
    }) };
}

impl Books {
    /// The books of a roster's members before any step, each from its log's first entry. Where a growth was
    /// refused the roster comes back.
    pub fn new(alloc: Global, roster: Roster) -> Result<Books, AllocFailed<Roster>>
        ensures roster { IfOk result (λ b. b.roster ≡ roster) }
        ensures bases { IfOk result (λ b. b.bases ≡ []) }
        ensures books { IfOk result (λ b. b.books ≡ map (λ m. book_starting m None) roster) }
        ensures started { IfOk result AreStarted }
        ensures opening { IfOk result (λ b. parts_in b ≡ starting_books (from_the_first roster)) }
        ensures back { IfErr result (λ e. e.value ≡ roster) }
    {
        let bases = Vec::new(alloc);
        match books_at_first(alloc, &roster, &bases) {
            Ok(books) => {
                books_are_ready();
                Ok(Books {
                    roster,
                    bases,
                    books,
                })
            }
            Err(AllocError) => Err(AllocFailed { value: roster }),
        }
    }

    /// The books of a roster's members before any step: of a member that has a base among these from that
    /// base, of each other one from its log's first entry. A base may have been checked under another roster.
    /// `TwoBases` comes where two of them are of one node, else `OtherRoot` where one is of a node that is no
    /// member here, or whose root and height here aren't those under which the base was checked, or whose log
    /// or kind isn't that of the base; `NoMemory` comes only where a growth was refused. To tell the kind,
    /// each base's state is read, and let go. After a fault nothing comes back: the roster and the bases are
    /// let go.
    pub fn start(
        alloc: Global,
        roster: Roster,
        bases: Vec<Checked<Base>>,
    ) -> Result<Books, StartFault>
        ensures roster { IfOk result (λ b. b.roster ≡ roster) }
        ensures bases { IfOk result (λ b. b.bases ≡ map (λ c. known_in c.value) bases.items) }
        ensures books { IfOk result AreStarted }
        ensures opening { IfOk result (λ b. parts_in b ≡ starting_books (beginning_of b)) }
        ensures stands { IfOk result (λ b. Stands (beginning_of b) (parts_in b) []) }
        ensures ok { IfOk result (λ _. MayStart roster (map (λ c. handed c.value c.member) bases.items)) }
        ensures fault { IfErr result
            (StartFails roster (map (λ c. handed c.value c.member) bases.items)) }
    {
        check_start(alloc, &roster, &bases)?;
        let bases = share_bases(alloc, bases)?;
        let books = books_at_first(alloc, &roster, &bases)?;
        books_are_ready();
        books_can_stand();
        Ok(Books {
            roster,
            bases,
            books,
        })
    }

    /// The roster whose members have these books.
    pub fn roster(&self) -> &Roster
        ensures { result.now ≡ self.now.roster }
    {
        &self.roster
    }

    /// The bases from which they began, in the order in which they were handed in.
    pub fn bases(&self) -> &[Arc<Base>]
        ensures { bases_in result.now ≡ self.now.bases }
    {
        &self.bases
    }

    /// They began with good bases and stand for a history, as their type keeps it: does nothing, and tells a
    /// caller's proof.
    pub fn stand(&self)
        ensures roster { IsRoster self.now.roster }
        ensures begins { IsBeginning (beginning_of self.now) }
        ensures stand { AreBooks (beginning_of self.now) (parts_in self.now) }
    {
        let _ = &self.roster;
    }

    /// One event, with its reply. An event that is nobody's step is refused: `UnknownNode` where a node that
    /// it is of is no member, else `BadSignature` where it was checked under another key or roster, or isn't
    /// signed; `Garbage` where bytes are no packet. A member's step is refused as its book owes. `NoMemory`
    /// comes only where a growth was refused: of a member's step only where what is owed is neither a refusal
    /// nor `Already`, and never where a job is put back, an indication is asked for or a checked
    /// acknowledgement is handed in; of what is nobody's step only at bytes, which it may come to whatever is
    /// owed. What is refused changes nothing: a job or a done value comes back with the refusal.
    pub fn step(&mut self, alloc: Global, event: Event) -> Reply
        ensures beginning { beginning_of self.new ≡ beginning_of self.old }
        ensures steps { StepsTo (beginning_of self.old) (parts_in self.old) (event_in event) (reply_in result)
            (parts_in self.new) }
        ensures headline { KeepsHeadline (beginning_of self.old) (parts_in self.old) (event_in event ∷ [])
            (reply_in result ∷ []) (parts_in self.new) }
        ensures stays { is_refusal (reply_in result) ≡ true → self.new ≡ self.old }
        ensures memory { RunsOutWhereItMay self.old.roster (event_in event) (reply_in result) }
        ensures more { RunOutForMore (beginning_of self.old) (parts_in self.old) (event_in event ∷ [])
            (reply_in result ∷ []) }
    {
        steps_keep_the_headline();
        self.make_step(alloc, event)
    }

    /// One event, with its reply.
    fn make_step(&mut self, alloc: Global, event: Event) -> Reply
        ensures beginning { beginning_of self.new ≡ beginning_of self.old }
        ensures steps { StepsTo (beginning_of self.old) (parts_in self.old) (event_in event) (reply_in result)
            (parts_in self.new) }
        ensures stays { is_refusal (reply_in result) ≡ true → self.new ≡ self.old }
        ensures memory { RunsOutWhereItMay self.old.roster (event_in event) (reply_in result) }
        ensures more { RunOutForMore (beginning_of self.old) (parts_in self.old) (event_in event ∷ [])
            (reply_in result ∷ []) }
    {
        books_are_ready();
        what_leaves_books();
        left_out_changes_nothing();
        match route(alloc, &self.roster, event) {
            Routed::Refused(reply) => reply,
            Routed::Step(member, step) => {
                step_of(alloc, &self.roster, &mut self.books, &member, step)
            }
        }
    }

    /// One event, with its reply and two notes of both: one to keep, one to hand on. All notes are made
    /// before anything changes: where a growth was refused for them, or owners can't be counted further, the
    /// event is refused with `NoMemory`, whatever it is and whatever is owed to it. There are no notes
    /// exactly where the reply is `NoMemory`; any other reply is one that `step` owes, refused as there, and
    /// keeps the headline. What is refused changes nothing.
    pub fn noted_step(&mut self, alloc: Global, event: Event) -> (Reply, Option<(Note, Note)>)
        ensures beginning { beginning_of self.new ≡ beginning_of self.old }
        ensures noted { IsNotedStep (beginning_of self.old) (parts_in self.old) (event_in event)
            (reply_in result.0) (parts_in self.new) }
        ensures headline { is_want_of_memory (reply_in result.0) ≡ false →
            KeepsHeadline (beginning_of self.old) (parts_in self.old) (event_in event ∷ [])
            (reply_in result.0 ∷ []) (parts_in self.new) }
        ensures notes { AreNotes (event_in event) (reply_in result.0) result.1 }
        ensures stays { is_refusal (reply_in result.0) ≡ true → self.new ≡ self.old }
    {
        steps_keep_the_headline();
        self.make_noted_step(alloc, event)
    }

    /// One event, with its reply and two notes of both.
    fn make_noted_step(&mut self, alloc: Global, event: Event) -> (Reply, Option<(Note, Note)>)
        ensures beginning { beginning_of self.new ≡ beginning_of self.old }
        ensures noted { IsNotedStep (beginning_of self.old) (parts_in self.old) (event_in event)
            (reply_in result.0) (parts_in self.new) }
        ensures notes { AreNotes (event_in event) (reply_in result.0) result.1 }
        ensures stays { is_refusal (reply_in result.0) ≡ true → self.new ≡ self.old }
    {
        what_leaves_books();
        match event_twice(alloc, &event) {
            Ok(events) => {
                let (reply, replies) = self.step_noting(alloc, event);
                (reply, notes_of(events, replies))
            }
            Err(AllocError) => (refuse_event(event, Refusal::NoMemory), None),
        }
    }

    /// One event, with two notes of its reply, made before anything changes.
    fn step_noting(
        &mut self,
        alloc: Global,
        event: Event,
    ) -> (Reply, Option<(PlainReply, PlainReply)>)
        ensures beginning { beginning_of self.new ≡ beginning_of self.old }
        ensures noted { IsNotedStep (beginning_of self.old) (parts_in self.old) (event_in event)
            (reply_in result.0) (parts_in self.new) }
        ensures notes { AreNotesOf (reply_in result.0) result.1 }
        ensures stays { is_refusal (reply_in result.0) ≡ true → self.new ≡ self.old }
    {
        books_are_ready();
        what_leaves_books();
        journals_are_histories();
        match route(alloc, &self.roster, event) {
            Routed::Refused(refusal) => note_refusal(alloc, refusal),
            Routed::Step(member, step) => {
                noted_step_of(alloc, &self.roster, &mut self.books, &member, step)
            }
        }
    }
}

/// The place of the member with this number.
fn place_of(members: &[Member], node: u32) -> Option<usize>
    ensures { result ≡ place_from 0 members.now node }
{
    for place in 0..members.len() {
        if members[place].node == node {
            return Some(place);
        }
    }
    None
}

/// A member's book makes its step.
fn step_of(
    alloc: Global,
    roster: &Roster,
    books: &mut Vec<Book>,
    member: &Member,
    step: Step,
) -> Reply
    requires member { member_of roster.now member.now.node ≡ Some member.now }
    requires can { CanStep roster.now member.now.node books.old.items (step_in step) }
    ensures { OneDoes roster.now member.now.node books.old.items
        (λ old new. Steps old (step_in step) (reply_in result) new) books.new.items }
{
    let place = place_of(roster.members(), member.node).unwrap();
    books[place].step(alloc, step)
}

/// A member's book makes its step, with two notes of its reply.
fn noted_step_of(
    alloc: Global,
    roster: &Roster,
    books: &mut Vec<Book>,
    member: &Member,
    step: Step,
) -> (Reply, Option<(PlainReply, PlainReply)>)
    requires member { member_of roster.now member.now.node ≡ Some member.now }
    requires can { CanStep roster.now member.now.node books.old.items (step_in step) }
    ensures { OneDoes roster.now member.now.node books.old.items
        (λ old new. NotedSteps old (step_in step) result.0 result.1 new) books.new.items }
{
    let place = place_of(roster.members(), member.node).unwrap();
    books[place].noted_step(alloc, step)
}
