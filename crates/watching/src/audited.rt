//! A witness's books without a journal, and up to where each log was audited.

ghost use Rattle.std.specs.Prelude.{◌≡◌, [], ◌∷◌, map, option_map, true, IfErr, IfOk, IfSome, IsTrue, OnErr};
ghost use Rattle.std.specs.Arc.{arc_value};
ghost use Rattle.witness_books.specs.node_book.Events.{event_in};
ghost use Rattle.witness_books.specs.node_book.Replies.{challenge_in, indication_in, reply_in};
ghost use Rattle.witness_spec.specs.Contract.{starting_books};
ghost use Rattle.witness_spec.specs.Events.{Ask, ItsEvidence, ItsIndication};
ghost use Rattle.witness_spec.specs.Replies.{EvidenceIs, Told};
ghost use Rattle.witness_spec.specs.Starting.{from_the_first};
ghost use Rattle.witness_books.specs.Books.{beginning_of, is_refusal, parts_in};
ghost use Rattle.witness_books.specs.Headline.{KeepsHeadline};
ghost use Rattle.witness_books.specs.Starts.{MayStart, StartFails, handed};
ghost use Rattle.witness_books.specs.node_book.Rows.{known_in};
ghost use Rattle.watching.specs.Ends.{end_in, ends_of};
ghost use Rattle.watching.specs.Filed.{BeginsFiled, GoesOnBy, WasFiled};
ghost use Rattle.watching.specs.Telling.{IsDelivered, Lists, ListsIf, MayBeDelivered, ShowsIf, Steps};
ghost use Rattle.watching.specs.Telling.{TellsIf, WereAsked};

use crate::bases::{began_from, first_ends};
use crate::deliver::Delivered;
use crate::ends::{end_of, filed_end, put_end, sound_end, zeros};
use crate::filed::{keep_filed, sound_segment, stands_in};
use crate::laws::steps_move_ends;
use crate::told::NodeTold;
use authenticator::{Checked, Roster};
use challenge::{Base, Challenge, Evidence};
use std::alloc::{AllocError, AllocFailed, Global};
use std::marker::Model;
use std::sync::Arc;
use witness_book_laws::what_leaves_books;
use witness_books::laws::spelled_is_taken;
use witness_books::{
    Books, Event, EventOf, Indication, Question, Reply, ReplyOf, SharedSegment, StartFault,
};
use witness_calls::{Said, SignatureCache, admit};

/// A witness's books, from their first step on, without a journal of the steps: what it takes of memory is
/// bounded by the books. Its type keeps that the books stand for some history from their beginning, as
/// `Books` does, for each member the last number of its log that was filed sound, and of all members the segment that
/// was filed sound last.
///
/// A clause sees the books.
#[derive(Drop)]
pub(crate) struct AuditedBooks {
    books: Books,
    ends: Vec<u64>,
    last: Option<SharedSegment>,
}

impl Model for AuditedBooks {
    ghost use Rattle.witness_books.specs.Books.{BooksParts, books_code, parts_in};
    ghost use Rattle.std.specs.Prelude.{◌≡◌, IfSome};
    ghost use Rattle.watching.specs.Ends.{ends_of};
    ghost use Rattle.watching.specs.Filed.{WasFiled};

    ghost Value = { BooksParts };

    ghost coded = { books_code };

    ghost view = { λ s. s.books };

    ghost invariant = { λ s. (s.ends.items ≡ ends_of (parts_in s.books)) × IfSome s.last (WasFiled s.books) };
}

impl AuditedBooks {
    /// The books of a roster's members before any step, each from its log's first entry. Where a growth was
    /// refused the roster comes back.
    pub fn open(alloc: Global, roster: Roster) -> Result<AuditedBooks, AllocFailed<Roster>>
        ensures beginning { IfOk result (λ s. beginning_of s ≡ from_the_first roster) }
        ensures opening { IfOk result (λ s. parts_in s ≡ starting_books (from_the_first roster)) }
        ensures back { IfErr result (λ e. e.value ≡ roster) }
    {
        let Ok(ends) = zeros(alloc, roster.members().len()) else {
            return Err(AllocFailed { value: roster });
        };
        let books = Books::new(alloc, roster)?;
        Ok(AuditedBooks {
            books,
            ends,
            last: None,
        })
    }

    /// The books of a roster's members before any step, each from its base if it has one among these, as
    /// `Books::start`. After a fault nothing comes back.
    #[tactic(auto, using(crate::proofs::OfOpening::start_ends))]
    pub fn start(
        alloc: Global,
        roster: Roster,
        bases: Vec<Checked<Base>>,
    ) -> Result<AuditedBooks, StartFault>
        ensures roster { IfOk result (λ s. s.roster ≡ roster) }
        ensures bases { IfOk result (λ s. s.bases ≡ map (λ c. known_in c.value) bases.items) }
        ensures opening { IfOk result (λ s. parts_in s ≡ starting_books (beginning_of s)) }
        ensures ok { IfOk result (λ _. MayStart roster (map (λ c. handed c.value c.member) bases.items)) }
        ensures fault { IfErr result (StartFails roster (map (λ c. handed c.value c.member) bases.items)) }
    {
        let books = Books::start(alloc, roster, bases)?;
        let Ok(ends) = first_ends(alloc, books.roster().members(), books.bases()) else {
            return Err(StartFault::NoMemory);
        };
        Ok(AuditedBooks {
            books,
            ends,
            last: None,
        })
    }

    /// The books.
    pub fn books(&self) -> &Books
        ensures { result.now ≡ self.now }
    {
        &self.books
    }

    /// One event, with its reply, as `Books::step` gives it: the books go on with it, from whatever history
    /// they stood for to that history with this event. What is refused changes nothing.
    pub fn step(&mut self, alloc: Global, event: Event) -> Reply
        ensures beginning { beginning_of self.new ≡ beginning_of self.old }
        ensures steps { Steps self.old (event_in event) (reply_in result) self.new }
        ensures headline { KeepsHeadline (beginning_of self.old) (parts_in self.old) (event_in event ∷ [])
            (reply_in result ∷ []) (parts_in self.new) }
        ensures stays { is_refusal (reply_in result) ≡ true → self.new ≡ self.old }
    {
        steps_move_ends();
        self.books.stand();
        let sound = sound_end(&event);
        let segment = sound_segment(&event);
        let reply = self.books.step(alloc, event);
        keep_filed(&mut self.last, segment, &reply);
        if let Some(end) = filed_end(sound, &reply) {
            put_end(
                self.books.roster().members(),
                &mut self.ends,
                end.node,
                end.number,
            );
        }
        reply
    }
}

impl AuditedBooks {
    /// Hands a packet over: its bytes are checked as `admit` does, and then they are one step of the books.
    /// `AllocError` comes only where a growth was refused.
    pub fn deliver(
        &mut self,
        alloc: Global,
        cache: &mut SignatureCache,
        packet: &[u8],
    ) -> Result<Delivered, AllocError>
        ensures beginning { beginning_of self.new ≡ beginning_of self.old }
        ensures taken { IfOk result (λ d. IsDelivered self.old packet.now d self.new) }
        ensures refused { OnErr result (MayBeDelivered self.old packet.now self.new) }
    {
        spelled_is_taken();
        what_leaves_books();
        match admit(alloc, self.books().roster(), cache, packet) {
            Ok(event) => Delivered::of(self.step(alloc, event)),
            Err(refusal) => Delivered::of(ReplyOf::Refused(refusal)),
        }
    }

    /// The challenges to a member that are open, in the order in which they came.
    fn challenges(&mut self, alloc: Global, node: u32) -> Result<Vec<Challenge>, AllocError>
        ensures beginning { beginning_of self.new ≡ beginning_of self.old }
        ensures lists { IfOk result (λ cs. Lists self.old node (map challenge_in cs.items) self.new) }
        ensures asked { WereAsked self.old node self.new }
    {
        match Said::of(self.step(alloc, EventOf::Ask(node, Question::Challenges))) {
            Said::Open(challenges) => Ok(challenges),
            _ => Err(AllocError),
        }
    }

    /// A member's failure indication.
    fn indication(&mut self, alloc: Global, node: u32) -> Result<Indication, AllocError>
        ensures beginning { beginning_of self.new ≡ beginning_of self.old }
        ensures told { IfOk result (λ i.
            Steps self.old (Ask node ItsIndication) (Told (indication_in i)) self.new) }
        ensures asked { WereAsked self.old node self.new }
    {
        match Said::of(self.step(alloc, EventOf::Ask(node, Question::Indication))) {
            Said::Told(indication) => Ok(indication),
            _ => Err(AllocError),
        }
    }

    /// The last number of a member's log that was filed sound, 0 where none was.
    pub fn end(&self, node: u32) -> Option<u64>
        ensures { result ≡ end_in self.now.roster node (ends_of (parts_in self.now)) }
    {
        self.books.stand();
        end_of(self.books.roster().members(), &self.ends, node)
    }

    /// Whether the books may go on by a base: whether its CHECK stands in the segment that they filed sound last, with
    /// the digest of the base's state and the base's hash there. `AllocError` comes only where a growth was refused.
    pub fn may_go_on(&self, alloc: Global, base: &Base) -> Result<bool, AllocError>
        ensures { IfOk result (λ b. IsTrue b → GoesOnBy self.now base.now) }
    {
        match &self.last {
            Some(segment) => stands_in(alloc, segment.closed(), base),
            None => Ok(false),
        }
    }

    /// The first number of the segment that was filed sound last, if it is of this node.
    pub fn last_first(&self, node: u32) -> Option<u64>
        ensures { IfSome result (BeginsFiled self.now node) }
    {
        let segment = self.last.as_ref()?.closed().segment();
        if segment.node() == node {
            Some(segment.first().get())
        } else {
            None
        }
    }

    /// What the books await of a node: the challenges that are open, none where it is no member. `AllocError`
    /// comes only where a growth was refused.
    pub fn wanted(&mut self, alloc: Global, node: u32) -> Result<Vec<Challenge>, AllocError>
        ensures beginning { beginning_of self.new ≡ beginning_of self.old }
        ensures lists { IfOk result (λ cs. ListsIf self.old node (map challenge_in cs.items) self.new) }
        ensures asked { WereAsked self.old node self.new }
    {
        if self.books.roster().member(node).is_none() {
            return Ok(Vec::new(alloc));
        }
        self.challenges(alloc, node)
    }

    /// What the books say of a node; none where it is no member. `AllocError` comes only where a growth was
    /// refused.
    pub fn told(&mut self, alloc: Global, node: u32) -> Result<Option<NodeTold>, AllocError>
        ensures beginning { beginning_of self.new ≡ beginning_of self.old }
        ensures told { IfOk result (λ told. TellsIf self.old node told self.new) }
        ensures asked { WereAsked self.old node self.new }
    {
        if self.books.roster().member(node).is_none() {
            return Ok(None);
        }
        let from = began_from(self.books(), node);
        let indication = self.indication(alloc, node)?;
        let open = self.challenges(alloc, node)?.len();
        match self.end(node) {
            Some(end) => Ok(Some(NodeTold {
                node,
                indication,
                open,
                from,
                end,
            })),
            None => Err(AllocError),
        }
    }

    /// The evidence against a member, if there is some.
    fn member_evidence(
        &mut self,
        alloc: Global,
        node: u32,
    ) -> Result<Option<Arc<Evidence>>, AllocError>
        ensures beginning { beginning_of self.new ≡ beginning_of self.old }
        ensures shows { IfOk result (λ e.
            Steps self.old (Ask node ItsEvidence) (EvidenceIs (option_map arc_value e)) self.new) }
        ensures asked { WereAsked self.old node self.new }
    {
        match Said::of(self.step(alloc, EventOf::Ask(node, Question::Evidence))) {
            Said::EvidenceIs(evidence) => Ok(evidence),
            _ => Err(AllocError),
        }
    }

    /// The evidence against a node, if there is some; none where it is no member. `AllocError` comes only where
    /// a growth was refused.
    pub fn evidence(
        &mut self,
        alloc: Global,
        node: u32,
    ) -> Result<Option<Arc<Evidence>>, AllocError>
        ensures beginning { beginning_of self.new ≡ beginning_of self.old }
        ensures shows { IfOk result (λ e. ShowsIf self.old node (option_map arc_value e) self.new) }
        ensures asked { WereAsked self.old node self.new }
    {
        if self.books.roster().member(node).is_none() {
            return Ok(None);
        }
        self.member_evidence(alloc, node)
    }
}
