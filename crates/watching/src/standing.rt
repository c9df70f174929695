//! What a witness keeps of the members of a roster.

ghost use Rattle.std.specs.Prelude.{◌≡◌, [], ◌∷◌, None, length, map, option_map, replicate, true, IfErr};
ghost use Rattle.std.specs.Prelude.{IfOk, IfSome, IsTrue, OnErr};
ghost use Rattle.std.specs.Arc.{arc_value};
ghost use Rattle.witness_books.specs.node_book.Events.{event_in};
ghost use Rattle.witness_books.specs.node_book.Replies.{challenge_in, reply_in};
ghost use Rattle.witness_spec.specs.Contract.{starting_books};
ghost use Rattle.witness_spec.specs.Starting.{from_the_first};
ghost use Rattle.witness_books.specs.Books.{beginning_of, is_refusal, parts_in};
ghost use Rattle.witness_books.specs.Headline.{KeepsHeadline};
ghost use Rattle.witness_books.specs.Starts.{MayStart, StartFails, handed};
ghost use Rattle.witness_books.specs.node_book.Rows.{known_in};
ghost use Rattle.watching.specs.Ends.{end_in, ends_of};
ghost use Rattle.watching.specs.Filed.{BeginsFiled, GoesOnBy};
ghost use Rattle.watching.specs.Shown.{Notes, last_shown, with_packet};
ghost use Rattle.watching.specs.Telling.{IsDelivered, ListsIf, MayBeDelivered, ShowsIf, Steps, TellsIf};
ghost use Rattle.watching.specs.Telling.{WereAsked};

use crate::audited::AuditedBooks;
use crate::deliver::Delivered;
use crate::shown::{note_shown, nothing_shown, shown_of};
use crate::told::NodeTold;
use authenticator::{Authenticator, Checked, Roster};
use challenge::{Base, Challenge, Evidence};
use peer_calls::read_shown;
use std::alloc::{AllocError, AllocFailed, Global};
use std::marker::Model;
use std::sync::Arc;
use witness_books::{Books, Event, Reply, StartFault};
use witness_calls::SignatureCache;

/// A witness's books, from their first step on, without a journal of the steps, and of each member the
/// authenticator with the greatest number of those that were handed in and not refused: what it takes of memory
/// is bounded by the books. Its type keeps that the books stand for some history from their beginning, as
/// `Books` does, and for each member the last number of its log that was filed sound.
///
/// A clause sees the books and these authenticators.
#[derive(Drop)]
pub struct Standing {
    audited: AuditedBooks,
    shown: Vec<Option<Authenticator>>,
}

impl Model for Standing {
    ghost use Rattle.std.specs.Prelude.{◌≡◌, length};
    ghost use Rattle.watching.specs.Shown.{StandingParts, standing_code};

    ghost Value = { StandingParts };

    ghost coded = { standing_code };

    ghost view = { λ s. record { books = s.audited; shown = s.shown.items } };

    ghost invariant = { λ s. length s.shown.items ≡ length s.audited.roster };
}

impl Standing {
    /// The books of a roster's members before any step, each from its log's first entry; nothing was shown.
    /// Where a growth was refused the roster comes back.
    pub fn open(alloc: Global, roster: Roster) -> Result<Standing, AllocFailed<Roster>>
        ensures beginning { IfOk result (λ s. beginning_of s.books ≡ from_the_first roster) }
        ensures opening { IfOk result (λ s. parts_in s.books ≡ starting_books (from_the_first roster)) }
        ensures shown { IfOk result (λ s. s.shown ≡ replicate (length roster) None) }
        ensures back { IfErr result (λ e. e.value ≡ roster) }
    {
        let Ok(shown) = nothing_shown(alloc, roster.members().len()) else {
            return Err(AllocFailed { value: roster });
        };
        let audited = AuditedBooks::open(alloc, roster)?;
        Ok(Standing { audited, shown })
    }

    /// The books of a roster's members before any step: of a member that has a base among these from that base, of
    /// each other one from its log's first entry; nothing was shown. The faults are those of `Books::start`, and
    /// after one nothing comes back.
    pub fn start(
        alloc: Global,
        roster: Roster,
        bases: Vec<Checked<Base>>,
    ) -> Result<Standing, StartFault>
        ensures roster { IfOk result (λ s. s.books.roster ≡ roster) }
        ensures bases { IfOk result (λ s. s.books.bases ≡ map (λ c. known_in c.value) bases.items) }
        ensures opening { IfOk result (λ s. parts_in s.books ≡ starting_books (beginning_of s.books)) }
        ensures shown { IfOk result (λ s. s.shown ≡ replicate (length roster) None) }
        ensures ok { IfOk result (λ _. MayStart roster (map (λ c. handed c.value c.member) bases.items)) }
        ensures fault { IfErr result (StartFails roster (map (λ c. handed c.value c.member) bases.items)) }
    {
        let Ok(shown) = nothing_shown(alloc, roster.members().len()) else {
            return Err(StartFault::NoMemory);
        };
        let audited = AuditedBooks::start(alloc, roster, bases)?;
        Ok(Standing { audited, shown })
    }

    /// The books.
    pub fn books(&self) -> &Books
        ensures { result.now ≡ self.now.books }
    {
        self.audited.books()
    }

    /// One event, with its reply, as `Books::step` gives it: the books go on with it, from whatever history
    /// they stood for to that history with this event. What is refused changes nothing. What was shown stays:
    /// a packet is to be handed to `deliver`.
    pub fn step(&mut self, alloc: Global, event: Event) -> Reply
        ensures beginning { beginning_of self.new.books ≡ beginning_of self.old.books }
        ensures steps { Steps self.old.books (event_in event) (reply_in result) self.new.books }
        ensures headline { KeepsHeadline (beginning_of self.old.books) (parts_in self.old.books)
            (event_in event ∷ []) (reply_in result ∷ []) (parts_in self.new.books) }
        ensures stays { is_refusal (reply_in result) ≡ true → self.new ≡ self.old }
        ensures shown { self.new.shown ≡ self.old.shown }
    {
        self.audited.step(alloc, event)
    }

    /// Hands a packet over: its bytes are checked as `admit` does, and then they are one step of the books. An
    /// authenticator that isn't refused is kept as what its node showed last, where its number is greater.
    /// `AllocError` comes only where a growth was refused.
    pub fn deliver(
        &mut self,
        alloc: Global,
        cache: &mut SignatureCache,
        packet: &[u8],
    ) -> Result<Delivered, AllocError>
        ensures beginning { beginning_of self.new.books ≡ beginning_of self.old.books }
        ensures taken { IfOk result (λ d. IsDelivered self.old.books packet.now d self.new.books) }
        ensures notes { IfOk result (λ d. Notes self.old packet.now d self.new) }
        ensures refused { OnErr result (MayBeDelivered self.old.books packet.now self.new.books) }
        ensures stays { OnErr result (self.new.shown ≡ self.old.shown) }
    {
        let shown = read_shown(alloc, packet)?;
        let became = self.audited.deliver(alloc, cache, packet)?;
        match became {
            Delivered::Taken | Delivered::Already => self.note(shown),
            Delivered::Refused(_) => {}
        }
        Ok(became)
    }

    /// Keeps the authenticator of a packet, if it has one, where its number is greater.
    fn note(&mut self, shown: Option<Authenticator>)
        ensures books { self.new.books ≡ self.old.books }
        ensures shown { self.new.shown ≡ with_packet self.old.books.roster shown self.old.shown }
    {
        if let Some(authenticator) = shown {
            let members = self.audited.books().roster().members();
            note_shown(members, &mut self.shown, authenticator);
        }
    }
}

impl Standing {
    /// The last number of a member's log that was filed sound, 0 where none was.
    pub fn end(&self, node: u32) -> Option<u64>
        ensures { result ≡ end_in self.now.books.roster node (ends_of (parts_in self.now.books)) }
    {
        self.audited.end(node)
    }

    /// The authenticator of a node with the greatest number of those that were handed in and not refused.
    pub fn shown(&self, node: u32) -> Option<&Authenticator>
        ensures { option_map (λ a. a.now) result ≡ last_shown self.now node }
    {
        shown_of(self.audited.books().roster().members(), &self.shown, node)
    }

    /// Whether the books may go on by a base: whether its CHECK stands in the segment that they filed sound last, with
    /// the digest of the base's state and the base's hash there. So it never is one that they didn't audit themselves.
    /// `AllocError` comes only where a growth was refused.
    pub fn may_go_on(&self, alloc: Global, base: &Base) -> Result<bool, AllocError>
        ensures { IfOk result (λ b. IsTrue b → GoesOnBy self.now.books base.now) }
    {
        self.audited.may_go_on(alloc, base)
    }

    /// The first number of the segment that was filed sound last, if it is of this node.
    pub fn last_first(&self, node: u32) -> Option<u64>
        ensures { IfSome result (BeginsFiled self.now.books node) }
    {
        self.audited.last_first(node)
    }

    /// What the books await of a node: the challenges that are open, none where it is no member. `AllocError`
    /// comes only where a growth was refused.
    pub fn wanted(&mut self, alloc: Global, node: u32) -> Result<Vec<Challenge>, AllocError>
        ensures beginning { beginning_of self.new.books ≡ beginning_of self.old.books }
        ensures lists { IfOk result (λ cs.
            ListsIf self.old.books node (map challenge_in cs.items) self.new.books) }
        ensures asked { WereAsked self.old.books node self.new.books }
        ensures shown { self.new.shown ≡ self.old.shown }
    {
        self.audited.wanted(alloc, node)
    }

    /// What the books say of a node; none where it is no member. `AllocError` comes only where a growth was
    /// refused.
    pub fn told(&mut self, alloc: Global, node: u32) -> Result<Option<NodeTold>, AllocError>
        ensures beginning { beginning_of self.new.books ≡ beginning_of self.old.books }
        ensures told { IfOk result (λ told. TellsIf self.old.books node told self.new.books) }
        ensures asked { WereAsked self.old.books node self.new.books }
        ensures shown { self.new.shown ≡ self.old.shown }
    {
        self.audited.told(alloc, node)
    }

    /// The evidence against a node, if there is some; none where it is no member. `AllocError` comes only where
    /// a growth was refused.
    pub fn evidence(
        &mut self,
        alloc: Global,
        node: u32,
    ) -> Result<Option<Arc<Evidence>>, AllocError>
        ensures beginning { beginning_of self.new.books ≡ beginning_of self.old.books }
        ensures shows { IfOk result (λ e.
            ShowsIf self.old.books node (option_map arc_value e) self.new.books) }
        ensures asked { WereAsked self.old.books node self.new.books }
        ensures shown { self.new.shown ≡ self.old.shown }
    {
        self.audited.evidence(alloc, node)
    }
}
