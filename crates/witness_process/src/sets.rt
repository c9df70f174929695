//! All books of a witness: of each server that it audits books of its own, which may go on by a base, and one set of books
//! for all other members.

ghost use Rattle.std.specs.Prelude.{◌≡◌, All, IfSome, None, ℕ};
ghost use Rattle.request_streams.specs.Serving.{IsAnswerIf};
ghost use Rattle.witness_process.specs.Answered.{IsAnsweredBySets, IsPlaceOf, OwnStand, SetsStand, books_about};
ghost use Rattle.witness_process.specs.Answered.{books_of};

use crate::account::Account;
use crate::brought::{node_in, request_in};
use crate::overlap::{NodeBooks, forwarded};
use crate::watch::answered;
use authenticator::{Authenticator, Checked, Roster};
use challenge::{Base, Challenge, Evidence};
use request_streams::Outcome;
use std::alloc::{AllocError, Global};
use std::sync::Arc;
use watching::{Delivered, Host, Standing};
use witness_books::{Event, Reply};
use witness_service::SignatureCache;

/// All books of a witness. A step of a member is one of its own books, which alone are asked of it.
#[derive(Drop)]
pub(crate) struct BookSets {
    /// The books of those who have none of their own, each from its log's first entry.
    shared: Standing,
    /// Those of each server that is audited.
    own: Vec<NodeBooks>,
}

impl BookSets {
    /// New books of a roster's members: of each of these servers from its base, if it has one among these, else from its
    /// log's first entry. The bases were checked under this roster. `AllocError` comes only where a growth was refused.
    pub(crate) fn open(
        alloc: Global,
        roster: Roster,
        servers: &[u32],
        bases: Vec<Checked<Base>>,
        time: u64,
    ) -> Result<BookSets, AllocError> {
        let mut own = Vec::new(alloc);
        for base in bases {
            let node = base.value().showing().node();
            let mut one = Vec::new(alloc);
            one.push(base)?;
            add_own(alloc, &mut own, &roster, node, one, time)?;
        }
        for server in servers {
            if place_of(&own, *server).is_none() {
                add_own(alloc, &mut own, &roster, *server, Vec::new(alloc), time)?;
            }
        }
        match Standing::open(alloc, roster) {
            Ok(shared) => Ok(BookSets { shared, own }),
            Err(_) => Err(AllocError),
        }
    }

    /// What the books say of a node. None where it is no member. `AllocError` comes only where a growth was refused.
    pub(crate) fn ask(&mut self, alloc: Global, node: u32) -> Result<Option<Account>, AllocError> {
        for own in self.own.iter_mut() {
            if own.node == node {
                return own.ask(alloc);
            }
        }
        Account::ask(&mut self.shared, alloc, node)
    }

    /// Each of the books stands for a history, as its type keeps it: does nothing, and tells a caller's proof.
    pub(crate) fn stand(&self)
        ensures { SetsStand self.now }
    {
        self.shared.books().stand();
        stand_each(&self.own);
    }

    /// Answers a record: where it is about a server with books of its own, by these. `NoMemory` is the answer, too, where
    /// it can't be read for want of memory.
    #[tactic(auto, using(crate::proofs::OfAnswers::by_shared, crate::proofs::OfAnswers::by_all_others))]
    pub(crate) fn answer(
        &mut self,
        alloc: Global,
        cache: &mut SignatureCache,
        host: &Host,
        bytes: &[u8],
        out: &mut Vec<u8>,
    ) -> Outcome
        ensures { IsAnswerIf (IsAnsweredBySets self.old host.now.digest self.new) bytes.now out.new.items result }
    {
        let request = match request_in(alloc, bytes) {
            Ok(Some(request)) => request,
            Ok(None) => return answered(&mut self.shared, alloc, cache, host, bytes, out),
            Err(AllocError) => return Outcome::NoMemory,
        };
        match place_about(&self.own, node_in(&request)) {
            Some(place) => self.own[place].answer(alloc, cache, host, &request, bytes, out),
            None => answered(&mut self.shared, alloc, cache, host, bytes, out),
        }
    }

    /// Hands a packet that is for the book of a node to the books. `AllocError` comes only where a growth was refused.
    pub(crate) fn deliver(
        &mut self,
        alloc: Global,
        cache: &mut SignatureCache,
        node: u32,
        packet: &[u8],
    ) -> Result<Delivered, AllocError> {
        for own in self.own.iter_mut() {
            if own.node == node {
                return own.deliver(alloc, cache, packet);
            }
        }
        self.shared.deliver(alloc, cache, packet)
    }

    /// One event of a node, with its reply.
    pub(crate) fn step(&mut self, alloc: Global, node: u32, event: Event) -> Reply {
        for own in self.own.iter_mut() {
            if own.node == node {
                return own.current.step(alloc, event);
            }
        }
        self.shared.step(alloc, event)
    }

    /// The last number of a node's log that was filed sound, or that of its base; 0 of one who is no member.
    pub(crate) fn end(&self, node: u32) -> u64 {
        for own in &self.own {
            if own.node == node {
                return own.current.end(node).unwrap_or(0);
            }
        }
        self.shared.end(node).unwrap_or(0)
    }

    /// The authenticator that a node showed last.
    pub(crate) fn shown(&self, node: u32) -> Option<&Authenticator> {
        for own in &self.own {
            if own.node == node {
                return own.current.shown(node);
            }
        }
        self.shared.shown(node)
    }

    /// The challenges to a node that are open. `AllocError` comes only where a growth was refused.
    pub(crate) fn wanted(
        &mut self,
        alloc: Global,
        node: u32,
    ) -> Result<Vec<Challenge>, AllocError> {
        for own in self.own.iter_mut() {
            if own.node == node {
                return own.current.wanted(alloc, node);
            }
        }
        self.shared.wanted(alloc, node)
    }

    /// The evidence against a node, if there is some. `AllocError` comes only where a growth was refused.
    pub(crate) fn evidence(
        &mut self,
        alloc: Global,
        node: u32,
    ) -> Result<Option<Arc<Evidence>>, AllocError> {
        for own in self.own.iter_mut() {
            if own.node == node {
                return own.evidence(alloc);
            }
        }
        self.shared.evidence(alloc, node)
    }

    /// The oldest authenticator that a node's log showed of another one, which counts as handed on. Where that one is a
    /// server it is noted which client showed it. `AllocError` comes only where a growth was refused.
    pub(crate) fn forward(
        &mut self,
        alloc: Global,
        node: u32,
    ) -> Result<Option<Authenticator>, AllocError> {
        for own in self.own.iter_mut() {
            if own.node == node {
                return own.forward(alloc);
            }
        }
        let found = forwarded(&mut self.shared, alloc, node)?;
        if let Some(authenticator) = &found {
            self.note_shown(node, authenticator);
        }
        Ok(found)
    }

    /// Notes what a client's log showed of a server.
    fn note_shown(&mut self, client: u32, authenticator: &Authenticator) {
        let Some(member) = self.shared.books().roster().member(authenticator.node) else {
            return;
        };
        let number = authenticator.word.number(member.log_version).get();
        for own in self.own.iter_mut() {
            if own.node == member.node {
                own.note_shown(client, number);
            }
        }
    }

    /// The number after which a server is to be asked for a base by which its books may go on, if it is.
    pub(crate) fn base_after(&self, node: u32, time: u64, overlap: u32) -> Option<u64> {
        for own in &self.own {
            if own.node == node {
                return own.base_after(time, overlap);
            }
        }
        None
    }

    /// The books of a server go on by a base, where they may. Says whether they did. `AllocError` comes only where a growth
    /// was refused.
    pub(crate) fn go_on(
        &mut self,
        alloc: Global,
        cache: &mut SignatureCache,
        base: Checked<Base>,
        time: u64,
    ) -> Result<bool, AllocError> {
        let node = base.value().showing().node();
        for own in self.own.iter_mut() {
            if own.node == node {
                return own.go_on(alloc, cache, base, time);
            }
        }
        Ok(false)
    }

    /// Lets books go from which others went on, where they may go.
    pub(crate) fn let_go(&mut self, alloc: Global, time: u64, overlap: u32) {
        for own in self.own.iter_mut() {
            own.let_go(alloc, time, overlap);
        }
    }
}

/// Each of these books stands for a history: does nothing, and tells a caller's proof.
fn stand_each(own: &[NodeBooks])
    ensures { All OwnStand own.now }
{
    for one in own {
        one.stand();
    }
}

/// The place of the books of a node, if there is one and it has some among these.
fn place_about(own: &[NodeBooks], node: Option<u32>) -> Option<usize>
    ensures found { IfSome result (λ place. (n : ℕ) × IsPlaceOf own.now (books_about node own.now) n place) }
    ensures none { result ≡ None → books_about node own.now ≡ None }
{
    place_of(own, node?)
}

/// The place of the books of a node, if it has some among these.
#[tactic(auto, using(crate::proofs::OfAnswers::is_place, crate::proofs::OfAnswers::passed))]
fn place_of(own: &[NodeBooks], node: u32) -> Option<usize>
    ensures found { IfSome result (IsPlaceOf own.now (books_of node own.now) node) }
    ensures none { result ≡ None → books_of node own.now ≡ None }
{
    for place in 0..own.len() {
        if own[place].node == node {
            return Some(place);
        }
    }
    None
}

/// Adds new books of a node, from its base, if there is one. `AllocError` comes only where a growth was refused.
fn add_own(
    alloc: Global,
    own: &mut Vec<NodeBooks>,
    roster: &Roster,
    node: u32,
    base: Vec<Checked<Base>>,
    time: u64,
) -> Result<(), AllocError> {
    let roster = roster.try_clone(alloc)?;
    let Ok(books) = Standing::start(alloc, roster, base) else {
        return Err(AllocError);
    };
    if own.push(NodeBooks::new(node, books, time)).is_err() {
        return Err(AllocError);
    }
    Ok(())
}
