//! What all threads of a witness share: its books, and what it keeps beside them.

ghost use Rattle.std.specs.Prelude.{IfSome};
ghost use Rattle.request_streams.specs.Serving.{IsAnswerIf};
ghost use Rattle.witness_process.specs.Answered.{AreAnsweredBySets, IsAnsweredBy, SetsStand};
ghost use Rattle.witness_process.specs.Lines.{IsSaidAt};

use crate::brought::{brought_by, brought_in};
use crate::due::Saying;
use crate::rows::Row;
use crate::sets::BookSets;
use crate::times::seconds_now;
use authenticator::{Authenticator, Checked, Roster};
use challenge::{Base, Challenge, Evidence};
use peer_calls::Numbers;
use request_streams::Outcome;
use std::alloc::{AllocError, Global};
use std::mem;
use std::sync::Arc;
use std::time::Clock;
use watching::packet_texts::learn_packet;
use watching::{Delivered, Host, Opened, Said, Standing, answer_request};
use witness_books::{EventOf, Refusal, ReplayDone, ReplayJob, ReplyOf};
use witness_service::SignatureCache;

/// The most signatures that the cache keeps: they take some 4 MiB.
const SIGNATURES: usize = 256;

/// The most authenticators that are kept for books without room for them: they take some 17 MiB.
const MAX_KEPT: usize = 1024;

/// What all threads of a witness share. It lies under a lock.
#[derive(Drop)]
pub(crate) struct Watch {
    books: BookSets,
    cache: SignatureCache,
    /// What it answers by beside its books: for each member there is a time.
    host: Host,
    /// Of each member, in the order of the roster.
    rows: Vec<Row>,
    /// Authenticators that logs showed, and for which their books had no room.
    kept: Vec<Authenticator>,
    /// Whether the witness can't go on: a replay was lost, for which its book waits for good, or memory was refused for
    /// the rounds.
    is_lost: bool,
}

impl Watch {
    /// New books of a roster's members, at a time in seconds: of each of these servers from its base, if it has one among
    /// these. They were checked under this roster, and no two are of one node. `AllocError` comes only where a growth was
    /// refused.
    pub(crate) fn open(
        alloc: Global,
        roster: Roster,
        servers: &[u32],
        bases: Vec<Checked<Base>>,
        digest: [u8; 32],
        time: u64,
    ) -> Result<Watch, AllocError> {
        let nodes = nodes_of(alloc, &roster)?;
        let mut books = BookSets::open(alloc, roster, servers, bases, time)?;
        let rows = open_rows(alloc, &mut books, &nodes)?;
        let opened = open_times(alloc, &nodes, time)?;
        Ok(Watch {
            books,
            cache: SignatureCache::new(SIGNATURES),
            host: Host {
                digest,
                time,
                opened,
            },
            rows,
            kept: Vec::new(alloc),
            is_lost: false,
        })
    }

    /// Reads the clock. Where that fails the last reading stands.
    pub(crate) fn look<T: Clock>(&mut self, clock: &T) {
        self.host.time = seconds_now(clock, self.host.time);
    }

    /// The last reading of the clock, in seconds.
    pub(crate) fn time(&self) -> u64 {
        self.host.time
    }

    /// Adds what the books say of each member to a text, a line each. `AllocError` comes only where a growth was
    /// refused.
    pub(crate) fn tell_nodes(
        &mut self,
        alloc: Global,
        text: &mut String,
    ) -> Result<(), AllocError> {
        for row in &self.rows {
            if let Some(account) = self.books.ask(alloc, row.node)? {
                let said = account.told().line(alloc)?;
                let line = format!(in alloc; "node: {said}\n")?;
                text.push_str(&line)?;
            }
        }
        Ok(())
    }

    /// Answers a record, by the digest of the roster. Of whom it brings a packet, what is kept is asked for anew.
    pub(crate) fn answer(
        &mut self,
        alloc: Global,
        digest: &[u8; 32],
        bytes: &[u8],
        out: &mut Vec<u8>,
    ) -> Outcome
        ensures answer { IsAnswerIf (AreAnsweredBySets self.old.books digest.now) bytes.now out.new.items result }
        ensures stand { SetsStand self.old.books }
    {
        self.books.stand();
        self.host.digest = *digest;
        let outcome = self
            .books
            .answer(alloc, &mut self.cache, &self.host, bytes, out);
        self.note_record(alloc, bytes);
        outcome
    }

    /// Notes the packet that a record delivers.
    fn note_record(&mut self, alloc: Global, bytes: &[u8]) {
        let Some(brought) = brought_in(bytes) else {
            return;
        };
        for row in self.rows.iter_mut() {
            if row.node == brought.node {
                row.has_given |= brought.is_segment;
                // Where memory is refused it is asked for again later.
                let _ = row.refresh(alloc, &mut self.books, &mut self.host);
            }
        }
    }

    /// Hands a packet to the books. `AllocError` comes only where a growth was refused.
    pub(crate) fn deliver(
        &mut self,
        alloc: Global,
        packet: &[u8],
    ) -> Result<Delivered, AllocError> {
        // What is no packet is about nobody, and any books refuse it.
        let node = brought_by(packet).map_or(0, |brought| brought.node);
        let delivered = self.books.deliver(alloc, &mut self.cache, node, packet);
        self.note(alloc, node);
        delivered
    }

    /// Asks anew for what is kept of a node. Where memory is refused it is asked for again later.
    fn note(&mut self, alloc: Global, node: u32) {
        for row in self.rows.iter_mut() {
            if row.node == node {
                let _ = row.refresh(alloc, &mut self.books, &mut self.host);
            }
        }
    }

    /// Asks anew for what is kept of each node whose book may have changed.
    pub(crate) fn refresh(&mut self, alloc: Global) -> Result<(), AllocError> {
        for row in self.rows.iter_mut() {
            if row.is_stale {
                row.refresh(alloc, &mut self.books, &mut self.host)?;
            }
        }
        Ok(())
    }

    /// The last number of a node's log that was filed sound; 0 of one who is no member.
    pub(crate) fn end(&self, node: u32) -> u64 {
        self.books.end(node)
    }

    /// The packet of the authenticator that a node showed last: that with the greatest number of those that were handed
    /// in and not refused. No bytes where it showed none.
    pub(crate) fn shown(&self, alloc: Global, node: u32) -> Result<Vec<u8>, AllocError> {
        match self.books.shown(node) {
            Some(authenticator) => learn_packet(alloc, authenticator),
            None => Ok(Vec::new(alloc)),
        }
    }

    /// Opens an audit of a node where there is something to audit: the part of its log that is asked for, also by an
    /// audit that was open before.
    pub(crate) fn audit(
        &mut self,
        alloc: Global,
        node: u32,
    ) -> Result<Option<Numbers>, AllocError> {
        let said = Said::of(self.books.step(alloc, node, EventOf::Audit(node)));
        if said.is_no_memory() {
            return Err(AllocError);
        }
        self.note(alloc, node);
        Ok(self.asked(node))
    }

    /// The part of a node's log that is asked for, if an audit is open.
    fn asked(&self, node: u32) -> Option<Numbers> {
        for row in &self.rows {
            if row.node == node {
                return row.audit();
            }
        }
        None
    }

    /// The challenges to a node that are open.
    pub(crate) fn wanted(
        &mut self,
        alloc: Global,
        node: u32,
    ) -> Result<Vec<Challenge>, AllocError> {
        self.books.wanted(alloc, node)
    }

    /// Puts the nodes of whom a segment is asked for in place of what `nodes` holds.
    pub(crate) fn list_asked(&self, nodes: &mut Vec<u32>) {
        nodes.clear();
        for row in &self.rows {
            if row.audit().is_some() && nodes.push(row.node).is_err() {
                return;
            }
        }
    }

    /// The nodes that gave a segment which isn't replayed yet; they count as replayed from then on.
    pub(crate) fn take_given(&mut self, nodes: &mut Vec<u32>) {
        nodes.clear();
        for row in self.rows.iter_mut() {
            if row.has_given && nodes.push(row.node).is_ok() {
                row.has_given = false;
            }
        }
    }

    /// Notes that segments of these nodes are to be replayed.
    pub(crate) fn give_again(&mut self, nodes: &[u32]) {
        for row in self.rows.iter_mut() {
            row.has_given |= nodes.contains(&row.node);
        }
    }

    /// A line that is due, if one is. It counts as said.
    pub(crate) fn take_due(&mut self, patience: u32) -> Option<Saying>
        ensures { IfSome result (IsSaidAt self.old.host.time patience) }
    {
        let time = self.host.time;
        for row in self.rows.iter_mut() {
            if let Some(saying) = row.take_due(time, patience) {
                return Some(saying);
            }
        }
        None
    }
}

impl Watch {
    /// The replay of the segment that a node gave, if it gave one. `AllocError` comes only where a growth was refused.
    pub(crate) fn begin(
        &mut self,
        alloc: Global,
        node: u32,
    ) -> Result<Option<ReplayJob>, AllocError> {
        match self.books.step(alloc, node, EventOf::Begin(node)) {
            ReplyOf::Job(job) => Ok(Some(job)),
            other => {
                if Said::of(other).is_no_memory() {
                    Err(AllocError)
                } else {
                    Ok(None)
                }
            }
        }
    }

    /// Puts a replay back that wasn't done. Where that is refused it is lost.
    pub(crate) fn put_back(&mut self, alloc: Global, job: ReplayJob) {
        let node = job.node();
        let said = Said::of(self.books.step(alloc, node, EventOf::PutBack(job)));
        self.is_lost |= said.is_no_memory();
    }

    /// Files a replay that was done. Where that is refused it is lost.
    pub(crate) fn file(&mut self, alloc: Global, done: ReplayDone) {
        let node = done.node();
        let said = Said::of(self.books.step(alloc, node, EventOf::File(done)));
        self.is_lost |= said.is_no_memory();
        self.note(alloc, node);
    }

    /// Notes that the witness can't go on.
    pub(crate) fn give_up(&mut self) {
        self.is_lost = true;
    }

    /// Whether the witness can't go on: a replay was lost, for which its book waits for good, or memory was refused for
    /// the rounds.
    pub(crate) fn is_lost(&self) -> bool {
        self.is_lost
    }

    /// Takes the oldest authenticator that a node's log showed of another one, and hands it to the books. Tells whether
    /// there was one.
    pub(crate) fn forward(&mut self, alloc: Global, node: u32) -> Result<bool, AllocError> {
        match self.books.forward(alloc, node)? {
            Some(authenticator) => {
                self.learn(alloc, authenticator)?;
                Ok(true)
            }
            None => Ok(false),
        }
    }

    /// Hands an authenticator to the books. Where its book has no room it is kept, as long as there are few.
    fn learn(&mut self, alloc: Global, authenticator: Authenticator) -> Result<(), AllocError> {
        let packet = learn_packet(alloc, &authenticator)?;
        let node = authenticator.node;
        let delivered = self.books.deliver(alloc, &mut self.cache, node, &packet)?;
        self.mark_stale(authenticator.node);
        if delivered == Delivered::Refused(Refusal::LearnedFull) {
            self.keep(authenticator)?;
        }
        Ok(())
    }

    /// Keeps an authenticator, as long as there are few.
    fn keep(&mut self, authenticator: Authenticator) -> Result<(), AllocError> {
        if self.kept.len() < MAX_KEPT && self.kept.push(authenticator).is_err() {
            return Err(AllocError);
        }
        Ok(())
    }

    /// Notes that the book of a node may have changed.
    fn mark_stale(&mut self, node: u32) {
        for row in self.rows.iter_mut() {
            row.is_stale |= row.node == node;
        }
    }

    /// Hands the authenticators to the books once more that were kept for a node.
    pub(crate) fn learn_kept(&mut self, alloc: Global, node: u32) -> Result<(), AllocError> {
        let kept = mem::replace(&mut self.kept, Vec::new(alloc));
        for authenticator in kept {
            if authenticator.node == node {
                self.learn(alloc, authenticator)?;
            } else {
                self.keep(authenticator)?;
            }
        }
        Ok(())
    }

    /// The evidence against a node, if there is some that wasn't put in its place yet.
    pub(crate) fn evidence(
        &mut self,
        alloc: Global,
        node: u32,
    ) -> Result<Option<Arc<Evidence>>, AllocError> {
        self.books.evidence(alloc, node)
    }

    /// The number after which a server is to be asked for a base by which its books may go on, if it is: once they stand
    /// for so many seconds, or half of what a book takes was audited.
    pub(crate) fn base_after(&self, node: u32, overlap: u32) -> Option<u64> {
        self.books.base_after(node, self.host.time, overlap)
    }

    /// The books of a server go on by a base, where they may. Says whether they did. `AllocError` comes only where a growth
    /// was refused.
    pub(crate) fn go_on(&mut self, alloc: Global, base: Checked<Base>) -> Result<bool, AllocError> {
        let node = base.value().showing().node();
        let went = self
            .books
            .go_on(alloc, &mut self.cache, base, self.host.time);
        self.note(alloc, node);
        went
    }

    /// Lets books go from which others went on, once they stood beside them for so many seconds or each client's log showed
    /// what it has. What their logs show of others is to be handed on before.
    pub(crate) fn let_go(&mut self, alloc: Global, overlap: u32) {
        self.books.let_go(alloc, self.host.time, overlap);
    }

    /// Whether the evidence against a node was put in its place.
    pub(crate) fn has_evidence(&self, node: u32) -> bool {
        for row in &self.rows {
            if row.node == node {
                return row.has_evidence;
            }
        }
        false
    }

    /// Notes that the evidence against a node was put in its place.
    pub(crate) fn note_evidence(&mut self, node: u32) {
        for row in self.rows.iter_mut() {
            row.has_evidence |= row.node == node;
        }
    }
}

/// Answers a record by the books.
#[tactic(auto, using(crate::proofs::UnderLock::by_books))]
pub(crate) fn answered(
    standing: &mut Standing,
    alloc: Global,
    cache: &mut SignatureCache,
    host: &Host,
    bytes: &[u8],
    out: &mut Vec<u8>,
) -> Outcome
    ensures { IsAnswerIf (IsAnsweredBy standing.old host.now.digest standing.new) bytes.now out.new.items result }
{
    match answer_request(standing, alloc, cache, host, bytes, out) {
        watching::Outcome::Replied => Outcome::Replied,
        watching::Outcome::NoCall => Outcome::NoCall,
        watching::Outcome::NoMemory => Outcome::NoMemory,
    }
}

/// The numbers of a roster's members.
pub(crate) fn nodes_of(alloc: Global, roster: &Roster) -> Result<Vec<u32>, AllocError> {
    let mut nodes = Vec::new(alloc);
    for member in roster.members() {
        nodes.push(member.node)?;
    }
    Ok(nodes)
}

/// What is kept of each node at first.
fn open_rows(alloc: Global, books: &mut BookSets, nodes: &[u32]) -> Result<Vec<Row>, AllocError> {
    let mut rows = Vec::new(alloc);
    for node in nodes {
        if let Some(account) = books.ask(alloc, *node)? {
            let row = Row::new(alloc, *node, account);
            if rows.push(row).is_err() {
                return Err(AllocError);
            }
        }
    }
    Ok(rows)
}

/// A time for each node.
fn open_times(alloc: Global, nodes: &[u32], at: u64) -> Result<Vec<Opened>, AllocError> {
    let mut opened = Vec::new(alloc);
    for node in nodes {
        opened.push(Opened { node: *node, at })?;
    }
    Ok(opened)
}
