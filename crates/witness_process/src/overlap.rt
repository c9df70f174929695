//! The books of a server, and beside them those from which they went on by a base, while these stand.

ghost use Rattle.std.specs.Prelude.{◌≡◌, ◌↔◌, ◌==◌, IfOk, IfSome, IsFalse, IsTrue, OnErr, filter, not};
ghost use Rattle.std.specs.Prelude.{option_map};
ghost use Rattle.std.specs.Arc.{arc_value};
ghost use Rattle.authenticator.specs.Roster.{kind_number};
ghost use Rattle.peer_calls.specs.WitnessRequests.{witness_ask};
ghost use Rattle.request_streams.specs.Serving.{IsAnswerIf};
ghost use Rattle.watching.specs.Answers.{standing_number};
ghost use Rattle.witness_books.specs.Books.{beginning_of};
ghost use Rattle.witness_books.specs.node_book.Replies.{indication_in, reply_in};
ghost use Rattle.witness_books.specs.node_book.witness_spec.Refusals.{NothingToAudit};
ghost use Rattle.witness_books.specs.node_book.witness_spec.Replies.{Refused};
ghost use Rattle.witness_process.specs.Answered.{IsAnsweredByBooks, IsAnsweredByTwo, IsAnsweredInTurn, SaysWorse};
ghost use Rattle.witness_process.specs.Answered.{TellsBelow, is_worse, kind_of};
ghost use Rattle.witness_process.specs.Answered.{OwnStand};
ghost use Rattle.witness_process.specs.Overlaps.{AreAsked, AreLetGo, AreOfSame, BeginsAt, IsDeliveredTo, IsSettled};
ghost use Rattle.witness_process.specs.Overlaps.{IsShown, IsTrusted, IsTrustedBy, MayGo, NotesShown, OnlyAsked};
ghost use Rattle.witness_process.specs.Overlaps.{OnlyLookedAt, ShowsEither, TellsBoth, WentOn, WereLookedAt};
ghost use Rattle.witness_process.specs.Overlaps.{clients_of, worse, worse_of};

use crate::account::Account;
use crate::brought::{RequestKind, kind_of};
use crate::watch::answered;
use authenticator::{Authenticator, Checked, Kind, Member, Roster};
use challenge::{Base, Evidence};
use peer_calls::WitnessRequest;
use request_streams::Outcome;
use std::alloc::{AllocError, Global};
use std::mem;
use std::sync::Arc;
use watching::packet_texts::learn_packet;
use watching::{Delivered, Host, NodeTold, Said, Standing, StartFault};
use witness_books::{EventOf, Indication, Refusal, Reply, ReplyOf};
use witness_service::SignatureCache;
use xdr::Reader;

/// How many entries books audit before they go on: half of what a book takes.
const HALF_A_BOOK: u64 = 32_768;

/// The books of a server, and beside them those from which they went on by a base, while these stand.
#[derive(Drop)]
pub(crate) struct NodeBooks {
    /// The server.
    pub(crate) node: u32,
    /// Its books.
    pub(crate) current: Standing,
    /// The reading of the clock when they began, in seconds.
    pub(crate) begun: u64,
    /// Those from which they went on.
    pub(crate) before: Option<Before>,
}

/// Books that went on by a base to others, and still stand beside them.
#[derive(Drop)]
pub(crate) struct Before {
    standing: Standing,
    /// The number of the base.
    at: u64,
    /// The reading of the clock when they went on, in seconds.
    since: u64,
    /// The clients whose logs showed no signature of the server's from that number on.
    unshown: Vec<u32>,
}

impl NodeBooks {
    /// The books of a server that begin at a time, beside which none stand.
    pub(crate) fn new(node: u32, books: Standing, time: u64) -> NodeBooks {
        NodeBooks {
            node,
            current: books,
            begun: time,
            before: None,
        }
    }

    /// What the books say of the server: while two sets stand, the worse of what they say. None where it is no member.
    /// `AllocError` comes only where a growth was refused.
    #[tactic(auto, using(crate::proofs::OfOverlaps::not_asked, crate::proofs::OfOverlaps::none_asked, crate::proofs::OfOverlaps::still_beside))]
    pub(crate) fn ask(&mut self, alloc: Global) -> Result<Option<Account>, AllocError>
        ensures told { IfOk result (λ told. TellsBoth self.old told self.new) }
        ensures asked { OnlyAsked self.old self.new }
    {
        let current = Account::ask(&mut self.current, alloc, self.node)?;
        match &mut self.before {
            Some(before) => {
                let earlier = Account::ask(&mut before.standing, alloc, self.node)?;
                Ok(worse_of(current, earlier))
            }
            None => Ok(current),
        }
    }

    /// The evidence against the server, if either set has some. `AllocError` comes only where a growth was refused.
    #[tactic(auto, using(crate::proofs::OfOverlaps::not_asked, crate::proofs::OfOverlaps::none_asked, crate::proofs::OfOverlaps::still_beside))]
    pub(crate) fn evidence(&mut self, alloc: Global) -> Result<Option<Arc<Evidence>>, AllocError>
        ensures shows { IfOk result (λ e. ShowsEither self.old (option_map arc_value e) self.new) }
        ensures asked { OnlyAsked self.old self.new }
    {
        let found = self.current.evidence(alloc, self.node)?;
        if found.is_some() {
            return Ok(found);
        }
        match &mut self.before {
            Some(before) => before.standing.evidence(alloc, self.node),
            None => Ok(None),
        }
    }

    /// Hands a packet to the books: what lies below their base goes to those from which they went on. `AllocError` comes
    /// only where a growth was refused.
    #[tactic(auto, using(crate::proofs::OfOverlaps::stay_beside, crate::proofs::OfOverlaps::still_beside))]
    pub(crate) fn deliver(
        &mut self,
        alloc: Global,
        cache: &mut SignatureCache,
        packet: &[u8],
    ) -> Result<Delivered, AllocError>
        ensures delivered { IfOk result (λ became. IsDeliveredTo self.old packet.now became self.new) }
        ensures same { AreOfSame self.old self.new }
    {
        let became = self.current.deliver(alloc, cache, packet)?;
        if became != Delivered::Refused(Refusal::BelowBase) {
            return Ok(became);
        }
        match &mut self.before {
            Some(before) => before.standing.deliver(alloc, cache, packet),
            None => Ok(became),
        }
    }

    /// Answers a record with a request that is about the server: of a packet below the base, and of the faults of a server
    /// of which they say worse, by the books from which these went on. `NoMemory` comes, too, where what both say can't be
    /// told for want of memory.
    #[tactic(auto, using(crate::proofs::OfAnswers::by_current, crate::proofs::OfAnswers::by_both))]
    pub(crate) fn answer(
        &mut self,
        alloc: Global,
        cache: &mut SignatureCache,
        host: &Host,
        request: &WitnessRequest<'_>,
        bytes: &[u8],
        out: &mut Vec<u8>,
    ) -> Outcome
        ensures { IsAnswerIf (IsAnsweredByBooks (kind_of (witness_ask request.now)) self.old host.now.digest self.new)
            bytes.now out.new.items result }
    {
        let asked = Asked {
            kind: kind_of(request),
            node: self.node,
        };
        match &mut self.before {
            None => answered(&mut self.current, alloc, cache, host, bytes, out),
            Some(before) => {
                let second = &mut before.standing;
                answered_by_two(
                    asked,
                    &mut self.current,
                    second,
                    alloc,
                    cache,
                    host,
                    bytes,
                    out,
                )
            }
        }
    }

    /// The oldest authenticator that the server's log showed of another node, which counts as handed on; of the books that
    /// went on last. `AllocError` comes only where a growth was refused.
    pub(crate) fn forward(&mut self, alloc: Global) -> Result<Option<Authenticator>, AllocError> {
        if let Some(found) = forwarded(&mut self.current, alloc, self.node)? {
            return Ok(Some(found));
        }
        match &mut self.before {
            Some(before) => forwarded(&mut before.standing, alloc, self.node),
            None => Ok(None),
        }
    }

    /// Notes that a client's log showed a signature of the server's with a number.
    pub(crate) fn note_shown(&mut self, client: u32, number: u64)
        ensures node { self.new.node ≡ self.old.node }
        ensures begun { self.new.begun ≡ self.old.begun }
        ensures current { self.new.current ≡ self.old.current }
        ensures before { NotesShown self.old.before client number self.new.before }
    {
        if let Some(before) = &mut self.before {
            before.note_shown(client, number);
        }
    }

    /// Lets the books go from which these went on, where they stood for more seconds than these or each client's log showed
    /// a signature of the server's from the base on; not where they expose the server, or a challenge by them is open.
    #[tactic(auto, using(crate::proofs::OfOverlaps::not_asked, crate::proofs::OfOverlaps::still_beside))]
    pub(crate) fn let_go(&mut self, alloc: Global, time: u64, overlap: u32)
        ensures node { self.new.node ≡ self.old.node }
        ensures begun { self.new.begun ≡ self.old.begun }
        ensures current { self.new.current ≡ self.old.current }
        ensures before { AreLetGo self.old.node time overlap self.old.before self.new.before }
    {
        let Some(before) = &mut self.before else {
            return;
        };
        if before.may_go(time, overlap) && before.is_trusted(alloc, self.node) {
            self.before = None;
        }
    }

    /// Each of the books stands for a history, as its type keeps it: does nothing, and tells a caller's proof.
    pub(crate) fn stand(&self)
        ensures { OwnStand self.now }
    {
        self.current.books().stand();
        if let Some(before) = &self.before {
            before.standing.books().stand();
        }
    }

    /// The number after which a base is to be asked for, so that it is at a CHECK of the segment that was filed sound last:
    /// once the books stand for so many seconds, or half of what a book takes was audited, and only where no books stand
    /// beside them.
    pub(crate) fn base_after(&self, time: u64, overlap: u32) -> Option<u64> {
        let from = began(&self.current, self.node);
        let end = self.current.end(self.node)?;
        let age = time.saturating_sub(self.begun);
        let is_early = age < u64::from(overlap) && end.saturating_sub(from) < HALF_A_BOOK;
        if self.before.is_some() || is_early {
            return None;
        }
        let first = self.current.last_first(self.node)?;
        Some(from.max(first.saturating_sub(1)))
    }

    /// Goes on by a base at a CHECK that the books have themselves filed as sound, with that very state: other books begin
    /// there, with what the server showed last, and these stay beside them. It doesn't where books stand beside them, where
    /// the server is exposed or a challenge to it is open, or where something is left to audit. Says whether it did; where
    /// it didn't the books are as they were but for questions and an audit that was opened. `AllocError` comes only where a
    /// growth was refused, and leaves them so, too.
    #[tactic(auto, using(crate::proofs::OfOverlaps::not_asked, crate::proofs::OfOverlaps::looked_at))]
    pub(crate) fn go_on(
        &mut self,
        alloc: Global,
        cache: &mut SignatureCache,
        base: Checked<Base>,
        time: u64,
    ) -> Result<bool, AllocError>
        ensures went { IfOk result (λ went. IsTrue went → WentOn time self.old self.new) }
        ensures stays { IfOk result (λ went. IsFalse went → OnlyLookedAt self.old self.new) }
        ensures refused { OnErr result (OnlyLookedAt self.old self.new) }
    {
        if self.before.is_some() {
            return Ok(false);
        }
        if !self.is_settled(alloc)? {
            return Ok(false);
        }
        if !self.current.may_go_on(alloc, base.value())? {
            return Ok(false);
        }
        let at = base.value().at().get();
        let unshown = clients_of(alloc, self.current.books().roster())?;
        let Some(next) = begin_at(alloc, cache, &self.current, base)? else {
            return Ok(false);
        };
        let standing = mem::replace(&mut self.current, next);
        self.before = Some(Before {
            standing,
            at,
            since: time,
            unshown,
        });
        self.begun = time;
        Ok(true)
    }

    /// Whether the server is trusted, and nothing is left to audit. An audit may be opened to know it. `AllocError` comes
    /// only where a growth was refused.
    #[tactic(auto, using(crate::proofs::OfOverlaps::looked_at, crate::proofs::OfOverlaps::looked_into))]
    fn is_settled(&mut self, alloc: Global) -> Result<bool, AllocError>
        ensures settled { IfOk result (λ b. IsTrue b →
            IsSettled self.old.node self.old.current.books self.new.current.books) }
        ensures node { self.new.node ≡ self.old.node }
        ensures begun { self.new.begun ≡ self.old.begun }
        ensures looked { WereLookedAt self.old.node self.old.current self.new.current }
        ensures before { self.new.before ≡ self.old.before }
    {
        if !is_trusted(&mut self.current, alloc, self.node)? {
            return Ok(false);
        }
        let reply = self.current.step(alloc, EventOf::Audit(self.node));
        let has_nothing = has_nothing(&reply);
        if Said::of(reply).is_no_memory() {
            return Err(AllocError);
        }
        Ok(has_nothing)
    }
}

/// Whether the reply to an audit says that there is nothing to be audited.
fn has_nothing(reply: &Reply) -> bool
    ensures { IsTrue result → reply_in reply.now ≡ Refused NothingToAudit }
{
    match reply {
        ReplyOf::Refused(Refusal::NothingToAudit) => true,
        _ => false,
    }
}

impl Before {
    /// Whether they stood for more seconds than these, or each client's log showed a signature of the server's from the
    /// base on.
    fn may_go(&self, time: u64, overlap: u32) -> bool
        ensures { IsTrue result ↔ MayGo self.now time overlap }
    {
        time.saturating_sub(self.since) > u64::from(overlap) || self.unshown.is_empty()
    }

    /// Notes that a client's log showed a signature of the server's with a number.
    fn note_shown(&mut self, client: u32, number: u64)
        ensures { IsShown client number self.old self.new }
    {
        if number >= self.at {
            leave_out(&mut self.unshown, client);
        }
    }

    /// Whether they trust the server. Where memory is refused they count as if they didn't.
    fn is_trusted(&mut self, alloc: Global, node: u32) -> bool
        ensures told { IsTrue result → IsTrustedBy node self.old.standing.books }
        ensures asked { AreAsked node self.old.standing self.new.standing }
        ensures at { self.new.at ≡ self.old.at }
        ensures since { self.new.since ≡ self.old.since }
        ensures unshown { self.new.unshown ≡ self.old.unshown }
    {
        matches!(is_trusted(&mut self.standing, alloc, node), Ok(true))
    }
}

/// Whether books trust a node: there is no evidence against it, and no challenge is open. `AllocError` comes only where a
/// growth was refused.
fn is_trusted(standing: &mut Standing, alloc: Global, node: u32) -> Result<bool, AllocError>
    ensures asked { AreAsked node standing.old standing.new }
    ensures trusted { IfOk result (λ b. IsTrue b → IsTrusted node standing.old.books standing.new.books) }
{
    let Some(told) = standing.told(alloc, node)? else {
        return Ok(false);
    };
    Ok(told.indication == Indication::Trusted && told.open == 0)
}

/// The worse of what two sets of books told, the first where neither is.
fn worse_of(current: Option<Account>, earlier: Option<Account>) -> Option<Account>
    ensures { result ≡ worse_of current earlier }
{
    match (current, earlier) {
        (Some(current), Some(earlier)) => Some(worse_account(current, earlier)),
        (current, _) => current,
    }
}

/// The worse of two accounts, the first where neither is.
fn worse_account(current: Account, earlier: Account) -> Account
    ensures { result ≡ worse current earlier }
{
    if rank(current.told().indication) < rank(earlier.told().indication) {
        earlier
    } else {
        current
    }
}

/// Whether those from which books went on say worse of a node than these. `AllocError` comes only where a growth was
/// refused.
fn says_worse(
    current: &mut Standing,
    before: &mut Standing,
    alloc: Global,
    node: u32,
) -> Result<bool, AllocError>
    ensures { IfOk result (λ is_worse. SaysWorse node current.old before.old is_worse current.new before.new) }
{
    let told = current.told(alloc, node)?;
    let earlier = before.told(alloc, node)?;
    Ok(is_worse(&told, &earlier))
}

/// Whether what was told first is less bad than what was told second, where something was told.
fn is_worse(told: &Option<NodeTold>, earlier: &Option<NodeTold>) -> bool
    ensures { result ≡ is_worse told.now earlier.now }
{
    match (told, earlier) {
        (Some(told), Some(earlier)) => rank(told.indication) < rank(earlier.indication),
        _ => false,
    }
}

/// How bad an indication is.
fn rank(indication: Indication) -> u32
    ensures { result ≡ standing_number (indication_in indication) }
{
    match indication {
        Indication::Trusted => 1,
        Indication::Suspected => 2,
        Indication::Exposed => 3,
    }
}

/// The oldest authenticator that a node's log showed of another one, which counts as handed on.
pub(crate) fn forwarded(
    standing: &mut Standing,
    alloc: Global,
    node: u32,
) -> Result<Option<Authenticator>, AllocError> {
    match Said::of(standing.step(alloc, EventOf::Forward(node))) {
        Said::Forwarded(authenticator) => Ok(Some(authenticator)),
        said => {
            if said.is_no_memory() {
                Err(AllocError)
            } else {
                Ok(None)
            }
        }
    }
}

/// Leaves a node out.
fn leave_out(nodes: &mut Vec<u32>, node: u32)
    ensures { nodes.new.items ≡ filter (λ n. not (n == node)) nodes.old.items }
{
    nodes.retain(|one| *one != node);
}

/// The clients of a roster. `AllocError` comes only where a growth was refused.
fn clients_of(alloc: Global, roster: &Roster) -> Result<Vec<u32>, AllocError>
    ensures { IfOk result (λ nodes. nodes.items ≡ clients_of roster.now) }
{
    clients_among(alloc, roster.members())
}

/// The clients among members.
fn clients_among(alloc: Global, members: &[Member]) -> Result<Vec<u32>, AllocError>
    ensures { IfOk result (λ nodes. nodes.items ≡ clients_of members.now) }
{
    let mut nodes = Vec::new(alloc);
    for member in members {
        if is_client(member) {
            nodes.push(member.node)?;
        }
    }
    Ok(nodes)
}

/// Whether a member is a client.
fn is_client(member: &Member) -> bool
    ensures { result ≡ (kind_number member.now.kind == 2) }
{
    match member.kind {
        Kind::Server => false,
        Kind::Client => true,
    }
}

/// Books that begin at a base, of the roster of other books, and know what its node showed these last; none where it showed
/// nothing, or the new books refuse it or the base. `AllocError` comes only where a growth was refused.
fn begin_at(
    alloc: Global,
    cache: &mut SignatureCache,
    old: &Standing,
    base: Checked<Base>,
) -> Result<Option<Standing>, AllocError>
    ensures { IfOk result (λ next. IfSome next (λ new. BeginsAt old.now base.value new)) }
{
    let Some(shown) = old.shown(base.value().showing().node()) else {
        return Ok(None);
    };
    let packet = learn_packet(alloc, shown)?;
    let roster = old.books().roster().try_clone(alloc)?;
    let mut bases = Vec::new(alloc);
    bases.push(base)?;
    let mut next = match Standing::start(alloc, roster, bases) {
        Ok(next) => next,
        Err(StartFault::NoMemory) => return Err(AllocError),
        Err(_) => return Ok(None),
    };
    match next.deliver(alloc, cache, &packet)? {
        Delivered::Taken | Delivered::Already => Ok(Some(next)),
        Delivered::Refused(_) => Ok(None),
    }
}

/// The number from which the books of a node began: that of its base, or 0.
fn began(standing: &Standing, node: u32) -> u64 {
    for base in standing.books().bases() {
        if base.showing().node() == node {
            return base.at().get();
        }
    }
    0
}

/// A request that two sets of books answer.
#[derive(Clone, Copy)]
struct Asked {
    kind: RequestKind,
    /// The node whose books they are.
    node: u32,
}

/// Answers a record with a request by two sets of books, by what kind of request it is. `NoMemory` comes, too, where what
/// both say can't be told for want of memory.
#[tactic(auto, using(crate::proofs::OfAnswers::by_packet, crate::proofs::OfAnswers::by_worse, crate::proofs::OfAnswers::by_better, crate::proofs::OfAnswers::by_other))]
fn answered_by_two(
    asked: Asked,
    first: &mut Standing,
    second: &mut Standing,
    alloc: Global,
    cache: &mut SignatureCache,
    host: &Host,
    bytes: &[u8],
    out: &mut Vec<u8>,
) -> Outcome
    ensures { IsAnswerIf
        (IsAnsweredByTwo asked.kind asked.node first.old second.old host.now.digest first.new second.new)
        bytes.now out.new.items result }
{
    match asked.kind {
        RequestKind::Packet => answered_in_turn(first, second, alloc, cache, host, bytes, out),
        RequestKind::Faults => match says_worse(first, second, alloc, asked.node) {
            Ok(true) => answered(second, alloc, cache, host, bytes, out),
            Ok(false) => answered(first, alloc, cache, host, bytes, out),
            Err(AllocError) => Outcome::NoMemory,
        },
        RequestKind::Other => answered(first, alloc, cache, host, bytes, out),
    }
}

/// Answers a record with a packet by books, and where it lies below their base by others.
#[tactic(auto, using(crate::proofs::OfAnswers::by_second, crate::proofs::OfAnswers::by_first))]
fn answered_in_turn(
    first: &mut Standing,
    second: &mut Standing,
    alloc: Global,
    cache: &mut SignatureCache,
    host: &Host,
    bytes: &[u8],
    out: &mut Vec<u8>,
) -> Outcome
    ensures { IsAnswerIf (IsAnsweredInTurn first.old second.old host.now.digest first.new second.new)
        bytes.now out.new.items result }
{
    let outcome = answered(first, alloc, cache, host, bytes, out);
    if outcome == Outcome::Replied && is_below_base(out) {
        return answered(second, alloc, cache, host, bytes, out);
    }
    outcome
}

/// Whether a reply says that a packet lies below the base: after the words of SUCCESS stands 16 and that refusal's number.
fn is_below_base(reply: &[u8]) -> bool
    ensures { IsTrue result ↔ TellsBelow reply.now }
{
    if reply.len() != 28 {
        return false;
    }
    let mut reader = Reader::new(&reply[24..]);
    match reader.u32() {
        Ok(number) => number == 31,
        Err(_) => false,
    }
}
