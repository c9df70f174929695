//! Whose step an event is.

ghost use Rattle.std.specs.Prelude.{◌≡◌};
ghost use Rattle.node_book.specs.witness_spec.Events.{Learn, SendChallenge, Answer, AckIn, Deliver};
ghost use Rattle.node_book.specs.witness_spec.Replies.{refused};
ghost use Rattle.node_book.specs.witness_spec.Whose.{closed_step, is_key_of, same_roster, sent_step};
ghost use Rattle.node_book.specs.witness_spec.Whose.{signed_step, step_of};
ghost use Rattle.authenticator.specs.Roster.{member_of};
ghost use Rattle.packets.specs.Delivered.{IsUnder, delivery_in};
ghost use Rattle.node_book.specs.Events.{event_in, key_of, step_in};
ghost use Rattle.node_book.specs.Replies.{refusal_in, reply_in};
ghost use Rattle.witness_books.specs.Routing.{DeliversTo, GoesTo, IsGivenTo, OwnerIs, RoutesTo};

use authenticator::{Authenticator, Checked, Member, Roster, is_same_hash};
use envelopes::{Ack, Envelope};
use node_book::{Event, EventOf, Refusal, Reply, ReplyOf, SharedSegment, Step};
use packets::{Packet, read_packet};
use std::alloc::Global;

/// Where an event goes.
pub(crate) enum Routed {
    /// It is this step of this member.
    Step(Member, Step),
    /// It is refused: it is nobody's step, or a growth was refused.
    Refused(Reply),
}

/// Whose step an event is, by the event and the roster alone. Bytes are read and checked; what was checked
/// before is a step only where that was under the key, or the roster, that counts here. `UnknownNode` comes
/// where a node that the event is of is no member, else `BadSignature` where it was checked under another key
/// or roster, or isn't signed; `Garbage` where bytes are no packet. `NoMemory` comes only where a growth was
/// refused, of bytes alone. A job or a done value that is refused comes back with the reply.
#[tactic(auto, using(crate::proofs::Routes::given_goes))]
pub(crate) fn route(alloc: Global, roster: &Roster, event: Event) -> Routed
    ensures { RoutesTo roster.now event result }
{
    event.is_event();
    match event {
        EventOf::Deliver(bytes) => route_bytes(alloc, roster, &bytes),
        EventOf::Learn(checked) => route_learn(roster, checked),
        EventOf::SendChallenge(checked) => route_challenge(roster, checked),
        EventOf::Answer(segment) => route_answer(roster, segment),
        EventOf::AckIn(checked) => route_ack(roster, checked),
        EventOf::Audit(node) => give(member_named(roster, node), Step::Audit),
        EventOf::Begin(node) => give(member_named(roster, node), Step::Begin),
        EventOf::File(done) => give(member_named(roster, done.node()), Step::File(done)),
        EventOf::PutBack(job) => give(member_named(roster, job.node()), Step::PutBack(job)),
        EventOf::Forward(node) => give(member_named(roster, node), Step::Forward),
        EventOf::Ask(node, question) => give(member_named(roster, node), Step::Ask(question)),
    }
}

/// The event is refused: a job or a done value comes back with the refusal.
pub fn refuse_event(event: Event, refusal: Refusal) -> Reply
    ensures { reply_in result ≡ refused (event_in event) (refusal_in refusal) }
{
    match event {
        EventOf::File(done) => ReplyOf::FileRefused(refusal, done),
        EventOf::PutBack(job) => ReplyOf::PutBackRefused(refusal, job),
        EventOf::Deliver(_)
        | EventOf::Learn(_)
        | EventOf::SendChallenge(_)
        | EventOf::Answer(_)
        | EventOf::AckIn(_)
        | EventOf::Audit(_)
        | EventOf::Begin(_)
        | EventOf::Forward(_)
        | EventOf::Ask(_, _) => ReplyOf::Refused(refusal),
    }
}

/// A step is given to the member whose it is, or refused.
fn give(owner: Result<Member, Refusal>, step: Step) -> Routed
    ensures { IsGivenTo owner step result }
{
    match owner {
        Ok(member) => Routed::Step(member, step),
        Err(refusal) => Routed::Refused(step.refuse(refusal)),
    }
}

/// Whether the keys of two members are the same: root and height.
pub(crate) fn has_key(own: &Member, other: &Member) -> bool
    ensures { result ≡ is_key_of own.now (key_of other.now) }
{
    is_same_hash(&own.root, &other.root) && own.height == other.height
}

/// Whether two rosters are one in every word.
fn is_same_roster(own: &Roster, other: &Roster) -> bool
    ensures { result ≡ same_roster own.now other.now }
{
    own.is_same(other)
}

/// The member with this number, else `UnknownNode`.
fn member_named(roster: &Roster, node: u32) -> Result<Member, Refusal>
    ensures { OwnerIs (step_of (member_of roster.now node)) result }
{
    roster.member(node).ok_or(Refusal::UnknownNode)
}

/// The member with this number, of what was signed under a key: `UnknownNode` where there is none, else
/// `BadSignature` where it has another key.
fn signer(roster: &Roster, node: u32, under: &Member) -> Result<Member, Refusal>
    ensures { OwnerIs (signed_step (member_of roster.now node) (key_of under.now)) result }
{
    match roster.member(node) {
        None => Err(Refusal::UnknownNode),
        Some(member) if has_key(&member, under) => Ok(member),
        Some(_) => Err(Refusal::BadSignature),
    }
}

/// The receiver of an envelope that its sender signed under a key: `UnknownNode` where either is no member,
/// else `BadSignature` where the sender has another key.
fn receiver(roster: &Roster, from: u32, to: u32, under: &Member) -> Result<Member, Refusal>
    ensures { OwnerIs (sent_step (member_of roster.now from) (member_of roster.now to) (key_of under.now))
        result }
{
    match (roster.member(from), roster.member(to)) {
        (Some(sender), Some(member)) if has_key(&sender, under) => Ok(member),
        (Some(_), Some(_)) => Err(Refusal::BadSignature),
        (_, _) => Err(Refusal::UnknownNode),
    }
}

/// The member with this number, of what was closed under a roster: `UnknownNode` where there is none, else
/// `BadSignature` where that roster isn't this one in every word.
fn closer(roster: &Roster, node: u32, under: &Roster) -> Result<Member, Refusal>
    ensures { OwnerIs (closed_step (member_of roster.now node) (same_roster under.now roster.now)) result }
{
    match roster.member(node) {
        None => Err(Refusal::UnknownNode),
        Some(member) if is_same_roster(under, roster) => Ok(member),
        Some(_) => Err(Refusal::BadSignature),
    }
}

/// An authenticator is a step of who signs it.
#[tactic(auto, using(crate::proofs::Routes::given_goes))]
fn route_learn(roster: &Roster, checked: Checked<Authenticator>) -> Routed
    ensures { GoesTo roster.now (Learn checked.value (key_of checked.member)) result }
{
    let owner = signer(roster, checked.value().node, checked.member());
    give(owner, Step::Learn(checked.into_value()))
}

/// An envelope is a step of its receiver.
#[tactic(auto, using(crate::proofs::Routes::given_goes))]
fn route_challenge(roster: &Roster, checked: Checked<Envelope>) -> Routed
    ensures { GoesTo roster.now (SendChallenge checked.value (key_of checked.member)) result }
{
    let envelope = checked.value();
    let owner = receiver(roster, envelope.from, envelope.to, checked.member());
    give(owner, Step::SendChallenge(checked.into_value()))
}

/// A segment is a step of who closes it.
#[tactic(auto, using(crate::proofs::Routes::given_goes))]
fn route_answer(roster: &Roster, segment: SharedSegment) -> Routed
    ensures { GoesTo roster.now (Answer segment) result }
{
    let closed = segment.closed();
    let owner = closer(roster, closed.segment().closing().node, closed.roster());
    give(owner, Step::Answer(segment))
}

/// An acknowledgement is a step of who signs it.
#[tactic(auto, using(crate::proofs::Routes::given_goes))]
fn route_ack(roster: &Roster, checked: Checked<Ack>) -> Routed
    ensures { GoesTo roster.now (AckIn checked.value (key_of checked.member)) result }
{
    let owner = signer(roster, checked.value().by, checked.member());
    give(owner, Step::AckIn(checked.into_value()))
}

/// Bytes are the step that they deliver.
#[tactic(auto, using(crate::proofs::Routes::delivery_goes, crate::proofs::Routes::refusal_goes))]
fn route_bytes(alloc: Global, roster: &Roster, bytes: &[u8]) -> Routed
    ensures { GoesTo roster.now (Deliver bytes.now) result }
{
    match read_packet(alloc, roster, bytes) {
        Ok(packet) => delivered_step(alloc, roster, packet),
        Err(refusal) => Routed::Refused(ReplyOf::Refused(Refusal::of_check(refusal))),
    }
}

/// What a packet that was checked under this roster delivers.
#[tactic(auto, using(crate::proofs::Routes::given_delivers))]
fn delivered_step(alloc: Global, roster: &Roster, packet: Packet) -> Routed
    requires { IsUnder roster.now packet }
    ensures { DeliversTo roster.now (delivery_in packet) result }
{
    let owner = member_named(roster, packet.node());
    match packet {
        Packet::Learn(checked) => give(owner, Step::Learn(checked.into_value())),
        Packet::SendChallenge(checked) => give(owner, Step::SendChallenge(checked.into_value())),
        Packet::Answer(closed) => match SharedSegment::new(alloc, closed) {
            Ok(segment) => give(owner, Step::Answer(segment)),
            Err(_) => Routed::Refused(ReplyOf::Refused(Refusal::NoMemory)),
        },
        Packet::AckIn(checked) => give(owner, Step::AckIn(checked.into_value())),
    }
}
