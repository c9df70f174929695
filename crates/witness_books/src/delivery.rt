//! The event that bytes spell.

ghost use Rattle.std.specs.Prelude.{◌≡◌, IfErr, IfOk};
ghost use Rattle.packets.specs.Delivered.{IsUnder, delivery_in};
ghost use Rattle.node_book.specs.witness_spec.Refusals.{NoMemory};
ghost use Rattle.node_book.specs.Events.{event_in};
ghost use Rattle.node_book.specs.Replies.{refusal_in};
ghost use Rattle.witness_books.specs.Delivering.{IsDelivery, ReadsEvent};

use authenticator::Roster;
use node_book::{Event, EventOf, Refusal, SharedSegment};
use packets::{Packet, read_packet};
use std::alloc::Global;

/// The event that bytes spell, as `Deliver` of these bytes is taken: `Learn`, `SendChallenge`, `Answer` or
/// `AckIn` of what they deliver, checked under this roster. `Garbage` where bytes are no packet, else
/// `UnknownNode` where a node that it is of is no member, else `BadSignature` where it isn't signed.
/// `NoMemory` comes only where a growth was refused.
#[tactic(auto, using(crate::proofs::Delivering::refused_is, crate::proofs::Delivering::spell_is))]
pub fn read_event(alloc: Global, roster: &Roster, bytes: &[u8]) -> Result<Event, Refusal>
    ensures { ReadsEvent roster.now bytes.now result }
{
    match read_packet(alloc, roster, bytes) {
        Ok(packet) => {
            let event = event_of(alloc, roster, packet)?;
            event.is_event();
            Ok(event)
        }
        Err(refusal) => Err(Refusal::of_check(refusal)),
    }
}

/// The event that a packet delivers which was checked under this roster. `NoMemory` comes only where a growth
/// was refused.
pub fn event_of(alloc: Global, roster: &Roster, packet: Packet) -> Result<Event, Refusal>
    requires { IsUnder roster.now packet }
    ensures event { IfOk result (λ e. IsDelivery roster.now (delivery_in packet) (event_in e)) }
    ensures refusal { IfErr result (λ f. refusal_in f ≡ NoMemory) }
{
    match packet {
        Packet::Learn(checked) => Ok(EventOf::Learn(checked)),
        Packet::SendChallenge(checked) => Ok(EventOf::SendChallenge(checked)),
        Packet::Answer(closed) => match SharedSegment::new(alloc, closed) {
            Ok(segment) => Ok(EventOf::Answer(segment)),
            Err(_) => Err(Refusal::NoMemory),
        },
        Packet::AckIn(checked) => Ok(EventOf::AckIn(checked)),
    }
}
