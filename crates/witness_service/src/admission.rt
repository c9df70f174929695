//! Packets, before the books are locked.

ghost use Rattle.packets.specs.Judging.{judged};
ghost use Rattle.witness_books.specs.Delivering.{ReadsEvent};
ghost use Rattle.witness_service.specs.Caching.{MayKeep};

use crate::cache::SignatureCache;
use packets::read_packet_by;
use std::alloc::Global;
use witness_books::{Event, Refusal, Roster, event_of};

/// The event that bytes spell, which books take as `Deliver` of these bytes (`laws::spelled_is_taken` of
/// `witness_books`), with its signature checked; it waits for nobody. `Garbage` where bytes are no packet,
/// else `UnknownNode` where a node that it is of is no member of the roster, else `BadSignature` where it
/// isn't signed. `NoMemory` comes only where a growth was refused. The answer is the same with any cache.
#[tactic(auto, using(witness_books::proofs::Delivering::refused_is, witness_books::proofs::Delivering::spell_is, crate::proofs::Taking::may_keep))]
pub fn admit(
    alloc: Global,
    roster: &Roster,
    cache: &mut SignatureCache,
    bytes: &[u8],
) -> Result<Event, Refusal>
    ensures event { ReadsEvent roster.now bytes.now result }
    ensures kept { MayKeep roster.now (judged roster.now bytes.now) cache.old cache.new }
{
    match read_packet_by(alloc, roster, cache, bytes) {
        Ok(packet) => {
            let event = event_of(alloc, roster, packet)?;
            event.is_event();
            Ok(event)
        }
        Err(refusal) => Err(Refusal::of_check(refusal)),
    }
}
