//! Packets from bytes.

ghost use Rattle.std.specs.Prelude.{Err, IfOk, List, ℕ};
ghost use Rattle.envelopes.specs.secure_log.Checking.{ChecksSegment};
ghost use Rattle.envelopes.specs.secure_log.authenticator.declared.member.LogVersion.{LogVersion};
ghost use Rattle.envelopes.specs.secure_log.authenticator.declared.member.Member.{Member};
ghost use Rattle.packets.specs.Packet.{answer_number, content_at};
ghost use Rattle.packets.specs.Judging.{GivesDelivery, Refuses, judged, judged_option};
ghost use Rattle.packets.specs.Delivered.{IsUnder, delivery_in};
ghost use Rattle.packets.specs.Uses.{MayUse};

use crate::packet::Packet;
use crate::signatures::{ByKeys, SignatureCheck};
use authenticator::LogVersion;
use envelopes::{Refusal, Roster, SegmentFault};
use secure_log::check_segment;
use std::alloc::Global;
use xdr::Reader;

/// Reads and checks a packet: `Garbage` where the bytes are none, an envelope's sender is its receiver, the
/// node of a segment is a member whose log is of another version, or a segment doesn't end in its closing; else
/// `UnknownNode` where who signs, or an envelope's receiver, is no member; else `BadSignature` where who is
/// to sign it didn't. `NoMemory` comes only where a growth was refused.
pub fn read_packet(alloc: Global, roster: &Roster, bytes: &[u8]) -> Result<Packet, Refusal>
    ensures answers { GivesDelivery (judged roster.now bytes.now) delivery_in result }
    ensures under { IfOk result (IsUnder roster.now) }
{
    read_packet_by(alloc, roster, &mut ByKeys, bytes)
}

/// The same, where signatures are checked in another way.
#[tactic(auto, using(crate::proofs::Judged::answers_after, crate::proofs::Judged::without_number, crate::proofs::Using::used_after))]
pub fn read_packet_by<C: SignatureCheck>(
    alloc: Global,
    roster: &Roster,
    signatures: &mut C,
    bytes: &[u8],
) -> Result<Packet, Refusal>
    ensures answers { GivesDelivery (judged roster.now bytes.now) delivery_in result }
    ensures under { IfOk result (IsUnder roster.now) }
    ensures uses { MayUse C.uses roster.now (judged roster.now bytes.now) signatures.old signatures.new }
{
    let mut reader = Reader::new(bytes);
    match reader.u32() {
        Ok(number) => read_content(alloc, roster, signatures, number, reader.rest()),
        Err(_) => Err(Refusal::Garbage),
    }
}

/// What a packet with this number delivers, where the bytes are what stands after the number.
fn read_content<C: SignatureCheck>(
    alloc: Global,
    roster: &Roster,
    signatures: &mut C,
    number: u32,
    text: &[u8],
) -> Result<Packet, Refusal>
    ensures answers { GivesDelivery (judged_option roster.now (content_at number text.now)) delivery_in
        result }
    ensures under { IfOk result (IsUnder roster.now) }
    ensures uses { MayUse C.uses roster.now (judged_option roster.now (content_at number text.now))
        signatures.old signatures.new }
{
    match number {
        1 => read_learn(alloc, roster, signatures, text),
        2 => read_challenge(alloc, roster, signatures, text),
        3 => read_answer(alloc, roster, signatures, LogVersion::One, text),
        4 => read_ack(alloc, roster, signatures, text),
        5 => read_answer(alloc, roster, signatures, LogVersion::Two, text),
        _ => Err(Refusal::Garbage),
    }
}

#[tactic(auto, using(crate::proofs::Judged::learned, crate::proofs::Using::may_stay))]
fn read_learn<C: SignatureCheck>(
    alloc: Global,
    roster: &Roster,
    signatures: &mut C,
    text: &[u8],
) -> Result<Packet, Refusal>
    ensures answers { GivesDelivery (judged_option roster.now (content_at 1 text.now)) delivery_in result }
    ensures under { IfOk result (IsUnder roster.now) }
    ensures uses { MayUse C.uses roster.now (judged_option roster.now (content_at 1 text.now))
        signatures.old signatures.new }
{
    match signatures.check(alloc, roster, text) {
        Ok(authenticator) => Ok(Packet::Learn(authenticator)),
        Err(refusal) => Err(refusal),
    }
}

#[tactic(auto, using(crate::proofs::Judged::challenged, crate::proofs::Using::may_stay))]
fn read_challenge<C: SignatureCheck>(
    alloc: Global,
    roster: &Roster,
    signatures: &mut C,
    text: &[u8],
) -> Result<Packet, Refusal>
    ensures answers { GivesDelivery (judged_option roster.now (content_at 2 text.now)) delivery_in result }
    ensures under { IfOk result (IsUnder roster.now) }
    ensures uses { MayUse C.uses roster.now (judged_option roster.now (content_at 2 text.now))
        signatures.old signatures.new }
{
    match signatures.check_envelope(alloc, roster, text) {
        Ok(envelope) => Ok(Packet::SendChallenge(envelope)),
        Err(refusal) => Err(refusal),
    }
}

/// A closing is checked each time, by the call that hashes the segment's chain once; it is kept then.
#[tactic(auto, using(crate::proofs::Judged::given, crate::proofs::Using::may_stay))]
fn read_answer<C: SignatureCheck>(
    alloc: Global,
    roster: &Roster,
    signatures: &mut C,
    version: LogVersion,
    text: &[u8],
) -> Result<Packet, Refusal>
    ensures answers { GivesDelivery (judged_option roster.now (content_at (answer_number version) text.now))
        delivery_in result }
    ensures under { IfOk result (IsUnder roster.now) }
    ensures uses { MayUse C.uses roster.now (judged_option roster.now (content_at (answer_number version) text.now))
        signatures.old signatures.new }
{
    match check_segment(alloc, roster, version, text) {
        Ok(segment) => {
            signatures.keep_closing(alloc, &segment);
            Ok(Packet::Answer(segment))
        }
        Err(fault) => Err(refusal_for(fault)),
    }
}

/// The refusal of an answer whose segment has a fault: `Garbage` also where it doesn't end in its closing.
#[tactic(auto, using(crate::proofs::Judged::answered))]
fn refusal_for(fault: SegmentFault) -> Refusal
    ensures { (members : List Member) → (version : LogVersion) → (bytes : List ℕ)
        → ChecksSegment version members bytes (Err fault)
        → Refuses (judged_option members (content_at (answer_number version) bytes)) result }
{
    match fault {
        SegmentFault::UnknownNode => Refusal::UnknownNode,
        SegmentFault::BadSignature => Refusal::BadSignature,
        SegmentFault::NoMemory => Refusal::NoMemory,
        _ => Refusal::Garbage,
    }
}

#[tactic(auto, using(crate::proofs::Judged::acknowledged, crate::proofs::Using::may_stay))]
fn read_ack<C: SignatureCheck>(
    alloc: Global,
    roster: &Roster,
    signatures: &mut C,
    text: &[u8],
) -> Result<Packet, Refusal>
    ensures answers { GivesDelivery (judged_option roster.now (content_at 4 text.now)) delivery_in result }
    ensures under { IfOk result (IsUnder roster.now) }
    ensures uses { MayUse C.uses roster.now (judged_option roster.now (content_at 4 text.now))
        signatures.old signatures.new }
{
    match signatures.check_ack(alloc, roster, text) {
        Ok(ack) => Ok(Packet::AckIn(ack)),
        Err(refusal) => Err(refusal),
    }
}
