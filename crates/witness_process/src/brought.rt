//! What a record asks of a witness, and of whom; whose node's book a packet is for.

ghost use Rattle.std.specs.Prelude.{◌≡◌, IfOk, List, option_map};
ghost use Rattle.authenticator.specs.declared.member.Member.{Member};
ghost use Rattle.peer_calls.specs.WitnessRequests.{Deliver, witness_ask};
ghost use Rattle.witness_process.specs.Answered.{IsAbout, ask_in, kind_of};
ghost use Rattle.witness_process.specs.Brought.{Names};

use peer_calls::{WITNESS_PROGRAM, WitnessRequest, judge_call, read_witness_request};
use rpc::ReplyBody;
use std::alloc::{AllocError, Global};
use xdr::{Reader, Writer};

/// DELIVER.
const DELIVER: u32 = 2;

/// The number of a packet with an authenticator.
pub(crate) const AUTHENTICATOR: u32 = 1;

/// The number of a packet with an envelope: it is for the book of the receiver, which is its second word.
const ENVELOPE: u32 = 2;

/// The number of a packet with a segment of a log of version 1, and of one of version 2.
const SEGMENT: u32 = 3;

const SEGMENT_2: u32 = 5;

/// Of whom a packet is, by its first words.
#[derive(Clone, Copy, Debug, PartialEq, Eq)]
pub(crate) struct Brought {
    /// The node whose book it is for.
    pub(crate) node: u32,
    /// Whether it is a segment of that node's log.
    pub(crate) is_segment: bool,
}

/// What kind of request something is, as it decides by which of two sets of books it is answered.
#[derive(Clone, Copy)]
pub(crate) enum RequestKind {
    /// It delivers a packet.
    Packet,
    /// It is for what is said of a node, or for the evidence against it.
    Faults,
    /// It is another one.
    Other,
}

/// Of whom the packet is that a record delivers, if it delivers one.
pub(crate) fn brought_in(bytes: &[u8]) -> Option<Brought> {
    let asked = judge_call(WITNESS_PROGRAM, bytes).ok()?;
    if asked.procedure != DELIVER {
        return None;
    }
    brought_by(asked.arguments)
}

/// What a record asks of a witness: None where it is no call of its program, or its arguments don't decode. `AllocError`
/// comes only where a growth was refused.
pub(crate) fn request_in(
    alloc: Global,
    bytes: &[u8],
) -> Result<Option<WitnessRequest<'_>>, AllocError>
    ensures { IfOk result (λ request. option_map witness_ask request ≡ ask_in bytes.now) }
{
    let Ok(asked) = judge_call(WITNESS_PROGRAM, bytes) else {
        return Ok(None);
    };
    match read_witness_request(alloc, asked.procedure, asked.arguments) {
        Ok(request) => Ok(Some(request)),
        Err(ReplyBody::SystemError) => Err(AllocError),
        Err(_) => Ok(None),
    }
}

/// The node that a request is about: whose packet it delivers, or of whom it asks; None where it is about none.
pub(crate) fn node_in(request: &WitnessRequest<'_>) -> Option<u32>
    ensures { (ms : List Member) → IsAbout ms (witness_ask request.now) result }
{
    match request {
        WitnessRequest::Null => None,
        WitnessRequest::Greet(_) => None,
        WitnessRequest::Deliver(packet) => node_brought(packet),
        WitnessRequest::Wanted(of) => Some(of.node),
        WitnessRequest::Told(of) => Some(of.node),
        WitnessRequest::Shown(of) => Some(of.node),
        WitnessRequest::Case(of) => Some(of.node),
        WitnessRequest::Base(of) => Some(of.node),
    }
}

/// What kind of request it is.
pub(crate) fn kind_of(request: &WitnessRequest<'_>) -> RequestKind
    ensures { result ≡ kind_of (witness_ask request.now) }
{
    match request {
        WitnessRequest::Deliver(_) => RequestKind::Packet,
        WitnessRequest::Told(_) => RequestKind::Faults,
        WitnessRequest::Case(_) => RequestKind::Faults,
        _ => RequestKind::Other,
    }
}

/// Whose book a packet is for.
fn node_brought(packet: &[u8]) -> Option<u32>
    ensures { (ms : List Member) → IsAbout ms (Deliver packet.now) result }
{
    match brought_by(packet) {
        Some(brought) => Some(brought.node),
        None => None,
    }
}

/// Of whom a packet is; nothing is checked of the rest.
pub(crate) fn brought_by(packet: &[u8]) -> Option<Brought>
    ensures { Names packet.now (option_map (λ b. b.node) result) }
{
    let mut reader = Reader::new(packet);
    let Ok(number) = reader.u32() else {
        return None;
    };
    let Ok(first) = reader.u32() else {
        return None;
    };
    if number != ENVELOPE {
        return Some(Brought {
            node: first,
            is_segment: number == SEGMENT || number == SEGMENT_2,
        });
    }
    match reader.u32() {
        Ok(receiver) => Some(Brought {
            node: receiver,
            is_segment: false,
        }),
        Err(_) => None,
    }
}

/// Whether a packet is of this node, and a segment of its log or not.
pub(crate) fn is_of(node: u32, is_segment: bool, packet: &[u8]) -> bool {
    brought_by(packet) == Some(Brought { node, is_segment })
}

/// A packet: its number, and a text.
pub(crate) fn packet_of(alloc: Global, number: u32, text: &[u8]) -> Result<Vec<u8>, AllocError> {
    let mut packet = Vec::new(alloc);
    packet.put_u32(number)?;
    packet.extend_from_slice(text)?;
    Ok(packet)
}
