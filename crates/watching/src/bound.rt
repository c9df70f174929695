//! Which long records a witness takes.

ghost use Rattle.std.specs.Prelude.{◌≡◌};
ghost use Rattle.watching.specs.Segments.{brought_by, is_asked, most_bytes, segment_node};
ghost use Rattle.peer_calls.specs.Calls.{judged};
ghost use Rattle.peer_calls.specs.declared.call.TheConstants.{WITNESS_PROGRAM};
ghost use Rattle.rpc.specs.Call.{message_at};
ghost use Rattle.xdr.specs.Item.{pair, word};
ghost use Rattle.xdr.specs.Reading.{Gives};

use frames::{Bound, SHORT};
use peer_calls::{WITNESS_PROGRAM, judge_call};
use xdr::{Reader, XdrFault};

/// The most bytes of a record that brings a witness a segment: a call's header, the number of the packet, and
/// the longest text of a segment.
pub const MOST: u32 = 119_833_232;

/// DELIVER.
const DELIVER: u32 = 2;

/// The number of a packet with a segment of a log of version 1, and of one of version 2.
const SEGMENT: u32 = 3;

const SEGMENT_2: u32 = 5;

/// The nodes that were asked for a segment of their logs: only from them a long record is taken.
#[derive(Drop)]
pub struct SegmentsAsked {
    pub nodes: Vec<u32>,
}

impl Bound for SegmentsAsked {
    ghost most = { λ b front. most_bytes b.nodes.items front };

    fn most(&self, front: &[u8]) -> u32 {
        match segment_node(front) {
            Some(node) if is_among(&self.nodes, node) => MOST,
            _ => SHORT as u32,
        }
    }
}

/// Whether a number is among others.
fn is_among(nodes: &[u32], node: u32) -> bool
    ensures { result ≡ is_asked nodes.now node }
{
    let mut rest = nodes;
    while let [first, others @ ..] = rest {
        if *first == node {
            return true;
        }
        rest = others;
    }
    false
}

/// The node whose segment a record brings that begins so.
fn segment_node(front: &[u8]) -> Option<u32>
    ensures { result ≡ segment_node (judged WITNESS_PROGRAM (message_at front.now)) }
{
    let Ok(asked) = judge_call(WITNESS_PROGRAM, front) else {
        return None;
    };
    if asked.procedure != DELIVER {
        return None;
    }
    brought_by(asked.arguments)
}

/// The node whose segment a packet brings that begins so.
fn brought_by(packet: &[u8]) -> Option<u32>
    ensures { result ≡ brought_by packet.now }
{
    let mut reader = Reader::new(packet);
    let Ok((number, node)) = two_words(&mut reader) else {
        return None;
    };
    if number == SEGMENT || number == SEGMENT_2 {
        Some(node)
    } else {
        None
    }
}

/// Two words.
fn two_words(reader: &mut Reader<'_>) -> Result<(u32, u32), XdrFault>
    ensures { Gives (pair word word) (λ p. p) reader.old result reader.new }
{
    let first = reader.u32()?;
    let second = reader.u32()?;
    Ok((first, second))
}
