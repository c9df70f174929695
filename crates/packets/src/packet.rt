//! Packets.

ghost use Rattle.std.specs.Prelude.{◌≡◌};
ghost use Rattle.packets.specs.Packet.{delivery_node};
ghost use Rattle.packets.specs.Delivered.{delivery_in};

use envelopes::{Ack, Authenticator, Checked, Envelope};
use secure_log::ClosedSegment;

/// What a witness is sent, checked under a roster. `read_packet` makes it of bytes.
#[derive(Drop)]
pub enum Packet {
    /// A node's authenticator, to be learned: a step of the node that signs it.
    Learn(Checked<Authenticator>),
    /// An envelope that its receiver is to acknowledge: a step of the receiver.
    SendChallenge(Checked<Envelope>),
    /// A segment, in answer to an audit: a step of the node that closes it.
    Answer(ClosedSegment),
    /// An acknowledgement of an envelope: a step of the node that signs it.
    AckIn(Checked<Ack>),
}

impl Packet {
    /// The node whose step it is: who signs, but of an envelope its receiver.
    pub fn node(&self) -> u32
        ensures { result ≡ delivery_node (delivery_in self.now) }
    {
        match self {
            Packet::Learn(authenticator) => authenticator.value().node,
            Packet::SendChallenge(envelope) => envelope.value().to,
            Packet::Answer(segment) => segment.segment().closing().node,
            Packet::AckIn(ack) => ack.value().by,
        }
    }
}
