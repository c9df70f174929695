//! Packets as bytes.

ghost use Rattle.std.specs.Prelude.{◌≡◌, ◌++◌, OnOk};
ghost use Rattle.xdr.specs.Item.{Fits, number_spelling};
ghost use Rattle.xdr.specs.Writing.{Adds, Appends};
ghost use Rattle.envelopes.specs.secure_log.authenticator.Signed.{authenticator_item, authenticator_value};
ghost use Rattle.envelopes.specs.Acknowledgement.{ack_in, ack_item, ack_value};
ghost use Rattle.envelopes.specs.Envelope.{envelope_in, envelope_item, envelope_value};
ghost use Rattle.packets.specs.Packet.{Learn, SendChallenge, Answer, AckIn, Says, answer_number, packet_text};
ghost use Rattle.packets.specs.Delivered.{delivery_in};

use crate::packet::Packet;
use authenticator::LogVersion;
use envelopes::{AckRef, Authenticator, EnvelopeRef};
use secure_log::{BoundedSegment, ClosedSegment, MAX_ENTRIES};
use std::alloc::AllocError;
use xdr::{Writer, all_or_nothing};

impl Packet {
    /// Appends the bytes, of which `read_packet` makes this packet under the same roster. Where memory was
    /// refused the bytes are as they were.
    pub fn write(&self, out: &mut Vec<u8>) -> Result<(), AllocError>
        ensures says { let d = delivery_in self.now in OnOk result (Says (packet_text d) d) }
        ensures text { Appends (packet_text (delivery_in self.now)) out.old.items result out.new.items }
    {
        match self {
            Packet::Learn(authenticator) => write_learn(authenticator.value(), out),
            Packet::SendChallenge(envelope) => write_challenge(&envelope.value().view(), out),
            Packet::Answer(segment) => write_answer(segment, out),
            Packet::AckIn(ack) => write_ack(&ack.value().view(), out),
        }
    }
}

/// Appends the packet by which an authenticator is learned. Where memory was refused the bytes are as they
/// were.
pub fn write_learn(authenticator: &Authenticator, out: &mut Vec<u8>) -> Result<(), AllocError>
    ensures says { let d = Learn authenticator.now in OnOk result (Says (packet_text d) d) }
    ensures text { Appends (packet_text (Learn authenticator.now)) out.old.items result out.new.items }
{
    let start = out.len();
    let written = add_learn(authenticator, out);
    all_or_nothing(out, start, written)
}

fn add_learn(authenticator: &Authenticator, out: &mut Vec<u8>) -> Result<(), AllocError>
    ensures fits { OnOk result (Fits authenticator_item (authenticator_value authenticator.now)) }
    ensures text { Adds (packet_text (Learn authenticator.now)) out.old.items result out.new.items }
{
    out.put_u32(1)?;
    authenticator.write(out)
}

/// Appends the packet by which an envelope's receiver is challenged to acknowledge it. Where memory was
/// refused the bytes are as they were.
pub fn write_challenge(envelope: &EnvelopeRef<'_>, out: &mut Vec<u8>) -> Result<(), AllocError>
    ensures says { let d = SendChallenge (envelope_in envelope.now) in OnOk result (Says (packet_text d) d) }
    ensures text { Appends (packet_text (SendChallenge (envelope_in envelope.now)))
        out.old.items result out.new.items }
{
    let start = out.len();
    let written = add_challenge(envelope, out);
    all_or_nothing(out, start, written)
}

fn add_challenge(envelope: &EnvelopeRef<'_>, out: &mut Vec<u8>) -> Result<(), AllocError>
    ensures fits { OnOk result (Fits envelope_item (envelope_value (envelope_in envelope.now))) }
    ensures text { Adds (packet_text (SendChallenge (envelope_in envelope.now)))
        out.old.items result out.new.items }
{
    out.put_u32(2)?;
    envelope.write(out)
}

/// Appends the packet by which an audit is answered. Where memory was refused the bytes are as they were.
pub fn write_answer(segment: &ClosedSegment, out: &mut Vec<u8>) -> Result<(), AllocError>
    ensures says { let d = Answer segment.now.segment in OnOk result (Says (packet_text d) d) }
    ensures text { Appends (packet_text (Answer segment.now.segment)) out.old.items result out.new.items }
{
    let start = out.len();
    let written = add_answer(segment.segment(), out);
    all_or_nothing(out, start, written)
}

fn add_answer(segment: &BoundedSegment<MAX_ENTRIES>, out: &mut Vec<u8>) -> Result<(), AllocError>
    ensures { Adds (packet_text (Answer segment.now)) out.old.items result out.new.items }
{
    out.put_u32(answer_number(segment.log_version()))?;
    segment.write(out)
}

/// The number of a packet with a segment of a log of this version.
fn answer_number(version: LogVersion) -> u32
    ensures { result ≡ answer_number version }
{
    match version {
        LogVersion::One => 3,
        LogVersion::Two => 5,
    }
}

/// Appends the packet by which an audit is answered with the text of a segment of a log of this version, as a
/// node gives it. Where memory was refused the bytes are as they were.
pub fn write_answer_text(
    version: LogVersion,
    text: &[u8],
    out: &mut Vec<u8>,
) -> Result<(), AllocError>
    ensures { Appends (number_spelling 4 (answer_number version) ++ text.now) out.old.items result out.new.items }
{
    let start = out.len();
    let written = add_answer_text(version, text, out);
    all_or_nothing(out, start, written)
}

fn add_answer_text(version: LogVersion, text: &[u8], out: &mut Vec<u8>) -> Result<(), AllocError>
    ensures { Adds (number_spelling 4 (answer_number version) ++ text.now) out.old.items result out.new.items }
{
    out.put_u32(answer_number(version))?;
    out.extend_from_slice(text)
}

/// Appends the packet by which an acknowledgement answers a challenge. Where memory was refused the bytes are
/// as they were.
pub fn write_ack(ack: &AckRef<'_>, out: &mut Vec<u8>) -> Result<(), AllocError>
    ensures says { let d = AckIn (ack_in ack.now) in OnOk result (Says (packet_text d) d) }
    ensures text { Appends (packet_text (AckIn (ack_in ack.now))) out.old.items result out.new.items }
{
    let start = out.len();
    let written = add_ack(ack, out);
    all_or_nothing(out, start, written)
}

fn add_ack(ack: &AckRef<'_>, out: &mut Vec<u8>) -> Result<(), AllocError>
    ensures fits { OnOk result (Fits ack_item (ack_value (ack_in ack.now))) }
    ensures text { Adds (packet_text (AckIn (ack_in ack.now))) out.old.items result out.new.items }
{
    out.put_u32(4)?;
    ack.write(out)
}
