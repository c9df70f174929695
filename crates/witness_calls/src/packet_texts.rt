//! What a node shows, as packets.

ghost use Rattle.std.specs.Prelude.{◌≡◌, ◌++◌, IfOk};
ghost use Rattle.xdr.specs.Item.{number_spelling};
ghost use Rattle.envelopes.specs.Acknowledgement.{ack_in};
ghost use Rattle.envelopes.specs.Envelope.{envelope_in};
ghost use Rattle.packets.specs.Packet.{AckIn, Learn, SendChallenge, answer_number, packet_text};

use authenticator::{Authenticator, LogVersion};
use envelopes::{AckRef, EnvelopeRef};
use packets::{write_ack, write_answer_text, write_challenge, write_learn};
use std::alloc::{AllocError, Global};

/// The packet of an authenticator, to be learned.
pub fn learn_packet(alloc: Global, authenticator: &Authenticator) -> Result<Vec<u8>, AllocError>
    ensures { IfOk result (λ text. text.items ≡ packet_text (Learn authenticator.now)) }
{
    let mut text = Vec::new(alloc);
    write_learn(authenticator, &mut text)?;
    Ok(text)
}

/// The packet of a segment's text, in answer to an audit: the word 3 in a log of version 1, or 5 in one of
/// version 2, and the text.
pub fn answer_packet(
    alloc: Global,
    version: LogVersion,
    segment: &[u8],
) -> Result<Vec<u8>, AllocError>
    ensures { IfOk result (λ text. text.items ≡ number_spelling 4 (answer_number version) ++ segment.now) }
{
    let mut text = Vec::new(alloc);
    write_answer_text(version, segment, &mut text)?;
    Ok(text)
}

/// The packet of an envelope, which its receiver is to acknowledge.
pub fn challenge_packet(alloc: Global, envelope: &EnvelopeRef<'_>) -> Result<Vec<u8>, AllocError>
    ensures { IfOk result (λ text. text.items ≡ packet_text (SendChallenge (envelope_in envelope.now))) }
{
    let mut text = Vec::new(alloc);
    write_challenge(envelope, &mut text)?;
    Ok(text)
}

/// The packet of an acknowledgement.
pub fn ack_packet(alloc: Global, ack: &AckRef<'_>) -> Result<Vec<u8>, AllocError>
    ensures { IfOk result (λ text. text.items ≡ packet_text (AckIn (ack_in ack.now))) }
{
    let mut text = Vec::new(alloc);
    write_ack(ack, &mut text)?;
    Ok(text)
}
