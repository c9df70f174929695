//! A call that a client sends.

ghost use Rattle.std.specs.Prelude.{◌≡◌, ◌≤◌, ◌↔◌, IfErr, IfOk, IsTrue, Some, length};
ghost use Rattle.secure_log.specs.declared.log_entries.entry.TheConstants.{MAX_BODY};
ghost use Rattle.commitment.specs.Senders.LookUps.{envelope_at};
ghost use Rattle.envelopes.specs.Envelope.{envelope_text, envelope_value};
ghost use Rattle.envelopes.specs.declared.envelope.Envelope.{Envelope};
ghost use Rattle.gateway.specs.declared.links.fault.LinkFault.TheVariants.{NoMemory};
ghost use Rattle.node_logs.specs.Nodes.{sender_of};
ghost use Rattle.nodes.specs.Delivery.{WritesText, fault_of};
ghost use Rattle.nodes.specs.Shareds.{HasNotStrayed};
ghost use Rattle.remote.specs.Remotes.{IsRemote, remote_of};
ghost use Rattle.remote.specs.Calls.{Begins, IsBegun, IsCallOf, StopsBeginning};

use authenticator::Number;
use commitment::Refusal;
use nodes::{ClientNode, LinkFault};
use secure_log::log_entries::Body;
use std::alloc::Global;

/// The most bytes of an envelope's text.
const MAX_ENVELOPE_TEXT: usize = 29_244;

/// Begins a call of a server: logs its SEND, and writes the text of its envelope, in place of what the bytes
/// were. Gives the number of the SEND.
pub(crate) fn begin(
    client: &mut ClientNode,
    server: u32,
    alloc: Global,
    bytes: &[u8],
    text: &mut Vec<u8>,
) -> Result<Number, LinkFault>
    requires size { length bytes.now ≤ MAX_BODY }
    requires remote { IsRemote (remote_of client.old server) }
    ensures begun { IfOk result (λ number. IsBegun (remote_of client.old server) bytes.now number
        text.new.items (remote_of client.new server)) }
    ensures stops { IfErr result (λ f.
        StopsBeginning (remote_of client.old server) bytes.now f (remote_of client.new server)) }
    ensures remote { IsRemote (remote_of client.new server) }
    ensures honest { HasNotStrayed client.new }
{
    let sent = send(client, server, alloc, bytes, text);
    client.node().is_honest();
    let number = match sent {
        Ok(number) => number,
        Err(fault) => return Err(fault),
    };
    match write_call(client, number, text) {
        Ok(()) => Ok(number),
        Err(fault) => Err(fault),
    }
}

/// Logs the SEND of a call, with room made for the text of its envelope, and makes its signature. Gives its number.
fn send(
    client: &mut ClientNode,
    server: u32,
    alloc: Global,
    bytes: &[u8],
    text: &mut Vec<u8>,
) -> Result<Number, LinkFault>
    requires size { length bytes.now ≤ MAX_BODY }
    requires remote { IsRemote (remote_of client.old server) }
    ensures begins { Begins (remote_of client.old server) bytes.now result (remote_of client.new server) }
    ensures remote { IsRemote (remote_of client.new server) }
{
    if client.node().left() < 2 {
        return Err(LinkFault::KeysUsedUp);
    }
    reserve(text)?;
    let body = body_of(bytes, alloc)?;
    match client.call(server, body) {
        Ok(number) => {
            client.make_signature(number.get());
            Ok(number)
        }
        Err(refusal) => Err(fault_of(refusal)),
    }
}

/// Why a call wasn't sent, as a fault of the link.
pub(crate) fn fault_of(refusal: Refusal) -> LinkFault
    ensures { result ≡ fault_of refusal }
{
    match refusal {
        Refusal::KeysUsedUp => LinkFault::KeysUsedUp,
        Refusal::NoMemory => LinkFault::NoMemory,
        Refusal::Garbage
        | Refusal::NotForMe
        | Refusal::BadSignature
        | Refusal::NoGaps
        | Refusal::GapTooWide => LinkFault::Failed,
    }
}

/// Writes the text of the envelope of the SEND with a number, in place of what the bytes were.
pub(crate) fn write_call(
    client: &ClientNode,
    number: Number,
    text: &mut Vec<u8>,
) -> Result<(), LinkFault>
    ensures { (call : Envelope) → envelope_at (sender_of client.now) number ≡ Some call →
        WritesText envelope_text (envelope_value call) result text.new.items }
{
    text.clear();
    let Some(envelope) = client.envelope(number.get()) else {
        return Err(LinkFault::Failed);
    };
    match envelope.write(text) {
        Ok(()) => Ok(()),
        Err(_) => Err(LinkFault::NoMemory),
    }
}

/// Whether the SEND with a number is a call of a server with these bytes. Takes no memory.
pub(crate) fn is_call_of(client: &ClientNode, server: u32, number: Number, bytes: &[u8]) -> bool
    ensures { IsTrue result ↔ IsCallOf (remote_of client.now server) number bytes.now }
{
    let Some(envelope) = client.envelope(number.get()) else {
        return false;
    };
    if envelope.to != server || envelope.seq.number(client.log_version()) != number {
        return false;
    }
    is_body(envelope.body, bytes)
}

/// Whether a message is these bytes.
fn is_body(body: &Body, bytes: &[u8]) -> bool
    ensures { IsTrue result ↔ (body.now ≡ bytes.now) }
{
    body.bytes() == bytes
}

/// A message of a copy of bytes.
fn body_of(bytes: &[u8], alloc: Global) -> Result<Body, LinkFault>
    requires { length bytes.now ≤ MAX_BODY }
    ensures copy { IfOk result (λ b. b ≡ bytes.now) }
    ensures refused { IfErr result (λ f. f ≡ NoMemory) }
{
    match bytes.to_vec(alloc) {
        Ok(copy) => Ok(Body::new(copy)),
        Err(_) => Err(LinkFault::NoMemory),
    }
}

/// Makes room for the text of an envelope.
fn reserve(text: &mut Vec<u8>) -> Result<(), LinkFault>
    ensures { IfErr result (λ f. f ≡ NoMemory) }
{
    text.clear();
    match text.reserve(MAX_ENVELOPE_TEXT) {
        Ok(()) => Ok(()),
        Err(_) => Err(LinkFault::NoMemory),
    }
}
