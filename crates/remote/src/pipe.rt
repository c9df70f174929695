//! A server in the same process, at the other end of a pipe.

ghost use Rattle.std.specs.Prelude.{◌≡◌, ◌≤◌, Option, Some, false, IfOk, IfSome, OnOk, length};
ghost use Rattle.std.specs.Option.{option_map};
ghost use Rattle.secure_log.specs.declared.log_entries.entry.TheConstants.{MAX_BODY};
ghost use Rattle.commitment.specs.Senders.LookUps.{envelope_at};
ghost use Rattle.envelopes.specs.declared.envelope.Envelope.{Envelope};
ghost use Rattle.node_logs.specs.Nodes.{sender_of};
ghost use Rattle.nodes.specs.Exchanges.Exchanges.{IsServed};
ghost use Rattle.nodes.specs.Shareds.{HasNotStrayed};
ghost use Rattle.nodes.specs.Sides.{IsEnvelopeText, IsReplyAt};
ghost use Rattle.remote.specs.Links.{IsExchanged};
ghost use Rattle.remote.specs.Pipes.{Gives, IsTextIn, reply_in};

use crate::call_fault::CallFault;
use crate::calls::fault_of;
use crate::client::RemoteClient;
use crate::courier::Carried;
use authenticator::Number;
use commitment::Received;
use nfs_items::Time;
use node_logs::Receipt;
use nodes::{LinkFault, ServerNode};
use std::alloc::Global;

/// A call of the client to a server in the same process, with nothing between the two but the texts: the
/// call's envelope, the server's acknowledgement, and the envelope of its reply. What is handed out is what
/// `accept` hands out; and unless the server was told to lie it is the reply that the server owes to the
/// record at that time, or none is owed. The acknowledgement of the reply isn't brought to the server.
pub fn call_through_pipe(
    client: &mut RemoteClient,
    server: &mut ServerNode,
    alloc: Global,
    time: Time,
    bytes: &[u8],
) -> Result<Option<Vec<u8>>, LinkFault>
    requires { length bytes.now ≤ MAX_BODY }
    ensures exchanged { IfOk result (λ r.
        IsExchanged client.old bytes.now (option_map (λ v. v.items) r) client.new) }
    ensures served { server.old.lies ≡ false → IfOk result (λ r.
        IsServed server.old time bytes.now (option_map (λ v. v.items) r) server.new) }
    ensures honest { HasNotStrayed client.new.client }
    ensures size { IfOk result (λ r. IfSome r (λ v. length v.items ≤ MAX_BODY)) }
{
    let mut text = Vec::new(alloc);
    let mut ack = Vec::new(alloc);
    let mut reply = Vec::new(alloc);
    let pending = match client.begin(alloc, bytes, &mut text) {
        Ok(pending) => pending,
        Err(fault) => return Err(fault),
    };
    let carried = match answer(server, alloc, time, &text, &mut ack, &mut reply) {
        Ok(carried) => carried,
        Err(fault) => return Err(fault),
    };
    let came = reply_in(carried, &reply);
    match client.accept(alloc, &pending, &ack, came, &mut text) {
        Ok(reply) => Ok(reply),
        Err(why) => Err(CallFault::Refused(why).link_fault()),
    }
}

/// What came for the reply, if anything did.
fn reply_in(carried: Carried, text: &[u8]) -> Option<&[u8]>
    ensures { option_map (λ b. b.now) result ≡ reply_in carried text.now }
{
    match carried {
        Carried::Acknowledged => None,
        Carried::Answered => Some(text),
    }
}

/// The server receives a call's text at a time, and the texts of its acknowledgement and of its reply's
/// envelope, if one is owed, are written, in place of what the bytes were.
fn answer(
    server: &mut ServerNode,
    alloc: Global,
    time: Time,
    call: &[u8],
    ack: &mut Vec<u8>,
    reply: &mut Vec<u8>,
) -> Result<Carried, LinkFault>
    ensures { (e : Envelope) → IsEnvelopeText e call.now → IfOk result (λ carried.
        Gives server.old time e carried reply.new.items server.new) }
{
    let received = server.receive(alloc, time, call);
    server.node().is_honest();
    let receipt = match received {
        Ok(received) => match received {
            Received::New(receipt) => receipt,
            Received::Repeat(_) => return Err(LinkFault::Failed),
        },
        Err(refusal) => return Err(fault_of(refusal)),
    };
    write_answer(server, receipt, ack, reply)
}

/// Writes what the server shows of a receipt.
fn write_answer(
    server: &ServerNode,
    receipt: Receipt,
    ack: &mut Vec<u8>,
    reply: &mut Vec<u8>,
) -> Result<Carried, LinkFault>
    ensures { (o : Option Envelope) → IsReplyAt (sender_of server.now) receipt.reply o →
        IfOk result (λ carried. IsTextIn o carried reply.new.items) }
{
    write_ack(server, receipt.ack, ack)?;
    let Some(number) = receipt.reply else {
        return Ok(Carried::Acknowledged);
    };
    match write_reply(server, number, reply) {
        Ok(()) => Ok(Carried::Answered),
        Err(fault) => Err(fault),
    }
}

/// Writes the text of the acknowledgement that the server's RECV with a number makes.
fn write_ack(server: &ServerNode, number: Number, text: &mut Vec<u8>) -> Result<(), LinkFault> {
    text.clear();
    let Some(ack) = server.ack(number.get()) else {
        return Err(LinkFault::Failed);
    };
    match ack.write(text) {
        Ok(()) => Ok(()),
        Err(_) => Err(LinkFault::NoMemory),
    }
}

/// Writes the text of the envelope of the server's SEND with a number.
fn write_reply(server: &ServerNode, number: Number, text: &mut Vec<u8>) -> Result<(), LinkFault>
    ensures { (e : Envelope) → envelope_at (sender_of server.now) number ≡ Some e →
        OnOk result (IsEnvelopeText e text.new.items) }
{
    text.clear();
    let Some(envelope) = server.envelope(number.get()) else {
        return Err(LinkFault::Failed);
    };
    match envelope.write(text) {
        Ok(()) => Ok(()),
        Err(_) => Err(LinkFault::NoMemory),
    }
}
