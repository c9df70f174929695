//! What a client and a server each do of an exchange alone, with texts between them.

ghost use Rattle.std.specs.Prelude.{◌≡◌, ◌≤◌, false, IfErr, IfOk, IfSome, OnOk, Option, length};
ghost use Rattle.std.specs.Option.{option_map};
ghost use Rattle.secure_log.specs.declared.log_entries.entry.TheConstants.{MAX_BODY};
ghost use Rattle.envelopes.specs.declared.envelope.Envelope.{Envelope};
ghost use Rattle.envelopes.specs.declared.acknowledgement.Ack.{Ack};
ghost use Rattle.gateway.specs.declared.links.fault.LinkFault.TheVariants.{NoMemory};
ghost use Rattle.nodes.specs.Exchanges.Exchanges.{IsServed};
ghost use Rattle.nodes.specs.Sides.{HasAnswered, IsEnvelopeText, IsReceivedAs, IsSentAs, IsShownOf};
ghost use Rattle.nodes.specs.Sides.{IsWrittenOf};
ghost use Rattle.nodes.specs.Sides.{StopsAnswering, StopsReceiving, StopsSending};

use crate::client::ClientNode;
use crate::deliver::{
    copy_ack, copy_envelope, last_number, receive, send, take_reply, write_ack, write_envelope,
    write_owned_ack, write_owned_envelope,
};
use crate::server::ServerNode;
use authenticator::Number;
use commitment::Incoming;
use envelopes::{Ack, Envelope};
use gateway::links::LinkFault;
use nfs_items::Time;
use node_logs::NodeLog;
use std::alloc::Global;

/// The client sends a body of at most 12,288 bytes to a node, and the text of its envelope is written, in
/// place of what the bytes were. `KeysUsedUp` comes only where no key is left, `NoMemory` only where a growth
/// was refused, `Failed` only where its log has no number for the SEND.
pub(crate) fn send_text(
    client: &mut ClientNode,
    to: u32,
    alloc: Global,
    bytes: &[u8],
    text: &mut Vec<u8>,
) -> Result<(), LinkFault>
    requires size { length bytes.now ≤ MAX_BODY }
    ensures sent { OnOk result (IsSentAs client.old to bytes.now text.new.items client.new) }
    ensures stops { IfErr result (λ f. StopsSending client.old to bytes.now f client.new) }
{
    let number = send(client, to, alloc, bytes)?;
    write_envelope(client.node(), number, text)
}

/// What a server shows of a call that it received. The signatures are copies of those of its log, and may be
/// made when the server isn't at hand any more.
#[derive(Drop)]
pub(crate) struct Shown {
    /// Its acknowledgement.
    pub(crate) ack: Ack,
    /// The envelope of its reply, if one is owed.
    pub(crate) reply: Option<Envelope>,
}

/// Copies of the acknowledgement that the RECV with a number makes, and of the envelope of its reply's SEND, if
/// there is one. `NoMemory` comes only where a growth was refused.
fn show(
    node: &NodeLog,
    number: Number,
    reply_number: Option<Number>,
    alloc: Global,
) -> Result<Shown, LinkFault>
    ensures shown { (a : Ack) (e : Option Envelope) → IsShownOf node.now number reply_number a e →
        IfOk result (λ r. (r.ack ≡ a) × (r.reply ≡ e)) }
    ensures refused { (a : Ack) (e : Option Envelope) → IsShownOf node.now number reply_number a e →
        IfErr result (λ f. f ≡ NoMemory) }
{
    let ack = copy_ack(node, number, alloc)?;
    let Some(sent) = reply_number else {
        return Ok(Shown { ack, reply: None });
    };
    let envelope = copy_envelope(node, sent, alloc)?;
    Ok(Shown {
        ack,
        reply: Some(envelope),
    })
}

/// Writes the texts of what a server shows, in place of what the bytes were, and gives a copy of the reply's body.
/// The reply's signature is made for it, and kept. `NoMemory` comes only where a growth was refused.
pub(crate) fn write_shown(
    shown: &mut Shown,
    alloc: Global,
    ack: &mut Vec<u8>,
    reply: &mut Vec<u8>,
) -> Result<Option<Vec<u8>>, LinkFault>
    ensures same { shown.new ≡ shown.old }
    ensures written { IfOk result (λ r. IsWrittenOf shown.old.ack shown.old.reply
        (option_map (λ v. v.items) r) ack.new.items reply.new.items) }
    ensures refused { IfErr result (λ f. f ≡ NoMemory) }
    ensures size { IfOk result (λ r. IfSome r (λ v. length v.items ≤ MAX_BODY)) }
{
    write_owned_ack(&shown.ack, ack)?;
    match &mut shown.reply {
        Some(envelope) => {
            let body = write_owned_envelope(envelope, alloc, reply)?;
            Ok(Some(body))
        }
        None => Ok(None),
    }
}

/// The server receives an envelope's text at a time. Gives what it shows of it: its acknowledgement, and its
/// reply's envelope, if one is owed, whose body is the one owed unless the server was told to lie. `KeysUsedUp`
/// comes only where fewer than two keys are left, `NoMemory` only where a growth was refused, `Failed` only where
/// the message isn't new to the server, or refused by it, or its log lacks numbers for what would be logged.
pub(crate) fn answer(
    server: &mut ServerNode,
    alloc: Global,
    time: Time,
    call: Incoming<'_, Envelope>,
) -> Result<Shown, LinkFault>
    ensures strayed { server.new.strayed ≡ server.old.strayed }
    ensures answered { (e : Envelope) → IsEnvelopeText e call.entry
        → IfOk result (λ r. HasAnswered server.old time e r.ack r.reply server.new) }
    ensures served { server.old.lies ≡ false → (e : Envelope) → IsEnvelopeText e call.entry → IfOk result (λ r.
        IsServed server.old time e.body (option_map (λ f. f.body) r.reply) server.new) }
    ensures stops { (e : Envelope) → IsEnvelopeText e call.entry → IfErr result (λ f.
        StopsAnswering server.old time e call.entry f server.new) }
{
    let receipt = receive(server, alloc, time, call)?;
    show(server.node(), receipt.ack, receipt.reply, alloc)
}

/// The client receives the text of a reply's envelope, and its acknowledgement's text is written, in place of
/// what the bytes were. `KeysUsedUp` comes only where no key is left, `NoMemory` only where a growth was
/// refused, `Failed` only where the message isn't new to the client, or refused by it, or its log has no number
/// for it.
pub(crate) fn receive_reply(
    client: &mut ClientNode,
    alloc: Global,
    reply: &[u8],
    ack: &mut Vec<u8>,
) -> Result<(), LinkFault>
    ensures received { (e : Envelope) → IsEnvelopeText e reply.now →
        OnOk result (IsReceivedAs client.old e ack.new.items client.new) }
    ensures stops { (e : Envelope) → IsEnvelopeText e reply.now → IfErr result (λ f.
        StopsReceiving client.old e reply.now f client.new) }
{
    take_reply(client, alloc, Incoming::new(reply))?;
    write_ack(client.node(), last_number(client.node()), ack)
}
