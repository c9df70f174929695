//! Handing what one node shows to another that awaits it.

ghost use Rattle.std.specs.Prelude.{◌≡◌, ◌≤◌, IfErr, IfOk, OnOk, None, Some, length};
ghost use Rattle.secure_log.specs.LogEntries.Chain.{span};
ghost use Rattle.secure_log.specs.declared.log_entries.entry.TheConstants.{MAX_BODY};
ghost use Rattle.authenticator.specs.declared.member.Kind.TheVariants as kinds;
ghost use Rattle.xdr.specs.Texts.Text.{IsText};
ghost use Rattle.envelopes.specs.Envelope.{envelope_text, envelope_value};
ghost use Rattle.envelopes.specs.Acknowledgement.{ack_text, ack_value};
ghost use Rattle.envelopes.specs.declared.envelope.Envelope.{Envelope};
ghost use Rattle.envelopes.specs.declared.acknowledgement.Ack.{Ack};
ghost use Rattle.commitment.specs.Senders.LookUps.{ack_at, envelope_at};
ghost use Rattle.commitment.specs.Receiver.{Finds};
ghost use Rattle.commitment.specs.Senders.Sender.{IsSender};
ghost use Rattle.node_logs.specs.Sending.{Sends};
ghost use Rattle.node_logs.specs.Steps.Nodes.{receiver_of, sender_of};
ghost use Rattle.gateway.specs.declared.links.fault.LinkFault.TheVariants.{Failed, NoMemory};
ghost use Rattle.nodes.specs.Exchanges.Reaching.{AckReaches, Reaches, ack_told};
ghost use Rattle.nodes.specs.Exchanges.Laws.{IsAccepted};
ghost use Rattle.nodes.specs.Delivery.{CopiesBody, IsCopyOf, MayReceive, MayTake, MayTakeAck, ReceivesNew, SendsBody};
ghost use Rattle.nodes.specs.Delivery.{TakesAwaited, TakesNew, WritesText, fault_of};

use crate::client::ClientNode;
use crate::node::Node;
use crate::role::Role;
use crate::server::ServerNode;
use authenticator::Number;
use commitment::{Incoming, Received, Refusal};
use envelopes::{Ack, Envelope};
use gateway::links::LinkFault;
use nfs_items::Time;
use node_logs::{AckTaken, NodeLog, Receipt};
use secure_log::log_entries::{Body, SignatureText};
use std::alloc::Global;

/// A refusal as a fault of the link. What is made by one node is refused by the other only when it is out of
/// keys, memory or numbers; of numbers it is `Failed`.
fn fault_of(refusal: Refusal) -> LinkFault
    ensures { result ≡ fault_of refusal }
{
    match refusal {
        Refusal::KeysUsedUp => LinkFault::KeysUsedUp,
        Refusal::NoMemory => LinkFault::NoMemory,
        Refusal::Garbage
        | Refusal::NotForMe
        | Refusal::BadSignature
        | Refusal::NoGaps
        | Refusal::GapTooWide => LinkFault::Failed,
    }
}

/// The client sends a body to a node. Gives the number of its SEND. `Failed` comes only where its log has none
/// for it.
pub(crate) fn send(
    client: &mut ClientNode,
    to: u32,
    alloc: Global,
    bytes: &[u8],
) -> Result<Number, LinkFault>
    requires size { length bytes.now ≤ MAX_BODY }
    ensures sends { SendsBody client.old to bytes.now result client.new }
    ensures sender { IsSender (sender_of client.new) }
{
    client.node().is_honest();
    let Ok(copy) = bytes.to_vec(alloc) else {
        return Err(LinkFault::NoMemory);
    };
    let sent = call(client, to, Body::new(copy));
    client.node().is_honest();
    match sent {
        Ok(number) => Ok(number),
        Err(refusal) => Err(fault_of(refusal)),
    }
}

/// The client sends a body to a node, and its signature is made.
fn call(client: &mut ClientNode, to: u32, body: Body) -> Result<Number, Refusal>
    ensures { Sends client.old to body result client.new }
{
    match client.call(to, body) {
        Ok(number) => {
            client.make_signature(number.get());
            Ok(number)
        }
        Err(refusal) => Err(refusal),
    }
}

/// Writes the text of the envelope of the SEND with a number, in place of what the bytes were. `NoMemory`
/// comes only where a growth was refused.
pub(crate) fn write_envelope(
    node: &NodeLog,
    number: Number,
    text: &mut Vec<u8>,
) -> Result<(), LinkFault>
    ensures written { (e : Envelope) → envelope_at (sender_of node.now) number ≡ Some e →
        WritesText envelope_text (envelope_value e) result text.new.items }
    ensures sender { IsSender (sender_of node.now) }
{
    node.is_honest();
    text.clear();
    let Some(envelope) = node.envelope(number.get()) else {
        return Err(LinkFault::Failed);
    };
    match envelope.write(text) {
        Ok(()) => Ok(()),
        Err(_) => Err(LinkFault::NoMemory),
    }
}

/// The signature of the SEND with a number, if one stands there, to be handed on beside its envelope's text.
pub(crate) fn signature_of(node: &NodeLog, number: Number) -> Option<&SignatureText> {
    match node.envelope(number.get()) {
        Some(envelope) => Some(envelope.signature),
        None => None,
    }
}

/// Writes the text of the acknowledgement that the RECV with a number makes, as `write_envelope`.
pub(crate) fn write_ack(node: &NodeLog, number: Number, text: &mut Vec<u8>) -> Result<(), LinkFault>
    ensures written { (a : Ack) → ack_at (sender_of node.now) number ≡ Some a →
        WritesText ack_text (ack_value a) result text.new.items }
    ensures sender { IsSender (sender_of node.now) }
{
    node.is_honest();
    text.clear();
    let Some(ack) = node.ack(number.get()) else {
        return Err(LinkFault::Failed);
    };
    match ack.write(text) {
        Ok(()) => Ok(()),
        Err(_) => Err(LinkFault::NoMemory),
    }
}

/// A copy of the envelope of the SEND with a number. `NoMemory` comes only where a growth was refused.
pub(crate) fn copy_envelope(
    node: &NodeLog,
    number: Number,
    alloc: Global,
) -> Result<Envelope, LinkFault>
    ensures { (e : Envelope) → envelope_at (sender_of node.now) number ≡ Some e → IsCopyOf e result }
{
    let Some(envelope) = node.envelope(number.get()) else {
        return Err(LinkFault::Failed);
    };
    match envelope.to_envelope(alloc) {
        Ok(copy) => Ok(copy),
        Err(_) => Err(LinkFault::NoMemory),
    }
}

/// A copy of the acknowledgement that the RECV with a number makes, as `copy_envelope`.
pub(crate) fn copy_ack(node: &NodeLog, number: Number, alloc: Global) -> Result<Ack, LinkFault>
    ensures { (a : Ack) → ack_at (sender_of node.now) number ≡ Some a → IsCopyOf a result }
{
    let Some(ack) = node.ack(number.get()) else {
        return Err(LinkFault::Failed);
    };
    match ack.to_ack(alloc) {
        Ok(copy) => Ok(copy),
        Err(_) => Err(LinkFault::NoMemory),
    }
}

/// Writes an envelope's text, in place of what the bytes were, and gives a copy of its body. Its signature is
/// made for it, and kept with its digest.
pub(crate) fn write_owned_envelope(
    envelope: &mut Envelope,
    alloc: Global,
    text: &mut Vec<u8>,
) -> Result<Vec<u8>, LinkFault>
    ensures same { envelope.new ≡ envelope.old }
    ensures written { OnOk result (IsText envelope_text (envelope_value envelope.old) text.new.items) }
    ensures body { IfOk result (λ v. v.items ≡ envelope.old.body) }
    ensures size { IfOk result (λ v. length v.items ≤ MAX_BODY) }
    ensures refused { IfErr result (λ f. f ≡ NoMemory) }
{
    let _made = envelope.signature.make(alloc);
    text.clear();
    if envelope.write(text).is_err() {
        return Err(LinkFault::NoMemory);
    }
    match envelope.body.bytes().to_vec(alloc) {
        Ok(copy) => Ok(copy),
        Err(_) => Err(LinkFault::NoMemory),
    }
}

/// Writes an acknowledgement's text, in place of what the bytes were.
pub(crate) fn write_owned_ack(ack: &Ack, text: &mut Vec<u8>) -> Result<(), LinkFault>
    ensures written { OnOk result (IsText ack_text (ack_value ack.now) text.new.items) }
    ensures refused { IfErr result (λ f. f ≡ NoMemory) }
{
    text.clear();
    match ack.write(text) {
        Ok(()) => Ok(()),
        Err(_) => Err(LinkFault::NoMemory),
    }
}

/// A copy of the body of the SEND with a number. `NoMemory` comes only where a growth was refused.
pub(crate) fn body_of(node: &NodeLog, number: Number, alloc: Global) -> Result<Vec<u8>, LinkFault>
    ensures copied { (e : Envelope) → envelope_at (sender_of node.now) number ≡ Some e →
        CopiesBody (λ v. v.items) e result }
    ensures size { IfOk result (λ v. length v.items ≤ MAX_BODY) }
{
    let Some(envelope) = node.envelope(number.get()) else {
        return Err(LinkFault::Failed);
    };
    match envelope.body.bytes().to_vec(alloc) {
        Ok(copy) => Ok(copy),
        Err(_) => Err(LinkFault::NoMemory),
    }
}

/// The server receives an envelope's text, which is to be new to it: of another, `Failed`, and also where its
/// log lacks numbers for what would be logged.
pub(crate) fn receive(
    server: &mut ServerNode,
    alloc: Global,
    time: Time,
    text: Incoming<'_, Envelope>,
) -> Result<Receipt, LinkFault>
    ensures receives { (e : Envelope) → Finds (receiver_of server.old) text.entry e None →
        ReceivesNew server.old time e result server.new }
    ensures told { (e : Envelope) → IsText envelope_text (envelope_value e) text.entry →
        MayReceive server.old time text.entry e result server.new }
    ensures addressed { (e : Envelope) → IsText envelope_text (envelope_value e) text.entry →
        OnOk result (e.to ≡ server.old.node) }
    ensures strayed { server.new.strayed ≡ server.old.strayed }
    ensures sender { IsSender (sender_of server.new) }
{
    let received = server.receive_incoming(alloc, time, text);
    server.node().is_honest();
    match received {
        Ok(Received::New(receipt)) => Ok(receipt),
        Ok(Received::Repeat(_)) => Err(LinkFault::Failed),
        Err(refusal) => Err(fault_of(refusal)),
    }
}

/// The client takes a reply's text, which is to be new to it: of another, `Failed`, and also where its log has
/// no number for it.
pub(crate) fn take_reply(
    client: &mut ClientNode,
    alloc: Global,
    text: Incoming<'_, Envelope>,
) -> Result<(), LinkFault>
    ensures takes { (e : Envelope) → Finds (receiver_of client.old) text.entry e None →
        TakesNew client.old e result client.new }
    ensures told { (e : Envelope) → IsText envelope_text (envelope_value e) text.entry →
        MayTake client.old text.entry e result client.new }
    ensures sender { IsSender (sender_of client.new) }
{
    let taken = client.take_incoming(alloc, text);
    client.node().is_honest();
    match taken {
        Ok(received) => match received {
            Received::New(_) => Ok(()),
            Received::Repeat(_) => Err(LinkFault::Failed),
        },
        Err(refusal) => Err(fault_of(refusal)),
    }
}

/// What became of an acknowledgement, which is to be awaited: of another, `Failed`.
fn ack_taken(taken: Result<AckTaken, Refusal>) -> Result<(), LinkFault>
    ensures { result ≡ ack_told fault_of Failed taken }
{
    match taken {
        Ok(AckTaken::Logged(_)) => Ok(()),
        Ok(AckTaken::Already) => Err(LinkFault::Failed),
        Err(refusal) => Err(fault_of(refusal)),
    }
}

/// A node takes an acknowledgement's text, which it is to await: of another, `Failed`, and also where its log
/// has no number for the ACK.
pub(crate) fn take_ack<R: Role>(
    node: &mut Node<R>,
    alloc: Global,
    text: Incoming<'_, Ack>,
) -> Result<(), LinkFault>
    ensures takes { (a : Ack) → IsText ack_text (ack_value a) text.entry → IsAccepted node.old a →
        TakesAwaited node.old a result node.new }
    ensures told { (a : Ack) → IsText ack_text (ack_value a) text.entry → MayTakeAck node.old a result node.new }
    ensures strayed { node.new.strayed ≡ node.old.strayed }
{
    ack_taken(node.take_incoming_ack(alloc, text))
}

/// Hands the envelope of the client's SEND with a number to the server.
pub(crate) fn deliver_call(
    client: &ClientNode,
    number: Number,
    server: &mut ServerNode,
    text: &mut Vec<u8>,
    alloc: Global,
    time: Time,
) -> Result<Receipt, LinkFault>
    ensures receives { (e : Envelope) → Reaches client.now kinds.Client number server.old e →
        ReceivesNew server.old time e result server.new }
    ensures told { (e : Envelope) → envelope_at (sender_of client.now) number ≡ Some e →
        MayReceive server.old time text.new.items e result server.new }
    ensures sender { OnOk result (IsSender (sender_of server.new)) }
{
    write_envelope(client.node(), number, text)?;
    let shown = signature_of(client.node(), number);
    let incoming = Incoming::envelope(alloc, client.node().roster(), text, shown);
    let received = receive(server, alloc, time, incoming);
    make_reply(server, &received);
    received
}

/// Makes the signature of the reply to what was received, if one is owed.
fn make_reply(server: &mut ServerNode, received: &Result<Receipt, LinkFault>)
    ensures { server.new ≡ server.old }
{
    if let Ok(receipt) = received {
        make_sent(server, receipt.reply);
    }
}

/// Makes the signature at a number, if one is given.
fn make_sent(server: &mut ServerNode, number: Option<Number>)
    ensures { server.new ≡ server.old }
{
    if let Some(sent) = number {
        server.make_signature(sent.get());
    }
}

/// Hands the envelope of the server's SEND with a number to the client.
pub(crate) fn deliver_reply(
    server: &ServerNode,
    number: Number,
    client: &mut ClientNode,
    text: &mut Vec<u8>,
    alloc: Global,
) -> Result<(), LinkFault>
    ensures takes { (e : Envelope) → Reaches server.now kinds.Server number client.old e →
        TakesNew client.old e result client.new }
    ensures told { (e : Envelope) → envelope_at (sender_of server.now) number ≡ Some e →
        MayTake client.old text.new.items e result client.new }
    ensures sender { OnOk result (IsSender (sender_of client.new)) }
{
    write_envelope(server.node(), number, text)?;
    let shown = signature_of(server.node(), number);
    let incoming = Incoming::envelope(alloc, server.node().roster(), text, shown);
    take_reply(client, alloc, incoming)
}

/// Hands the acknowledgement that the server's RECV with a number makes to the client.
pub(crate) fn acknowledge_call(
    server: &ServerNode,
    number: Number,
    client: &mut ClientNode,
    text: &mut Vec<u8>,
    alloc: Global,
) -> Result<(), LinkFault>
    ensures takes { (a : Ack) → AckReaches server.now kinds.Server number client.old a →
        TakesAwaited client.old a result client.new }
    ensures told { (a : Ack) → ack_at (sender_of server.now) number ≡ Some a →
        MayTakeAck client.old a result client.new }
{
    write_ack(server.node(), number, text)?;
    ack_taken(client.take_ack(alloc, text))
}

/// The number of a log's last entry.
pub(crate) fn last_number(node: &NodeLog) -> Number
    ensures { result ≡ span node.now.entries }
{
    node.log().last_number()
}

/// Hands the acknowledgement that the client's RECV with a number makes to the server.
pub(crate) fn acknowledge_reply(
    client: &ClientNode,
    number: Number,
    server: &mut ServerNode,
    text: &mut Vec<u8>,
    alloc: Global,
) -> Result<(), LinkFault>
    ensures takes { (a : Ack) → AckReaches client.now kinds.Client number server.old a →
        TakesAwaited server.old a result server.new }
    ensures told { (a : Ack) → ack_at (sender_of client.now) number ≡ Some a →
        MayTakeAck server.old a result server.new }
{
    write_ack(client.node(), number, text)?;
    ack_taken(server.take_ack(alloc, text))
}
