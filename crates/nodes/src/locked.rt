//! An exchange between a client and a server under a lock, which is held for what the server does alone.

ghost use Rattle.std.specs.Prelude.{◌≡◌, ◌≤◌, Err, IfErr, IfOk, IfSome, Ok, OnOk, length};
ghost use Rattle.std.specs.Option.{option_map};
ghost use Rattle.secure_log.specs.declared.log_entries.entry.TheConstants.{MAX_BODY};
ghost use Rattle.envelopes.specs.declared.envelope.Envelope.{Envelope};
ghost use Rattle.envelopes.specs.declared.acknowledgement.Ack.{Ack};
ghost use Rattle.nodes.specs.Delivery.{MayTakeAck};
ghost use Rattle.nodes.specs.Shareds.{HasNotStrayed, IsCalled, StopsCalling};
ghost use Rattle.nodes.specs.Sides.{IsAskedOf, IsEnvelopeText, IsReplyText, IsReturnedAs, IsTextOfAck};
ghost use Rattle.nodes.specs.Sides.{StopsReturning};

use crate::client::ClientNode;
use crate::deliver::{last_number, signature_of, take_ack};
use crate::honest::HonestServer;
use crate::sides::{Shown, receive_reply, send_text, write_shown};
use commitment::Incoming;
use envelopes::{Ack, Envelope};
use gateway::links::LinkFault;
use nfs_items::Time;
use std::alloc::Global;
use std::sync::{Mutex, Wait};

/// What goes between a client and a server under a lock.
#[derive(Drop)]
pub(crate) struct Texts {
    /// What the client hands to the server: the call's envelope, and then the acknowledgement of the reply.
    pub(crate) call: Vec<u8>,
    /// The server's acknowledgement.
    pub(crate) ack: Vec<u8>,
    /// The reply's envelope.
    pub(crate) reply: Vec<u8>,
    /// That envelope, with its signature made.
    pub(crate) sent: Option<Envelope>,
}

/// A client's call to the server of a number, which lies under a lock.
pub(crate) fn call<R: Wait>(
    rt: &R,
    server: &Mutex<HonestServer>,
    client: &mut ClientNode,
    to: u32,
    texts: &mut Texts,
    alloc: Global,
    time: Time,
    bytes: &[u8],
) -> Result<Option<Vec<u8>>, LinkFault>
    requires size { length bytes.now ≤ MAX_BODY }
    ensures called { IfOk result (λ r.
        IsCalled client.old to time bytes.now (option_map (λ v. v.items) r) client.new) }
    ensures stops { IfErr result (λ f. StopsCalling client.old to time bytes.now f client.new) }
    ensures size { IfOk result (λ r. IfSome r (λ v. length v.items ≤ MAX_BODY)) }
{
    match ask(rt, server, client, to, texts, alloc, time, bytes) {
        Err(fault) => Err(fault),
        Ok(None) => Ok(None),
        Ok(Some(reply)) => match bring_back(rt, server, client, texts, alloc) {
            Ok(()) => Ok(Some(reply)),
            Err(fault) => Err(fault),
        },
    }
}

/// The client sends, the server answers under the lock, and the client takes its acknowledgement. The call is read
/// and its signature checked before the lock is taken, by the client's roster, and what the server signed is made
/// after it. Gives the body of the reply, if one is owed, whose envelope's text stands in `texts`.
fn ask<R: Wait>(
    rt: &R,
    server: &Mutex<HonestServer>,
    client: &mut ClientNode,
    to: u32,
    texts: &mut Texts,
    alloc: Global,
    time: Time,
    bytes: &[u8],
) -> Result<Option<Vec<u8>>, LinkFault>
    requires size { length bytes.now ≤ MAX_BODY }
    ensures asked { IfOk result (λ r. IsAskedOf client.old to time bytes.now (option_map (λ v. v.items) r)
        texts.new.reply.items client.new) }
    ensures stops { IfErr result (λ f. StopsCalling client.old to time bytes.now f client.new) }
    ensures size { IfOk result (λ r. IfSome r (λ v. length v.items ≤ MAX_BODY)) }
{
    send_text(client, to, alloc, bytes, &mut texts.call)?;
    let shown = signature_of(client.node(), last_number(client.node()));
    let incoming = Incoming::envelope(alloc, client.node().roster(), &texts.call, shown);
    let answered = server.lock(rt).answer(alloc, time, incoming);
    match answered {
        Ok(shown) => hear(client, shown, texts, alloc),
        Err(fault) => Err(fault),
    }
}

/// What a server shows is written, and the client takes its acknowledgement. Gives the body of the reply, if there
/// is one.
fn hear(
    client: &mut ClientNode,
    shown: Shown,
    texts: &mut Texts,
    alloc: Global,
) -> Result<Option<Vec<u8>>, LinkFault>
    ensures written { IfOk result (λ r.
        IsReplyText shown.reply (option_map (λ v. v.items) r) texts.new.reply.items) }
    ensures taken { OnOk result (MayTakeAck client.old shown.ack (Ok tt) client.new) }
    ensures stops { IfErr result (λ f. MayTakeAck client.old shown.ack (Err f) client.new) }
    ensures size { IfOk result (λ r. IfSome r (λ v. length v.items ≤ MAX_BODY)) }
{
    let mut shown = shown;
    let reply = match write_shown(&mut shown, alloc, &mut texts.ack, &mut texts.reply) {
        Ok(reply) => reply,
        Err(fault) => return Err(fault),
    };
    texts.sent = shown.reply;
    match take_ack(client, alloc, Incoming::new(&texts.ack)) {
        Ok(()) => Ok(reply),
        Err(fault) => Err(fault),
    }
}

/// The client receives the reply whose envelope's text stands in `texts`, and the server takes its
/// acknowledgement under the lock, which is read and checked before that.
fn bring_back<R: Wait>(
    rt: &R,
    server: &Mutex<HonestServer>,
    client: &mut ClientNode,
    texts: &mut Texts,
    alloc: Global,
) -> Result<(), LinkFault>
    ensures returned { (e : Envelope) → IsEnvelopeText e texts.old.reply.items →
        OnOk result (IsReturnedAs client.old e client.new) }
    ensures stops { (e : Envelope) → IsEnvelopeText e texts.old.reply.items → IfErr result (λ f.
        StopsReturning client.old e texts.old.reply.items f client.new) }
{
    match receive_reply(client, alloc, &texts.reply, &mut texts.call) {
        Ok(()) => {
            let incoming = Incoming::ack(alloc, client.node().roster(), &texts.call);
            take_back(&mut server.lock(rt), alloc, incoming, &texts.sent)
        }
        Err(fault) => Err(fault),
    }
}

/// The server takes an acknowledgement, as `HonestServer::take_awaited`, of the envelope that it sent, whose digest
/// isn't made again.
fn take_back(
    server: &mut HonestServer,
    alloc: Global,
    text: Incoming<'_, Ack>,
    sent: &Option<Envelope>,
) -> Result<(), LinkFault>
    ensures straight { HasNotStrayed server.old }
    ensures stays { HasNotStrayed server.new }
    ensures told { (a : Ack) → IsTextOfAck a text.entry → MayTakeAck server.old a result server.new }
{
    if let Some(envelope) = sent {
        server.keep_digest(envelope);
    }
    server.take_awaited(alloc, text)
}
