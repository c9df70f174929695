//! An exchange between a client and a server, step by step.

ghost use Rattle.std.specs.Prelude.{◌≡◌, ◌≤◌, ◌+◌, false, IfErr, IfOk, IfSome, OnOk, Some, length};
ghost use Rattle.std.specs.Option.{option_map};
ghost use Rattle.secure_log.specs.declared.log_entries.entry.TheConstants.{MAX_BODY};
ghost use Rattle.envelopes.specs.declared.envelope.Envelope.{Envelope};
ghost use Rattle.commitment.specs.Senders.LookUps.{envelope_at};
ghost use Rattle.commitment.specs.Senders.Sender.{IsSender};
ghost use Rattle.node_logs.specs.Steps.Nodes.{sender_of};
ghost use Rattle.nodes.specs.Exchanges.Reaching.{IsReplyReady};
ghost use Rattle.nodes.specs.Exchanges.Exchanges.{IsCarried, IsJoined, IsReplied, IsServed};
ghost use Rattle.nodes.specs.Faults.{Asks, MayAsk, MayStop, MayStopAtReply, StopsAtReply, StopsCarrying};

use crate::client::ClientNode;
use crate::deliver::{
    acknowledge_call, acknowledge_reply, body_of, deliver_call, deliver_reply, last_number, send,
};
use crate::server::ServerNode;
use authenticator::Number;
use gateway::links::LinkFault;
use nfs_items::Time;
use node_logs::Receipt;
use std::alloc::Global;

/// Carries a body of at most 12,288 bytes from a client to a server at a time, and its reply, if one is owed,
/// back: a call of the client, with all that the two log for it (specs/Exchanges/Exchanges.antt). What either
/// logged with others before, and whether it strayed, doesn't matter; `text` is used for what goes between
/// the two. The reply is the one owed, unless the server was told to lie. Where they are joined, neither
/// refuses the other: a fault is then `KeysUsedUp` or `NoMemory`, for keys that are used up or memory that
/// was refused, or `Failed` where the log of one has no numbers left for what it would log, as only a log of
/// version 2 may. Else `Failed` comes also where one refuses the other, as where it doesn't list it. After a
/// fault what was done before it stands, and nothing else was done (specs/Faults.antt).
pub fn exchange(
    client: &mut ClientNode,
    server: &mut ServerNode,
    text: &mut Vec<u8>,
    alloc: Global,
    time: Time,
    bytes: &[u8],
) -> Result<Option<Vec<u8>>, LinkFault>
    requires size { length bytes.now ≤ MAX_BODY }
    ensures carried { IfOk result (λ r. IsCarried client.old server.old time
        bytes.now (option_map (λ v. v.items) r) client.new server.new) }
    ensures told { IfErr result (λ e.
        MayStop client.old server.old time bytes.now e client.new server.new) }
    ensures served { server.old.lies ≡ false → IfOk result (λ r.
        IsServed server.old time bytes.now (option_map (λ v. v.items) r) server.new) }
    ensures stops { IsJoined client.old server.old → IfErr result (λ e.
        StopsCarrying client.old server.old time bytes.now e client.new server.new) }
    ensures joined { IsJoined client.old server.old → OnOk result (IsJoined client.new server.new) }
    ensures size { IfOk result (λ r. IfSome r (λ v. length v.items ≤ MAX_BODY)) }
{
    let receipt = ask(client, server, text, alloc, time, bytes)?;
    match receipt.reply {
        None => Ok(None),
        Some(number) => match bring_back(client, server, number, text, alloc) {
            Ok(reply) => Ok(Some(reply)),
            Err(fault) => Err(fault),
        },
    }
}

/// The client calls the server, and takes its acknowledgement.
fn ask(
    client: &mut ClientNode,
    server: &mut ServerNode,
    text: &mut Vec<u8>,
    alloc: Global,
    time: Time,
    bytes: &[u8],
) -> Result<Receipt, LinkFault>
    requires size { length bytes.now ≤ MAX_BODY }
    ensures told { MayAsk client.old server.old time bytes.now result client.new server.new }
    ensures asks { IsJoined client.old server.old
        → Asks client.old server.old time bytes.now result client.new server.new }
    ensures sender { OnOk result (IsSender (sender_of server.new)) }
{
    let number = send(client, server.number(), alloc, bytes)?;
    let receipt = match deliver_call(client, number, server, text, alloc, time) {
        Ok(receipt) => receipt,
        Err(fault) => return Err(fault),
    };
    match acknowledge_call(server, receipt.ack, client, text, alloc) {
        Ok(()) => Ok(receipt),
        Err(fault) => Err(fault),
    }
}

/// The client takes the reply that the server sent at a number, and the server takes its acknowledgement.
/// Gives the reply's body.
fn bring_back(
    client: &mut ClientNode,
    server: &mut ServerNode,
    number: Number,
    text: &mut Vec<u8>,
    alloc: Global,
) -> Result<Vec<u8>, LinkFault>
    ensures replied { (e : Envelope) → envelope_at (sender_of server.old) number ≡ Some e → IfOk result (λ v.
        IsReplied client.old server.old number v.items client.new server.new) }
    ensures told { (e : Envelope) → envelope_at (sender_of server.old) number ≡ Some e → IfErr result (λ f.
        MayStopAtReply client.old server.old number f client.new server.new) }
    ensures stops { IsReplyReady client.old server.old number → IfErr result (λ e.
        StopsAtReply client.old server.old number e client.new server.new) }
    ensures size { IfOk result (λ v. length v.items ≤ MAX_BODY) }
{
    let reply = body_of(server.node(), number, alloc)?;
    match deliver_reply(server, number, client, text, alloc) {
        Ok(()) => {}
        Err(fault) => return Err(fault),
    }
    let receipt = last_number(client.node());
    match acknowledge_reply(client, receipt, server, text, alloc) {
        Ok(()) => Ok(reply),
        Err(fault) => Err(fault),
    }
}
