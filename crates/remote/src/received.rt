//! The reply to a call.

ghost use Rattle.std.specs.Prelude.{◌≡◌, ◌≤◌, ◌+◌, ◌↔◌, IsTrue, IsSomeAnd, IfErr, IfOk, Some, length, take};
ghost use Rattle.secure_log.specs.declared.log_entries.entry.TheConstants.{MAX_BODY};
ghost use Rattle.authenticator.specs.Numbers.{number_in};
ghost use Rattle.authenticator.specs.Roster.{member_of};
ghost use Rattle.commitment.specs.Senders.LookUps.{ack_at};
ghost use Rattle.envelopes.specs.declared.acknowledgement.Ack.{Ack};
ghost use Rattle.envelopes.specs.declared.envelope.Envelope.{Envelope};
ghost use Rattle.node_logs.specs.Nodes.{sender_of};
ghost use Rattle.remote.specs.Remotes.{IsRemote, remote_of};
ghost use Rattle.remote.specs.declared.fault.AcceptFault.TheVariants.{NoMemory};
ghost use Rattle.remote.specs.Receipts.{Receives, RefusesReceiving};
ghost use Rattle.remote.specs.Replies.{IsReplied, IsReplyTo, RefusesReply, WritesReceipt};
ghost use Rattle.remote.specs.Sent.{IsTextFrom, NotTextFrom};

use crate::fault::{AcceptFault, reply_fault};
use crate::sent::has_xid;
use authenticator::{LogVersion, Number, Word};
use commitment::Received;
use envelopes::{Ack, Envelope};
use nodes::ClientNode;
use std::alloc::Global;
use xdr::texts::{TextFault, read_text};

/// The most bytes of an acknowledgement's text.
const MAX_ACK_TEXT: usize = 17_056;

/// Takes the bytes of the reply to a call that begins with a transaction id and is acknowledged, and writes
/// the text of the acknowledgement of it, in place of what the bytes were. Gives the reply's body. Memory for
/// both is taken before anything is logged.
pub(crate) fn take_reply(
    client: &mut ClientNode,
    server: u32,
    alloc: Global,
    xid: &[u8; 4],
    ack: &Ack,
    bytes: &[u8],
    receipt: &mut Vec<u8>,
) -> Result<Vec<u8>, AcceptFault>
    requires { IsRemote (remote_of client.old server) }
    ensures taken { (call : Envelope) → xid.now ≡ take 4 call.body → IfOk result (λ v.
        IsReplied (remote_of client.old server) call ack.now bytes.now v.items receipt.new.items
        (remote_of client.new server)) }
    ensures refused { (call : Envelope) → xid.now ≡ take 4 call.body → IfErr result (λ f.
        RefusesReply (remote_of client.old server) call ack.now bytes.now f
        (remote_of client.new server)) }
    ensures remote { IsRemote (remote_of client.new server) }
    ensures size { IfOk result (λ v. length v.items ≤ MAX_BODY) }
{
    let envelope = read_from(alloc, server, bytes)?;
    let body = copy_of(envelope.body.bytes(), alloc)?;
    reserve(receipt)?;
    let is_reply = is_reply(client, server, xid, ack, &envelope);
    let taken = client.take_reply(alloc, bytes);
    client.node().is_honest();
    match taken {
        Ok(received) => match received {
            Received::New(number) => {
                if !is_reply {
                    return Err(AcceptFault::AnotherCall(number));
                }
                match write_receipt(client, number, receipt) {
                    Ok(()) => Ok(body),
                    Err(fault) => Err(fault),
                }
            }
            Received::Repeat(number) => Err(AcceptFault::Repeated(number)),
        },
        Err(refusal) => Err(reply_fault(refusal)),
    }
}

/// Takes the bytes of an envelope from the server for which no call waits.
pub(crate) fn receive(
    client: &mut ClientNode,
    server: u32,
    alloc: Global,
    bytes: &[u8],
) -> Result<Received<Number>, AcceptFault>
    requires { IsRemote (remote_of client.old server) }
    ensures received { IfOk result (λ r.
        Receives (remote_of client.old server) bytes.now r (remote_of client.new server)) }
    ensures refused { IfErr result (λ f.
        RefusesReceiving (remote_of client.old server) bytes.now f (remote_of client.new server)) }
    ensures remote { IsRemote (remote_of client.new server) }
{
    let _envelope = read_from(alloc, server, bytes)?;
    let taken = client.take_reply(alloc, bytes);
    client.node().is_honest();
    match taken {
        Ok(received) => Ok(received),
        Err(refusal) => Err(reply_fault(refusal)),
    }
}

/// Whether an envelope is the reply to the call that begins with a transaction id and is acknowledged.
fn is_reply(client: &ClientNode, server: u32, xid: &[u8; 4], ack: &Ack, envelope: &Envelope) -> bool
    requires { IsRemote (remote_of client.now server) }
    ensures { (call : Envelope) → xid.now ≡ take 4 call.body →
        (IsTrue result ↔ IsReplyTo (remote_of client.now server) call ack.now envelope.now) }
{
    let version = server_version(client, server);
    is_two_after(ack.number, envelope.seq, version) && has_xid(envelope.body.bytes(), xid)
}

/// Whether a word's number is two after that of another, in a log of this version.
fn is_two_after(before: Word, word: Word, version: LogVersion) -> bool
    ensures { IsTrue result ↔ (number_in version word ≡ number_in version before + 2) }
{
    let number = word.number(version).get();
    number >= 2 && number - 2 == before.number(version).get()
}

/// The version of the server's log, as the roster has it.
fn server_version(client: &ClientNode, server: u32) -> LogVersion
    requires { IsRemote (remote_of client.now server) }
    ensures { IsSomeAnd (member_of client.now.roster server) (λ m. m.log_version ≡ result) }
{
    match client.node().roster().member(server) {
        Some(member) => member.log_version,
        None => LogVersion::One,
    }
}

/// Writes the text of the acknowledgement that the RECV with a number makes, in place of what the bytes were.
fn write_receipt(client: &ClientNode, number: Number, text: &mut Vec<u8>) -> Result<(), AcceptFault>
    ensures { (a : Ack) → ack_at (sender_of client.now) number ≡ Some a →
        WritesReceipt a result text.new.items }
{
    text.clear();
    let Some(ack) = client.ack(number.get()) else {
        return Err(AcceptFault::NoMemory);
    };
    match ack.write(text) {
        Ok(()) => Ok(()),
        Err(_) => Err(AcceptFault::NoMemory),
    }
}

/// Reads the text of an envelope from a server: of other bytes `Unanswered`. `NoMemory` comes only where a
/// growth was refused.
fn read_from(alloc: Global, server: u32, bytes: &[u8]) -> Result<Envelope, AcceptFault>
    ensures read { IfOk result (IsTextFrom server bytes.now) }
    ensures refused { IfErr result (NotTextFrom server bytes.now) }
{
    let envelope: Envelope = match read_text(alloc, bytes) {
        Ok(envelope) => envelope,
        Err(TextFault::NoMemory) => return Err(AcceptFault::NoMemory),
        Err(TextFault::NotAText) => return Err(AcceptFault::Unanswered),
    };
    if envelope.from != server {
        return Err(AcceptFault::Unanswered);
    }
    Ok(envelope)
}

/// A copy of bytes.
fn copy_of(bytes: &[u8], alloc: Global) -> Result<Vec<u8>, AcceptFault>
    ensures copy { IfOk result (λ v. v.items ≡ bytes.now) }
    ensures refused { IfErr result (λ f. f ≡ NoMemory) }
{
    match bytes.to_vec(alloc) {
        Ok(copy) => Ok(copy),
        Err(_) => Err(AcceptFault::NoMemory),
    }
}

/// Makes room for the text of an acknowledgement.
fn reserve(text: &mut Vec<u8>) -> Result<(), AcceptFault>
    ensures { IfErr result (λ f. f ≡ NoMemory) }
{
    text.clear();
    match text.reserve(MAX_ACK_TEXT) {
        Ok(()) => Ok(()),
        Err(_) => Err(AcceptFault::NoMemory),
    }
}
