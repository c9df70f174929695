//! The acknowledgement of a call.

ghost use Rattle.std.specs.Prelude.{◌≡◌, ◌↔◌, ℕ, IsTrue, IfErr, IfOk, IfSome, IfNone};
ghost use Rattle.std.specs.List.{Any};
ghost use Rattle.secure_log.specs.declared.log_entries.entry.Entry.{Entry};
ghost use Rattle.envelopes.specs.declared.envelope.Envelope.{Envelope};
ghost use Rattle.node_logs.specs.AckTaking.{ack_entry};
ghost use Rattle.remote.specs.Remotes.{IsRemote, remote_of};
ghost use Rattle.remote.specs.Calls.{IsCallAt};
ghost use Rattle.remote.specs.Replies.{IsAcknowledged, RefusesAck};
ghost use Rattle.remote.specs.Sent.{IsAckBy, IsKeptOf, NotAckBy};

use crate::fault::{AcceptFault, ack_fault};
use crate::sent::{Sent, xid_owed};
use authenticator::{Number, Word, is_same_hash};
use envelopes::Ack;
use nodes::{AckTaken, ClientNode};
use secure_log::log_entries::Entry;
use std::alloc::Global;
use xdr::texts::{TextFault, read_text};

/// What is kept of the call with a number: None where that isn't the number of a SEND to the server. Takes no
/// memory.
pub(crate) fn sent(client: &ClientNode, server: u32, number: Number) -> Option<Sent>
    ensures kept { IfSome result (λ s.
        (call : Envelope) × (IsCallAt (remote_of client.now server) number call × IsKeptOf call s)) }
    ensures none { IfNone result
        ((call : Envelope) → ¬ IsCallAt (remote_of client.now server) number call) }
{
    let Some(envelope) = client.envelope(number.get()) else {
        return None;
    };
    if envelope.to != server || envelope.seq.number(client.log_version()) != number {
        return None;
    }
    Some(Sent {
        word: envelope.seq,
        xid: xid_owed(envelope.body.bytes()),
    })
}

/// Takes the bytes of an acknowledgement of the call that has a word. They are looked at before anything is
/// logged.
pub(crate) fn take_ack(
    client: &mut ClientNode,
    server: u32,
    alloc: Global,
    word: Word,
    bytes: &[u8],
) -> Result<Ack, AcceptFault>
    requires { IsRemote (remote_of client.old server) }
    ensures taken { (number : ℕ) (call : Envelope) → IsCallAt (remote_of client.old server) number call
        → word ≡ call.seq → IfOk result (λ a. IsAcknowledged (remote_of client.old server) number
        bytes.now call a (remote_of client.new server)) }
    ensures refused { (number : ℕ) (call : Envelope) → IsCallAt (remote_of client.old server) number call
        → word ≡ call.seq → IfErr result (λ f. RefusesAck (remote_of client.old server) number
        bytes.now f (remote_of client.new server)) }
    ensures remote { IsRemote (remote_of client.new server) }
{
    let ack = read_ack(alloc, server, word, bytes)?;
    match client.take_ack(alloc, bytes) {
        Ok(AckTaken::Logged(_)) => Ok(ack),
        Ok(AckTaken::Already) => {
            if has_ack(client.node().log().entries(), &ack) {
                Ok(ack)
            } else {
                Err(AcceptFault::AcknowledgedTwice)
            }
        }
        Err(refusal) => Err(ack_fault(refusal)),
    }
}

/// Reads the text of an acknowledgement by a server of a word: of other bytes `NotAcknowledged`. `NoMemory`
/// comes only where a growth was refused.
fn read_ack(alloc: Global, server: u32, word: Word, bytes: &[u8]) -> Result<Ack, AcceptFault>
    ensures read { IfOk result (IsAckBy server word bytes.now) }
    ensures refused { IfErr result (NotAckBy server word bytes.now) }
{
    let ack: Ack = match read_text(alloc, bytes) {
        Ok(ack) => ack,
        Err(TextFault::NoMemory) => return Err(AcceptFault::NoMemory),
        Err(TextFault::NotAText) => return Err(AcceptFault::NotAcknowledged),
    };
    if ack.by != server || ack.seq != word {
        return Err(AcceptFault::NotAcknowledged);
    }
    Ok(ack)
}

/// Whether entries have the ACK that an acknowledgement makes. It looks from the last one back, and takes no
/// memory.
fn has_ack(entries: &[Entry], ack: &Ack) -> bool
    ensures { IsTrue result ↔ Any (λ (e : Entry). e ≡ ack_entry ack.now) entries.now }
{
    entries.iter().rev().any(|entry| is_ack_entry(entry, ack))
}

/// Whether an entry is the ACK that an acknowledgement makes. Takes no memory.
fn is_ack_entry(entry: &Entry, ack: &Ack) -> bool
    ensures { IsTrue result ↔ (entry.now ≡ ack_entry ack.now) }
{
    match entry {
        Entry::Ack {
            to,
            seq,
            mine,
            number,
            prev,
            signature,
        } => {
            *to == ack.by
                && *seq == ack.seq
                && is_same_hash(mine, &ack.signature_hash)
                && *number == ack.number
                && is_same_hash(prev, &ack.prev)
                && signature.is_same(&ack.signature)
        }
        _ => false,
    }
}
