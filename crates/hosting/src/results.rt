//! What is asked of a server is done, and its results are written.

ghost use Rattle.std.specs.Prelude.{◌≡◌, ◌↔◌, ◌++◌, IsTrue, List, ℕ, OnErr, OnOk, Option};
ghost use Rattle.xdr.specs.Writing.{Adds};
ghost use Rattle.authenticator.specs.Signed.{authenticator_value};
ghost use Rattle.commitment.specs.RefusalNumbers.{refusal_number};
ghost use Rattle.commitment.specs.Senders.LookUps.{IsLastSigned};
ghost use Rattle.node_logs.specs.Nodes.{sender_of};
ghost use Rattle.peer_calls.specs.NodeRequests.{node_ask};
ghost use Rattle.hosting.specs.Hosting.{Does, HasPair, IsAckTold, IsAudited, IsGreeted, IsNoMessage, IsNumber};
ghost use Rattle.hosting.specs.Hosting.{IsSignedText, IsStood, MayDo, OnlyLooks, audited_text};
ghost use Rattle.nfs_items.specs.Timeval.{Timeval};

use crate::bases::add_based;
use crate::host::Host;
use crate::ready::Ready;
use authenticator::{Authenticator, LogVersion, is_same_hash};
use commitment::Refusal;
use nfs_items::Time;
use node_logs::AckTaken;
use nodes::{HonestServer, ServerNode};
use packets::{write_answer_text, write_learn};
use peer_calls::{After, Greeting, NodeRequest, Numbers};
use secure_log::SegmentFault;
use std::alloc::{AllocError, Global};
use xdr::Writer;

/// The results of a procedure that was done, and of one that was done before (section 4.5 of RFC 4506: words).
const DONE: u32 = 0;

const BEFORE: u32 = 10;

/// Has a request done that asks for no message to be received, and appends its results. Where memory is refused, a part
/// of them may stand.
pub(crate) fn add_results<'r>(
    server: &mut HonestServer,
    alloc: Global,
    time: Time,
    host: &Host,
    ready: Ready<'r>,
    request: &NodeRequest<'r>,
    out: &mut Vec<u8>,
) -> Result<(), AllocError>
    requires { IsNoMessage (node_ask request.now) }
    ensures done { OnOk result ((results : List ℕ)
        × Does host.now server.old time (node_ask request.now) results server.new
        × (out.new.items ≡ out.old.items ++ results)) }
    ensures refused { OnErr result (MayDo server.old time (node_ask request.now) server.new) }
{
    match request {
        NodeRequest::Acknowledge(text) => {
            let taken = server.take_incoming_ack(alloc, ready.acknowledgement(text));
            add_ack_told(taken, out)
        }
        _ => add_looked_up(server.server(), alloc, host, request, out),
    }
}

/// Appends the results of a request for which a server is only looked at. Where memory is refused, a part of them may
/// stand.
fn add_looked_up(
    server: &ServerNode,
    alloc: Global,
    host: &Host,
    request: &NodeRequest<'_>,
    out: &mut Vec<u8>,
) -> Result<(), AllocError>
    requires { OnlyLooks (node_ask request.now) }
    ensures { (time : Timeval) → OnOk result ((results : List ℕ)
        × Does host.now server.now time (node_ask request.now) results server.now
        × (out.new.items ≡ out.old.items ++ results)) }
{
    match request {
        NodeRequest::Null => Ok(()),
        NodeRequest::Greet(greeting) => add_greeted(greeting, host, out),
        NodeRequest::Deliver(_) => unreachable!(),
        NodeRequest::Acknowledge(_) => unreachable!(),
        NodeRequest::Signed(after) => add_signed(server, alloc, after, out),
        NodeRequest::Segment(numbers) => add_segment(server, alloc, numbers, out),
        NodeRequest::Stands(authenticator) => add_stood(server, authenticator, out),
        NodeRequest::Base(asked) => add_based(server, alloc, asked, out),
    }
}

/// Appends whether both go by one roster.
fn add_greeted(greeting: &Greeting, host: &Host, out: &mut Vec<u8>) -> Result<(), AllocError>
    ensures { OnOk result ((results : List ℕ) × IsGreeted greeting.now.digest host.now.digest results
        × (out.new.items ≡ out.old.items ++ results)) }
{
    if is_same_hash(&greeting.digest, &host.digest) {
        return out.put_u32(0);
    }
    out.put_u32(1)?;
    out.put_fixed(&host.digest)
}

/// Appends a refusal's number. Being out of memory has none, and is given back.
pub(crate) fn add_refusal(refusal: Refusal, out: &mut Vec<u8>) -> Result<(), AllocError>
    ensures { OnOk result ((results : List ℕ) × IsNumber (refusal_number refusal) results
        × (out.new.items ≡ out.old.items ++ results)) }
{
    match refusal.number() {
        Some(number) => out.put_u32(number),
        None => Err(AllocError),
    }
}

/// Appends what became of an acknowledgement.
fn add_ack_told(taken: Result<AckTaken, Refusal>, out: &mut Vec<u8>) -> Result<(), AllocError>
    ensures { OnOk result ((results : List ℕ) × IsAckTold taken results
        × (out.new.items ≡ out.old.items ++ results)) }
{
    match taken {
        Ok(AckTaken::Logged(_)) => out.put_u32(DONE),
        Ok(AckTaken::Already) => out.put_u32(BEFORE),
        Err(refusal) => add_refusal(refusal, out),
    }
}

/// Appends the last authenticator after a number, if there is one.
fn add_signed(
    server: &ServerNode,
    alloc: Global,
    after: &After,
    out: &mut Vec<u8>,
) -> Result<(), AllocError>
    ensures { OnOk result ((results : List ℕ)
        × ((l : Option ℕ) × IsLastSigned (sender_of server.now) after.now.number l
        × IsSignedText (sender_of server.now) l results)
        × (out.new.items ≡ out.old.items ++ results)) }
{
    let Some(number) = server.signed_after(after.number) else {
        return out.put_bool(false);
    };
    let Some(authenticator) = server.authenticator(alloc, number.get())? else {
        return Err(AllocError);
    };
    out.put_bool(true)?;
    write_learn(&authenticator, out)
}

/// Appends a segment, or why there is none.
fn add_segment(
    server: &ServerNode,
    alloc: Global,
    numbers: &Numbers,
    out: &mut Vec<u8>,
) -> Result<(), AllocError>
    ensures { OnOk result ((results : List ℕ) × IsAudited server.now numbers.now.first numbers.now.last results
        × (out.new.items ≡ out.old.items ++ results)) }
{
    match server.answer_challenge(alloc, numbers.first, numbers.last) {
        Ok(text) => add_answer(server.log_version(), &text, out),
        Err(SegmentFault::OutOfRange) => out.put_u32(1),
        Err(SegmentFault::TooLong) => out.put_u32(2),
        Err(_) => Err(AllocError),
    }
}

/// Appends a segment's packet.
fn add_answer(version: LogVersion, text: &[u8], out: &mut Vec<u8>) -> Result<(), AllocError>
    ensures { Adds (audited_text version text.now) out.old.items result out.new.items }
{
    out.put_u32(DONE)?;
    write_answer_text(version, text, out)
}

/// Appends whether an authenticator's pair stands in the log.
fn add_stood(
    server: &ServerNode,
    authenticator: &Authenticator,
    out: &mut Vec<u8>,
) -> Result<(), AllocError>
    ensures { OnOk result ((results : List ℕ)
        × IsStood server.now (authenticator_value authenticator.now) results
        × (out.new.items ≡ out.old.items ++ results)) }
{
    if has_pair(server, authenticator) {
        out.put_u32(0)
    } else {
        out.put_u32(1)
    }
}

/// Whether an authenticator names this server, and its number and hash are a pair of the log. Its signature
/// isn't looked at.
fn has_pair(server: &ServerNode, authenticator: &Authenticator) -> bool
    ensures { IsTrue result ↔ HasPair server.now (authenticator_value authenticator.now) }
{
    if authenticator.node != server.number() {
        return false;
    }
    let number = authenticator.word.number(server.log_version());
    match server.node().log().hash_at(number.get()) {
        Some(hash) => is_same_hash(&hash, &authenticator.hash),
        None => false,
    }
}
