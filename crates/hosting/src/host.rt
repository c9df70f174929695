//! One record to one reply.

ghost use Rattle.std.specs.Prelude.{◌≡◌, ◌++◌, [], List, ℕ, Ok, OnErr, OnOk};
ghost use Rattle.rpc.specs.Call.{message_at};
ghost use Rattle.nodes.specs.Shareds.{HasNotStrayed};
ghost use Rattle.peer_calls.specs.Calls.{judged, success_text};
ghost use Rattle.peer_calls.specs.NodeRequests.{node_ask};
ghost use Rattle.peer_calls.specs.declared.call.TheConstants.{NODE_PROGRAM};
ghost use Rattle.request_streams.specs.Serving.{IsAnswerIf};
ghost use Rattle.peer_calls.specs.NodeRequests.{Deliver};
ghost use Rattle.commitment.specs.RefusalNumbers.{refusal_number};
ghost use Rattle.hosting.specs.declared.host.Host.{Host};
ghost use Rattle.hosting.specs.Hosting.{AnswersCall, Does, IsAnswerTo, IsAnsweredUnderLock, IsLeft, IsNoMessage};
ghost use Rattle.hosting.specs.Hosting.{IsNumber, IsReceivedTold, IsRefused, IsReplied, MayDo, OnceFinished, call_of};
ghost use Rattle.hosting.specs.Hosting.{gives_logs, serves};

use crate::ready::Ready;
use crate::results::{add_refusal, add_results};
use crate::unwritten::{Progress, Unwritten};
use commitment::{Received, Refusal};
use nfs_items::Time;
use node_logs::Receipt;
use nodes::{HonestServer, ServerNode};
use peer_calls::{Asked, NODE_PROGRAM, NodeRequest, Unasked, judge_call, read_node_request};
use request_streams::Outcome;
use rpc::{Reply, ReplyBody, write_reply, write_success};
use std::alloc::{AllocError, Global};

/// SEGMENT.
const SEGMENT: u32 = 5;

/// BASE.
const BASE: u32 = 7;

/// How a server answers at an address.
#[derive(Clone, Copy, Debug)]
pub struct Host {
    /// The digest of the text of its roster.
    pub digest: [u8; 32],
    /// Whether segments of its log are given out there, and bases.
    pub gives_segments: bool,
}

/// Answers a record of the node's program at a time: the reply is written in place of what `out` holds, but for that
/// to a message that was received, which is left to be written by `Unwritten::finish`, without the server: nothing is
/// signed here for it. The checks run in the order of RFC 5531, section 9. What decodes is asked of the server, which
/// stays one that hasn't strayed: a refusal of it is told by its number after SUCCESS. SYSTEM_ERR is the reply only
/// where a growth was refused; what was asked may have been done then, and may be asked again. What was made ready of
/// the record isn't read and checked again.
pub fn answer_request<'r>(
    server: &mut HonestServer,
    alloc: Global,
    time: Time,
    host: &Host,
    ready: Ready<'r>,
    bytes: &'r [u8],
    out: &mut Vec<u8>,
) -> Progress
    ensures straight { HasNotStrayed server.old }
    ensures stays { HasNotStrayed server.new }
    ensures answers { OnceFinished (λ outcome text. AnswersCall host.now server.old time
        (judged NODE_PROGRAM (message_at bytes.now)) outcome text server.new) result out.new.items }
    ensures answer { OnceFinished (λ outcome text. IsAnswerIf (IsAnsweredUnderLock host.now) bytes.now text outcome)
        result out.new.items }
{
    host.answer_bytes(server, alloc, time, ready, bytes, out)
}

impl Host {
    /// The same as `answer_request`, without its last clause.
    fn answer_bytes<'r>(
        &self,
        server: &mut HonestServer,
        alloc: Global,
        time: Time,
        ready: Ready<'r>,
        bytes: &'r [u8],
        out: &mut Vec<u8>,
    ) -> Progress
        ensures straight { HasNotStrayed server.old }
        ensures stays { HasNotStrayed server.new }
        ensures answers { OnceFinished (λ outcome text. AnswersCall self.now server.old time
            (judged NODE_PROGRAM (message_at bytes.now)) outcome text server.new) result out.new.items }
    {
        let _straight = server.server();
        out.clear();
        let answered = match judge_call(NODE_PROGRAM, bytes) {
            Ok(asked) => answer_asked(server, alloc, time, self, ready, &asked, out),
            Err(Unasked::NoCall) => Progress::Done(Outcome::NoCall),
            Err(Unasked::Refused(reply)) => Progress::Done(replied(&reply, out)),
        };
        let _stays = server.server();
        answered
    }
}

/// Writes a reply without results to an empty vector.
fn replied(reply: &Reply, out: &mut Vec<u8>) -> Outcome
    requires { out.old.items ≡ [] }
    ensures { IsReplied reply.now result out.new.items }
{
    match write_reply(reply, out) {
        Ok(()) => Outcome::Replied,
        Err(_) => Outcome::NoMemory,
    }
}

/// Writes SYSTEM_ERR in place of what the vector holds.
pub(crate) fn short_of_memory(xid: u32, out: &mut Vec<u8>) -> Outcome
    ensures { IsReplied (record { xid = xid; body = ReplyBody.SystemError }) result out.new.items }
{
    out.clear();
    let body = ReplyBody::SystemError;
    replied(&Reply { xid, body }, out)
}

/// Answers a call whose arguments aren't read yet, into an empty vector.
fn answer_asked<'r>(
    server: &mut HonestServer,
    alloc: Global,
    time: Time,
    host: &Host,
    ready: Ready<'r>,
    asked: &Asked<'r>,
    out: &mut Vec<u8>,
) -> Progress
    requires { out.old.items ≡ [] }
    ensures { OnceFinished (λ outcome text. AnswersCall host.now server.old time (Ok (call_of asked.now)) outcome text
        server.new) result out.new.items }
{
    let xid = asked.xid;
    if !host.serves(asked.procedure) {
        let body = ReplyBody::ProcedureUnavailable;
        return Progress::Done(replied(&Reply { xid, body }, out));
    }
    match read_node_request(alloc, asked.procedure, asked.arguments) {
        Ok(request) => answer_read(server, alloc, time, host, ready, xid, &request, out),
        Err(body) => Progress::Done(replied(&Reply { xid, body }, out)),
    }
}

impl Host {
    /// Whether a procedure is served.
    fn serves(&self, procedure: u32) -> bool
        ensures { result ≡ serves self.now procedure }
    {
        if gives_logs(procedure) {
            self.gives_segments
        } else {
            true
        }
    }
}

/// Whether a procedure gives out a log, or what a whole state is.
fn gives_logs(procedure: u32) -> bool
    ensures { result ≡ gives_logs procedure }
{
    procedure == SEGMENT || procedure == BASE
}

/// Answers a request that was read, into an empty vector.
fn answer_read<'r>(
    server: &mut HonestServer,
    alloc: Global,
    time: Time,
    host: &Host,
    ready: Ready<'r>,
    xid: u32,
    request: &NodeRequest<'r>,
    out: &mut Vec<u8>,
) -> Progress
    requires { out.old.items ≡ [] }
    ensures { OnceFinished (λ outcome text. IsAnswerTo host.now server.old time xid (node_ask request.now) outcome text
        server.new) result out.new.items }
{
    match request {
        NodeRequest::Deliver(text) => deliver(server, alloc, time, ready, xid, text, out),
        _ => Progress::Done(answer_at_once(server, alloc, time, host, ready, xid, request, out)),
    }
}

/// Has a message received. What the server shows of it is left to be written; a refusal is told at once, in an empty
/// vector.
fn deliver<'r>(
    server: &mut HonestServer,
    alloc: Global,
    time: Time,
    ready: Ready<'r>,
    xid: u32,
    text: &'r [u8],
    out: &mut Vec<u8>,
) -> Progress
    requires { out.old.items ≡ [] }
    ensures { (h : Host) → OnceFinished (λ outcome answer. IsAnswerTo h server.old time xid (Deliver text.now) outcome
        answer server.new) result out.new.items }
{
    let received = server.receive_incoming(alloc, time, ready.message(text));
    answer_received(server.server(), alloc, xid, received, out)
}

/// What is answered to a message that was received, or refused, in an empty vector.
fn answer_received(
    server: &ServerNode,
    alloc: Global,
    xid: u32,
    received: Result<Received<Receipt>, Refusal>,
    out: &mut Vec<u8>,
) -> Progress
    requires { out.old.items ≡ [] }
    ensures { IsReceivedTold received server.now xid result out.new.items }
{
    match received {
        Ok(Received::New(receipt)) | Ok(Received::Repeat(receipt)) => {
            leave(server, alloc, xid, &receipt, out)
        }
        Err(refusal) => Progress::Done(refuse(refusal, xid, out)),
    }
}

/// Leaves what a server shows of a message to be written.
fn leave(
    server: &ServerNode,
    alloc: Global,
    xid: u32,
    receipt: &Receipt,
    out: &mut Vec<u8>,
) -> Progress
    ensures { IsLeft server.now receipt.now xid result out.new.items }
{
    match Unwritten::of(server, alloc, xid, receipt) {
        Ok(unwritten) => Progress::Unwritten(unwritten),
        Err(_) => Progress::Done(short_of_memory(xid, out)),
    }
}

/// Tells a refusal by its number, in an empty vector.
fn refuse(refusal: Refusal, xid: u32, out: &mut Vec<u8>) -> Outcome
    requires { out.old.items ≡ [] }
    ensures { IsRefused refusal xid result out.new.items }
{
    match add_refused(refusal, xid, out) {
        Ok(()) => Outcome::Replied,
        Err(_) => short_of_memory(xid, out),
    }
}

/// Appends a refusal's number after SUCCESS.
fn add_refused(refusal: Refusal, xid: u32, out: &mut Vec<u8>) -> Result<(), AllocError>
    requires { out.old.items ≡ [] }
    ensures { OnOk result ((results : List ℕ) × IsNumber (refusal_number refusal) results
        × (out.new.items ≡ success_text xid ++ results)) }
{
    write_success(xid, out)?;
    add_refusal(refusal, out)
}

/// Answers a request that was read, and asks for no message to be received, into an empty vector.
fn answer_at_once<'r>(
    server: &mut HonestServer,
    alloc: Global,
    time: Time,
    host: &Host,
    ready: Ready<'r>,
    xid: u32,
    request: &NodeRequest<'r>,
    out: &mut Vec<u8>,
) -> Outcome
    requires empty { out.old.items ≡ [] }
    requires no_message { IsNoMessage (node_ask request.now) }
    ensures { IsAnswerTo host.now server.old time xid (node_ask request.now) result out.new.items server.new }
{
    match add_answer(server, alloc, time, host, ready, xid, request, out) {
        Ok(()) => Outcome::Replied,
        Err(_) => short_of_memory(xid, out),
    }
}

/// Has a request done, and appends its results after SUCCESS to an empty vector. Where memory is refused, a part of
/// them may stand.
fn add_answer<'r>(
    server: &mut HonestServer,
    alloc: Global,
    time: Time,
    host: &Host,
    ready: Ready<'r>,
    xid: u32,
    request: &NodeRequest<'r>,
    out: &mut Vec<u8>,
) -> Result<(), AllocError>
    requires empty { out.old.items ≡ [] }
    requires no_message { IsNoMessage (node_ask request.now) }
    ensures done { OnOk result ((results : List ℕ)
        × Does host.now server.old time (node_ask request.now) results server.new
        × (out.new.items ≡ success_text xid ++ results)) }
    ensures refused { OnErr result (MayDo server.old time (node_ask request.now) server.new) }
{
    write_success(xid, out)?;
    add_results(server, alloc, time, host, ready, request, out)
}
