//! One record to one reply.

ghost use Rattle.std.specs.Prelude.{◌≡◌, ◌++◌, [], List, ℕ, OnErr, OnOk};
ghost use Rattle.rpc.specs.Call.{message_at};
ghost use Rattle.peer_calls.specs.Calls.{judged, success_text};
ghost use Rattle.peer_calls.specs.WitnessRequests.{witness_ask, witness_ask_at};
ghost use Rattle.peer_calls.specs.declared.call.TheConstants.{WITNESS_PROGRAM};
ghost use Rattle.std.specs.Prelude.{Ok};
ghost use Rattle.witness_books.specs.Books.{beginning_of};
ghost use Rattle.watching.specs.Answers.{AnswersRecord, Does, IsWritten, MayDo, RepliesTo, call_in};

use crate::results::{Host, add_results};
use crate::standing::Standing;
use peer_calls::{
    Asked, Unasked, WITNESS_PROGRAM, WitnessRequest, judge_call, read_witness_request,
};
use rpc::{Reply, ReplyBody, write_reply, write_success};
use std::alloc::{AllocError, Global};
use witness_calls::SignatureCache;

/// What became of a record.
#[derive(Clone, Copy, Debug, PartialEq, Eq)]
pub enum Outcome {
    /// It has a reply.
    Replied,
    /// It is no call, and gets no reply (RFC 5531, section 9).
    NoCall,
    /// A growth was refused, for the reply too. What was asked may have been done, and may be asked again.
    NoMemory,
}

/// Answers a record of the witness's program: the reply is written in place of what `out` holds. The checks
/// run in the order of RFC 5531, section 9. A packet is one step of the books, and what is told of a node is
/// what the books reply to questions; a refusal of the books is told by its number after SUCCESS, and changes
/// nothing. SYSTEM_ERR is the reply only where a growth was refused; what was asked may have been done then,
/// and may be asked again.
pub fn answer_request(
    standing: &mut Standing,
    alloc: Global,
    cache: &mut SignatureCache,
    host: &Host,
    record: &[u8],
    out: &mut Vec<u8>,
) -> Outcome
    ensures beginning { beginning_of standing.new.books ≡ beginning_of standing.old.books }
    ensures answers { AnswersRecord host.now standing.old (judged WITNESS_PROGRAM (message_at «record».now))
        result out.new.items standing.new }
{
    out.clear();
    match judge_call(WITNESS_PROGRAM, record) {
        Ok(asked) => answer_asked(standing, alloc, cache, host, &asked, out),
        Err(Unasked::NoCall) => Outcome::NoCall,
        Err(Unasked::Refused(reply)) => replied(&reply, out),
    }
}

/// Writes a reply without results to an empty vector.
fn replied(reply: &Reply, out: &mut Vec<u8>) -> Outcome
    requires { out.old.items ≡ [] }
    ensures { IsWritten reply.now result out.new.items }
{
    match write_reply(reply, out) {
        Ok(()) => Outcome::Replied,
        Err(_) => Outcome::NoMemory,
    }
}

/// Answers a call whose arguments aren't read yet, into an empty vector.
fn answer_asked(
    standing: &mut Standing,
    alloc: Global,
    cache: &mut SignatureCache,
    host: &Host,
    asked: &Asked<'_>,
    out: &mut Vec<u8>,
) -> Outcome
    requires { out.old.items ≡ [] }
    ensures beginning { beginning_of standing.new.books ≡ beginning_of standing.old.books }
    ensures answers { RepliesTo host.now standing.old asked.now.xid
        (witness_ask_at asked.now.procedure asked.now.arguments.now) result out.new.items standing.new }
{
    let xid = asked.xid;
    match read_witness_request(alloc, asked.procedure, asked.arguments) {
        Ok(request) => answer_read(standing, alloc, cache, host, xid, &request, out),
        Err(body) => replied(&Reply { xid, body }, out),
    }
}

/// Answers a request that was read, into an empty vector.
fn answer_read(
    standing: &mut Standing,
    alloc: Global,
    cache: &mut SignatureCache,
    host: &Host,
    xid: u32,
    request: &WitnessRequest<'_>,
    out: &mut Vec<u8>,
) -> Outcome
    requires { out.old.items ≡ [] }
    ensures beginning { beginning_of standing.new.books ≡ beginning_of standing.old.books }
    ensures answers { RepliesTo host.now standing.old xid (Ok (witness_ask request.now)) result out.new.items
        standing.new }
{
    match add_answer(standing, alloc, cache, host, xid, request, out) {
        Ok(()) => Outcome::Replied,
        Err(_) => {
            out.clear();
            let body = ReplyBody::SystemError;
            replied(&Reply { xid, body }, out)
        }
    }
}

/// Has a request done, and writes its results after SUCCESS to an empty vector. Where memory is refused, a
/// part of them may stand.
fn add_answer(
    standing: &mut Standing,
    alloc: Global,
    cache: &mut SignatureCache,
    host: &Host,
    xid: u32,
    request: &WitnessRequest<'_>,
    out: &mut Vec<u8>,
) -> Result<(), AllocError>
    requires { out.old.items ≡ [] }
    ensures beginning { beginning_of standing.new.books ≡ beginning_of standing.old.books }
    ensures done { OnOk result ((results : List ℕ)
        × Does host.now standing.old (witness_ask request.now) results standing.new
        × (out.new.items ≡ success_text xid ++ results)) }
    ensures refused { OnErr result (MayDo standing.old (witness_ask request.now) standing.new) }
{
    write_success(xid, out)?;
    add_results(standing, alloc, cache, host, request, out)
}
