//! What a client makes of all that came back for a call.

ghost use Rattle.std.specs.Prelude.{◌≡◌, ◌≤◌, IfErr, IfOk, IfSome, IsSome, None, length};
ghost use Rattle.std.specs.Option.{option_map};
ghost use Rattle.secure_log.specs.declared.log_entries.entry.TheConstants.{MAX_BODY};
ghost use Rattle.remote.specs.Remotes.{IsRemote, remote_of};
ghost use Rattle.remote.specs.declared.fault.AcceptFault.TheVariants.{NotOwed};
ghost use Rattle.remote.specs.Answers.{Accepts, Refuses};

use crate::fault::AcceptFault;
use crate::received::take_reply;
use crate::taken::{sent, take_ack};
use authenticator::Number;
use nodes::ClientNode;
use std::alloc::Global;

/// Takes what came back for the call with a number: the bytes of an acknowledgement, and those of a reply, if
/// any came.
pub(crate) fn accept(
    client: &mut ClientNode,
    server: u32,
    alloc: Global,
    number: Number,
    ack: &[u8],
    reply: Option<&[u8]>,
    receipt: &mut Vec<u8>,
) -> Result<Option<Vec<u8>>, AcceptFault>
    requires { IsRemote (remote_of client.old server) }
    ensures accepted { IfOk result (λ r. Accepts (remote_of client.old server) number ack.now
        (option_map (λ b. b.now) reply.entry) (option_map (λ v. v.items) r) receipt.new.items
        (remote_of client.new server)) }
    ensures refused { IfErr result (λ f. Refuses (remote_of client.old server) number ack.now
        (option_map (λ b. b.now) reply.entry) f (remote_of client.new server)) }
    ensures remote { IsRemote (remote_of client.new server) }
    ensures size { IfOk result (λ r. IfSome r (λ v. length v.items ≤ MAX_BODY)) }
{
    let Some(call) = sent(client, server, number) else {
        return Err(AcceptFault::NotAcknowledged);
    };
    let ack = match take_ack(client, server, alloc, call.word, ack) {
        Ok(ack) => ack,
        Err(fault) => return Err(fault),
    };
    let Some(xid) = call.xid else {
        return unowed(reply);
    };
    let Some(bytes) = reply else {
        return Err(AcceptFault::Unanswered);
    };
    match take_reply(client, server, alloc, &xid, &ack, bytes, receipt) {
        Ok(body) => Ok(Some(body)),
        Err(fault) => Err(fault),
    }
}

/// The answer to a call to which no reply is owed.
fn unowed(reply: Option<&[u8]>) -> Result<Option<Vec<u8>>, AcceptFault>
    ensures none { IfOk result (λ r. (r ≡ None) × (option_map (λ b. b.now) reply.entry ≡ None)) }
    ensures some { IfErr result (λ f. (f ≡ NotOwed) × IsSome (option_map (λ b. b.now) reply.entry)) }
{
    match reply {
        None => Ok(None),
        Some(_) => Err(AcceptFault::NotOwed),
    }
}
