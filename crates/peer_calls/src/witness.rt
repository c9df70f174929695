//! What is asked of a witness.

ghost use Rattle.std.specs.Prelude.{◌≡◌, ◌++◌};
ghost use Rattle.xdr.specs.Writing.{Adds, Appends};
ghost use Rattle.peer_calls.specs.Arguments.{GivesAsk};
ghost use Rattle.peer_calls.specs.Calls.{call_text};
ghost use Rattle.peer_calls.specs.WitnessRequests.{witness_arguments, witness_ask, witness_ask_at, witness_call};
ghost use Rattle.peer_calls.specs.WitnessRequests.{witness_procedure};

use crate::arguments::{BaseAfter, Greeting, NodeNumber, read_arguments, read_nothing};
use crate::call::WITNESS_PROGRAM;
use crate::write::{add_base_after, add_greeting, write_call};
use rpc::ReplyBody;
use std::alloc::{AllocError, Global};
use xdr::{Writer, all_or_nothing};

/// What is asked of a witness: the procedures of its program, by rising numbers from 0.
#[derive(Clone, Copy, Debug)]
pub enum WitnessRequest<'a> {
    /// Nothing.
    Null,
    /// Whether the witness goes by the roster with this digest.
    Greet(Greeting),
    /// To take this packet: an authenticator, an envelope that is to be acknowledged, a segment that was asked for,
    /// or an acknowledgement.
    Deliver(&'a [u8]),
    /// What it awaits of a node: the audit and the messages that are open.
    Wanted(NodeNumber),
    /// What it says of a node.
    Told(NodeNumber),
    /// The authenticator of a node with the greatest number of those that it was shown.
    Shown(NodeNumber),
    /// Its evidence of a node.
    Case(NodeNumber),
    /// The base by which its own books of a node began, if that is after this number.
    Base(BaseAfter),
}

/// What the arguments of a procedure ask of a witness: `ProcedureUnavailable` where the procedure is above 7, else
/// `GarbageArguments` where they don't decode, or more follows. The arguments of DELIVER are the packet, whatever
/// they are. `SystemError` comes only where a growth was refused.
pub fn read_witness_request<'a>(
    alloc: Global,
    procedure: u32,
    arguments: &'a [u8],
) -> Result<WitnessRequest<'a>, ReplyBody>
    ensures { GivesAsk witness_ask (witness_ask_at procedure arguments.now) result }
{
    match procedure {
        0 => match read_nothing(arguments) {
            Ok(()) => Ok(WitnessRequest::Null),
            Err(refusal) => Err(refusal),
        },
        1 => match read_arguments(alloc, arguments) {
            Ok(greeting) => Ok(WitnessRequest::Greet(greeting)),
            Err(refusal) => Err(refusal),
        },
        2 => Ok(WitnessRequest::Deliver(arguments)),
        3 => match read_arguments(alloc, arguments) {
            Ok(node) => Ok(WitnessRequest::Wanted(node)),
            Err(refusal) => Err(refusal),
        },
        4 => match read_arguments(alloc, arguments) {
            Ok(node) => Ok(WitnessRequest::Told(node)),
            Err(refusal) => Err(refusal),
        },
        5 => match read_arguments(alloc, arguments) {
            Ok(node) => Ok(WitnessRequest::Shown(node)),
            Err(refusal) => Err(refusal),
        },
        6 => match read_arguments(alloc, arguments) {
            Ok(node) => Ok(WitnessRequest::Case(node)),
            Err(refusal) => Err(refusal),
        },
        7 => match read_arguments(alloc, arguments) {
            Ok(base) => Ok(WitnessRequest::Base(base)),
            Err(refusal) => Err(refusal),
        },
        _ => Err(ReplyBody::ProcedureUnavailable),
    }
}

impl WitnessRequest<'_> {
    /// The number of its procedure.
    pub fn procedure(&self) -> u32
        ensures { result ≡ witness_procedure (witness_ask self.now) }
    {
        match self {
            WitnessRequest::Null => 0,
            WitnessRequest::Greet(_) => 1,
            WitnessRequest::Deliver(_) => 2,
            WitnessRequest::Wanted(_) => 3,
            WitnessRequest::Told(_) => 4,
            WitnessRequest::Shown(_) => 5,
            WitnessRequest::Case(_) => 6,
            WitnessRequest::Base(_) => 7,
        }
    }
}

/// Appends the call that asks a witness. Where memory is refused, the bytes are as they were.
pub fn write_witness_request(
    xid: u32,
    request: &WitnessRequest<'_>,
    out: &mut Vec<u8>,
) -> Result<(), AllocError>
    ensures { Appends (witness_call xid (witness_ask request.now)) out.old.items result out.new.items }
{
    let start = out.len();
    let written = add_request(xid, request, out);
    all_or_nothing(out, start, written)
}

fn add_request(xid: u32, request: &WitnessRequest<'_>, out: &mut Vec<u8>) -> Result<(), AllocError>
    ensures { Adds (call_text xid WITNESS_PROGRAM (witness_procedure (witness_ask request.now))
        ++ witness_arguments (witness_ask request.now)) out.old.items result out.new.items }
{
    write_call(xid, WITNESS_PROGRAM, request.procedure(), out)?;
    add_arguments(request, out)
}

fn add_arguments(request: &WitnessRequest<'_>, out: &mut Vec<u8>) -> Result<(), AllocError>
    ensures { Adds (witness_arguments (witness_ask request.now)) out.old.items result out.new.items }
{
    match request {
        WitnessRequest::Null => Ok(()),
        WitnessRequest::Greet(greeting) => add_greeting(greeting, out),
        WitnessRequest::Deliver(packet) => out.extend_from_slice(packet),
        WitnessRequest::Wanted(node) => out.put_u32(node.node),
        WitnessRequest::Told(node) => out.put_u32(node.node),
        WitnessRequest::Shown(node) => out.put_u32(node.node),
        WitnessRequest::Case(node) => out.put_u32(node.node),
        WitnessRequest::Base(base) => add_base_after(base, out),
    }
}
