//! What is asked of a node.

ghost use Rattle.std.specs.Prelude.{◌≡◌, ◌++◌, IfOk, option_map};
ghost use Rattle.xdr.specs.Item.{number_spelling, spelling};
ghost use Rattle.xdr.specs.Writing.{Adds, Appends};
ghost use Rattle.peer_calls.specs.Arguments.{GivesAsk};
ghost use Rattle.peer_calls.specs.Calls.{call_text};
ghost use Rattle.authenticator.specs.Signed.{authenticator_item, authenticator_value};
ghost use Rattle.peer_calls.specs.Arguments.{or_garbage};
ghost use Rattle.peer_calls.specs.NodeRequests.{node_arguments, node_ask, node_ask_at, node_call, node_procedure};
ghost use Rattle.peer_calls.specs.NodeRequests.{shown_at};

use crate::arguments::{
    After, BaseAfter, Greeting, Numbers, after_word, read_arguments, read_nothing, read_packet,
};
use crate::call::NODE_PROGRAM;
use crate::write::{add_base_after, add_greeting, add_numbers, add_packet, write_call};
use authenticator::Authenticator;
use rpc::ReplyBody;
use std::alloc::{AllocError, Global};
use xdr::texts::{TextFault, read_text};
use xdr::{Writer, all_or_nothing};

/// What is asked of a node: the procedures of its program, by rising numbers from 0.
#[derive(Drop)]
pub enum NodeRequest<'a> {
    /// Nothing.
    Null,
    /// Whether the node goes by the roster with this digest.
    Greet(Greeting),
    /// To receive the envelope with this text, to acknowledge it, and to reply.
    Deliver(&'a [u8]),
    /// To take the acknowledgement with this text.
    Acknowledge(&'a [u8]),
    /// The authenticator with the greatest number of the 4,096 after this one.
    Signed(After),
    /// The segment of the log from the first to the last of these numbers.
    Segment(Numbers),
    /// Whether the pair of number and hash of this authenticator stands in the log.
    Stands(Authenticator),
    /// The base of the node with this number at its last CHECK, if that is after this number.
    Base(BaseAfter),
}

/// The number of a packet with an authenticator, of one with an envelope, and of one with an acknowledgement.
const AUTHENTICATOR: u32 = 1;

const ENVELOPE: u32 = 2;

const ACK: u32 = 4;

/// What the arguments of a procedure ask of a node: `ProcedureUnavailable` where the procedure is above 7, else
/// `GarbageArguments` where they don't decode, or more follows. DELIVER and ACKNOWLEDGE decode by their first word
/// alone: whether a text follows is the node's to say. `SystemError` comes only where a growth was refused.
pub fn read_node_request<'a>(
    alloc: Global,
    procedure: u32,
    arguments: &'a [u8],
) -> Result<NodeRequest<'a>, ReplyBody>
    ensures { GivesAsk node_ask (node_ask_at procedure arguments.now) result }
{
    match procedure {
        0 => match read_nothing(arguments) {
            Ok(()) => Ok(NodeRequest::Null),
            Err(refusal) => Err(refusal),
        },
        1 => match read_arguments(alloc, arguments) {
            Ok(greeting) => Ok(NodeRequest::Greet(greeting)),
            Err(refusal) => Err(refusal),
        },
        2 => match read_packet(ENVELOPE, arguments) {
            Ok(text) => Ok(NodeRequest::Deliver(text)),
            Err(refusal) => Err(refusal),
        },
        3 => match read_packet(ACK, arguments) {
            Ok(text) => Ok(NodeRequest::Acknowledge(text)),
            Err(refusal) => Err(refusal),
        },
        4 => match read_arguments(alloc, arguments) {
            Ok(after) => Ok(NodeRequest::Signed(after)),
            Err(refusal) => Err(refusal),
        },
        5 => match read_arguments(alloc, arguments) {
            Ok(numbers) => Ok(NodeRequest::Segment(numbers)),
            Err(refusal) => Err(refusal),
        },
        6 => match read_authenticator(alloc, arguments) {
            Ok(authenticator) => Ok(NodeRequest::Stands(authenticator)),
            Err(refusal) => Err(refusal),
        },
        7 => match read_arguments(alloc, arguments) {
            Ok(base) => Ok(NodeRequest::Base(base)),
            Err(refusal) => Err(refusal),
        },
        _ => Err(ReplyBody::ProcedureUnavailable),
    }
}

/// The authenticator of a packet with one, None where the bytes are no such packet. Its signature isn't checked.
/// `AllocError` comes only where a growth was refused.
pub fn read_shown(alloc: Global, packet: &[u8]) -> Result<Option<Authenticator>, AllocError>
    ensures { IfOk result (λ a. option_map authenticator_value a ≡ shown_at packet.now) }
{
    let Some(text) = after_word(AUTHENTICATOR, packet) else {
        return Ok(None);
    };
    match read_text::<Authenticator>(alloc, text) {
        Ok(authenticator) => Ok(Some(authenticator)),
        Err(TextFault::NotAText) => Ok(None),
        Err(TextFault::NoMemory) => Err(AllocError),
    }
}

/// The authenticator of the packet that the arguments are.
fn read_authenticator(alloc: Global, arguments: &[u8]) -> Result<Authenticator, ReplyBody>
    ensures { GivesAsk authenticator_value (or_garbage (shown_at arguments.now)) result }
{
    match read_shown(alloc, arguments) {
        Ok(Some(authenticator)) => Ok(authenticator),
        Ok(None) => Err(ReplyBody::GarbageArguments),
        Err(AllocError) => Err(ReplyBody::SystemError),
    }
}

impl NodeRequest<'_> {
    /// The number of its procedure.
    pub fn procedure(&self) -> u32
        ensures { result ≡ node_procedure (node_ask self.now) }
    {
        match self {
            NodeRequest::Null => 0,
            NodeRequest::Greet(_) => 1,
            NodeRequest::Deliver(_) => 2,
            NodeRequest::Acknowledge(_) => 3,
            NodeRequest::Signed(_) => 4,
            NodeRequest::Segment(_) => 5,
            NodeRequest::Stands(_) => 6,
            NodeRequest::Base(_) => 7,
        }
    }
}

/// Appends the call that asks a node. Where memory is refused, the bytes are as they were.
pub fn write_node_request(
    xid: u32,
    request: &NodeRequest<'_>,
    out: &mut Vec<u8>,
) -> Result<(), AllocError>
    ensures { Appends (node_call xid (node_ask request.now)) out.old.items result out.new.items }
{
    let start = out.len();
    let written = add_request(xid, request, out);
    all_or_nothing(out, start, written)
}

fn add_request(xid: u32, request: &NodeRequest<'_>, out: &mut Vec<u8>) -> Result<(), AllocError>
    ensures { Adds (call_text xid NODE_PROGRAM (node_procedure (node_ask request.now))
        ++ node_arguments (node_ask request.now)) out.old.items result out.new.items }
{
    write_call(xid, NODE_PROGRAM, request.procedure(), out)?;
    add_arguments(request, out)
}

fn add_arguments(request: &NodeRequest<'_>, out: &mut Vec<u8>) -> Result<(), AllocError>
    ensures { Adds (node_arguments (node_ask request.now)) out.old.items result out.new.items }
{
    match request {
        NodeRequest::Null => Ok(()),
        NodeRequest::Greet(greeting) => add_greeting(greeting, out),
        NodeRequest::Deliver(text) => add_packet(ENVELOPE, text, out),
        NodeRequest::Acknowledge(text) => add_packet(ACK, text, out),
        NodeRequest::Signed(after) => out.put_u64(after.number),
        NodeRequest::Segment(numbers) => add_numbers(numbers, out),
        NodeRequest::Stands(authenticator) => add_shown(authenticator, out),
        NodeRequest::Base(base) => add_base_after(base, out),
    }
}

/// Appends the packet of an authenticator. Where memory is refused, a part of it may stand.
fn add_shown(authenticator: &Authenticator, out: &mut Vec<u8>) -> Result<(), AllocError>
    ensures { Adds (number_spelling 4 1 ++ spelling authenticator_item (authenticator_value authenticator.now))
        out.old.items result out.new.items }
{
    out.put_u32(AUTHENTICATOR)?;
    authenticator.write(out)
}
