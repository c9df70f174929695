//! One visit at a server: its log is audited, and it is handed what it is to acknowledge.

use crate::brought::{AUTHENTICATOR, is_of, packet_of};
use crate::causes::Cause;
use crate::context::Context;
use crate::filing::replay;
use crate::going_on::go_on;
use crate::links::Link;
use challenge::Challenge;
use envelopes::Envelope;
use peer_calls::{
    After, Delivered, NodeRequest, Numbers, Segment, read_delivered, read_segment, read_signed,
};
use peer_connections::PeerCaller;
use std::io::Write;
use std::net::{Net, TcpListener, TcpStream};
use std::sync::Wait;
use std::thread::Threads;
use std::time::Clock;
use watching::Delivered as Became;

/// The most segments that are asked for in one visit.
const MAX_SEGMENTS: u32 = 64;

/// The most bytes of the answers to SIGNED, SEGMENT and DELIVER.
const MOST_SIGNED: u32 = 16_980;

const MOST_SEGMENT: u32 = 119_833_220;

const MOST_DELIVERED: u32 = 46_340;

/// The number of a packet with an acknowledgement.
const ACK: u32 = 4;

/// Visits a server. Why that failed is said, once until it changes. A connection that stood since the round before and
/// is found broken is made anew at once.
pub(crate) fn visit<R, T, W, E, S>(context: Context<'_, R, T, W, E, S>, link: &mut Link<'_>)
where
    R: Threads + Wait + Sync + Net<Listener = TcpListener, Stream = TcpStream>,
    T: Clock,
    W: Write,
    E: Write,
{
    let was_connected = link.caller.is_some();
    let mut visited = try_visit(context, link);
    if was_connected && matches!(visited, Err(Cause::Broken)) {
        visited = try_visit(context, link);
    }
    match visited {
        Ok(()) => link.said.clear(),
        Err(cause) => link.note_cause(context, &cause),
    }
}

/// Visits a server. It is handed the messages also where its log wasn't shown. Once that was audited its books go on by a
/// base, where they are to. The connection stands for the next round where nothing failed.
fn try_visit<R, T, W, E, S>(
    context: Context<'_, R, T, W, E, S>,
    link: &mut Link<'_>,
) -> Result<(), Cause>
where
    R: Threads + Wait + Sync + Net<Listener = TcpListener, Stream = TcpStream>,
    T: Clock,
    W: Write,
    E: Write,
{
    let Some(mut caller) = link.connect(context)? else {
        return Ok(());
    };
    let audited = audit_and_go_on(context, link.node, &mut caller);
    if !has_broken(&audited) {
        ask_messages(context, link.node, &mut caller)?;
    }
    if audited.is_ok() {
        link.caller = Some(caller);
    }
    audited
}

/// Whether a connection can't be used further.
fn has_broken(audited: &Result<(), Cause>) -> bool {
    match audited {
        Ok(()) => false,
        Err(cause) => !cause.is_of_log(),
    }
}

/// Audits a server, and has its books go on by a base that it gives, where they are to; then what it logged after that is
/// audited at once.
fn audit_and_go_on<R, T, W, E, S>(
    context: Context<'_, R, T, W, E, S>,
    node: u32,
    caller: &mut PeerCaller,
) -> Result<(), Cause>
where
    R: Threads + Wait + Sync,
    T: Clock,
{
    audit(context, node, caller)?;
    if go_on(context, node, caller)? {
        audit(context, node, caller)?;
    }
    Ok(())
}

/// Audits a server to the last number that it signed, or as far as it shows its log.
fn audit<R, T, W, E, S>(
    context: Context<'_, R, T, W, E, S>,
    node: u32,
    caller: &mut PeerCaller,
) -> Result<(), Cause>
where
    R: Threads + Wait + Sync,
    T: Clock,
{
    for _ in 0..MAX_SEGMENTS {
        if !context.is_serving() {
            return Ok(());
        }
        learn_last(context, node, caller)?;
        let Some(numbers) = context.lock().audit(context.alloc, node)? else {
            return Ok(());
        };
        take_segment(context, node, numbers, caller)?;
    }
    Ok(())
}

/// Learns the last that a server signed after the end of what was audited.
fn learn_last<R: Wait, T: Clock, W, E, S>(
    context: Context<'_, R, T, W, E, S>,
    node: u32,
    caller: &mut PeerCaller,
) -> Result<(), Cause> {
    let number = context.lock().end(node);
    let answer = caller.ask_node(&NodeRequest::Signed(After { number }), MOST_SIGNED)?;
    if let Some(text) = read_signed(answer.results())? {
        let packet = packet_of(context.alloc, AUTHENTICATOR, text)?;
        if !is_of(node, false, &packet) {
            return Err(Cause::Refused);
        }
        context.lock().deliver(context.alloc, &packet)?;
    }
    Ok(())
}

/// Takes the segment that a server is asked for, and has it replayed.
fn take_segment<R, T, W, E, S>(
    context: Context<'_, R, T, W, E, S>,
    node: u32,
    numbers: Numbers,
    caller: &mut PeerCaller,
) -> Result<(), Cause>
where
    R: Threads + Wait + Sync,
    T: Clock,
{
    let Numbers { first, last } = numbers;
    let answer = caller.ask_node(&NodeRequest::Segment(numbers), MOST_SEGMENT)?;
    let Segment::Answered(packet) = read_segment(answer.results())? else {
        return Err(Cause::NotShown { first, last });
    };
    if !is_of(node, true, packet) {
        return Err(Cause::Refused);
    }
    let became = context.lock().deliver(context.alloc, packet)?;
    if became != Became::Taken {
        return Err(Cause::Refused);
    }
    replay(context, &[node])?;
    Ok(())
}

/// Hands a server the messages that it is to acknowledge, and takes its acknowledgements.
fn ask_messages<R: Wait, T: Clock, W, E, S>(
    context: Context<'_, R, T, W, E, S>,
    node: u32,
    caller: &mut PeerCaller,
) -> Result<(), Cause> {
    let challenges = context.lock().wanted(context.alloc, node)?;
    for challenge in &challenges {
        if let Challenge::Send(envelope) = challenge {
            ask_message(context, envelope, caller)?;
        }
    }
    Ok(())
}

/// Hands a server a message, and takes its acknowledgement, if one comes.
fn ask_message<R: Wait, T: Clock, W, E, S>(
    context: Context<'_, R, T, W, E, S>,
    envelope: &Envelope,
    caller: &mut PeerCaller,
) -> Result<(), Cause> {
    let mut text = Vec::new(context.alloc);
    envelope.write(&mut text)?;
    let answer = caller.ask_node(&NodeRequest::Deliver(&text), MOST_DELIVERED)?;
    if let Delivered::Taken { ack, .. } = read_delivered(context.alloc, answer.results())? {
        let packet = packet_of(context.alloc, ACK, ack)?;
        context.lock().deliver(context.alloc, &packet)?;
    }
    Ok(())
}
