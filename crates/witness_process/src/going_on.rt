//! How the books of a server go on by a base that it offers.

use crate::causes::Cause;
use crate::context::Context;
use crate::filing::forward_each;
use crate::joining::{MOST_BASE, good_base};
use peer_calls::{BaseAfter, NodeRequest, read_base};
use peer_connections::PeerCaller;
use std::alloc::AllocError;
use std::sync::Wait;
use std::time::Clock;

/// Asks a server for a base, where its books are to go on by one, and has them go on by what it gives, where they may. Says
/// whether they did. `Refused` comes where it gives what is no good base of it.
pub(crate) fn go_on<R: Wait, T: Clock, W, E, S>(
    context: Context<'_, R, T, W, E, S>,
    node: u32,
    caller: &mut PeerCaller,
) -> Result<bool, Cause> {
    let asked = context.lock().base_after(node, context.settings.overlap);
    let Some(after) = asked else {
        return Ok(false);
    };
    let request = NodeRequest::Base(BaseAfter { node, after });
    let answer = caller.ask_node(&request, MOST_BASE)?;
    let Some(bytes) = read_base(context.alloc, answer.results())? else {
        return Ok(false);
    };
    let base = good_base(context.alloc, context.roster, node, bytes)?;
    Ok(context.lock().go_on(context.alloc, base)?)
}

/// Lets the books of these nodes go from which others went on, where they may go, once what their logs show of others was
/// handed on.
pub(crate) fn let_go<R: Wait, T: Clock, W, E, S>(
    context: Context<'_, R, T, W, E, S>,
    nodes: &[u32],
) -> Result<(), AllocError> {
    forward_each(context, nodes)?;
    context
        .lock()
        .let_go(context.alloc, context.settings.overlap);
    Ok(())
}
