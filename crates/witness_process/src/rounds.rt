//! Rounds over all servers, and what is done between them.

use crate::context::Context;
use crate::filing::{end_if_lost, replay};
use crate::going_on::let_go;
use crate::links::{Link, links_to};
use crate::orders::{WatchedServer, servers_of};
use crate::printing::say_due;
use crate::visits::visit;
use crate::watch::nodes_of;
use std::alloc::AllocError;
use std::io::Write;
use std::net::{Net, TcpListener, TcpStream};
use std::sync::Wait;
use std::thread::Threads;
use std::time::Clock;
use watching::Shelf;

/// Goes round until the process no longer serves. Where memory is refused for the connections the process ends.
pub(crate) fn go_round<R, T, W, E, S>(
    context: Context<'_, R, T, W, E, S>,
    servers: &[WatchedServer<'_>],
)
where
    R: Threads + Wait + Sync + Net<Listener = TcpListener, Stream = TcpStream>,
    T: Clock,
    W: Write,
    E: Write,
{
    let (Ok(mut links), Ok(nodes)) = (
        links_to(context.alloc, servers),
        servers_of(context.alloc, servers),
    ) else {
        context.lock().give_up();
        return end_if_lost(context);
    };
    for _ in 0..u64::MAX {
        visit_all(context, &mut links);
        if open_audits(context, &links).is_err() || let_go(context, &nodes).is_err() {
            say_no_memory(context);
        }
        if !context.wait(context.settings.every) {
            return;
        }
    }
}

/// Visits each server.
fn visit_all<R, T, W, E, S>(context: Context<'_, R, T, W, E, S>, links: &mut [Link<'_>])
where
    R: Threads + Wait + Sync + Net<Listener = TcpListener, Stream = TcpStream>,
    T: Clock,
    W: Write,
    E: Write,
{
    for link in links.iter_mut() {
        if context.is_serving() {
            visit(context, link);
        }
    }
}

/// Opens an audit of each member of which a signature is known beyond what was audited, unless it goes by another
/// roster.
fn open_audits<R: Wait, T: Clock, W, E, S>(
    context: Context<'_, R, T, W, E, S>,
    links: &[Link<'_>],
) -> Result<(), AllocError> {
    for node in nodes_of(context.alloc, context.roster)? {
        if !is_elsewhere(links, node) {
            context.lock().audit(context.alloc, node)?;
        }
    }
    Ok(())
}

/// Whether a node goes by another roster.
fn is_elsewhere(links: &[Link<'_>], node: u32) -> bool {
    for link in links {
        if link.node == node {
            return link.other.is_some();
        }
    }
    false
}

/// Has what was pushed replayed, and says the lines that are due, until the process no longer serves.
pub(crate) fn keep_up<R, T, W, E, S>(context: Context<'_, R, T, W, E, S>)
where
    R: Threads + Wait + Sync,
    T: Clock,
    W: Write,
    E: Write,
    S: Shelf,
{
    let mut is_short = false;
    for _ in 0..u64::MAX {
        let is_done = catch_up(context).is_ok();
        if !is_done && !is_short {
            say_no_memory(context);
        }
        is_short = !is_done;
        if !context.is_serving() {
            return;
        }
        context.pause();
    }
}

/// Has what was pushed replayed, and says the lines that are due.
pub(crate) fn catch_up<R, T, W, E, S>(context: Context<'_, R, T, W, E, S>) -> Result<(), AllocError>
where
    R: Threads + Wait + Sync,
    T: Clock,
    W: Write,
    E: Write,
    S: Shelf,
{
    let mut nodes = Vec::new(context.alloc);
    context.lock().take_given(&mut nodes);
    if !nodes.is_empty() {
        replay(context, &nodes)?;
    }
    context.lock().refresh(context.alloc)?;
    say_due(context);
    Ok(())
}

/// Says that memory was refused.
fn say_no_memory<R: Wait, T: Clock, W: Write, E: Write, S>(context: Context<'_, R, T, W, E, S>) {
    let line = String::from_str(context.alloc, "nfsacc: out of memory\n");
    context.output.lock(context.rt).say(line);
}
