//! The nodes of a run, with their keys.

ghost use Rattle.std.specs.Prelude.{◌≡◌, ◌≤◌, IfOk};
ghost use Rattle.node_keys.specs.Masters.{master_of};
ghost use Rattle.serve_options.specs.Options.{AreServeOptions};

use crate::order::Order;
use crate::run::ServeFault;
use auditing::{AuditOutput, Shelf};
use authenticator::{Kind, Member, Roster};
use node_keys::KeyedNode;
use nodes::{ClientNode, HonestServer};
use std::alloc::{AllocError, Global};
use std::io::Write;
use std::thread::Threads;

/// The number of the server. The clients have the numbers after it.
pub(crate) const SERVER: u32 = 1;

/// The nodes of a run: a server and its clients, by rising numbers.
#[derive(Drop)]
pub(crate) struct Nodes {
    pub(crate) roster: Roster,
    pub(crate) server: HonestServer,
    pub(crate) clients: Vec<ClientNode>,
}

/// Makes a node's keys, and says so where progress is to be told.
fn make_keys<R: Threads + Sync, E: Write, S: Shelf>(
    rt: &R,
    alloc: Global,
    order: &Order<'_>,
    number: u32,
    kind: Kind,
    height: u32,
    output: &mut AuditOutput<E, S>,
) -> Result<KeyedNode, AllocError>
    requires some { 1 ≤ height }
    requires low { height ≤ 15 }
    ensures { IfOk result (λ k. k ≡ record {
      number = number;
      kind = kind;
      log_version = order.now.options.log_version;
      masters = order.now.masters;
      signer = record { master = master_of order.now.masters number; height = height; used = 0 };
    }) }
{
    let keyed = KeyedNode::make(
        rt,
        alloc,
        order.masters,
        number,
        kind,
        order.options.log_version,
        height,
    )?;
    if order.options.progress {
        let keys = 1u32 << height;
        output.say(format!(in alloc; "nfsacc: node {number}: {keys} keys made\n"));
    }
    Ok(keyed)
}

/// Makes all nodes of a run, with new keys.
pub(crate) fn make_nodes<R: Threads + Sync, E: Write, S: Shelf>(
    rt: &R,
    alloc: Global,
    order: &Order<'_>,
    output: &mut AuditOutput<E, S>,
) -> Result<Nodes, ServeFault>
    requires { AreServeOptions order.now.options }
{
    let server = make_keys(
        rt,
        alloc,
        order,
        SERVER,
        Kind::Server,
        order.options.heights.server,
        output,
    )?;
    match client_keys(rt, alloc, order, output) {
        Ok(clients) => nodes_of(alloc, server, clients),
        Err(AllocError) => Err(ServeFault::NoMemory),
    }
}

/// Makes the keys of the clients, by rising numbers.
fn client_keys<R: Threads + Sync, E: Write, S: Shelf>(
    rt: &R,
    alloc: Global,
    order: &Order<'_>,
    output: &mut AuditOutput<E, S>,
) -> Result<Vec<KeyedNode>, AllocError>
    requires { AreServeOptions order.now.options }
{
    let mut clients = Vec::with_capacity(alloc, order.options.connections as usize)?;
    for place in 0..order.options.connections {
        let number = SERVER + 1 + place;
        let height = order.options.heights.client;
        clients.push(make_keys(rt, alloc, order, number, Kind::Client, height, output)?)?;
    }
    Ok(clients)
}

/// The nodes that have these keys.
fn nodes_of(
    alloc: Global,
    server: KeyedNode,
    clients: Vec<KeyedNode>,
) -> Result<Nodes, ServeFault> {
    let roster = roster_of(alloc, &server, &clients)?;
    let clients = clients_of(alloc, &roster, clients)?;
    match server_of(alloc, &roster, server) {
        Ok(server) => Ok(Nodes {
            roster,
            server,
            clients,
        }),
        Err(fault) => Err(fault),
    }
}

/// The roster of a server and its clients.
fn roster_of(
    alloc: Global,
    server: &KeyedNode,
    clients: &[KeyedNode],
) -> Result<Roster, ServeFault> {
    let mut members = Vec::with_capacity(alloc, clients.len() + 1)?;
    members.push(server.member())?;
    for client in clients {
        members.push(client.member())?;
    }
    Roster::new(members).map_err(|_| ServeFault::NoMemory)
}

/// The server, made with a roster.
fn server_of(alloc: Global, roster: &Roster, keyed: KeyedNode) -> Result<HonestServer, ServeFault> {
    let roster = roster.try_clone(alloc)?;
    or_no_memory(HonestServer::new(keyed.make_node(alloc, roster)?))
}

/// What was made, or `NoMemory`. The types are parameters, so that the proof knows nothing of what they own.
fn or_no_memory<T: Drop, E: Drop>(outcome: Result<T, E>) -> Result<T, ServeFault> {
    match outcome {
        Ok(value) => Ok(value),
        Err(_) => Err(ServeFault::NoMemory),
    }
}

/// The clients, made with a roster.
fn clients_of(
    alloc: Global,
    roster: &Roster,
    keyed: Vec<KeyedNode>,
) -> Result<Vec<ClientNode>, AllocError> {
    let mut clients = Vec::with_capacity(alloc, keyed.len())?;
    for one in keyed {
        let roster = roster.try_clone(alloc)?;
        clients.push(one.make_node(alloc, roster)?)?;
    }
    Ok(clients)
}
