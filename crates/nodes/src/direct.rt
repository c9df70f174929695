//! A client and a server with no one between them, as a link.

ghost use Rattle.std.specs.Prelude.{◌≡◌, ◌≤◌, ◌↔◌, true, IsTrue, IfErr, IfOk, IfSome, IsOk, length};
ghost use Rattle.std.specs.Option.{option_map};
ghost use Rattle.secure_log.specs.declared.log_entries.entry.TheConstants.{MAX_BODY};
ghost use Rattle.gateway.specs.declared.links.fault.LinkFault.{LinkFault};
ghost use Rattle.nodes.specs.Exchanges.Exchanges.{IsServed, MayJoin};
ghost use Rattle.nodes.specs.Directs.{IsExchanged, MayFail, StopsExchange, direct_of, world_in};

use crate::client::ClientNode;
use crate::exchange::exchange;
use crate::server::ServerNode;
use gateway::links::{Link, LinkFault};
use nfs_items::Time;
use std::alloc::Global;
use std::marker::Model;

/// A client and a server in one process, joined to a link: each exchange is a call of the client, with all
/// that the two log for it. After a fault it has failed.
#[derive(Drop)]
pub struct Direct {
    client: ClientNode,
    server: ServerNode,
    text: Vec<u8>,
    failed: bool,
}

impl Model for Direct {
    ghost use Rattle.nodes.specs.Directs.{DirectParts, IsDirect, direct_code};

    ghost Value = { DirectParts };

    ghost coded = { direct_code };

    ghost view = { λ d. record { client = d.client; server = d.server; failed = d.failed } };

    ghost invariant = { λ d. IsDirect (record { client = d.client; server = d.server; failed = d.failed }) };
}

impl Direct {
    /// Joins a client and a server. Both come back, as they were handed in, exactly where they can't be
    /// joined: one of them has logged something, or they have one number, or one of them isn't listed in the
    /// other's roster with its kind, root, height and version of the log, or the server was told to lie in its
    /// next reply.
    pub fn join(
        alloc: Global,
        client: ClientNode,
        server: ServerNode,
    ) -> Result<Direct, (ClientNode, ServerNode)>
        ensures joined { IfOk result (λ d. d ≡ direct_of client server) }
        ensures handed_back { IfErr result (λ nodes. nodes ≡ (client, server)) }
        ensures exact { IsOk result ↔ MayJoin client server }
    {
        if !may_join(&client, &server) {
            return Err((client, server));
        }
        Ok(Direct {
            client,
            server,
            text: Vec::new(alloc),
            failed: false,
        })
    }

    /// The client.
    pub fn client(&self) -> &ClientNode
        ensures { result.now ≡ self.now.client }
    {
        &self.client
    }

    /// The server.
    pub fn server(&self) -> &ServerNode
        ensures { result.now ≡ self.now.server }
    {
        &self.server
    }

    /// Takes the two apart, also after a fault: gives the client and the server as they are now.
    pub fn into_nodes(self) -> (ClientNode, ServerNode)
        ensures { result ≡ (self.client, self.server) }
    {
        (self.client, self.server)
    }

    /// Carries a body of at most 12,288 bytes to the server at a time, and gives its reply, if one is owed.
    /// Between them the client logs SEND, ACK and RECV, and the server RECV, CLOCK, SEND and ACK; without a
    /// reply the client SEND and ACK, and the server RECV and CLOCK. `KeysUsedUp` comes only where the client
    /// has no key left, or the server fewer than two, or the client none for the reply; `NoMemory` only where
    /// a growth was refused; `Failed` where the log of one of the two lacks numbers for what it would log, as
    /// only a log of version 2 may; what was done before any of them stands. After a fault `Failed` comes, and
    /// nothing changes.
    pub fn carry(
        &mut self,
        alloc: Global,
        time: Time,
        bytes: &[u8],
    ) -> Result<Option<Vec<u8>>, LinkFault>
        requires size { length bytes.now ≤ MAX_BODY }
        ensures exchanged { IfOk result (λ r.
            IsExchanged self.old time bytes.now (option_map (λ v. v.items) r) self.new) }
        ensures served { IfOk result (λ r.
            IsServed self.old.server time bytes.now (option_map (λ v. v.items) r) self.new.server) }
        ensures stops { IfErr result (λ e. StopsExchange self.old time bytes.now e self.new) }
        ensures size { IfOk result (λ r. IfSome r (λ v. length v.items ≤ MAX_BODY)) }
    {
        if self.failed {
            return Err(LinkFault::Failed);
        }
        match exchange(
            &mut self.client,
            &mut self.server,
            &mut self.text,
            alloc,
            time,
            bytes,
        ) {
            Ok(reply) => Ok(reply),
            Err(fault) => {
                self.failed = true;
                Err(fault)
            }
        }
    }
}

/// Whether a client and a server can be joined.
fn may_join(client: &ClientNode, server: &ServerNode) -> bool
    ensures { IsTrue result ↔ MayJoin client.now server.now }
{
    client.node().log().entries().is_empty()
        && server.node().log().entries().is_empty()
        && client.number() != server.number()
        && client.is_listed(server.node().roster())
        && server.is_listed(client.node().roster())
        && !server.lies()
}

/// Its exchanges are what `carry` says, and so are its faults. It tells its server's world. From now on it
/// may lack keys or memory, and, with a log of version 2, numbers: then it answers `Failed`. Else it answers
/// `Failed` only after a fault. It answers `KeysUsedUp` only where keys lack. It has failed after a fault.
impl Link for Direct {
    ghost use Rattle.nodes.specs.Directs.{IsFaulted};

    ghost exchanges = { λ d time bytes reply d'. IsExchanged d time bytes reply d' };

    ghost fails = { λ d time bytes e d'. StopsExchange d time bytes e d' };

    ghost world = { λ d. world_in d.server.state.machine };

    ghost may_fault = { λ d e. e ≡ LinkFault.Failed → MayFail d };

    ghost faulted = { λ d e. IsFaulted d e };

    fn exchange(
        &mut self,
        alloc: Global,
        time: Time,
        bytes: &[u8],
    ) -> Result<Option<Vec<u8>>, LinkFault> {
        self.carry(alloc, time, bytes)
    }
}
