//! A client and a server under a lock, as a link.

ghost use Rattle.std.specs.Prelude.{◌≡◌, ◌≤◌, true, IfErr, IfOk, IfSome, length};
ghost use Rattle.std.specs.Option.{option_map};
ghost use Rattle.secure_log.specs.declared.log_entries.entry.TheConstants.{MAX_BODY};
ghost use Rattle.nodes.specs.Shareds.{IsExchanged, StopsExchange, shared_of};

use crate::client::ClientNode;
use crate::honest::HonestServer;
use crate::locked::{Texts, call};
use gateway::links::{Link, LinkFault};
use nfs_items::Time;
use std::alloc::Global;
use std::marker::Model;
use std::sync::{Mutex, Wait};

/// A client of its own, and a server under a lock that others use too, joined to a link: each exchange is a
/// call of the client, with all that the two log for it. The lock is held for what the server does alone, and
/// not while the client signs and checks. It keeps its runtime, so that who uses it as a link has none. After
/// a fault it has failed.
#[derive(Drop)]
pub struct Shared<'a, R: Wait> {
    rt: &'a R,
    server: &'a Mutex<HonestServer>,
    client: ClientNode,
    to: u32,
    texts: Texts,
    failed: bool,
}

impl<'a, R: Wait> Model for Shared<'a, R> {
    ghost use Rattle.nodes.specs.Shareds.{SharedParts, shared_code};

    ghost Value = { SharedParts };

    ghost coded = { shared_code };

    ghost view = { λ d. record { client = d.client; to = d.to; failed = d.failed } };
}

impl<'a, R: Wait> Shared<'a, R> {
    /// A link of a client to the server of a number, `to`, that lies under a lock. The server isn't looked
    /// at: whether it has the number, and whether the two list each other, shows at the first exchange. Takes
    /// no memory and no lock.
    pub fn new(
        rt: &'a R,
        alloc: Global,
        client: ClientNode,
        to: u32,
        server: &'a Mutex<HonestServer>,
    ) -> Shared<'a, R>
        ensures { result ≡ shared_of client to }
    {
        Shared {
            rt,
            server,
            client,
            to,
            texts: Texts {
                call: Vec::new(alloc),
                ack: Vec::new(alloc),
                reply: Vec::new(alloc),
                sent: None,
            },
            failed: false,
        }
    }

    /// The client.
    pub fn client(&self) -> &ClientNode
        ensures { result.now ≡ self.now.client }
    {
        &self.client
    }

    /// Gives the client back, as it is now, also after a fault.
    pub fn into_client(self) -> ClientNode
        ensures { result ≡ self.entry.client }
    {
        self.client
    }

    /// Carries a body of at most 12,288 bytes to the server at a time, and gives its reply, if one is owed.
    /// The client logs SEND, ACK and RECV, the server RECV, CLOCK and SEND, and later ACK; what the server
    /// logs of others may stand before that ACK. It waits for the lock twice, and holds it for what the
    /// server does alone: it receives the call and answers it, and, where a reply was owed, takes the
    /// client's acknowledgement. `KeysUsedUp` comes only where the client has no key left, or the server
    /// fewer than two, or the client none for the reply; `NoMemory` only where a growth was refused; `Failed`
    /// where one of the two refuses the other, as where it isn't listed there, or the server has another
    /// number, or else where the log of one lacks numbers for what it would log, as only a log of version 2
    /// may. What was done before any of them stands. After a fault `Failed` comes, no lock is taken, and
    /// nothing changes.
    pub fn carry(
        &mut self,
        alloc: Global,
        time: Time,
        bytes: &[u8],
    ) -> Result<Option<Vec<u8>>, LinkFault>
        requires size { length bytes.now ≤ MAX_BODY }
        ensures exchanged { IfOk result (λ r.
            IsExchanged self.old time bytes.now (option_map (λ v. v.items) r) self.new) }
        ensures stops { IfErr result (λ e. StopsExchange self.old time bytes.now e self.new) }
        ensures failed { IfErr result (λ e. self.new.failed ≡ true) }
        ensures size { IfOk result (λ r. IfSome r (λ v. length v.items ≤ MAX_BODY)) }
    {
        if self.failed {
            return Err(LinkFault::Failed);
        }
        match call(
            self.rt,
            self.server,
            &mut self.client,
            self.to,
            &mut self.texts,
            alloc,
            time,
            bytes,
        ) {
            Ok(reply) => Ok(reply),
            Err(fault) => {
                self.failed = true;
                Err(fault)
            }
        }
    }
}

/// Its exchanges are what `carry` says, and so are its faults. Others move its server's world besides, so it
/// tells none; any fault may come. It has failed after a fault.
impl<'a, R: Wait> Link for Shared<'a, R> {
    ghost exchanges = { λ d time bytes reply d'. IsExchanged d time bytes reply d' };

    ghost fails = { λ d time bytes e d'. StopsExchange d time bytes e d' };

    ghost faulted = { λ d e. d.failed ≡ true };

    fn exchange(
        &mut self,
        alloc: Global,
        time: Time,
        bytes: &[u8],
    ) -> Result<Option<Vec<u8>>, LinkFault> {
        self.carry(alloc, time, bytes)
    }
}
