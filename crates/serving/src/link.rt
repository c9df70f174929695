//! The link of a connection's client to the server.

ghost use Rattle.std.specs.Prelude.{◌≡◌, ◌↔◌, true, IsTrue};
ghost use Rattle.nodes.specs.Shareds.{shared_of};
ghost use Rattle.serving.specs.Links.{IsCall, LacksKeysOfACall, StopsCall};

use crate::checks::Checking;
use auditing::Shelf;
use nfs_items::Time;
use nodes::{ClientNode, HonestServer, Link, LinkFault, Shared};
use std::alloc::Global;
use std::io::Write;
use std::marker::Model;
use std::sync::{Mutex, Wait};

/// The keys that a call may take of its client: one for the call, and one for the reply. It
/// takes no more of the server.
const KEYS_OF_A_CALL: u32 = 2;

/// A client of its own, and a server under a lock that others use too. A call is begun only where
/// its client has keys for its reply too: so the calls of a client take no more keys of the server
/// than the client has itself.
#[derive(Drop)]
pub(crate) struct ClientLink<'a, R: Wait> {
    shared: Shared<'a, R>,
}

impl<'a, R: Wait> Model for ClientLink<'a, R> {
    ghost use Rattle.nodes.specs.Shareds.{SharedParts, shared_code};

    ghost Value = { SharedParts };

    ghost coded = { shared_code };

    ghost view = { λ l. l.shared };
}

impl<'a, R: Wait> ClientLink<'a, R> {
    /// A link of a client to the server numbered `to`, which lies under a lock.
    pub(crate) fn new(
        rt: &'a R,
        alloc: Global,
        client: ClientNode,
        to: u32,
        server: &'a Mutex<HonestServer>,
    ) -> ClientLink<'a, R>
        ensures { result ≡ shared_of client to }
    {
        ClientLink {
            shared: Shared::new(rt, alloc, client, to, server),
        }
    }

    /// The client as it is now, also after a fault.
    pub(crate) fn into_client(self) -> ClientNode
        ensures { result ≡ self.entry.client }
    {
        self.shared.into_client()
    }

    /// Whether the client lacks keys for a call and its reply.
    fn lacks_keys(&self) -> bool
        ensures { IsTrue result ↔ LacksKeysOfACall self.now }
    {
        self.shared.client().node().left() < KEYS_OF_A_CALL
    }
}

/// Its exchanges are those of a `Shared` whose client has two keys left. Where it hasn't, `KeysUsedUp` comes,
/// no lock is taken, and nothing changes.
impl<'a, R: Wait> Link for ClientLink<'a, R> {
    ghost exchanges = { λ d time bytes reply d'. IsCall d time bytes reply d' };

    ghost fails = { λ d time bytes e d'. StopsCall d time bytes e d' };

    fn exchange(
        &mut self,
        alloc: Global,
        time: Time,
        bytes: &[u8],
    ) -> Result<Option<Vec<u8>>, LinkFault> {
        if self.lacks_keys() {
            return Err(LinkFault::KeysUsedUp);
        }
        self.shared.exchange(alloc, time, bytes)
    }
}

/// The link of a connection's client, after each of whose calls the server may log a CHECK.
#[derive(Drop)]
pub(crate) struct CheckingLink<'a, R: Wait, E, S> {
    link: ClientLink<'a, R>,
    checking: Option<Checking<'a, R, E, S>>,
}

impl<'a, R: Wait, E, S> Model for CheckingLink<'a, R, E, S> {
    ghost use Rattle.nodes.specs.Shareds.{SharedParts, shared_code};

    ghost Value = { SharedParts };

    ghost coded = { shared_code };

    ghost view = { λ l. l.link };
}

impl<'a, R: Wait, E, S> CheckingLink<'a, R, E, S> {
    /// A link, with the CHECKs that the server logs between calls, if it logs some.
    pub(crate) fn new(
        link: ClientLink<'a, R>,
        checking: Option<Checking<'a, R, E, S>>,
    ) -> CheckingLink<'a, R, E, S>
        ensures { result ≡ link.entry }
    {
        CheckingLink { link, checking }
    }

    /// The client as it is now, also after a fault.
    pub(crate) fn into_client(self) -> ClientNode
        ensures { result ≡ self.entry.client }
    {
        self.link.into_client()
    }
}

/// Its exchanges are those of the link; a CHECK changes nothing at the client.
impl<'a, R: Wait, E: Write, S: Shelf> Link for CheckingLink<'a, R, E, S> {
    ghost exchanges = { λ d time bytes reply d'. IsCall d time bytes reply d' };

    ghost fails = { λ d time bytes e d'. StopsCall d time bytes e d' };

    fn exchange(
        &mut self,
        alloc: Global,
        time: Time,
        bytes: &[u8],
    ) -> Result<Option<Vec<u8>>, LinkFault> {
        let answered = self.link.exchange(alloc, time, bytes);
        note_call(&self.checking, answered.is_ok());
        answered
    }
}

/// Notes that a call has ended, if it was answered and the server logs CHECKs.
fn note_call<R: Wait, E: Write, S: Shelf>(
    checking: &Option<Checking<'_, R, E, S>>,
    is_answered: bool,
) {
    if let Some(checking) = checking {
        if is_answered {
            checking.call_ended();
        }
    }
}
