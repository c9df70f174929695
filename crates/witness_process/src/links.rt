//! The connections of a witness to the servers that it audits.

use crate::causes::{Cause, LastSaid, server_line};
use crate::context::Context;
use crate::elsewhere::{Told, later_with, told_in};
use crate::orders::WatchedServer;
use crate::printing::say_line;
use hex::encode;
use peer_calls::{Greeting, NodeRequest, read_shown, read_stands};
use peer_connections::PeerCaller;
use std::alloc::{AllocError, Global};
use std::io::Write;
use std::net::{Net, TcpListener, TcpStream};
use std::sync::Wait;
use std::time::Clock;

/// The most bytes of the answers to GREET and STANDS.
pub(crate) const MOST_GREETED: u32 = 60;

const MOST_STANDS: u32 = 28;

/// A server that is audited, and the connection to it.
#[derive(Drop)]
pub(crate) struct Link<'a> {
    /// Its number.
    pub(crate) node: u32,
    /// Where it answers audits.
    pub(crate) address: &'a str,
    /// The connection, where one stands from the round before.
    pub(crate) caller: Option<PeerCaller>,
    /// The digest of its roster, where it greeted with another one.
    pub(crate) other: Option<[u8; 32]>,
    /// What was said of it last.
    pub(crate) said: LastSaid,
}

/// A link to each server, without a connection.
pub(crate) fn links_to<'a>(
    alloc: Global,
    servers: &[WatchedServer<'a>],
) -> Result<Vec<Link<'a>>, AllocError> {
    let mut links = Vec::new(alloc);
    for server in servers {
        let link = Link {
            node: server.node,
            address: server.address,
            caller: None,
            other: None,
            said: LastSaid::nothing(),
        };
        if links.push(link).is_err() {
            return Err(AllocError);
        }
    }
    Ok(links)
}

impl Link<'_> {
    /// The connection to the server: that of the round before, or a new one, on which both have greeted and what the
    /// server signed stands in its log, by its own word. None where the server goes by another roster, which is said.
    pub(crate) fn connect<R, T, W, E, S>(
        &mut self,
        context: Context<'_, R, T, W, E, S>,
    ) -> Result<Option<PeerCaller>, Cause>
    where
        R: Wait + Net<Listener = TcpListener, Stream = TcpStream>,
        T: Clock,
        W: Write,
        E: Write,
    {
        if let Some(caller) = self.caller.take() {
            return Ok(Some(caller));
        }
        let mut caller = match PeerCaller::connect(context.rt, context.alloc, self.address) {
            Ok(caller) => caller,
            Err(error) => return Err(Cause::NoConnection(error)),
        };
        match greet(
            context.alloc,
            context.settings.digest,
            self.node,
            &mut caller,
        )? {
            None => {
                self.other = None;
                test_standing(context, self.node, &mut caller)?;
                Ok(Some(caller))
            }
            Some(told) => {
                self.note_other(context, told);
                Ok(None)
            }
        }
    }

    /// The server goes by another roster. Where that is of a later epoch the process is to end; else it is said, once until
    /// the server goes by yet another.
    fn note_other<R, T, W, E, S>(&mut self, context: Context<'_, R, T, W, E, S>, told: Told)
    where
        R: Wait,
        T: Clock,
        W: Write,
        E: Write,
    {
        let digest = told.other().digest;
        if self.other == Some(digest) {
            return;
        }
        self.other = Some(digest);
        if later_with(context.settings.known, context.settings.epoch, &digest).is_some() {
            return context.end_by(told);
        }
        say_line(context, other_line(context.alloc, self.node, &digest));
    }

    /// Says why the server can't be audited now, once until that changes.
    pub(crate) fn note_cause<R, T, W, E, S>(
        &mut self,
        context: Context<'_, R, T, W, E, S>,
        cause: &Cause,
    )
    where
        R: Wait,
        T: Clock,
        W: Write,
        E: Write,
    {
        let line = server_line(context.alloc, self.node, self.address, cause);
        self.said.say(context, line);
    }
}

/// Greets a server with this number: what it tells, where it goes by another roster than that with this digest.
fn greet(
    alloc: Global,
    digest: [u8; 32],
    node: u32,
    caller: &mut PeerCaller,
) -> Result<Option<Told>, Cause> {
    let greeting = Greeting { digest, node: 0 };
    let answer = caller.ask_node(&NodeRequest::Greet(greeting), MOST_GREETED)?;
    Ok(told_in(alloc, node, answer.results())?)
}

/// Asks a server whether what it showed last stands in its log: `PutBack` where it says that it doesn't.
fn test_standing<R: Wait, T: Clock, W, E, S>(
    context: Context<'_, R, T, W, E, S>,
    node: u32,
    caller: &mut PeerCaller,
) -> Result<(), Cause> {
    let packet = context.lock().shown(context.alloc, node)?;
    let Some(authenticator) = read_shown(context.alloc, &packet)? else {
        return Ok(());
    };
    let answer = caller.ask_node(&NodeRequest::Stands(authenticator), MOST_STANDS)?;
    if read_stands(answer.results())? {
        Ok(())
    } else {
        Err(Cause::PutBack)
    }
}

/// That a server goes by another roster.
fn other_line(alloc: Global, node: u32, digest: &[u8; 32]) -> Result<String, AllocError> {
    let digest = encode(alloc, digest.as_slice())?;
    format!(in alloc; "{node} greets another roster sha256:{digest}")
}
