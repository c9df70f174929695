//! Meetings with other witnesses of the same roster: each hands the other what nodes showed it last.

use crate::brought::{AUTHENTICATOR, is_of, packet_of};
use crate::causes::{Cause, LastSaid, roster_line, witness_line};
use crate::context::Context;
use crate::watch::nodes_of;
use peer_calls::{
    Greeted, Greeting, NodeNumber, ResultNumber, WitnessRequest, read_greeted, read_signed,
};
use peer_connections::PeerCaller;
use std::alloc::{AllocError, Global};
use std::io::Write;
use std::net::{Net, TcpListener, TcpStream};
use std::sync::Wait;
use std::time::Clock;
use xdr::texts::{TextFault, read_text};

/// The most bytes of the answers to GREET, SHOWN and DELIVER.
const MOST_GREETED: u32 = 60;

const MOST_SHOWN: u32 = 16_980;

const MOST_TAKEN: u32 = 28;

/// Another witness, and the connection to it.
#[derive(Drop)]
struct Other<'a> {
    /// Where it listens.
    address: &'a str,
    /// The connection, where one stands from the meeting before.
    caller: Option<PeerCaller>,
    /// What was said of it last.
    said: LastSaid,
}

/// Meets another witness again and again, until the process no longer serves. Nobody else waits for it.
pub(crate) fn keep_meeting<R, T, W, E, S>(context: Context<'_, R, T, W, E, S>, address: &str)
where
    R: Wait + Net<Listener = TcpListener, Stream = TcpStream>,
    T: Clock,
    W: Write,
    E: Write,
{
    let mut other = Other {
        address,
        caller: None,
        said: LastSaid::nothing(),
    };
    for _ in 0..u64::MAX {
        other.meet(context);
        if !context.wait(context.settings.every) {
            return;
        }
    }
}

impl Other<'_> {
    /// Meets the other witness. Why that failed is said, once until it changes. A connection that stood since the
    /// meeting before and is found broken is made anew at once.
    fn meet<R, T, W, E, S>(&mut self, context: Context<'_, R, T, W, E, S>)
    where
        R: Wait + Net<Listener = TcpListener, Stream = TcpStream>,
        T: Clock,
        W: Write,
        E: Write,
    {
        let was_connected = self.caller.is_some();
        let mut met = self.try_meet(context);
        if was_connected && matches!(met, Err(Cause::Broken)) {
            met = self.try_meet(context);
        }
        let line = match met {
            Ok(Greeted::Same) => return self.said.clear(),
            Ok(Greeted::Other(digest)) => roster_line(context.alloc, self.address, &digest),
            Err(cause) => witness_line(context.alloc, self.address, &cause),
        };
        self.said.say(context, line);
    }

    /// Meets the other witness, where it goes by the same roster. The connection stands for the next meeting where
    /// nothing failed.
    fn try_meet<R, T, W, E, S>(
        &mut self,
        context: Context<'_, R, T, W, E, S>,
    ) -> Result<Greeted, Cause>
    where
        R: Wait + Net<Listener = TcpListener, Stream = TcpStream>,
        T: Clock,
    {
        let mut caller = match self.caller.take() {
            Some(caller) => caller,
            None => {
                let mut caller = self.connect(context)?;
                let greeted = greet(context.alloc, context.settings.digest, &mut caller)?;
                if let Greeted::Other(_) = greeted {
                    return Ok(greeted);
                }
                caller
            }
        };
        exchange_all(context, &mut caller)?;
        self.caller = Some(caller);
        Ok(Greeted::Same)
    }

    /// A new connection to the other witness.
    fn connect<R, T, W, E, S>(
        &self,
        context: Context<'_, R, T, W, E, S>,
    ) -> Result<PeerCaller, Cause>
    where
        R: Net<Listener = TcpListener, Stream = TcpStream>,
    {
        match PeerCaller::connect(context.rt, context.alloc, self.address) {
            Ok(caller) => Ok(caller),
            Err(error) => Err(Cause::NoConnection(error)),
        }
    }
}

/// Greets another witness.
fn greet(alloc: Global, digest: [u8; 32], caller: &mut PeerCaller) -> Result<Greeted, Cause> {
    let greeting = Greeting { digest, node: 0 };
    let answer = caller.ask_witness(&WitnessRequest::Greet(greeting), MOST_GREETED)?;
    Ok(read_greeted(alloc, answer.results())?)
}

/// Exchanges with another witness what each member showed last.
fn exchange_all<R: Wait, T: Clock, W, E, S>(
    context: Context<'_, R, T, W, E, S>,
    caller: &mut PeerCaller,
) -> Result<(), Cause> {
    for node in nodes_of(context.alloc, context.roster)? {
        if !context.is_serving() {
            return Ok(());
        }
        exchange(context, node, caller)?;
    }
    Ok(())
}

/// Hands the own books what a node showed the other witness last, and the other witness what it showed this one, unless
/// that is the same.
fn exchange<R: Wait, T: Clock, W, E, S>(
    context: Context<'_, R, T, W, E, S>,
    node: u32,
    caller: &mut PeerCaller,
) -> Result<(), Cause> {
    let theirs = shown_to(context.alloc, node, caller)?;
    if !theirs.is_empty() {
        // What isn't signed by the node, or has no room, is refused by the books.
        context.lock().deliver(context.alloc, &theirs)?;
    }
    let own = context.lock().shown(context.alloc, node)?;
    if own.is_empty() || own.as_slice() == theirs.as_slice() {
        return Ok(());
    }
    hand(context.alloc, &own, caller)
}

/// The packet of the authenticator that a node showed another witness last; no bytes where it showed none.
fn shown_to(alloc: Global, node: u32, caller: &mut PeerCaller) -> Result<Vec<u8>, Cause> {
    let asked = WitnessRequest::Shown(NodeNumber { node });
    let answer = caller.ask_witness(&asked, MOST_SHOWN)?;
    let Some(text) = read_signed(answer.results())? else {
        return Ok(Vec::new(alloc));
    };
    let packet = packet_of(alloc, AUTHENTICATOR, text)?;
    if is_of(node, false, &packet) {
        Ok(packet)
    } else {
        Err(Cause::Refused)
    }
}

/// Hands another witness a packet. Whether it takes it is its own to say.
fn hand(alloc: Global, packet: &[u8], caller: &mut PeerCaller) -> Result<(), Cause> {
    let answer = caller.ask_witness(&WitnessRequest::Deliver(packet), MOST_TAKEN)?;
    match read_text::<ResultNumber>(alloc, answer.results()) {
        Ok(_) => Ok(()),
        Err(TextFault::NotAText) => Err(Cause::NoAnswer),
        Err(TextFault::NoMemory) => Err(Cause::NoMemory),
    }
}
