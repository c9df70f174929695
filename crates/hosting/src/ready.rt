//! What is made ready of a request before its server is at hand.

ghost use Rattle.std.specs.Prelude.{◌≡◌};

use authenticator::Roster;
use commitment::{Incoming, Verify};
use envelopes::{Ack, Envelope};
use peer_calls::{NODE_PROGRAM, NodeRequest, judge_call, read_node_request};
use std::alloc::Global;

/// DELIVER.
const DELIVER: u32 = 2;

/// ACKNOWLEDGE.
const ACKNOWLEDGE: u32 = 3;

/// The message or the acknowledgement of a request, read, and its signature checked: what a server's process does
/// before it takes the server's lock. No answer depends on it.
#[derive(Drop)]
pub enum Ready<'a> {
    /// The envelope of DELIVER.
    Message(Incoming<'a, Envelope>),
    /// The acknowledgement of ACKNOWLEDGE.
    Acknowledgement(Incoming<'a, Ack>),
    /// There is nothing to be made ready.
    Nothing,
}

impl<'a> Ready<'a> {
    /// What can be made ready of a record, by a roster. A record that asks for something else, or for nothing, has
    /// nothing to be made ready; nor has one for which memory is refused.
    pub fn of(alloc: Global, roster: &Roster, record: &'a [u8]) -> Ready<'a> {
        let Ok(asked) = judge_call(NODE_PROGRAM, record) else {
            return Ready::Nothing;
        };
        if asked.procedure != DELIVER && asked.procedure != ACKNOWLEDGE {
            return Ready::Nothing;
        }
        match read_node_request(alloc, asked.procedure, asked.arguments) {
            Ok(NodeRequest::Deliver(text)) => {
                Ready::Message(Incoming::envelope(alloc, roster, text, None))
            }
            Ok(NodeRequest::Acknowledge(text)) => {
                Ready::Acknowledgement(Incoming::ack(alloc, roster, text))
            }
            _ => Ready::Nothing,
        }
    }

    /// The envelope with this text: as it was made ready, where that is it.
    pub(crate) fn message(self, text: &'a [u8]) -> Incoming<'a, Envelope>
        ensures { result ≡ text.now }
    {
        match self {
            Ready::Message(incoming) => same_bytes(incoming, text),
            Ready::Acknowledgement(_) | Ready::Nothing => Incoming::new(text),
        }
    }

    /// The acknowledgement with this text: as it was made ready, where that is it.
    pub(crate) fn acknowledgement(self, text: &'a [u8]) -> Incoming<'a, Ack>
        ensures { result ≡ text.now }
    {
        match self {
            Ready::Acknowledgement(incoming) => same_bytes(incoming, text),
            Ready::Message(_) | Ready::Nothing => Incoming::new(text),
        }
    }
}

/// A text: as it was made ready, where these are its bytes.
fn same_bytes<'a, T: Verify>(incoming: Incoming<'a, T>, text: &'a [u8]) -> Incoming<'a, T>
    ensures { result ≡ text.now }
{
    if incoming.is_of(text) {
        incoming
    } else {
        Incoming::new(text)
    }
}
