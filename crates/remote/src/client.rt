//! A client that calls a server of which nothing is known but the bytes that come back.

ghost use Rattle.std.specs.Prelude.{◌≡◌, ◌≤◌, ◌↔◌, false, IfErr, IfOk, IfSome, IsOk, IsSomeAnd, IsTrue};
ghost use Rattle.std.specs.Prelude.{length};
ghost use Rattle.authenticator.specs.Roster.{member_of};
ghost use Rattle.authenticator.specs.declared.member.Kind.TheVariants as kinds;
ghost use Rattle.std.specs.Option.{option_map};
ghost use Rattle.secure_log.specs.declared.log_entries.entry.TheConstants.{MAX_BODY};
ghost use Rattle.envelopes.specs.Envelope.{envelope_text, envelope_value};
ghost use Rattle.envelopes.specs.declared.envelope.Envelope.{Envelope};
ghost use Rattle.nodes.specs.Delivery.{WritesText};
ghost use Rattle.nodes.specs.Shareds.{HasNotStrayed};
ghost use Rattle.remote.specs.Remotes.{IsRemote, remote_of};
ghost use Rattle.remote.specs.Calls.{IsBegun, IsCallAt, IsCallOf, StopsBeginning};
ghost use Rattle.remote.specs.Answers.{Accepts, LogsNoMore, Refuses};
ghost use Rattle.remote.specs.Receipts.{Receives, RefusesReceiving};

use crate::accepted::accept;
use crate::calls::{begin, is_call_of, write_call};
use crate::fault::AcceptFault;
use crate::received::receive;
use authenticator::{Kind, Number};
use commitment::Received;
use nodes::{ClientNode, LinkFault};
use std::alloc::Global;
use std::marker::Model;

/// A call that was begun: it names the SEND.
#[derive(Clone, Copy, Debug, PartialEq, Eq)]
pub struct Pending {
    /// The number of the SEND in the client's log.
    pub number: Number,
}

/// A client that calls one server, on another host, by texts. Nothing is supposed of the bytes that come
/// back: whatever they are, its log is honest after every call, and of others it logs only what the server
/// signed.
#[derive(Drop)]
pub struct RemoteClient {
    client: ClientNode,
    server: u32,
}

impl Model for RemoteClient {
    ghost use Rattle.remote.specs.Remotes.{IsRemote, RemoteParts, remote_code, remote_of};

    ghost Value = { RemoteParts };

    ghost coded = { remote_code };

    ghost view = { λ r. remote_of r.client r.server };

    ghost invariant = { λ r. IsRemote (remote_of r.client r.server) };
}

impl RemoteClient {
    /// A client that calls the server with a number. The node comes back, as it was handed in, exactly where
    /// it has strayed, or its roster lists no server with that number, or the number is its own.
    pub fn new(client: ClientNode, server: u32) -> Result<RemoteClient, ClientNode>
        ensures remote { IfOk result (λ r. r ≡ remote_of client server) }
        ensures handed_back { IfErr result (λ c. c ≡ client) }
        ensures exact { IsOk result ↔ IsRemote (remote_of client server) }
    {
        if !may_call(&client, server) {
            return Err(client);
        }
        Ok(RemoteClient { client, server })
    }

    /// The client.
    pub fn client(&self) -> &ClientNode
        ensures client { result.now ≡ self.now.client }
        ensures honest { HasNotStrayed self.now.client }
    {
        self.client.node().is_honest();
        &self.client
    }

    /// The number of the server that it calls.
    pub fn server(&self) -> u32
        ensures { result ≡ self.now.server }
    {
        self.server
    }

    /// Gives the client back as it is now.
    pub fn into_client(self) -> ClientNode
        ensures client { result ≡ self.client }
        ensures honest { HasNotStrayed self.client }
    {
        self.client.node().is_honest();
        self.client
    }

    /// Begins a call of at most 12,288 bytes: its SEND is logged, and the text of its envelope is written, in
    /// place of what the bytes were. `KeysUsedUp` comes exactly where fewer than two keys are left, one for
    /// the call and one for its reply; else `Failed` exactly where the log has no number for the SEND, as
    /// only a log of version 2 may; nothing has changed then. `NoMemory` comes only where a growth was
    /// refused; memory is asked for before the SEND is logged.
    pub fn begin(
        &mut self,
        alloc: Global,
        bytes: &[u8],
        text: &mut Vec<u8>,
    ) -> Result<Pending, LinkFault>
        requires size { length bytes.now ≤ MAX_BODY }
        ensures begun { IfOk result (λ p.
            IsBegun self.old bytes.now p.number text.new.items self.new) }
        ensures stops { IfErr result (λ f. StopsBeginning self.old bytes.now f self.new) }
        ensures honest { HasNotStrayed self.new.client }
    {
        match begin(&mut self.client, self.server, alloc, bytes, text) {
            Ok(number) => Ok(Pending { number }),
            Err(fault) => Err(fault),
        }
    }

    /// Writes the text of a call's envelope again, in place of what the bytes were: after a break the same
    /// envelope is sent, and takes no key. `NoMemory` comes only where a growth was refused, `Failed` only
    /// where the number isn't that of a SEND.
    pub fn write_envelope(&self, pending: &Pending, text: &mut Vec<u8>) -> Result<(), LinkFault>
        ensures { (call : Envelope) → IsCallAt self.now pending.now.number call →
            WritesText envelope_text (envelope_value call) result text.new.items }
    {
        write_call(&self.client, pending.number, text)
    }

    /// Whether a pending call stands in the client's log: as a SEND to the server, with these bytes.
    pub fn has_call(&self, pending: &Pending, bytes: &[u8]) -> bool
        ensures { IsTrue result ↔ IsCallOf self.now pending.now.number bytes.now }
    {
        is_call_of(&self.client, self.server, pending.number, bytes)
    }

    /// Takes what came back for a call: the bytes of an acknowledgement, and those of a reply, if any came.
    /// Whatever they are, the client's log stays honest, and has nothing more than before but, in this order,
    /// the ACK of this call, which the server signed, and the RECV of an envelope to this client that the
    /// server signed.
    ///
    /// `Some` is the body of the reply to this very call: the acknowledgement stands in the log; the reply
    /// was logged just now, begins with the call's transaction id, and has in the server's log the number two
    /// after that of the RECV that was acknowledged. The text of the client's acknowledgement of it is
    /// written, in place of what the bytes were. `None` comes only where the call is acknowledged, no reply
    /// is owed to it (RFC 5531: it isn't a call) and none came. After `NotAcknowledged` and `Unanswered` the
    /// same envelope may be sent again, and what comes back be taken again.
    pub fn accept(
        &mut self,
        alloc: Global,
        pending: &Pending,
        ack: &[u8],
        reply: Option<&[u8]>,
        receipt: &mut Vec<u8>,
    ) -> Result<Option<Vec<u8>>, AcceptFault>
        ensures accepted { IfOk result (λ r. Accepts self.old pending.now.number ack.now
            (option_map (λ b. b.now) reply.entry) (option_map (λ v. v.items) r) receipt.new.items self.new) }
        ensures refused { IfErr result (λ f. Refuses self.old pending.now.number ack.now
            (option_map (λ b. b.now) reply.entry) f self.new) }
        ensures logs { LogsNoMore self.old pending.now.number self.new }
        ensures honest { HasNotStrayed self.new.client }
        ensures size { IfOk result (λ r. IfSome r (λ v. length v.items ≤ MAX_BODY)) }
    {
        let result = accept(
            &mut self.client,
            self.server,
            alloc,
            pending.number,
            ack,
            reply,
            receipt,
        );
        self.client.node().is_honest();
        result
    }

    /// Receives an envelope from the server for which no call waits, as one that a witness shows: its RECV is
    /// logged, and takes a key. One that was received before is a `Repeat`; nothing is logged and no key is
    /// needed. Else nothing has changed: `Unanswered` comes exactly where the bytes aren't an envelope from the
    /// server to the client that the server signed, `KeysUsedUp` where no key is left for one that is new, else
    /// `NoNumbers` where the log has no number for it, `NoMemory` only where a growth was refused.
    pub fn receive(&mut self, alloc: Global, bytes: &[u8]) -> Result<Received<Number>, AcceptFault>
        ensures received { IfOk result (λ r. Receives self.old bytes.now r self.new) }
        ensures refused { IfErr result (λ f. RefusesReceiving self.old bytes.now f self.new) }
        ensures honest { HasNotStrayed self.new.client }
    {
        let result = receive(&mut self.client, self.server, alloc, bytes);
        self.client.node().is_honest();
        result
    }
}

/// Whether a client may call the server with a number.
fn may_call(client: &ClientNode, server: u32) -> bool
    ensures { IsTrue result ↔ IsRemote (remote_of client.now server) }
{
    !client.strayed() && server != client.number() && is_server(client, server)
}

/// Whether its roster lists a server with a number.
fn is_server(client: &ClientNode, server: u32) -> bool
    ensures { IsTrue result ↔ IsSomeAnd (member_of client.now.roster server) (λ m. m.kind ≡ kinds.Server) }
{
    match client.node().roster().member(server) {
        Some(member) => member.kind == Kind::Server,
        None => false,
    }
}
