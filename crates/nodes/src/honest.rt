//! Servers that haven't strayed, to be shared.

ghost use Rattle.std.specs.Prelude.{◌≡◌, ◌↔◌, false, IfErr, IfOk, IsOk};
ghost use Rattle.std.specs.Option.{option_map};
ghost use Rattle.envelopes.specs.declared.envelope.Envelope.{Envelope};
ghost use Rattle.envelopes.specs.declared.acknowledgement.Ack.{Ack};
ghost use Rattle.node_logs.specs.AckTaking.{TakesAck};
ghost use Rattle.node_logs.specs.Gaps.{Checks};
ghost use Rattle.node_logs.specs.Receiving.{Receives};
ghost use Rattle.nodes.specs.Delivery.{MayTakeAck, TakesAwaited};
ghost use Rattle.nodes.specs.Exchanges.Exchanges.{IsServed};
ghost use Rattle.nodes.specs.Exchanges.Laws.{IsAccepted};
ghost use Rattle.nodes.specs.Shareds.{HasNotStrayed};
ghost use Rattle.nodes.specs.Sides.{HasAnswered, IsEnvelopeText, IsTextOfAck, StopsAnswering};

use crate::deliver::take_ack;
use crate::server::ServerNode;
use crate::sides::{Shown, answer};
use authenticator::Number;
use commitment::{Incoming, Received, Refusal};
use envelopes::{Ack, Envelope};
use gateway::links::LinkFault;
use nfs_items::Time;
use node_logs::{AckTaken, Receipt};
use std::alloc::Global;
use std::marker::Model;

/// A server that hasn't strayed, as its type keeps it, also under a lock: its log is honest, and it won't
/// lie. It is joined to nobody in particular.
#[derive(Drop)]
pub struct HonestServer {
    server: ServerNode,
}

impl Model for HonestServer {
    ghost use Rattle.std.specs.Prelude.{◌≡◌, false};
    ghost use Rattle.node_logs.specs.Steps.Nodes.{NodeParts};
    ghost use Rattle.node_logs.specs.Nodes.{node_code};

    ghost Value = { NodeParts };

    ghost coded = { node_code };

    ghost view = { λ h. h.server };

    ghost invariant = { λ h. h.server.strayed ≡ false };
}

impl HonestServer {
    /// The server, which comes back, as it was handed in, exactly where it has strayed.
    pub fn new(server: ServerNode) -> Result<HonestServer, ServerNode>
        ensures kept { IfOk result (λ h. h ≡ server) }
        ensures handed_back { IfErr result (λ s. s ≡ server) }
        ensures exact { IsOk result ↔ (server.strayed ≡ false) }
    {
        if server.strayed() {
            return Err(server);
        }
        Ok(HonestServer { server })
    }

    /// The server, which may be looked at.
    pub fn server(&self) -> &ServerNode
        ensures server { result.now ≡ self.now }
        ensures straight { HasNotStrayed self.now }
    {
        self.server.node().is_honest();
        &self.server
    }

    /// The server as it is now.
    pub fn into_server(self) -> ServerNode
        ensures server { result ≡ self }
        ensures straight { HasNotStrayed self }
    {
        self.server.node().is_honest();
        self.server
    }

    /// Receives an envelope's text at a time. Gives what it shows of it: its acknowledgement, and its reply's
    /// envelope, if one is owed, whose body is the one owed. The server stays one that hasn't strayed.
    /// `KeysUsedUp` comes only where fewer than two keys are left, `NoMemory` only where a growth was refused,
    /// `Failed` only where the message isn't new to the server, or refused by it, or its log lacks numbers for
    /// what would be logged.
    pub(crate) fn answer(
        &mut self,
        alloc: Global,
        time: Time,
        call: Incoming<'_, Envelope>,
    ) -> Result<Shown, LinkFault>
        ensures straight { HasNotStrayed self.old }
        ensures stays { HasNotStrayed self.new }
        ensures answered { (e : Envelope) → IsEnvelopeText e call.entry
            → IfOk result (λ r. HasAnswered self.old time e r.ack r.reply self.new) }
        ensures served { (e : Envelope) → IsEnvelopeText e call.entry → IfOk result (λ r.
            IsServed self.old time e.body (option_map (λ f. f.body) r.reply) self.new) }
        ensures stops { (e : Envelope) → IsEnvelopeText e call.entry → IfErr result (λ f.
            StopsAnswering self.old time e call.entry f self.new) }
    {
        self.server.node().is_honest();
        let result = answer(&mut self.server, alloc, time, call);
        self.server.node().is_honest();
        result
    }

    /// Keeps the digest of the signature of an envelope that this server sent, as `Node::keep_digest`.
    pub fn keep_digest(&mut self, envelope: &Envelope)
        ensures { self.new ≡ self.old }
    {
        self.server.keep_digest(envelope);
    }

    /// Takes an acknowledgement's text, which it is to await: of another, `Failed`, and also where its log has
    /// no number for the ACK. The server stays one that hasn't strayed. `NoMemory` comes only where a growth
    /// was refused.
    pub(crate) fn take_awaited(
        &mut self,
        alloc: Global,
        text: Incoming<'_, Ack>,
    ) -> Result<(), LinkFault>
        ensures straight { HasNotStrayed self.old }
        ensures stays { HasNotStrayed self.new }
        ensures takes { (a : Ack) → IsTextOfAck a text.entry → IsAccepted self.old a →
            TakesAwaited self.old a result self.new }
        ensures told { (a : Ack) → IsTextOfAck a text.entry → MayTakeAck self.old a result self.new }
    {
        self.server.node().is_honest();
        let result = take_ack(&mut self.server, alloc, text);
        self.server.node().is_honest();
        result
    }

    /// Receives an envelope's text at a time, as `ServerNode::receive` does. The server stays one that hasn't
    /// strayed.
    pub fn receive(
        &mut self,
        alloc: Global,
        time: Time,
        bytes: &[u8],
    ) -> Result<Received<Receipt>, Refusal>
        ensures straight { HasNotStrayed self.old }
        ensures stays { HasNotStrayed self.new }
        ensures receives { Receives self.old time bytes.now result self.new }
    {
        self.server.node().is_honest();
        let result = self.server.receive(alloc, time, bytes);
        self.server.node().is_honest();
        result
    }

    /// Receives an envelope as `receive`. What was read and checked of it before isn't read and checked again.
    pub fn receive_incoming(
        &mut self,
        alloc: Global,
        time: Time,
        incoming: Incoming<'_, Envelope>,
    ) -> Result<Received<Receipt>, Refusal>
        ensures straight { HasNotStrayed self.old }
        ensures stays { HasNotStrayed self.new }
        ensures receives { Receives self.old time incoming.entry result self.new }
    {
        self.server.node().is_honest();
        let result = self.server.receive_incoming(alloc, time, incoming);
        self.server.node().is_honest();
        result
    }

    /// Takes an acknowledgement's text, as `Node::take_ack` does. The server stays one that hasn't strayed.
    pub fn take_ack(&mut self, alloc: Global, bytes: &[u8]) -> Result<AckTaken, Refusal>
        ensures straight { HasNotStrayed self.old }
        ensures stays { HasNotStrayed self.new }
        ensures takes { TakesAck self.old bytes.now result self.new }
    {
        self.server.node().is_honest();
        let result = self.server.take_ack(alloc, bytes);
        self.server.node().is_honest();
        result
    }

    /// Takes an acknowledgement as `take_ack`. What was read and checked of it before isn't read and checked
    /// again.
    pub fn take_incoming_ack(
        &mut self,
        alloc: Global,
        incoming: Incoming<'_, Ack>,
    ) -> Result<AckTaken, Refusal>
        ensures straight { HasNotStrayed self.old }
        ensures stays { HasNotStrayed self.new }
        ensures takes { TakesAck self.old incoming.entry result self.new }
    {
        self.server.node().is_honest();
        let result = self.server.take_incoming_ack(alloc, incoming);
        self.server.node().is_honest();
        result
    }

    /// Logs the digest of the state, as `ServerNode::checkpoint` does. The server stays one that hasn't strayed.
    pub fn checkpoint(&mut self, alloc: Global) -> Result<Number, Refusal>
        ensures straight { HasNotStrayed self.old }
        ensures stays { HasNotStrayed self.new }
        ensures checks { Checks self.old result self.new }
    {
        self.server.node().is_honest();
        let result = self.server.checkpoint(alloc);
        self.server.node().is_honest();
        result
    }
}
