//! Messages between the nodes of a script.

ghost use Rattle.std.specs.Prelude.{◌≡◌, IfOk, string_bytes};
ghost use Rattle.scripts.specs.Nodes.{IsRefusalOf, IsToLie, SaysCheck, SaysSkip};
ghost use Rattle.scripts.specs.Turns.{Does, IsHanded, IsMarked, IsRefusal, IsSilent, IsSkipped};

use crate::acts::Run;
use crate::answer::{marked_line, refused_line, reply_line};
use crate::line::Pair;
use crate::stop::Stop;
use authenticator::Number;
use commitment::{Received, Refusal};
use envelopes::Envelope;
use nfs_items::Time;
use nodes::exchanges::exchange;
use nodes::{LinkFault, NodeLog, Receipt};
use secure_log::log_entries::Body;
use std::alloc::{AllocError, Global};
use std::sync::Wait;
use std::thread::Threads;
use witness_calls::Shelf;
use witness_calls::packet_texts::{ack_packet, challenge_packet};

impl<R: Threads + Wait + Sync, S: Shelf> Run<'_, '_, R, S> {
    /// `call C S HEX`: the whole exchange, which both nodes log.
    pub(crate) fn call(&mut self, time: Time, pair: Pair, body: &Body) -> Result<String, Stop>
        ensures { IfOk result (λ text. Does IsSilent self.old.caller (string_bytes text) self.new.caller) }
    {
        let (client, server) = self.parties.pair(pair).ok_or(Stop::Bad)?;
        let text = &mut self.text;
        match exchange(client, server, text, self.alloc, time, body.bytes()) {
            Ok(reply) => Ok(reply_line(self.alloc, reply.as_deref())?),
            Err(fault) => self.refuse(refusal_of(fault)),
        }
    }

    /// `lie S`: the server's next reply will be changed.
    pub(crate) fn lie(&mut self, server: u32) -> Result<String, Stop>
        ensures silent { IfOk result (λ text.
            Does IsSilent self.old.caller (string_bytes text) self.new.caller) }
        ensures node { IfOk result (λ _. IsToLie self.old.parties.now server self.new.parties.now) }
    {
        if !self.parties.lie(server) {
            return Err(Stop::Bad);
        }
        self.line("ok")
    }

    /// `mark S`: the server logs a CHECK. Where bases are written its base is, once something after it is
    /// signed.
    pub(crate) fn mark(&mut self, server: u32) -> Result<String, Stop>
        ensures marked { IfOk result (λ text.
            Does IsMarked self.old.caller (string_bytes text) self.new.caller) }
        ensures node { IfOk result (λ text.
            SaysCheck self.old.parties.now server (string_bytes text) self.new.parties.now) }
    {
        match self.parties.checkpoint(self.alloc, server) {
            Some(Ok(number)) => {
                self.bases.wait_for(server, number.get())?;
                Ok(marked_line(self.alloc, number.get())?)
            }
            Some(Err(refusal)) => self.refuse(refusal),
            None => Err(Stop::Bad),
        }
    }

    /// `skip N BY`: the next entry of the node's log skips so many numbers.
    pub(crate) fn skip(&mut self, node: u32, by: u32) -> Result<String, Stop>
        ensures skipped { IfOk result (λ text.
            Does IsSkipped self.old.caller (string_bytes text) self.new.caller) }
        ensures node { IfOk result (λ text.
            SaysSkip self.old.parties.now node by (string_bytes text) self.new.parties.now) }
    {
        match self.parties.skip(node, by) {
            Some(Ok(())) => self.line("ok"),
            Some(Err(refusal)) => self.refuse(refusal),
            None => Err(Stop::Bad),
        }
    }

    /// `fork C S HEX HEX`: two messages under one number, of which the client logs the first alone. It takes
    /// nothing back.
    pub(crate) fn fork(
        &mut self,
        time: Time,
        pair: Pair,
        first: Body,
        second: Body,
    ) -> Result<String, Stop>
        ensures { IfOk result (λ text. Does IsSilent self.old.caller (string_bytes text) self.new.caller) }
    {
        let (client, _) = self.parties.pair(pair).ok_or(Stop::Bad)?;
        match client.fork(pair.server, first, second) {
            Ok(forked) => self.hand_both(time, pair, forked.number, forked.second.as_ref()),
            Err(refusal) => self.refuse_both(refusal),
        }
    }

    /// The lines of a node's refusal of each of two messages.
    fn refuse_both(&self, refusal: Refusal) -> Result<String, Stop> {
        let mut text = self.refuse(refusal)?;
        let second = self.refuse(refusal)?;
        text.push_str(&second)?;
        Ok(text)
    }

    /// Hands the server the message that a client logged under a number, and then the other one.
    fn hand_both(
        &mut self,
        time: Time,
        pair: Pair,
        number: Number,
        second: Option<&Envelope>,
    ) -> Result<String, Stop>
        ensures { self.new.caller ≡ self.old.caller }
    {
        let mut text = self.hand_first(time, pair, number)?;
        let second = self.hand_second(time, pair.server, second)?;
        text.push_str(&second)?;
        Ok(text)
    }

    /// Hands the server the message that a client logged under a number.
    fn hand_first(&mut self, time: Time, pair: Pair, number: Number) -> Result<String, Stop>
        ensures { self.new.caller ≡ self.old.caller }
    {
        match self.message_text(pair, number.get())? {
            Some(text) => self.hand(time, pair.server, &text),
            None => self.line("none"),
        }
    }

    /// Hands a server a message that its client didn't log, if there was a key for it.
    fn hand_second(
        &mut self,
        time: Time,
        server: u32,
        envelope: Option<&Envelope>,
    ) -> Result<String, Stop>
        ensures { self.new.caller ≡ self.old.caller }
    {
        let Some(envelope) = envelope else {
            return self.refuse(Refusal::KeysUsedUp);
        };
        let mut text = Vec::new(self.alloc);
        envelope.view().write(&mut text)?;
        self.hand(time, server, &text)
    }

    /// Hands a server a message's text. Gives the line of its reply.
    fn hand(&mut self, time: Time, server: u32, text: &[u8]) -> Result<String, Stop>
        ensures { self.new.caller ≡ self.old.caller }
    {
        match self.received(time, server, text)? {
            Ok(receipt) => self.reply(server, &receipt),
            Err(refusal) => self.refuse(refusal),
        }
    }

    /// The line of the reply that a server's receipt names.
    fn reply(&self, server: u32, receipt: &Receipt) -> Result<String, Stop> {
        let node = self.parties.node(server).ok_or(Stop::Bad)?;
        let reply = reply_of(self.alloc, node, receipt)?;
        Ok(reply_line(self.alloc, reply.as_deref())?)
    }

    /// What a server makes of a message's text: its receipt, or its refusal.
    fn received(
        &mut self,
        time: Time,
        server: u32,
        text: &[u8],
    ) -> Result<Result<Receipt, Refusal>, Stop>
        ensures { self.new.caller ≡ self.old.caller }
    {
        let node = self.parties.server(server).ok_or(Stop::Bad)?;
        match node.receive(self.alloc, time, text) {
            Ok(Received::New(receipt) | Received::Repeat(receipt)) => Ok(Ok(receipt)),
            Err(refusal) => Ok(Err(refusal)),
        }
    }

    /// That there are a client and a server with these numbers.
    fn known_pair(&self, pair: Pair) -> Result<(), Stop> {
        if self.parties.has(pair) {
            Ok(())
        } else {
            Err(Stop::Bad)
        }
    }

    /// The line of a node's refusal.
    fn refuse(&self, refusal: Refusal) -> Result<String, Stop>
        ensures is { IfOk result (λ text. IsRefusal (string_bytes text)) }
        ensures of { IfOk result (λ text. IsRefusalOf refusal (string_bytes text)) }
    {
        let number = refusal.number().ok_or(Stop::NoMemory)?;
        Ok(refused_line(self.alloc, number)?)
    }

    /// The text of a client's message to a server, if it sent one under this number.
    fn message_text(&self, pair: Pair, number: u64) -> Result<Option<Vec<u8>>, Stop> {
        let client = self.parties.client(pair.client).ok_or(Stop::Bad)?;
        match client.node().envelope(number) {
            Some(envelope) if envelope.to == pair.server => {
                let mut text = Vec::new(self.alloc);
                envelope.write(&mut text)?;
                Ok(Some(text))
            }
            _ => Ok(None),
        }
    }

    /// `challenge C S K`: the witness gets the message, which the server is to acknowledge.
    pub(crate) fn challenge(&mut self, pair: Pair, number: u32) -> Result<String, Stop>
        ensures { IfOk result (λ text. Does IsHanded self.old.caller (string_bytes text) self.new.caller) }
    {
        self.known_pair(pair)?;
        let packet = self.challenge_packet(pair, u64::from(number))?;
        self.hand_over(packet)
    }

    /// The packet of a client's message to a server, if it sent one under this number.
    fn challenge_packet(&self, pair: Pair, number: u64) -> Result<Option<Vec<u8>>, Stop> {
        let client = self.parties.client(pair.client).ok_or(Stop::Bad)?;
        match client.node().envelope(number) {
            Some(envelope) if envelope.to == pair.server => {
                Ok(Some(challenge_packet(self.alloc, &envelope)?))
            }
            _ => Ok(None),
        }
    }

    /// `ack C S K`: the server receives the message again, and the witness gets its acknowledgement.
    pub(crate) fn acknowledge(
        &mut self,
        time: Time,
        pair: Pair,
        number: u32,
    ) -> Result<String, Stop>
        ensures { IfOk result (λ text. Does IsHanded self.old.caller (string_bytes text) self.new.caller) }
    {
        self.known_pair(pair)?;
        match self.message_text(pair, u64::from(number))? {
            Some(text) => self.receive_again(time, pair.server, &text),
            None => self.line("none"),
        }
    }

    /// Hands a server a message's text, and the witness the acknowledgement.
    fn receive_again(&mut self, time: Time, server: u32, text: &[u8]) -> Result<String, Stop>
        ensures { IfOk result (λ text. Does IsHanded self.old.caller (string_bytes text) self.new.caller) }
    {
        match self.received(time, server, text)? {
            Ok(receipt) => self.hand_receipt(server, &receipt),
            Err(refusal) => self.refuse(refusal),
        }
    }

    /// Hands the witness the acknowledgement that a server's receipt names.
    fn hand_receipt(&mut self, server: u32, receipt: &Receipt) -> Result<String, Stop>
        ensures { IfOk result (λ text. Does IsHanded self.old.caller (string_bytes text) self.new.caller) }
    {
        let node = self.parties.node(server).ok_or(Stop::Bad)?;
        let packet = receipt_packet(self.alloc, node, receipt)?;
        self.hand_over(Some(packet))
    }
}

/// A fault of an exchange as a node's refusal. One that isn't out of keys or memory is of a message that
/// isn't for its receiver: no node of a script takes another's so.
fn refusal_of(fault: LinkFault) -> Refusal {
    match fault {
        LinkFault::KeysUsedUp => Refusal::KeysUsedUp,
        LinkFault::NoMemory => Refusal::NoMemory,
        LinkFault::Failed => Refusal::NotForMe,
    }
}

/// The body of the reply that a receipt names, if there is one.
fn reply_of(
    alloc: Global,
    server: &NodeLog,
    receipt: &Receipt,
) -> Result<Option<Vec<u8>>, AllocError> {
    let Some(number) = receipt.reply else {
        return Ok(None);
    };
    match server.envelope(number.get()) {
        Some(envelope) => Ok(Some(envelope.body.bytes().to_vec(alloc)?)),
        None => Ok(None),
    }
}

/// The packet of the acknowledgement that a receipt names. It is empty where there is none.
fn receipt_packet(
    alloc: Global,
    server: &NodeLog,
    receipt: &Receipt,
) -> Result<Vec<u8>, AllocError> {
    match server.ack(receipt.ack.get()) {
        Some(ack) => ack_packet(alloc, &ack),
        None => Ok(Vec::new(alloc)),
    }
}
