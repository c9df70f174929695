//! A script that runs, and what its lines do.

ghost use Rattle.std.specs.Prelude.{◌≡◌, ◌++◌, codes, IfOk, string_bytes};
ghost use Rattle.scripts.specs.Said.{IsLineOf};
ghost use Rattle.scripts.specs.Turns.{Does, IsDone, IsHeard};

use crate::answer::{line_of, said_line};
use crate::bases::BaseFiles;
use crate::line::Act;
use crate::parties::Parties;
use crate::stop::Stop;
use authenticator::Roster;
use nfs_items::Time;
use std::alloc::Global;
use std::sync::Wait;
use std::thread::Threads;
use witness_calls::{Caller, Said, Shelf};

/// A script that runs, with one witness: its nodes, and its pass at the witness.
#[derive(Drop)]
pub(crate) struct Run<'a, 's, R, S> {
    pub(crate) alloc: Global,
    pub(crate) roster: &'a Roster,
    pub(crate) parties: &'s mut Parties,
    pub(crate) caller: Caller<'a, R>,
    pub(crate) shelf: &'s mut S,
    /// What goes between two nodes, for the time of an exchange.
    pub(crate) text: Vec<u8>,
    pub(crate) bases: &'s mut BaseFiles,
}

impl<R: Threads + Wait + Sync, S: Shelf> Run<'_, '_, R, S> {
    /// Does what a line says, at a time. Gives what the line prints.
    pub(crate) fn act(&mut self, time: Time, act: Act<'_>) -> Result<String, Stop>
        ensures { IfOk result (λ text.
            Does (IsDone act.entry) self.old.caller (string_bytes text) self.new.caller) }
    {
        match act {
            Act::Call(pair, body) => self.call(time, pair, &body),
            Act::Fork(pair, first, second) => self.fork(time, pair, first, second),
            Act::Lie(server) => self.lie(server),
            Act::Mark(server) => self.mark(server),
            Act::Skip(node, by) => self.skip(node, by),
            Act::Challenge(pair, number) => self.challenge(pair, number),
            Act::Ack(pair, number) => self.acknowledge(time, pair, number),
            Act::Learn(place) => self.learn(place),
            Act::Forge(place) => self.forge(place),
            Act::Flood(place, times) => self.flood(place, times),
            Act::Audit(node) => self.audit(node),
            Act::Answer(node) => self.answer_audit(node),
            Act::Replay(workers) => self.replay(workers),
            Act::Forward(node) => self.forward(node),
            Act::Ask(node) => self.ask(node),
            Act::Evidence(node, file) => self.evidence(node, file),
        }
    }

    /// A line of these words.
    pub(crate) fn line(&self, words: &str) -> Result<String, Stop>
        ensures { IfOk result (λ text. string_bytes text ≡ words.now ++ codes "\n") }
    {
        Ok(line_of(self.alloc, words)?)
    }

    /// The line of what the witness said, which isn't that memory ran out.
    pub(crate) fn said(&self, said: &Said) -> Result<String, Stop>
        ensures { IfOk result (λ text. IsLineOf said.now (string_bytes text)) }
    {
        if said.is_no_memory() {
            return Err(Stop::NoMemory);
        }
        Ok(said_line(self.alloc, said)?)
    }

    /// Hands a packet to the witness. Gives the line of what it said.
    pub(crate) fn deliver(&mut self, packet: &[u8]) -> Result<String, Stop>
        ensures { IfOk result (λ text. Does IsHeard self.old.caller (string_bytes text) self.new.caller) }
    {
        let said = self.caller.deliver(packet);
        self.said(&said)
    }
}
