//! A pass at a witness.

ghost use Rattle.std.specs.Prelude.{◌≡◌};
ghost use Rattle.witness_books.specs.node_book.Events.{event_in, question_in};
ghost use Rattle.witness_books.specs.node_book.Replies.{reply_in};
ghost use Rattle.witness_books.specs.node_book.witness_spec.Events.{Ask, Audit, Forward, ItsChallenges, ItsEvidence};
ghost use Rattle.witness_books.specs.node_book.witness_spec.Events.{ItsIndication};
ghost use Rattle.witness_service.specs.Claims.{Keeps};
ghost use Rattle.witness_calls.specs.Telling.{Hears, Says};

use crate::said::Said;
use authenticator::Roster;
use std::alloc::Global;
use std::marker::Model;
use std::sync::Wait;
use witness_service::{
    Event, EventOf, Pass, Question, Reply, SignatureCache, WitnessService, admit,
};

/// The most signatures that a caller's cache keeps: as many as a book learns above its audited
/// end. They take some 4 MiB.
const SIGNATURES: usize = 256;

/// A pass at a witness's service, with all that its steps need: whoever has it hands events over, one after
/// the other, and others do so beside it through passes of their own.
#[derive(Drop)]
pub struct Caller<'a, R> {
    runtime: &'a R,
    alloc: Global,
    service: &'a WitnessService,
    roster: &'a Roster,
    cache: SignatureCache,
    pass: Pass,
}

impl<'a, R> Model for Caller<'a, R> {
    ghost use Rattle.std.specs.Prelude.{List};
    ghost use Rattle.std.specs.Coded.{coded_list};
    ghost use Rattle.witness_service.specs.Claims.{Claim};
    ghost use Rattle.witness_service.specs.Codes.{claim_code};

    ghost Value = { List Claim };

    ghost coded = { coded_list claim_code };

    ghost view = { λ c. c.pass.claims };
}

impl<'a, R: Wait> Caller<'a, R> {
    /// The caller who has a pass. The roster is the witness's.
    pub fn new(
        runtime: &'a R,
        alloc: Global,
        service: &'a WitnessService,
        roster: &'a Roster,
        pass: Pass,
    ) -> Caller<'a, R>
        ensures { result ≡ pass.claims }
    {
        Caller {
            runtime,
            alloc,
            service,
            roster,
            cache: SignatureCache::new(SIGNATURES),
            pass,
        }
    }

    /// Gives the pass back, with the receipts of all steps.
    pub fn into_pass(self) -> Pass
        ensures { result.claims ≡ self.entry }
    {
        let Caller { pass, .. } = self;
        pass
    }

    /// What takes memory takes it from here.
    pub fn alloc(&self) -> Global {
        self.alloc
    }

    /// The runtime.
    pub fn runtime(&self) -> &'a R {
        self.runtime
    }

    /// One event, with its reply: one step of the witness's books.
    pub fn step(&mut self, event: Event) -> Reply
        ensures { Keeps self.old (event_in event) (reply_in result) self.new }
    {
        self.service
            .step(self.runtime, self.alloc, &mut self.pass, event)
    }

    /// One event that asks for no job and brings none back.
    fn say(&mut self, event: Event) -> Said
        ensures { Says self.old (event_in event) result self.new }
    {
        Said::of(self.step(event))
    }

    /// Hands a packet over: its bytes are checked before the step, which no one waits for.
    pub fn deliver(&mut self, packet: &[u8]) -> Said
        ensures { Hears self.old result self.new }
    {
        match admit(self.alloc, self.roster, &mut self.cache, packet) {
            Ok(event) => self.say(event),
            Err(refusal) => Said::Refused(refusal),
        }
    }

    /// Has the node asked for the next segment of its log.
    pub fn audit(&mut self, node: u32) -> Said
        ensures { Says self.old (Audit node) result self.new }
    {
        self.say(EventOf::Audit(node))
    }

    /// Takes the oldest authenticator that a node's log showed of another one.
    pub fn forward(&mut self, node: u32) -> Said
        ensures { Says self.old (Forward node) result self.new }
    {
        self.say(EventOf::Forward(node))
    }

    /// Asks for a node's failure indication.
    pub fn indication(&mut self, node: u32) -> Said
        ensures { Says self.old (Ask node ItsIndication) result self.new }
    {
        self.ask(node, Question::Indication)
    }

    /// Asks for the challenges to a node that are open.
    pub fn challenges(&mut self, node: u32) -> Said
        ensures { Says self.old (Ask node ItsChallenges) result self.new }
    {
        self.ask(node, Question::Challenges)
    }

    /// Asks for the evidence against a node.
    pub fn evidence(&mut self, node: u32) -> Said
        ensures { Says self.old (Ask node ItsEvidence) result self.new }
    {
        self.ask(node, Question::Evidence)
    }

    /// Asks what the witness says of a node.
    fn ask(&mut self, node: u32, question: Question) -> Said
        ensures { Says self.old (Ask node (question_in question)) result self.new }
    {
        self.say(EventOf::Ask(node, question))
    }
}
