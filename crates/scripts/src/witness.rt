//! What the witness of a script is asked and told.

ghost use Rattle.std.specs.Prelude.{◌≡◌, IfOk, OnOk, string_bytes};
ghost use Rattle.witness_calls.specs.Telling.{AsksOpen};
ghost use Rattle.witness_spec.specs.Events.{Ask, Audit, ItsChallenges};
ghost use Rattle.scripts.specs.Turns.{Does, IsAfter, IsAnswered, IsAsked, IsEvidence, IsFlood};
ghost use Rattle.scripts.specs.Turns.{log_version, IsForwarded, IsHanded, IsPassed, IsRound, written_line};

use crate::acts::Run;
use crate::answer::{flooded_line, forwarded_line, round_text, told_line};
use crate::line::{OneToSixteen, Place};
use crate::stop::Stop;
use authenticator::{Authenticator, LogVersion, Roster};
use secure_log::SegmentFault;
use std::sync::Wait;
use std::thread::Threads;
use witness_calls::packet_texts::{answer_packet, learn_packet};
use witness_calls::{Asked, Evidence, Said, Shelf, write_case};

impl<R: Threads + Wait + Sync, S: Shelf> Run<'_, '_, R, S> {
    /// Hands a packet to the witness, if there is one. Gives the line of what it said, or `none`.
    pub(crate) fn hand_over(&mut self, packet: Option<Vec<u8>>) -> Result<String, Stop>
        ensures { IfOk result (λ text. Does IsHanded self.old.caller (string_bytes text) self.new.caller) }
    {
        match packet {
            Some(packet) => self.deliver(&packet),
            None => self.line("none"),
        }
    }

    /// The packet of a node's authenticator, if the node signed something there.
    fn authenticator_packet(&self, place: Place) -> Result<Option<Vec<u8>>, Stop> {
        let node = self.parties.node(place.node).ok_or(Stop::Bad)?;
        match node.authenticator(self.alloc, u64::from(place.number))? {
            Some(authenticator) => Ok(Some(learn_packet(self.alloc, &authenticator)?)),
            None => Ok(None),
        }
    }

    /// `learn N K`.
    pub(crate) fn learn(&mut self, place: Place) -> Result<String, Stop>
        ensures { IfOk result (λ text. Does IsHanded self.old.caller (string_bytes text) self.new.caller) }
    {
        let packet = self.authenticator_packet(place)?;
        self.hand_over(packet)
    }

    /// The same packet with the lowest bit of its last byte changed.
    fn forged_packet(&self, place: Place) -> Result<Option<Vec<u8>>, Stop> {
        let mut packet = self.authenticator_packet(place)?;
        if let Some(bytes) = &mut packet {
            change_last(bytes);
        }
        Ok(packet)
    }

    /// `forge N K`.
    pub(crate) fn forge(&mut self, place: Place) -> Result<String, Stop>
        ensures { IfOk result (λ text. Does IsHanded self.old.caller (string_bytes text) self.new.caller) }
    {
        let packet = self.forged_packet(place)?;
        self.hand_over(packet)
    }

    /// `flood N K T`: as `forge`, so many times.
    pub(crate) fn flood(&mut self, place: Place, times: u32) -> Result<String, Stop>
        ensures { IfOk result (λ text.
            Does (IsFlood times) self.old.caller (string_bytes text) self.new.caller) }
    {
        match self.forged_packet(place)? {
            Some(packet) => self.deliver_often(&packet, times),
            None => self.line("none"),
        }
    }

    /// Hands a packet over so many times, or until the witness says something else than that its signature is
    /// bad. Gives the line of that.
    fn deliver_often(&mut self, packet: &[u8], times: u32) -> Result<String, Stop>
        ensures { IfOk result (λ text.
            Does (IsFlood times) self.old.caller (string_bytes text) self.new.caller) }
    {
        for _ in 0..times {
            let said = self.caller.deliver(packet);
            if !said.is_bad_signature() {
                return self.said(&said);
            }
        }
        Ok(flooded_line(self.alloc, times)?)
    }

    /// That there is a node with a number.
    fn known(&self, node: u32) -> Result<(), Stop> {
        match self.parties.node(node) {
            Some(_) => Ok(()),
            None => Err(Stop::Bad),
        }
    }

    /// `audit N`.
    pub(crate) fn audit(&mut self, node: u32) -> Result<String, Stop>
        ensures { IfOk result (λ text.
            Does (IsAnswered (Audit node)) self.old.caller (string_bytes text) self.new.caller) }
    {
        self.known(node)?;
        let said = self.caller.audit(node);
        self.said(&said)
    }

    /// The packet of the segment that a node is asked for, if one is and the node has it.
    fn segment_packet(&self, node: u32, asked: Option<Asked>) -> Result<Option<Vec<u8>>, Stop> {
        let Some(asked) = asked else {
            return Ok(None);
        };
        let log = self.parties.node(node).ok_or(Stop::Bad)?;
        match log.answer_challenge(self.alloc, asked.first, asked.last) {
            Ok(text) => Ok(Some(answer_packet(self.alloc, log.log_version(), &text)?)),
            Err(SegmentFault::NoMemory) => Err(Stop::NoMemory),
            Err(_) => Ok(None),
        }
    }

    /// What the node is asked by the audit that is open, if one is.
    fn asked(&mut self, node: u32) -> Result<Option<Asked>, Stop>
        ensures { OnOk result (AsksOpen self.old.caller node self.new.caller) }
    {
        Ok(self.caller.asked(node)?)
    }

    /// `answer N`.
    pub(crate) fn answer_audit(&mut self, node: u32) -> Result<String, Stop>
        ensures { IfOk result (λ text. Does (IsAfter (Ask node ItsChallenges) IsHanded) self.old.caller
            (string_bytes text) self.new.caller) }
    {
        self.known(node)?;
        let asked = self.asked(node)?;
        let packet = self.segment_packet(node, asked)?;
        self.hand_over(packet)
    }

    /// `replay W`: begins what was given by rising numbers of nodes.
    pub(crate) fn replay(&mut self, workers: OneToSixteen) -> Result<String, Stop>
        ensures { IfOk result (λ text. Does IsRound self.old.caller (string_bytes text) self.new.caller) }
    {
        let mut nodes = Vec::new(self.alloc);
        for member in self.roster.members() {
            nodes.push(member.node)?;
        }
        let replayed = self.caller.replay(&nodes, workers.get() as usize)?;
        Ok(round_text(self.alloc, &replayed)?)
    }

    /// `forward N`: what comes out goes to the book of the node that signed it.
    pub(crate) fn forward(&mut self, node: u32) -> Result<String, Stop>
        ensures { IfOk result (λ text.
            Does (IsForwarded node) self.old.caller (string_bytes text) self.new.caller) }
    {
        self.known(node)?;
        match self.caller.forward(node) {
            Said::Forwarded(authenticator) => self.pass_on(&authenticator),
            said => self.said(&said),
        }
    }

    /// Hands an authenticator over. Gives whose it is and the line of what the witness said.
    fn pass_on(&mut self, authenticator: &Authenticator) -> Result<String, Stop>
        ensures { IfOk result (λ text.
            Does (IsPassed (log_version self.old.roster.now authenticator.now.node) authenticator.now)
            self.old.caller (string_bytes text) self.new.caller) }
    {
        let version = log_version(self.roster, authenticator.node);
        let packet = learn_packet(self.alloc, authenticator)?;
        let line = self.deliver(&packet)?;
        Ok(forwarded_line(self.alloc, version, authenticator, &line)?)
    }

    /// `ask N`: gives the node's failure indication, and how many challenges are open.
    pub(crate) fn ask(&mut self, node: u32) -> Result<String, Stop>
        ensures { IfOk result (λ text.
            Does (IsAsked node) self.old.caller (string_bytes text) self.new.caller) }
    {
        self.known(node)?;
        match self.caller.told(node) {
            Ok(told) => Ok(told_line(self.alloc, &told)?),
            Err(said) => self.said(&said),
        }
    }

    /// `evidence N FILE`: the file gets the roster's text, and after it that of the evidence.
    pub(crate) fn evidence(&mut self, node: u32, file: &str) -> Result<String, Stop>
        ensures { IfOk result (λ text.
            Does (IsEvidence node) self.old.caller (string_bytes text) self.new.caller) }
    {
        self.known(node)?;
        match self.caller.evidence(node) {
            Said::EvidenceIs(Some(evidence)) => self.put_evidence(file, &evidence),
            Said::EvidenceIs(None) => self.line("none"),
            said => self.said(&said),
        }
    }

    /// Puts a file with the roster's text and evidence in its place.
    fn put_evidence(&mut self, file: &str, evidence: &Evidence) -> Result<String, Stop>
        ensures stays { OnOk result (self.new.caller ≡ self.old.caller) }
        ensures text { IfOk result (λ text. string_bytes text ≡ written_line) }
    {
        let mut text = Vec::new(self.alloc);
        write_case(self.roster, evidence, &mut text)?;
        self.put(file, &text)?;
        self.line("written")
    }

    /// Puts a file in its place.
    pub(crate) fn put(&mut self, file: &str, bytes: &[u8]) -> Result<(), Stop>
        ensures { self.new.caller ≡ self.old.caller }
    {
        match self.shelf.put(file, bytes) {
            Ok(()) => Ok(()),
            Err(error) => Err(Stop::of_file(self.alloc, file, error)),
        }
    }
}

/// The version of a node's log, as a roster has it; 1 where it is no member.
fn log_version(roster: &Roster, node: u32) -> LogVersion
    ensures { result ≡ log_version roster.now node }
{
    match roster.member(node) {
        Some(member) => member.log_version,
        None => LogVersion::One,
    }
}

/// Changes the lowest bit of the last byte.
fn change_last(bytes: &mut [u8]) {
    if let Some(last) = bytes.last_mut() {
        *last ^= 1;
    }
}
