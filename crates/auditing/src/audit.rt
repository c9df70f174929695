//! Audits of a node's log, segment by segment.

use crate::output::AuditOutput;
use authenticator::{Authenticator, Roster};
use nodes::NodeLog;
use secure_log::SegmentFault;
use std::alloc::{AllocError, Global};
use std::io::Write;
use std::sync::{Arc, Mutex, Wait};
use std::thread::Threads;
use witness_calls::packet_texts::{answer_packet, learn_packet};
use witness_calls::{Asked, Caller, Evidence, Outcome, Pass, Said, Shelf, WitnessService};

/// How many workers replay a segment.
const WORKERS: usize = 2;

/// What all threads of a run share to audit.
pub struct AuditContext<'a, R, E, S> {
    pub rt: &'a R,
    pub alloc: Global,
    pub service: &'a WitnessService,
    pub roster: &'a Roster,
    pub output: &'a Mutex<AuditOutput<E, S>>,
    pub progress: bool,
}

impl<'a, R, E, S> Clone for AuditContext<'a, R, E, S> {
    fn clone(&self) -> Result<AuditContext<'a, R, E, S>, AllocError> {
        Ok(*self)
    }
}

impl<'a, R, E, S> Copy for AuditContext<'a, R, E, S> {}

/// A pass at the witness, by which a thread audits nodes.
#[derive(Drop)]
pub struct Auditor<'a, R, E, S> {
    pub(crate) context: AuditContext<'a, R, E, S>,
    pub(crate) caller: Caller<'a, R>,
    /// Authenticators of other nodes that were found, and for which their books had no room.
    pub(crate) kept: Vec<Authenticator>,
}

/// What an auditor leaves when it is done.
#[derive(Drop)]
pub struct Audits {
    /// The pass, with the receipts of all its steps.
    pub pass: Pass,
    /// Authenticators of other nodes that were found, and for which their books had no room.
    pub kept: Vec<Authenticator>,
}

impl<'a, R: Threads + Wait + Sync, E: Write, S: Shelf> Auditor<'a, R, E, S> {
    /// An auditor with a pass at the witness.
    pub fn new(context: AuditContext<'a, R, E, S>, pass: Pass) -> Auditor<'a, R, E, S> {
        let caller = Caller::new(
            context.rt,
            context.alloc,
            context.service,
            context.roster,
            pass,
        );
        let kept = Vec::new(context.alloc);
        Auditor {
            context,
            caller,
            kept,
        }
    }

    /// The allocator of the run.
    pub fn alloc(&self) -> Global {
        self.context.alloc
    }

    /// The pass, with what was kept.
    pub fn into_audits(self) -> Audits {
        let Auditor { caller, kept, .. } = self;
        Audits {
            pass: caller.into_pass(),
            kept,
        }
    }

    /// Says a line.
    pub fn say(&self, line: Result<String, AllocError>) {
        self.context.output.lock(self.context.rt).say(line);
    }

    /// Notes that memory was refused.
    pub fn note_no_memory(&self) {
        self.context.output.lock(self.context.rt).note_no_memory();
    }

    /// Audits a node from the last number that was filed to its last signed entry, as far as it comes.
    /// `filed` is the last number that is filed then, also where memory ran out.
    pub fn audit(&mut self, number: u32, log: &NodeLog, filed: &mut u64) -> Result<(), AllocError> {
        let mut begun = false;
        for _ in 0..u64::MAX {
            let Some(last) = log.signed_after(*filed) else {
                return Ok(());
            };
            if begun {
                self.forward(number)?;
            }
            match self.audit_to(number, log, last.get())? {
                Some(next) => *filed = next,
                None => return Ok(()),
            }
            self.say_progress(number, *filed);
            begun = true;
        }
        Ok(())
    }

    /// Says how far a node is audited, where that is to be told.
    fn say_progress(&self, number: u32, filed: u64) {
        if self.context.progress {
            self.say(format!(in self.context.alloc; "nfsacc: node {number}: audited to {filed}\n"));
        }
    }

    /// Audits the next segment of a node, up to this number at most: the last number that is filed then, or
    /// none where it can't be filed.
    fn audit_to(
        &mut self,
        number: u32,
        log: &NodeLog,
        last: u64,
    ) -> Result<Option<u64>, AllocError> {
        self.learn_at(log, last)?;
        let Some(asked) = asked_for(&self.caller.audit(number))? else {
            return Ok(None);
        };
        if !self.answer(number, log, asked)? {
            return Ok(None);
        }
        self.replay(number, asked.last)
    }

    /// Hands the witness what a node signed at a number, if it signed there.
    fn learn_at(&mut self, log: &NodeLog, last: u64) -> Result<(), AllocError> {
        match log.authenticator(self.context.alloc, last)? {
            Some(authenticator) => self.learn(&authenticator).map(|_| ()),
            None => Ok(()),
        }
    }

    /// Hands the witness the segment that it asks for. Tells whether it took it.
    fn answer(&mut self, number: u32, log: &NodeLog, asked: Asked) -> Result<bool, AllocError> {
        match segment_packet(self.context.alloc, log, asked)? {
            Some(packet) => self.hand_segment(number, &packet),
            None => Ok(false),
        }
    }

    /// Hands the witness a segment's packet of a node. Tells whether it took it.
    fn hand_segment(&mut self, number: u32, packet: &[u8]) -> Result<bool, AllocError> {
        let answer = self.deliver(packet)?;
        self.look_at(number)?;
        Ok(answer == PacketAnswer::Accepted)
    }

    /// Hands the witness a packet.
    fn deliver(&mut self, packet: &[u8]) -> Result<PacketAnswer, AllocError> {
        PacketAnswer::of(&self.caller.deliver(packet))
    }

    /// Has the segment that a node gave replayed, and files what was found: the last number that is
    /// filed then, if it is sound.
    fn replay(&mut self, number: u32, last: u64) -> Result<Option<u64>, AllocError> {
        let mut filed = None;
        for replayed in &self.caller.replay(&[number], WORKERS)? {
            if let Outcome::Sound = replayed.outcome {
                filed = Some(last);
            }
        }
        self.look_at(number)?;
        Ok(filed)
    }

    /// Hands the witness an authenticator. Tells whether there was room for it.
    pub(crate) fn learn(&mut self, authenticator: &Authenticator) -> Result<bool, AllocError> {
        let packet = learn_packet(self.context.alloc, authenticator)?;
        self.hand_signed(authenticator.node, &packet)
    }

    /// Hands the witness the packet of an authenticator of a node. Tells whether there was room for it.
    fn hand_signed(&mut self, number: u32, packet: &[u8]) -> Result<bool, AllocError> {
        if self.deliver(packet)? == PacketAnswer::Full {
            return Ok(false);
        }
        self.look_at(number)?;
        Ok(true)
    }

    /// Takes all authenticators of others that a node's log showed, and hands them to the witness.
    pub(crate) fn forward(&mut self, number: u32) -> Result<(), AllocError> {
        for _ in 0..u64::MAX {
            match self.caller.forward(number) {
                Said::Forwarded(authenticator) => self.pass_on(authenticator)?,
                said => return no_more(&said),
            }
        }
        Ok(())
    }

    /// Hands on an authenticator that was found, or keeps it where there is no room.
    fn pass_on(&mut self, authenticator: Authenticator) -> Result<(), AllocError> {
        if self.learn(&authenticator)? {
            return Ok(());
        }
        match self.kept.push(authenticator) {
            Ok(()) => Ok(()),
            Err(_) => Err(AllocError),
        }
    }

    /// Where evidence is asked for and a node is exposed, puts the evidence in its place.
    fn look_at(&mut self, number: u32) -> Result<(), AllocError> {
        if !self.context.output.lock(self.context.rt).wants(number) {
            return Ok(());
        }
        if is_exposed(&self.caller.indication(number))? {
            self.show(number)
        } else {
            Ok(())
        }
    }

    /// Puts the evidence against a node in its place.
    fn show(&mut self, number: u32) -> Result<(), AllocError> {
        match self.caller.evidence(number) {
            Said::EvidenceIs(Some(evidence)) => {
                self.put(number, &evidence);
                Ok(())
            }
            said => no_more(&said),
        }
    }

    /// Puts evidence in its place.
    fn put(&self, number: u32, evidence: &Arc<Evidence>) {
        self.context
            .output
            .lock(self.context.rt)
            .show(self.context.roster, number, evidence);
    }
}

/// What a witness answered to a packet, as far as an audit needs to know.
#[derive(Clone, Copy, PartialEq, Eq)]
enum PacketAnswer {
    /// It took the segment.
    Accepted,
    /// It has no room for the authenticator.
    Full,
    /// Something else.
    Other,
}

impl PacketAnswer {
    /// What it said: an error where that is that memory ran out.
    fn of(said: &Said) -> Result<PacketAnswer, AllocError> {
        no_more(said)?;
        if said.is_learned_full() {
            return Ok(PacketAnswer::Full);
        }
        match said {
            Said::Accepted => Ok(PacketAnswer::Accepted),
            _ => Ok(PacketAnswer::Other),
        }
    }
}

/// What an audit asks for, where a witness said that: an error where it said that memory ran out.
fn asked_for(said: &Said) -> Result<Option<Asked>, AllocError> {
    match said {
        Said::Asked { first, last } => Ok(Some(Asked {
            first: first.get(),
            last: last.get(),
        })),
        other => {
            no_more(other)?;
            Ok(None)
        }
    }
}

/// Whether a witness said that a node is exposed: an error where it said that memory ran out.
fn is_exposed(said: &Said) -> Result<bool, AllocError> {
    no_more(said)?;
    Ok(said.is_exposed())
}

/// The packet of the segment that is asked for, if a node has it.
fn segment_packet(
    alloc: Global,
    log: &NodeLog,
    asked: Asked,
) -> Result<Option<Vec<u8>>, AllocError> {
    match log.answer_challenge(alloc, asked.first, asked.last) {
        Ok(text) => answer_packet(alloc, log.log_version(), &text).map(Some),
        Err(SegmentFault::NoMemory) => Err(AllocError),
        Err(_) => Ok(None),
    }
}

/// An error where a witness said that memory ran out.
pub(crate) fn no_more(said: &Said) -> Result<(), AllocError> {
    if said.is_no_memory() {
        Err(AllocError)
    } else {
        Ok(())
    }
}
