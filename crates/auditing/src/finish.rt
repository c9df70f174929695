//! The end of a run: everybody's log is audited, and the witness is asked what it says of each node.

use crate::accounts::last_signed;
use crate::audit::{Auditor, no_more};
use authenticator::Authenticator;
use nodes::NodeLog;
use std::alloc::AllocError;
use std::io::Write;
use std::mem;
use std::sync::Wait;
use std::thread::Threads;
use witness_calls::Shelf;

/// The log of a node that is to be audited, and how far it was.
#[derive(Clone, Copy)]
pub struct LogToAudit<'n> {
    /// The node's number.
    pub number: u32,
    /// Its log.
    pub log: &'n NodeLog,
    /// The last number that the witness has filed.
    pub filed: u64,
}

impl<'a, R: Threads + Wait + Sync, E: Write, S: Shelf> Auditor<'a, R, E, S> {
    /// Audits a node to its last signed entry. Where that can't be, says how far it came.
    fn finish_node(&mut self, node: &LogToAudit<'_>) -> Result<(), AllocError> {
        let LogToAudit { number, log, filed } = *node;
        let signed = last_signed(log);
        let mut filed = filed;
        let audited = self.go_on(number, log, signed, &mut filed);
        if filed != signed {
            self.say(format!(in self.context.alloc;
                "nfsacc: node {number}: audited to {filed} of {signed}\n"
            ));
        }
        audited
    }

    /// Goes on with the audit of a node, where its last signed entry isn't filed.
    fn go_on(
        &mut self,
        number: u32,
        log: &NodeLog,
        signed: u64,
        filed: &mut u64,
    ) -> Result<(), AllocError> {
        if *filed == signed {
            return Ok(());
        }
        self.forward(number)?;
        self.audit(number, log, filed)
    }

    /// Audits each node to its last signed entry, and hands the witness what each showed of others. Where
    /// memory is refused for one the others are audited, and that is noted.
    pub fn finish(&mut self, nodes: &[LogToAudit<'_>]) {
        for node in nodes {
            if self.finish_node(node).is_err() {
                self.note_unaudited(node.number);
            }
        }
        if self.pass_on_all(nodes).is_err() {
            self.note_no_memory();
        }
    }

    /// Hands the witness what an earlier audit found, and for which their books had no room. Where memory is
    /// refused that is noted.
    pub fn learn_kept(&mut self, kept: &[Authenticator]) {
        if self.learn_each(kept).is_err() {
            self.note_no_memory();
        }
    }

    /// Says that memory was refused to the audit of a node, and notes it.
    fn note_unaudited(&self, number: u32) {
        self.note_no_memory();
        self.say(format!(in self.context.alloc;
            "nfsacc: node {number}: memory was refused to its audit: what is said of it accuses nobody\n"
        ));
    }

    /// Hands the witness what each node's log showed of others.
    fn pass_on_all(&mut self, nodes: &[LogToAudit<'_>]) -> Result<(), AllocError> {
        for node in nodes {
            self.forward(node.number)?;
        }
        let kept = mem::replace(&mut self.kept, Vec::new(self.context.alloc));
        self.learn_each(&kept)
    }

    /// Hands the witness these authenticators.
    fn learn_each(&mut self, kept: &[Authenticator]) -> Result<(), AllocError> {
        for authenticator in kept {
            self.learn(authenticator)?;
        }
        Ok(())
    }

    /// Asks what the witness says of each node in the end: its failure indication, its open challenges and
    /// the evidence against it, one node after the other. So these answers are the last places of its
    /// journal.
    pub fn ask_all(&mut self, nodes: &[LogToAudit<'_>]) -> Result<(), AllocError> {
        for node in nodes {
            self.ask(node.number)?;
        }
        Ok(())
    }

    /// Asks what the witness says of a node.
    fn ask(&mut self, number: u32) -> Result<(), AllocError> {
        no_more(&self.caller.indication(number))?;
        no_more(&self.caller.challenges(number))?;
        no_more(&self.caller.evidence(number))
    }
}
