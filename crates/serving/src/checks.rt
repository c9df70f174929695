//! CHECKs that the server logs between calls, and the files of the bases that they give.

use crate::members::SERVER;
use auditing::{AuditContext, Shelf};
use authenticator::Number;
use nodes::{BaseFault, HonestServer};
use std::alloc::AllocError;
use std::io::Write;
use std::sync::{Mutex, Wait};

/// After how many calls the server logs a CHECK, and how many it has answered since the last one.
#[derive(Drop)]
pub(crate) struct Checks {
    every: u32,
    calls: u32,
    /// The name of the folder that bases go to, if one is named.
    folder: Option<String>,
    /// The number of the last CHECK, until its base is in its place.
    waiting: Option<Number>,
}

impl Checks {
    /// A CHECK after each `every` calls.
    pub(crate) fn new(every: u32, folder: Option<String>) -> Checks {
        Checks {
            every,
            calls: 0,
            folder,
            waiting: None,
        }
    }

    /// Counts a call. Whether a CHECK is due: then it counts anew.
    fn is_due(&mut self) -> bool {
        self.calls = self.calls.saturating_add(1);
        let is_due = self.calls >= self.every;
        if is_due {
            self.calls = 0;
        }
        is_due
    }
}

/// The server of a run, with the CHECKs that it logs.
pub(crate) struct Checking<'a, R, E, S> {
    pub(crate) audit: AuditContext<'a, R, E, S>,
    pub(crate) server: &'a Mutex<HonestServer>,
    pub(crate) checks: &'a Mutex<Checks>,
}

impl<'a, R, E, S> Clone for Checking<'a, R, E, S> {
    fn clone(&self) -> Result<Checking<'a, R, E, S>, AllocError> {
        Ok(*self)
    }
}

impl<'a, R, E, S> Copy for Checking<'a, R, E, S> {}

impl<'a, R: Wait, E: Write, S: Shelf> Checking<'a, R, E, S> {
    /// A call has ended: the base of the last CHECK is put in its place, if it is to be and the server has
    /// signed after it; and the server logs a CHECK, if one is due. What goes wrong is said and noted.
    pub(crate) fn call_ended(&self) {
        let mut checks = self.checks.lock(self.audit.rt);
        if let Some(at) = checks.waiting {
            if self.has_put_base(&checks.folder, at) {
                checks.waiting = None;
            }
        }
        if checks.is_due() {
            checks.waiting = self.check();
        }
    }

    /// Logs a CHECK, and gives its number; None where the log has none for it, or memory was refused.
    fn check(&self) -> Option<Number> {
        let AuditContext { rt, alloc, .. } = self.audit;
        let checked = self.server.lock(rt).checkpoint(alloc);
        checked.ok()
    }

    /// Puts the base of the CHECK with a number in its place, in a folder if one is named. Whether nothing
    /// more is to be done for it: else the server hasn't signed after it yet.
    fn has_put_base(&self, folder: &Option<String>, at: Number) -> bool {
        let Some(folder) = folder else {
            return true;
        };
        let AuditContext { rt, alloc, .. } = self.audit;
        let given = self.server.lock(rt).server().base(alloc, at.get());
        match given {
            Ok(base) => {
                self.put_base(folder, at, &base);
                true
            }
            Err(BaseFault::OutOfRange) => false,
            Err(BaseFault::TooLong) => true,
            Err(BaseFault::NoMemory) => {
                self.audit.output.lock(rt).note_no_memory();
                true
            }
        }
    }

    /// Puts a base in its place in a folder: a file that `nfsacc base` takes.
    fn put_base(&self, folder: &str, at: Number, base: &[u8]) {
        let mut output = self.audit.output.lock(self.audit.rt);
        match self.base_file(folder, at, base) {
            Ok((name, text)) => output.put_file(&name, &text),
            Err(AllocError) => output.note_no_memory(),
        }
    }

    /// The name and the bytes of the file with a base: the roster's text, and then that of the base.
    fn base_file(
        &self,
        folder: &str,
        at: Number,
        base: &[u8],
    ) -> Result<(String, Vec<u8>), AllocError> {
        let alloc = self.audit.alloc;
        let at = at.get();
        let name = format!(in alloc; "{folder}/node-{SERVER}.{at}.base")?;
        let mut text = Vec::new(alloc);
        self.audit.roster.write(&mut text)?;
        text.extend_from_slice(base)?;
        Ok((name, text))
    }
}
