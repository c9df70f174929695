//! Bases that nodes give: where a witness may begin that wasn't there from a log's first entry on, and the
//! files that they go to.

ghost use Rattle.std.specs.Prelude.{◌≡◌, IfNone, IfOk, IfSome};
ghost use Rattle.challenge.specs.KnownBases.{IsGoodText, parts_of};
ghost use Rattle.node_logs.specs.Bases.{GivesBase};
ghost use Rattle.scripts.specs.Bases.{GivesGood, IsGiven, IsNotGiven, IsWithout};

use crate::acts::Run;
use crate::line::Place;
use crate::parties::Parties;
use crate::stop::Stop;
use authenticator::{Checked, Roster};
use challenge::{Base, check_base};
use nodes::{BaseFault, NodeLog};
use std::alloc::{AllocError, AllocFailed, Global};
use std::sync::Wait;
use std::thread::Threads;
use witness_calls::Shelf;

/// The CHECK of a server whose base isn't written yet.
#[derive(Clone, Copy)]
pub(crate) struct Mark {
    server: u32,
    number: u64,
}

/// What the names of files with bases begin with, if bases are written; and the CHECKs after which nothing is
/// signed yet.
#[derive(Drop)]
pub(crate) struct BaseFiles {
    prefix: Option<String>,
    waiting: Vec<Mark>,
}

impl BaseFiles {
    /// None so far.
    pub(crate) fn new(alloc: Global, prefix: Option<&str>) -> Result<BaseFiles, AllocError> {
        let prefix = match prefix {
            Some(prefix) => Some(String::from_str(alloc, prefix)?),
            None => None,
        };
        Ok(BaseFiles {
            prefix,
            waiting: Vec::new(alloc),
        })
    }

    /// How many CHECKs wait.
    fn count(&self) -> usize {
        self.waiting.len()
    }

    /// The CHECK that waits at a place.
    fn mark(&self, place: usize) -> Option<Mark> {
        self.waiting.get(place).copied()
    }

    /// Waits no more for the CHECK at a place.
    fn forget(&mut self, place: usize) {
        if place < self.waiting.len() {
            let _ = self.waiting.remove(place);
        }
    }

    /// Waits for what a server signs after a CHECK, in the place of an earlier one, whose base it gives no
    /// more.
    pub(crate) fn wait_for(&mut self, server: u32, number: u64) -> Result<(), AllocError> {
        if self.prefix.is_none() {
            return Ok(());
        }
        let mark = Mark { server, number };
        for waiting in &mut self.waiting {
            if waiting.server == server {
                *waiting = mark;
                return Ok(());
            }
        }
        match self.waiting.push(mark) {
            Ok(()) => Ok(()),
            Err(AllocFailed { .. }) => Err(AllocError),
        }
    }
}

/// The text of the base that a node gives at a number; none where there is no base, or its text would be too
/// long. A client gives none.
fn base_text(alloc: Global, node: &NodeLog, at: u64) -> Result<Option<Vec<u8>>, AllocError>
    ensures given { IfOk result (λ found. IfSome found (λ text. GivesBase node.now at text.items)) }
    ensures none { IfOk result (λ found. IfNone found (IsWithout node.now at)) }
{
    match node.base(alloc, at) {
        Ok(text) => Ok(Some(text)),
        Err(BaseFault::OutOfRange | BaseFault::TooLong) => Ok(None),
        Err(BaseFault::NoMemory) => Err(AllocError),
    }
}

/// The base of a text that a node of the roster gave. It is good, so any refusal is want of memory.
fn checked_base(alloc: Global, roster: &Roster, text: &[u8]) -> Result<Checked<Base>, Stop>
    ensures { IfOk result (λ c. IsGoodText roster.now text.now (parts_of c.value) c.member c.value.state) }
{
    match check_base(alloc, roster, text) {
        Ok(base) => Ok(base),
        Err(_) => Err(Stop::NoMemory),
    }
}

/// The base that a node gives at a number, checked; none where it gives none.
fn given_base(
    alloc: Global,
    roster: &Roster,
    node: &NodeLog,
    at: u64,
) -> Result<Option<Checked<Base>>, Stop>
    ensures given { IfOk result (λ found. IfSome found (λ c.
        GivesGood roster.now node.now at c.value c.member)) }
    ensures none { IfOk result (λ found. IfNone found (IsWithout node.now at)) }
{
    match base_text(alloc, node, at)? {
        Some(text) => Ok(Some(checked_base(alloc, roster, &text)?)),
        None => Ok(None),
    }
}

/// The text of the base at a mark, if the server has signed after its CHECK.
fn base_of(alloc: Global, parties: &Parties, mark: Mark) -> Result<Option<Vec<u8>>, AllocError> {
    match parties.node(mark.server) {
        Some(node) => base_text(alloc, node, mark.number),
        None => Ok(None),
    }
}

/// The text of a file with a roster, and after it a base.
fn file_text(alloc: Global, roster: &Roster, base: &[u8]) -> Result<Vec<u8>, AllocError> {
    let mut text = Vec::new(alloc);
    roster.write(&mut text)?;
    text.extend_from_slice(base)?;
    Ok(text)
}

/// The base that a script's node gives at a number, checked; none where it gives none. The line is bad where
/// there is no such node.
pub(crate) fn base_in(
    alloc: Global,
    roster: &Roster,
    parties: &Parties,
    place: Place,
) -> Result<Option<Checked<Base>>, Stop>
    ensures given { IfOk result (λ found. IfSome found (λ c.
        IsGiven roster.now parties.now place.node place.number c.value c.member)) }
    ensures none { IfOk result (λ found. IfNone found
        (IsNotGiven parties.now place.node place.number)) }
{
    match parties.node(place.node) {
        Some(node) => match given_base(alloc, roster, node, u64::from(place.number))? {
            Some(base) => Ok(Some(base)),
            None => Ok(None),
        },
        None => Err(Stop::Bad),
    }
}

impl<R: Threads + Wait + Sync, S: Shelf> Run<'_, '_, R, S> {
    /// Writes the bases after which their servers have signed by now.
    pub(crate) fn put_bases(&mut self) -> Result<(), Stop>
        ensures { self.new.caller ≡ self.old.caller }
    {
        for place in (0..self.bases.count()).rev() {
            if let Some(mark) = self.bases.mark(place)
                && self.is_put(mark)?
            {
                self.bases.forget(place);
            }
        }
        Ok(())
    }

    /// Writes the base of a CHECK, if it is given. Tells whether it was.
    fn is_put(&mut self, mark: Mark) -> Result<bool, Stop>
        ensures { self.new.caller ≡ self.old.caller }
    {
        let Some(prefix) = &self.bases.prefix else {
            return Ok(true);
        };
        let (server, number) = (mark.server, mark.number);
        let name = format!(in self.alloc; "{prefix}.{server}.{number}")?;
        let Some(base) = base_of(self.alloc, self.parties, mark)? else {
            return Ok(false);
        };
        let text = file_text(self.alloc, self.roster, &base)?;
        self.put(&name, &text)?;
        Ok(true)
    }
}
