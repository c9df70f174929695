//! What a run says beside its lines, and the files that it leaves: one thread at a time.

ghost use Rattle.std.specs.Prelude.{◌≡◌, ◌≢◌, IfOk, OnOk, option_map, string_bytes};
ghost use Rattle.auditing.specs.AuditOutputs.{Goes, WasEvidencePut, evidence_name, evidence_text};
ghost use Rattle.auditing.specs.declared.trouble.Trouble.TheVariants as troubles;
ghost use Rattle.witness_calls.specs.Shelves.{Puts};

use crate::trouble::Trouble;
use authenticator::Roster;
use shown_names::ShownName;
use std::alloc::{AllocError, Global};
use std::io;
use std::io::Write;
use std::marker::Model;
use witness_calls::{Evidence, Shelf, write_case};
use witness_reports::NodeReport;

/// Where the threads of a run say what isn't one of its lines, and put evidence: it lies under a lock.
#[derive(Drop)]
pub struct AuditOutput<E, S> {
    alloc: Global,
    errors: E,
    shelf: S,
    folder: Option<String>,
    /// The nodes whose evidence was put in its place.
    shown: Vec<u32>,
    trouble: Trouble,
}

impl<E, S> Model for AuditOutput<E, S> {
    ghost use Rattle.std.specs.Prelude.{option_map, string_bytes};
    ghost use Rattle.auditing.specs.AuditOutputs.{AuditOutputParts};

    ghost Value = { AuditOutputParts S };

    ghost view = { λ d. record {
      shelf = d.shelf;
      folder = option_map string_bytes d.folder;
      trouble = d.trouble;
    } };
}

impl<E, S> AuditOutput<E, S> {
    /// What went wrong so far.
    pub fn trouble(&self) -> Trouble
        ensures { result ≡ self.now.trouble }
    {
        self.trouble
    }
}

impl<E: Drop, S> AuditOutput<E, S> {
    /// The shelf, with what was put there.
    pub fn into_shelf(self) -> S
        ensures { result ≡ self.shelf }
    {
        let AuditOutput { shelf, .. } = self;
        shelf
    }
}

impl<E: Write, S: Shelf> AuditOutput<E, S> {
    /// An output to which nothing was said yet. Messages are written to `errors`, files are put on the shelf,
    /// and evidence in the folder there, if one is named.
    pub fn new(alloc: Global, errors: E, shelf: S, folder: Option<String>) -> AuditOutput<E, S>
        ensures shelf { result.shelf ≡ shelf }
        ensures folder { result.folder ≡ option_map string_bytes folder }
        ensures calm { result.trouble ≡ troubles.None }
    {
        AuditOutput {
            alloc,
            errors,
            shelf,
            folder,
            shown: Vec::new(alloc),
            trouble: Trouble::None,
        }
    }

    /// That memory was refused.
    pub fn note_no_memory(&mut self)
        ensures { self.new ≡ record self.old { trouble = troubles.NoMemory } }
    {
        self.trouble = Trouble::NoMemory;
    }

    /// That a device failed.
    fn note_device(&mut self)
        ensures goes { Goes S.files self.old self.new }
        ensures noted { self.new.trouble ≢ troubles.None }
    {
        self.trouble = self.trouble.or_device();
    }

    /// Says a line, which begins with the program's name. Where it can't be said nothing is done about it.
    pub fn say(&mut self, line: Result<String, AllocError>)
        ensures { Goes S.files self.old self.new }
    {
        match line {
            Ok(line) => {
                let _ = self.errors.write_all(line.as_bytes());
            }
            Err(AllocError) => self.note_no_memory(),
        }
    }

    /// Says a line, and notes that a device failed.
    pub fn say_trouble(&mut self, line: Result<String, AllocError>)
        ensures goes { Goes S.files self.old self.new }
        ensures noted { self.new.trouble ≢ troubles.None }
    {
        self.note_device();
        self.say(line);
    }

    /// Puts a file in its place.
    pub fn put(&mut self, name: &str, bytes: &[u8]) -> io::Result<()>
        ensures goes { Goes S.files self.old self.new }
        ensures put { OnOk result (Puts (S.files self.old.shelf) name.now bytes.now (S.files self.new.shelf)) }
    {
        self.shelf.put(name, bytes)
    }

    /// Whether a node's evidence is to be put in its place at once: a folder is named for it, and it isn't
    /// there yet.
    pub(crate) fn wants(&self, node: u32) -> bool {
        self.folder.is_some() && !self.shown.contains(&node)
    }

    /// Puts the evidence against a node in its place, once: a file that `nfsacc check` takes.
    pub(crate) fn show(&mut self, roster: &Roster, node: u32, evidence: &Evidence) {
        if !self.wants(node) {
            return;
        }
        if self.shown.push(node).is_err() {
            return self.note_no_memory();
        }
        match copy_of(self.alloc, &self.folder) {
            Ok(Some(folder)) => self.put_evidence(&folder, roster, node, evidence),
            Ok(None) => {}
            Err(AllocError) => self.note_no_memory(),
        }
    }

    /// Puts the evidence against a node in its place in a folder: a file that `nfsacc check` takes. What goes
    /// wrong is said and noted.
    pub(crate) fn put_evidence(
        &mut self,
        folder: &str,
        roster: &Roster,
        node: u32,
        evidence: &Evidence,
    )
        ensures goes { Goes S.files self.old self.new }
        ensures put { self.new.trouble ≡ troubles.None →
            WasEvidencePut (S.files self.new.shelf) folder.now roster.now node evidence.now }
    {
        match case_file(self.alloc, folder, roster, node, evidence) {
            Ok((name, text)) => self.put_file(&name, &text),
            Err(AllocError) => self.note_no_memory(),
        }
    }

    /// Puts a file in its place. What goes wrong is said and noted.
    pub fn put_file(&mut self, name: &str, bytes: &[u8])
        ensures goes { Goes S.files self.old self.new }
        ensures put { self.new.trouble ≡ troubles.None →
            Puts (S.files self.old.shelf) name.now bytes.now (S.files self.new.shelf) }
    {
        let alloc = self.alloc;
        if let Err(error) = self.put(name, bytes) {
            let name = ShownName::new(name);
            self.say_trouble(format!(in alloc; "nfsacc: {name}: {error}\n"));
        }
    }
}

/// The name and the bytes of the file with evidence against a node.
fn case_file(
    alloc: Global,
    folder: &str,
    roster: &Roster,
    node: u32,
    evidence: &Evidence,
) -> Result<(String, Vec<u8>), AllocError>
    ensures name { IfOk result (λ f. string_bytes f.0 ≡ evidence_name folder.now node) }
    ensures text { IfOk result (λ f. f.1.items ≡ evidence_text roster.now evidence.now) }
{
    let name = evidence_name(alloc, folder, node)?;
    let mut text = Vec::new(alloc);
    write_case(roster, evidence, &mut text)?;
    Ok((name, text))
}

/// The name of the file with the evidence against a node.
fn evidence_name(alloc: Global, folder: &str, node: u32) -> Result<String, AllocError>
    ensures { IfOk result (λ name. string_bytes name ≡ evidence_name folder.now node) }
{
    format!(in alloc; "{folder}/node-{node}.evidence")
}

/// A copy of the folder's name.
fn copy_of(alloc: Global, folder: &Option<String>) -> Result<Option<String>, AllocError> {
    match folder {
        Some(folder) => Ok(Some(String::from_str(alloc, folder)?)),
        None => Ok(None),
    }
}
