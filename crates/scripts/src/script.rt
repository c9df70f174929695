//! Running a script.

ghost use Rattle.std.specs.Prelude.{◌≡◌, [], false, IfErr, IfOk, IsOk, map};
ghost use Rattle.std.specs.Io.KnownBytes.{IsAtEnd};
ghost use Rattle.witness_books.specs.node_book.Rows.{known_in};
ghost use Rattle.scripts.specs.Ends.{IsEnd, IsReadToEnd, IsScriptEnd, LeavesScript, Writes, end_by, fault_after};

use crate::bases::BaseFiles;
use crate::cursor::Cursor;
use crate::line::{Line, read_line};
use crate::parties::ListedNodes;
use crate::stop::Stop;
use crate::watch::{Company, Witness, join, watch};
use authenticator::{Checked, Roster};
use challenge::Base;
use std::alloc::Global;
use std::io::{self, Read, Write};
use std::sync::Wait;
use std::thread::Threads;
use witness_calls::{Closed, ReceiptFault, Shelf, StartFault};

/// How a script came to its end.
#[derive(Drop)]
pub enum ScriptEnd {
    /// Each line ran, and what each witness answered stands once in its journal, and no other step does: this
    /// is the last witness's.
    Closed(Closed),
    /// Each line ran, but what a witness answered doesn't stand in its journal: the first of which that is so.
    NotInJournal(ReceiptFault),
    /// This line, counted from 1, is bad: it did nothing, and no line after it was read.
    Bad(u64),
}

/// The files that a script writes beside those that its lines name.
#[derive(Clone, Copy, Debug, PartialEq, Eq)]
pub struct ScriptFiles<'a> {
    /// The name of the file that the roster's text goes to, if one is named.
    pub roster: Option<&'a str>,
    /// What the names of the files that bases go to begin with, if bases are written.
    pub bases: Option<&'a str>,
}

/// Why a script could not be run to its end.
#[derive(Debug, Drop)]
pub enum ScriptFault {
    /// Memory was refused.
    NoMemory,
    /// A read or a write failed.
    Device,
    /// The file with this name could not be put in its place.
    File(String, io::Error),
    /// No witness of these nodes begins with the bases that were given; never `NoMemory`.
    Start(StartFault),
}

/// Runs a script: reads it line by line, does what each line says, and writes what it prints before the next
/// line is read. The nodes stand on its first lines; where a name is given for it, the file of their roster
/// is put in its place before the next line runs. The witness begins with the bases that are given. Where a
/// prefix of names is given, the roster and the base of each CHECK that a line `mark` logs is put in the file
/// PREFIX.N.K, of the server N and the number K, once the server has signed something after it. At a line
/// `join` that finds a base, and at the end, the witness is closed and `closed ok` is written, or
/// `closed fault 1` where receipts and journal don't fit. After a bad line, and after a fault, what was printed
/// before stands, and nothing more is written.
pub fn run_script<R: Threads + Wait + Sync, I: Read, O: Write, S: Shelf>(
    rt: &R,
    alloc: Global,
    reader: &mut I,
    writer: &mut O,
    shelf: &mut S,
    files: ScriptFiles<'_>,
    bases: Vec<Checked<Base>>,
) -> Result<ScriptEnd, ScriptFault>
    ensures end { IfOk result IsScriptEnd }
    ensures turns { IfOk result (Writes (map (λ c. known_in c.value) bases.items)
        (O.contents writer.old) (O.contents writer.new)) }
    ensures read { IfOk result (IsReadToEnd (I.remaining reader.new)) }
{
    let mut cursor = Cursor::new(alloc);
    match run_all(rt, alloc, reader, &mut cursor, writer, shelf, files, bases) {
        Ok(end) => Ok(end),
        Err(Stop::Bad) => Ok(ScriptEnd::Bad(cursor.number())),
        Err(Stop::NoMemory) => Err(ScriptFault::NoMemory),
        Err(Stop::Device) => Err(ScriptFault::Device),
        Err(Stop::File(name, error)) => Err(ScriptFault::File(name, error)),
        Err(Stop::Start(fault)) => Err(ScriptFault::Start(fault)),
    }
}

/// As `run_script`.
fn run_all<R: Threads + Wait + Sync, I: Read, O: Write, S: Shelf>(
    rt: &R,
    alloc: Global,
    reader: &mut I,
    cursor: &mut Cursor,
    writer: &mut O,
    shelf: &mut S,
    files: ScriptFiles<'_>,
    bases: Vec<Checked<Base>>,
) -> Result<ScriptEnd, Stop>
    ensures end { IfOk result IsEnd }
    ensures turns { IfOk result (Writes (map (λ c. known_in c.value) bases.items)
        (O.contents writer.old) (O.contents writer.new)) }
    ensures bad { IfErr result (LeavesScript (map (λ c. known_in c.value) bases.items)
        (O.contents writer.old) (O.contents writer.new)) }
    ensures read { IsOk result → IsAtEnd (I.remaining reader.new) }
{
    let (listed, there) = read_nodes(rt, alloc, reader, cursor)?;
    let roster = Roster::new(listed.members(alloc)?).map_err(|_| Stop::Bad)?;
    if let Some(name) = files.roster {
        put_roster(alloc, shelf, name, &roster)?;
    }
    let witness = Witness::open(alloc, &roster, bases)?;
    let mut company = Company {
        alloc,
        roster: &roster,
        parties: listed.make(alloc, &roster)?,
        bases: BaseFiles::new(alloc, files.bases)?,
        shelf,
    };
    run_witnesses(rt, &mut company, witness, reader, cursor, writer, there)
}

/// Runs the line that is there, if one is, and those after it: one witness after the other, the first of which
/// is this one.
fn run_witnesses<R: Threads + Wait + Sync, I: Read, O: Write, S: Shelf>(
    rt: &R,
    company: &mut Company<'_, S>,
    first: Witness,
    reader: &mut I,
    cursor: &mut Cursor,
    writer: &mut O,
    there: bool,
) -> Result<ScriptEnd, Stop>
    requires end { there ≡ false → IsAtEnd (I.remaining reader.old) }
    requires new { first.pass.claims ≡ [] }
    ensures end { IfOk result IsEnd }
    ensures turns { IfOk result (Writes first.service.beginning.bases
        (O.contents writer.old) (O.contents writer.new)) }
    ensures bad { IfErr result (LeavesScript first.service.beginning.bases
        (O.contents writer.old) (O.contents writer.new)) }
    ensures read { IsOk result → IsAtEnd (I.remaining reader.new) }
{
    let mut witness = first;
    let mut more = there;
    let mut fault = None;
    for _ in 0..u64::MAX {
        let (end, found) = watch(rt, company, witness, reader, cursor, writer, more)?;
        let Some(base) = found else {
            return Ok(end_by(fault, end));
        };
        fault = fault_after(fault, end);
        witness = join(company, base, writer)?;
        more = cursor.next(reader)?;
    }
    Err(Stop::Bad)
}

/// The first fault with which a witness closed, once this one did.
fn fault_after(fault: Option<ReceiptFault>, end: ScriptEnd) -> Option<ReceiptFault>
    ensures { result ≡ fault_after fault end }
{
    match (fault, end) {
        (Some(fault), _) => Some(fault),
        (None, ScriptEnd::NotInJournal(fault)) => Some(fault),
        (None, ScriptEnd::Closed(_) | ScriptEnd::Bad(_)) => None,
    }
}

/// The end of a script, by the first fault with which an earlier witness closed, and how the last one closed.
fn end_by(fault: Option<ReceiptFault>, end: ScriptEnd) -> ScriptEnd
    ensures { result ≡ end_by fault end }
{
    match fault {
        Some(fault) => ScriptEnd::NotInJournal(fault),
        None => end,
    }
}

/// Reads the nodes on the first lines. Tells whether a line is there that says something else.
fn read_nodes<R: Threads + Sync, I: Read>(
    rt: &R,
    alloc: Global,
    reader: &mut I,
    cursor: &mut Cursor,
) -> Result<(ListedNodes, bool), Stop>
    ensures { IfOk result (λ read. read.1 ≡ false → IsAtEnd (I.remaining reader.new)) }
{
    let mut listed = ListedNodes::new(alloc);
    for _ in 0..u64::MAX {
        if !cursor.next(reader)? {
            return Ok((listed, false));
        }
        match read_line(alloc, cursor.text()?)? {
            Line::Node(line) => listed.add(rt, alloc, &line)?,
            Line::Act(_) | Line::Join(_) => return Ok((listed, true)),
        }
    }
    Err(Stop::Bad)
}

/// Puts the file of a roster in its place.
fn put_roster<S: Shelf>(
    alloc: Global,
    shelf: &mut S,
    name: &str,
    roster: &Roster,
) -> Result<(), Stop> {
    let mut text = Vec::new(alloc);
    roster.write(&mut text)?;
    match shelf.put(name, &text) {
        Ok(()) => Ok(()),
        Err(error) => Err(Stop::of_file(alloc, name, error)),
    }
}
