//! A witness of a script, from its opening to its closing.

ghost use Rattle.std.specs.Prelude.{◌≡◌, ◌≢◌, [], ◌∷◌, false, IfErr, IfNone, IfOk, IfSome, OnOk, map};
ghost use Rattle.std.specs.Io.KnownBytes.{Appends, IsAtEnd};
ghost use Rattle.witness_books.specs.node_book.Rows.{known_in};
ghost use Rattle.scripts.specs.Ends.{Began, Closes, IsEnd, Watches, joined_line, last_line};
ghost use Rattle.scripts.specs.Turns.{Leaves, Runs, TakesTurn};

use crate::acts::Run;
use crate::bases::{BaseFiles, base_in};
use crate::cursor::Cursor;
use crate::line::{Line, read_line};
use crate::parties::Parties;
use crate::script::ScriptEnd;
use crate::stop::Stop;
use authenticator::{Checked, Roster};
use challenge::Base;
use std::alloc::Global;
use std::io::{Read, Write};
use std::sync::Wait;
use std::thread::Threads;
use witness_calls::{
    Caller, Pass, Shelf, StartFault, WitnessService, close as close_witness, start_witness,
};

/// What a script has beside its witness.
#[derive(Drop)]
pub(crate) struct Company<'a, S> {
    pub(crate) alloc: Global,
    pub(crate) roster: &'a Roster,
    pub(crate) parties: Parties,
    pub(crate) bases: BaseFiles,
    pub(crate) shelf: &'a mut S,
}

/// A witness with its one pass.
#[derive(Drop)]
pub(crate) struct Witness {
    service: WitnessService,
    pass: Pass,
}

impl Witness {
    /// A witness of a roster's members, that begins with these bases.
    pub(crate) fn open(
        alloc: Global,
        roster: &Roster,
        bases: Vec<Checked<Base>>,
    ) -> Result<Witness, StartFault>
        ensures claims { IfOk result (λ witness. witness.pass.claims ≡ []) }
        ensures began { IfOk result (λ witness. witness.service.beginning ≡ record {
          roster = roster.now;
          bases = map (λ c. known_in c.value) bases.items;
        }) }
    {
        let (service, mut passes) = start_witness(alloc, roster, bases, 1)?;
        match passes.pop() {
            Some(pass) => Ok(Witness { service, pass }),
            None => Err(StartFault::NoMemory),
        }
    }
}

/// A new witness that begins with this base alone. Writes `joined`.
pub(crate) fn join<O: Write, S>(
    company: &Company<'_, S>,
    base: Checked<Base>,
    writer: &mut O,
) -> Result<Witness, Stop>
    ensures claims { IfOk result (λ witness. witness.pass.claims ≡ []) }
    ensures began { IfOk result (λ witness. witness.service.beginning ≡ record {
      roster = company.now.roster.now;
      bases = known_in base.value ∷ [];
    }) }
    ensures wrote { IfOk result (λ _. Appends (O.contents writer.old) (O.contents writer.new) joined_line) }
    ensures bad { IfErr result (λ stop. stop ≢ Stop.Bad) }
{
    let mut bases = Vec::new(company.alloc);
    if bases.push(base).is_err() {
        return Err(Stop::NoMemory);
    }
    match Witness::open(company.alloc, company.roster, bases) {
        Ok(witness) => {
            write_text(writer, "joined\n")?;
            Ok(witness)
        }
        // One base, of this roster, is no fault, so memory was refused.
        Err(_) => Err(Stop::NoMemory),
    }
}

/// Runs the line that is there, if one is, and those after it, to the script's end or to a line `join` that
/// finds a base. Then the witness is closed, and how it closed is written. Gives that base.
pub(crate) fn watch<R: Threads + Wait + Sync, I: Read, O: Write, S: Shelf>(
    rt: &R,
    company: &mut Company<'_, S>,
    witness: Witness,
    reader: &mut I,
    cursor: &mut Cursor,
    writer: &mut O,
    there: bool,
) -> Result<(ScriptEnd, Option<Checked<Base>>), Stop>
    requires end { there ≡ false → IsAtEnd (I.remaining reader.old) }
    requires new { witness.pass.claims ≡ [] }
    ensures watched { IfOk result (λ r. Watches witness.service.beginning.bases
        (O.contents writer.old) (O.contents writer.new) r.0) }
    ensures bad { IfErr result (Leaves (O.contents writer.old) (O.contents writer.new)) }
    ensures read { IfOk result (λ r. IfNone r.1 (IsAtEnd (I.remaining reader.new))) }
{
    let Witness { service, pass } = witness;
    let (pass, found) = run_rest(rt, company, &service, pass, reader, cursor, writer, there)?;
    let end = close(company.alloc, service, pass, writer)?;
    Ok((end, found))
}

/// Runs the line that is there, if one is, and those after it. Gives the pass back, with all receipts.
fn run_rest<R: Threads + Wait + Sync, I: Read, O: Write, S: Shelf>(
    rt: &R,
    company: &mut Company<'_, S>,
    service: &WitnessService,
    pass: Pass,
    reader: &mut I,
    cursor: &mut Cursor,
    writer: &mut O,
    there: bool,
) -> Result<(Pass, Option<Checked<Base>>), Stop>
    requires { there ≡ false → IsAtEnd (I.remaining reader.old) }
    ensures turns { IfOk result (λ r. Runs (O.contents writer.old) (O.contents writer.new)
        pass.claims r.0.claims) }
    ensures bad { IfErr result (Leaves (O.contents writer.old) (O.contents writer.new)) }
    ensures read { IfOk result (λ r. IfNone r.1 (IsAtEnd (I.remaining reader.new))) }
{
    let alloc = company.alloc;
    let roster = company.roster;
    let mut run = Run {
        alloc,
        roster,
        parties: &mut company.parties,
        caller: Caller::new(rt, alloc, service, roster, pass),
        shelf: &mut *company.shelf,
        text: Vec::new(alloc),
        bases: &mut company.bases,
    };
    let found = run_lines(&mut run, reader, cursor, writer, there)?;
    Ok((run.caller.into_pass(), found))
}

/// Runs the line that is there, if one is, and those after it, until one finds the base that a new witness
/// begins with. None where the script ends.
fn run_lines<R: Threads + Wait + Sync, I: Read, O: Write, S: Shelf>(
    run: &mut Run<'_, '_, R, S>,
    reader: &mut I,
    cursor: &mut Cursor,
    writer: &mut O,
    there: bool,
) -> Result<Option<Checked<Base>>, Stop>
    requires { there ≡ false → IsAtEnd (I.remaining reader.old) }
    ensures turns { IfOk result (λ _. Runs (O.contents writer.old) (O.contents writer.new)
        run.old.caller run.new.caller) }
    ensures bad { IfErr result (Leaves (O.contents writer.old) (O.contents writer.new)) }
    ensures read { IfOk result (λ found. IfNone found (IsAtEnd (I.remaining reader.new))) }
{
    let mut more = there;
    for _ in 0..u64::MAX {
        if !more {
            return Ok(None);
        }
        match run_line(run, cursor, writer)? {
            Some(base) => return Ok(Some(base)),
            None => more = cursor.next(reader)?,
        }
    }
    Err(Stop::Bad)
}

/// Runs the line that is there, and writes what it prints. Where it is a `join` that finds a base, it gives
/// that, and nothing is written yet.
fn run_line<R: Threads + Wait + Sync, O: Write, S: Shelf>(
    run: &mut Run<'_, '_, R, S>,
    cursor: &Cursor,
    writer: &mut O,
) -> Result<Option<Checked<Base>>, Stop>
    ensures turn { IfOk result (λ found. IfNone found (TakesTurn (O.contents writer.old)
        (O.contents writer.new) run.old.caller run.new.caller)) }
    ensures joins { IfOk result (λ found. IfSome found (λ _.
        (O.contents writer.new ≡ O.contents writer.old) × (run.new.caller ≡ run.old.caller))) }
    ensures bad { IfErr result (λ stop. stop ≡ Stop.Bad → O.contents writer.new ≡ O.contents writer.old) }
{
    match read_line(run.alloc, cursor.text()?)? {
        Line::Node(_) => Err(Stop::Bad),
        Line::Join(place) => match base_in(run.alloc, run.roster, run.parties, place)? {
            Some(base) => Ok(Some(base)),
            None => {
                write_text(writer, "none\n")?;
                Ok(None)
            }
        },
        Line::Act(act) => {
            let text = run.act(cursor.time(), act)?;
            run.put_bases()?;
            write_text(writer, &text)?;
            Ok(None)
        }
    }
}

/// Writes a text.
fn write_text<O: Write>(writer: &mut O, text: &str) -> Result<(), Stop>
    ensures wrote { OnOk result (Appends (O.contents writer.old) (O.contents writer.new) text.now) }
    ensures device { IfErr result (λ stop. stop ≡ Stop.Device) }
{
    match writer.write_all(text.as_bytes()) {
        Ok(()) => Ok(()),
        Err(_) => Err(Stop::Device),
    }
}

/// The last line of a witness that closed so; none where a line was bad.
fn last_line(end: &ScriptEnd) -> &'static str
    ensures { result.now ≡ last_line end.now }
{
    match end {
        ScriptEnd::Closed(_) => "closed ok\n",
        ScriptEnd::NotInJournal(_) => "closed fault 1\n",
        ScriptEnd::Bad(_) => "",
    }
}

/// Closes the witness. It has each receipt of the pass in its journal, and no step besides, or a fault.
fn closed(alloc: Global, service: WitnessService, pass: Pass) -> Result<ScriptEnd, Stop>
    ensures end { IfOk result IsEnd }
    ensures began { IfOk result (Began service.beginning.bases) }
    ensures pass { IfOk result (Closes pass.claims) }
    ensures err { IfErr result (λ stop. stop ≢ Stop.Bad) }
{
    let mut passes = Vec::new(alloc);
    if passes.push(pass).is_err() {
        return Err(Stop::NoMemory);
    }
    match close_witness(service, passes) {
        Ok(closed) => Ok(ScriptEnd::Closed(closed)),
        Err(fault) => Ok(ScriptEnd::NotInJournal(fault)),
    }
}

/// Closes the witness, and writes whether its journal has each receipt of the pass, and no step besides.
fn close<O: Write>(
    alloc: Global,
    service: WitnessService,
    pass: Pass,
    writer: &mut O,
) -> Result<ScriptEnd, Stop>
    ensures end { IfOk result IsEnd }
    ensures began { IfOk result (Began service.beginning.bases) }
    ensures pass { IfOk result (Closes pass.claims) }
    ensures wrote { IfOk result (λ end. Appends (O.contents writer.old) (O.contents writer.new)
        (last_line end)) }
    ensures bad { IfErr result (λ stop. stop ≢ Stop.Bad) }
{
    let end = closed(alloc, service, pass)?;
    match write_text(writer, last_line(&end)) {
        Ok(()) => Ok(end),
        Err(stop) => Err(stop),
    }
}
