//! `nfsacc secret`, `nfsacc member` and `nfsacc rosters`.

ghost use Rattle.std.specs.Prelude.{◌≤◌};

use authenticator::Roster;
use command_line::{MemberOrder, MemberRequest, RostersRequest, member_order};
use host_keys::{LineFault, MemberLine, MemberLines};
use node_keys::{KeyedNode, Masters};
use party_files::{
    FileShelf, PUBLIC_MODE, digest_of, read_secret, report_secret, roster_name, write_secret,
};
use program_output::{
    COMMAND_LINE, INPUT_FAULT, report_file, report_name, report_no_memory, report_output,
};
use shown_names::ShownName;
use std::alloc::{AllocError, Global};
use std::io::{BufReader, Read};
use std::random::RandomSource;
use std::rt::Files;
use std::thread::Threads;
use std::{fs, io};

/// How the command line names standard input.
const DASH: &str = "-";

/// How lines name it.
const STANDARD_INPUT: &str = "standard input";

/// The bytes that are read at once: as many as a pipe holds.
const READ_AHEAD: usize = 65536;

/// The most bytes of a line that is read. The longest member line has fewer.
const MAX_LINE: usize = 256;

/// Makes a file of 32 random bytes where none is, and gives the status for it.
pub fn make_secret<R: Files + RandomSource + Eprint>(rt: &R, name: &str) -> u8 {
    match write_secret(rt, name) {
        Ok(()) => 0,
        Err(error) => report_file(rt, name, &error),
    }
}

/// Prints a member line for each epoch, and gives the status for it.
pub fn show_members<R>(rt: &R, request: &MemberRequest<'_>) -> u8
where
    R: Files + Print + Eprint + AllocGlobal + Threads + Sync,
{
    let order = match member_order(request) {
        Ok(order) => order,
        Err(refusal) => {
            let _ = eprintln!(rt; "nfsacc: {refusal}");
            return COMMAND_LINE;
        }
    };
    let secret = match read_secret(rt, order.secret) {
        Ok(secret) => secret,
        Err(fault) => return report_secret(rt, order.secret, &fault),
    };
    for epoch in order.first..=order.last {
        let Ok(line) = member_line(rt, &order, secret, epoch) else {
            return report_no_memory(rt);
        };
        if let Err(error) = rt.println(line.as_str()) {
            return report_output(rt, Some(error));
        }
    }
    0
}

/// The member line of an epoch.
fn member_line<R: AllocGlobal + Threads + Sync>(
    rt: &R,
    order: &MemberOrder<'_>,
    secret: [u8; 32],
    epoch: u32,
) -> Result<String, AllocError>
    requires some { 1 ≤ order.now.height }
    requires low { order.now.height ≤ 16 }
{
    let masters = Masters::OfEpoch { secret, epoch };
    let keyed = KeyedNode::make(
        rt,
        rt.alloc(),
        masters,
        order.node,
        order.kind,
        order.log_version,
        order.height,
    )?;
    let line = MemberLine {
        member: keyed.member(),
        epoch,
    };
    line.text(rt.alloc())
}

/// Makes the rosters of member lines, and gives the status for it.
pub fn make_rosters<R>(rt: &R, request: &RostersRequest<'_>) -> u8
where
    R: Files + Input + Print + Eprint + AllocGlobal + RandomSource,
{
    let mut lines = MemberLines::new(rt.alloc());
    if let Err(status) = read_members(rt, request.file, &mut lines) {
        return status;
    }
    if let Some(lacking) = lines.lacking() {
        let name = ShownName::new(named(request.file));
        let epoch = lacking.epoch;
        let node = lacking.node;
        let _ = eprintln!(rt; "nfsacc: {name}: epoch {epoch} lacks number {node}");
        return INPUT_FAULT;
    }
    if lines.lines().is_empty() {
        return report_name(rt, named(request.file), "no member lines", INPUT_FAULT);
    }
    if let Err(error) = make_folder(rt, request.out) {
        return report_file(rt, request.out, &error);
    }
    match put_rosters(rt, request.out, &lines) {
        Ok(()) => 0,
        Err(status) => status,
    }
}

/// Makes a folder, unless it is there.
fn make_folder<R: Files>(rt: &R, name: &str) -> io::Result<()> {
    match fs::create_dir(rt, name) {
        Err(error) if error.kind() == io::ErrorKind::AlreadyExists => Ok(()),
        made => made,
    }
}

/// Puts the roster of each epoch into a folder, by rising numbers, and prints its digest.
fn put_rosters<R>(rt: &R, folder: &str, lines: &MemberLines) -> Result<(), u8>
where
    R: Files + Print + Eprint + AllocGlobal + RandomSource,
{
    let mut epoch = 0;
    for _ in 0..=u32::MAX {
        let Some(next) = lines.next_epoch(epoch) else {
            break;
        };
        let Ok(roster) = lines.roster(rt.alloc(), next) else {
            return Err(report_no_memory(rt));
        };
        put_roster(rt, folder, next, &roster)?;
        epoch = next;
    }
    Ok(())
}

/// Puts the roster of an epoch into a folder, and prints its digest.
fn put_roster<R>(rt: &R, folder: &str, epoch: u32, roster: &Roster) -> Result<(), u8>
where
    R: Files + Print + Eprint + AllocGlobal + RandomSource,
{
    let Ok(name) = roster_name(rt.alloc(), folder, epoch) else {
        return Err(report_no_memory(rt));
    };
    let Ok(text) = roster_text(rt.alloc(), roster) else {
        return Err(report_no_memory(rt));
    };
    let Ok(digest) = hex::encode(rt.alloc(), digest_of(text.as_slice()).as_slice()) else {
        return Err(report_no_memory(rt));
    };
    let shelf = FileShelf::new(rt, rt.alloc());
    if let Err(error) = shelf.put_durably(name.as_str(), text.as_slice(), PUBLIC_MODE) {
        return Err(report_file(rt, name.as_str(), &error));
    }
    match println!(rt; "epoch {epoch} sha256:{digest}") {
        Ok(()) => Ok(()),
        Err(error) => Err(report_output(rt, Some(error))),
    }
}

/// The text of a roster.
fn roster_text(alloc: Global, roster: &Roster) -> Result<Vec<u8>, AllocError> {
    let mut text = Vec::new(alloc);
    roster.write(&mut text)?;
    Ok(text)
}

/// How lines on standard error name a file that is read.
fn named(name: &str) -> &str {
    if name == DASH { STANDARD_INPUT } else { name }
}

/// Takes the lines of the file of a name, or says what is wrong and gives the status for it.
fn read_members<R>(rt: &R, name: &str, lines: &mut MemberLines) -> Result<(), u8>
where
    R: Files + Input + Eprint + AllocGlobal,
{
    if name == DASH {
        return match BufReader::with_capacity(rt.alloc(), READ_AHEAD, rt.reader()) {
            Ok(reader) => read_lines(rt, STANDARD_INPUT, reader, lines),
            Err(_) => Err(report_no_memory(rt)),
        };
    }
    match fs::open(rt, name) {
        Ok(file) => match BufReader::with_capacity(rt.alloc(), READ_AHEAD, file) {
            Ok(reader) => read_lines(rt, name, reader, lines),
            Err(_) => Err(report_no_memory(rt)),
        },
        Err(error) => Err(report_file(rt, name, &error)),
    }
}

/// Takes all lines that a reader has.
fn read_lines<R, I>(rt: &R, name: &str, reader: I, lines: &mut MemberLines) -> Result<(), u8>
where
    R: Eprint + AllocGlobal,
    I: Read + Drop,
{
    let mut reader = reader;
    let mut line = Vec::new(rt.alloc());
    for number in 1..u64::MAX {
        let taken = match next_line(&mut reader, &mut line) {
            Ok(Next::End) => return Ok(()),
            Ok(Next::TooLong) => Err(LineFault::Bad),
            Ok(Next::Line) => take_line(line.as_slice(), lines),
            Err(error) => return Err(report_file(rt, name, &error)),
        };
        match taken {
            Ok(()) => {}
            Err(LineFault::NoMemory) => return Err(report_no_memory(rt)),
            Err(fault) => {
                let name = ShownName::new(name);
                let _ = eprintln!(rt; "nfsacc: {name} line {number}: {fault}");
                return Err(INPUT_FAULT);
            }
        }
    }
    Ok(())
}

/// Takes a line, without its line feed.
fn take_line(line: &[u8], lines: &mut MemberLines) -> Result<(), LineFault> {
    match str::from_utf8(line) {
        Ok(line) => lines.add(line),
        Err(_) => Err(LineFault::Bad),
    }
}

/// What comes next.
enum Next {
    /// A line.
    Line,
    /// One that has more bytes than any that is good, and isn't read to its end.
    TooLong,
    /// Nothing.
    End,
}

/// Reads the next line into `line`, without its line feed, in place of what `line` was. The last line may
/// lack a line feed.
fn next_line<I: Read>(reader: &mut I, line: &mut Vec<u8>) -> io::Result<Next> {
    line.clear();
    let mut byte = [0];
    for _ in 0..=MAX_LINE {
        if reader.read(&mut byte)? == 0 {
            return Ok(if line.is_empty() {
                Next::End
            } else {
                Next::Line
            });
        }
        if byte[0] == b'\n' {
            return Ok(Next::Line);
        }
        line.push(byte[0]).map_err(AllocError::from)?;
    }
    Ok(Next::TooLong)
}
