//! What a party's process opens before a key of it is made, and how its keys are made.

use authenticator::Member;
use node_keys::{KeyedNode, Masters};
use party_files::{
    Control, FileShelf, HeldRoster, HeldSecret, read_rosters, report_control, report_rosters,
    report_secret,
};
use peer_connections::{Commands, Output, OwnMemory};
use program_output::{
    DEVICE, INPUT_FAULT, LogFile, Logged, NOT_ACCEPTED, TimedErrors, report_file, report_no_memory,
    report_words,
};
use std::fs::File;
use std::io;
use std::io::Printer;
use std::net::{Net, SocketAddr, TcpListener, TcpStream};
use std::random::RandomSource;
use std::rt::{Clock, Files};
use std::thread::Threads;

/// The greatest height of a tree of keys.
pub(crate) const MAX_HEIGHT: u32 = 16;

/// What a party has before a key of it is made.
#[derive(Drop)]
pub(crate) struct Held {
    /// Its secret, which no other process uses.
    pub(crate) secret: HeldSecret,
    /// The rosters of its folder.
    pub(crate) rosters: Vec<HeldRoster>,
}

/// Opens the secret and reads the rosters, or says what is wrong and gives the status for it.
pub(crate) fn hold<R>(rt: &R, secret: &str, rosters: &str) -> Result<Held, u8>
where
    R: Files<File = File> + Eprint + AllocGlobal + Clone + Drop,
{
    let held = hold_rosters(rt, rosters)?;
    match HeldSecret::open(rt, secret) {
        Ok(secret) => Ok(Held {
            secret,
            rosters: held,
        }),
        Err(fault) => Err(report_secret(rt, secret, &fault)),
    }
}

/// Reads the rosters of a folder, or says what is wrong and gives the status for it.
pub(crate) fn hold_rosters<R>(rt: &R, folder: &str) -> Result<Vec<HeldRoster>, u8>
where
    R: Files + Eprint + AllocGlobal + Clone + Drop,
{
    match read_rosters(rt, folder) {
        Ok(rosters) => Ok(rosters),
        Err(fault) => Err(report_rosters(rt, folder, &fault)),
    }
}

/// Makes the control socket in a folder, or says what is wrong and gives the status for it.
pub(crate) fn open_control<R>(rt: &R, folder: &str) -> Result<Control, u8>
where
    R: Files + Net + Eprint + AllocGlobal,
{
    match Control::open(rt, rt.alloc(), folder) {
        Ok(control) => Ok(control),
        Err(fault) => Err(report_control(rt, folder, &fault)),
    }
}

/// Where a party's process says what happens: its lines go to standard output, and others to standard error
/// with the time in front.
pub(crate) type PartyOutput<'a, R> = Output<
    Logged<'a, R, Printer<'a, R>>,
    Logged<'a, R, TimedErrors<'a, R>>,
>;

/// Where a party's process says what happens; where a log file is named all goes there, too. Where that file
/// takes no lines it is said why, and the status for it is given.
pub(crate) fn open_output<'a, R>(
    rt: &'a R,
    log_file: Option<&'a str>,
) -> Result<PartyOutput<'a, R>, u8>
where
    R: Files<File = File> + Print + Eprint + AllocGlobal + Clock,
{
    let lines = Logged::new(io::writer(rt), open_log(rt, log_file)?);
    let errors = Logged::new(
        TimedErrors::new(rt, rt.alloc(), true),
        open_log(rt, log_file)?,
    );
    Ok(Output::new(lines, errors))
}

/// Opens a log file, if one is named, or says what is wrong and gives the status for it.
fn open_log<'a, R>(rt: &'a R, name: Option<&'a str>) -> Result<Option<LogFile<'a, R>>, u8>
where
    R: Files<File = File> + Eprint + AllocGlobal + Clock,
{
    let Some(name) = name else {
        return Ok(None);
    };
    match LogFile::open(rt, rt.alloc(), rt, name) {
        Ok(file) => Ok(Some(file)),
        Err(error) => Err(report_file(rt, name, &error)),
    }
}

/// That the folder for evidence takes files, if one is named, or the status for it.
pub(crate) fn try_evidence<R>(rt: &R, folder: Option<&str>) -> Result<(), u8>
where
    R: Files + Eprint + AllocGlobal + RandomSource,
{
    let Some(name) = folder else {
        return Ok(());
    };
    match FileShelf::new(rt, rt.alloc()).try_folder(name) {
        Ok(()) => Ok(()),
        Err(error) => Err(report_file(rt, name, &error)),
    }
}

/// Where a process takes commands: at its control socket, with what the system tells of its memory.
pub(crate) fn commands_at<'a>(control: &'a Control, memory: &'a Option<OwnMemory>) -> Commands<'a> {
    Commands {
        listener: &control.listener,
        memory: memory.as_ref(),
    }
}

/// Listens at an address, or says what is wrong and gives the status for it.
pub(crate) fn listen<R>(rt: &R, address: SocketAddr) -> Result<TcpListener, u8>
where
    R: Net<Listener = TcpListener, Stream = TcpStream> + Eprint,
{
    match TcpListener::bind(rt, address) {
        Ok(listener) => Ok(listener),
        Err(error) => {
            let _ = eprintln!(rt; "nfsacc: {address}: {error}");
            Err(DEVICE)
        }
    }
}

/// Where a listener listens: the address that was asked for where the system can't tell.
pub(crate) fn place_of(listener: &TcpListener, asked: SocketAddr) -> SocketAddr {
    listener.local_addr().unwrap_or(asked)
}

/// The roster of an epoch, among some.
pub(crate) fn roster_of(rosters: &[HeldRoster], epoch: u32) -> Option<&HeldRoster> {
    for held in rosters {
        if held.of.epoch == epoch {
            return Some(held);
        }
    }
    None
}

/// Makes the keys of a member, which are those that the roster has of it; or says what is wrong and gives the
/// status for it.
pub(crate) fn keys_of<R>(rt: &R, masters: Masters, member: &Member) -> Result<KeyedNode, u8>
where
    R: Eprint + AllocGlobal + Threads + Sync,
{
    let height = member.height;
    if height < 1 || height > MAX_HEIGHT {
        return Err(report_words(rt, "the roster has no height of the keys", INPUT_FAULT));
    }
    let (alloc, node, version) = (rt.alloc(), member.node, member.log_version);
    let Ok(keyed) = KeyedNode::make(rt, alloc, masters, node, member.kind, version, height) else {
        return Err(report_no_memory(rt));
    };
    if keyed.member().root != member.root {
        return Err(report_words(rt, "the roster has another key of this node", NOT_ACCEPTED));
    }
    Ok(keyed)
}
