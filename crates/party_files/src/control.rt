//! The control socket in a folder.

use program_output::{COMMAND_LINE, DEVICE, report_file, report_name, report_no_memory};
use shown_names::ShownName;
use sockets::{STATUS, STOP};
use std::alloc::Global;
use std::io::{Read, Write};
use std::net::Net;
use std::os::unix::fs::{FileTypeExt, PermissionsExt};
use std::os::unix::net::{UnixListener, UnixStream};
use std::rt::Files;
use std::time::Duration;
use std::{fs, io};

/// The bits of a folder's mode by which others than its owner may do something there.
const OTHERS: u32 = 0o077;

/// The most bytes of the name of a Unix socket.
const MAX_NAME: usize = 107;

/// How many seconds a process may take to hear what it is told, and to answer.
const PATIENCE: u64 = 10;

/// Why there is no control socket in a folder.
#[derive(Debug, Drop)]
pub enum ControlFault {
    /// The folder can't be looked at, or is none.
    Folder(io::Error),
    /// Others than its owner may use the folder, and so the socket.
    Open,
    /// The socket's name has more bytes than the system takes.
    TooLong,
    /// The socket can't be made there.
    Socket(io::Error),
    /// Memory was refused.
    NoMemory,
}

/// A socket that is listened on, and its name.
#[derive(Drop)]
pub struct Control {
    pub name: String,
    pub listener: UnixListener,
}

impl Control {
    /// Makes the socket `control` in a folder that nobody but its owner may use. One that a run has left
    /// there which was ended by a signal makes room.
    pub fn open<R: Files + Net>(
        rt: &R,
        alloc: Global,
        folder: &str,
    ) -> Result<Control, ControlFault> {
        let about = fs::metadata(rt, folder).map_err(ControlFault::Folder)?;
        if !about.is_dir() {
            let error = io::Error::from(io::ErrorKind::NotADirectory);
            return Err(ControlFault::Folder(error));
        }
        if about.permissions().mode() & OTHERS != 0 {
            return Err(ControlFault::Open);
        }
        let Ok(name) = format!(in alloc; "{folder}/control") else {
            return Err(ControlFault::NoMemory);
        };
        if name.len() > MAX_NAME {
            return Err(ControlFault::TooLong);
        }
        match listen(rt, &name) {
            Ok(listener) => Ok(Control { name, listener }),
            Err(error) => Err(ControlFault::Socket(error)),
        }
    }

    /// Removes the socket's file.
    pub fn close<R: Files>(&self, rt: &R) {
        let _ = fs::remove_file(rt, self.name.as_str());
    }
}

/// Listens on the socket of a name.
fn listen<R: Files + Net>(rt: &R, name: &str) -> io::Result<UnixListener> {
    match UnixListener::bind(rt, name) {
        Err(error) if error.kind() == io::ErrorKind::AddrInUse && is_left(rt, name) => {
            fs::remove_file(rt, name)?;
            UnixListener::bind(rt, name)
        }
        other => other,
    }
}

/// Whether a socket is there to which nobody listens any more.
fn is_left<R: Files + Net>(rt: &R, name: &str) -> bool {
    match fs::symlink_metadata(rt, name) {
        Ok(about) if about.file_type().is_socket() => match UnixStream::connect(rt, name) {
            Ok(_) => false,
            Err(error) => error.kind() == io::ErrorKind::ConnectionRefused,
        },
        _ => false,
    }
}

/// Tells the process whose control socket lies in a folder to stop.
pub fn tell_to_stop<R: Net>(rt: &R, alloc: Global, folder: &str) -> io::Result<()> {
    let name = format!(in alloc; "{folder}/control")?;
    let mut stream = UnixStream::connect(rt, name.as_str())?;
    stream.set_write_timeout(Some(Duration::from_secs(PATIENCE)))?;
    stream.write_all(STOP)
}

/// Asks the process whose control socket lies in a folder how it is, and gives what it says: no line where it
/// says nothing.
pub fn ask_status<R: Net>(rt: &R, alloc: Global, folder: &str) -> io::Result<String> {
    let name = format!(in alloc; "{folder}/control")?;
    let mut stream = UnixStream::connect(rt, name.as_str())?;
    stream.set_write_timeout(Some(Duration::from_secs(PATIENCE)))?;
    stream.set_read_timeout(Some(Duration::from_secs(PATIENCE)))?;
    stream.write_all(STATUS)?;
    let mut said = String::new(alloc);
    stream.read_to_string(&mut said)?;
    Ok(said)
}

/// Says on standard error why there is no control socket in a folder, and gives the status for it.
pub fn report_control(rt: &impl Eprint, folder: &str, fault: &ControlFault) -> u8 {
    match fault {
        ControlFault::NoMemory => report_no_memory(rt),
        ControlFault::Open => report_name(
            rt,
            folder,
            "others than its owner may use it",
            COMMAND_LINE,
        ),
        ControlFault::TooLong => {
            report_name(
                rt,
                folder,
                "the name of its control socket has more than 107 bytes",
                COMMAND_LINE,
            )
        }
        ControlFault::Folder(error) => report_file(rt, folder, error),
        ControlFault::Socket(error) => {
            let name = ShownName::new(folder);
            let _ = eprintln!(rt; "nfsacc: {name}/control: {error}");
            DEVICE
        }
    }
}
