//! The thread that waits for commands at the control socket.

use crate::memory::OwnMemory;
use crate::phase::{Phase, end_serving, is_serving};
use sockets::{Command, command_of};
use std::alloc::{AllocError, Global};
use std::io::Write;
use std::os::unix::net::{UnixListener, UnixStream};
use std::sync::{Mutex, Wait};
use std::time::Duration;

/// How many milliseconds pass between two looks at the socket.
const PAUSE: u64 = 100;

/// How many seconds a caller has to take what it is told.
const PATIENCE: u64 = 1;

/// Where a process takes commands.
#[derive(Clone, Copy)]
pub struct Commands<'a> {
    /// The control socket.
    pub listener: &'a UnixListener,
    /// What the system tells the process of its memory, if it does.
    pub memory: Option<&'a OwnMemory>,
}

/// Who knows how a process is.
pub trait Teller {
    /// How the process is, a line each: a name, `:` and a value. `AllocError` comes only where a growth was
    /// refused.
    fn tell(&self, alloc: Global) -> Result<String, AllocError>;
}

/// Waits at the control socket until the process no longer serves: has it stop when it is told to, and says
/// how it is when that is asked.
pub fn attend<R: Wait, T: std::time::Clock, S: Teller>(
    rt: &R,
    alloc: Global,
    clock: &T,
    phase: &Mutex<Phase>,
    commands: Commands<'_>,
    teller: &S,
) {
    // A socket that blocks would keep the process from ending.
    let listener = commands.listener;
    if listener.set_nonblocking(true).is_err() {
        return;
    }
    for _ in 0..u64::MAX {
        if !is_serving(rt, phase) {
            return;
        }
        let Ok((caller, _)) = listener.accept() else {
            clock.sleep(Duration::from_millis(PAUSE));
            continue;
        };
        match command_of(&caller) {
            Some(Command::Stop) => end_serving(rt, phase, Phase::Stopping),
            Some(Command::Status) => tell(alloc, commands.memory, teller, &caller),
            None => {}
        }
    }
}

/// Tells a caller how the process is. One that doesn't take it in time gets a part.
fn tell<S: Teller>(alloc: Global, memory: Option<&OwnMemory>, teller: &S, caller: &UnixStream) {
    let _ = caller.set_write_timeout(Some(Duration::from_secs(PATIENCE)));
    let mut caller = caller;
    if let Ok(text) = status_text(alloc, memory, teller) {
        let _ = caller.write_all(text.as_bytes());
    }
}

/// How the process is, with the memory that it has, where the system tells.
fn status_text<S: Teller>(
    alloc: Global,
    memory: Option<&OwnMemory>,
    teller: &S,
) -> Result<String, AllocError> {
    let mut text = teller.tell(alloc)?;
    let resident = match memory {
        Some(memory) => memory.resident(),
        None => None,
    };
    if let Some(resident) = resident {
        let line = format!(in alloc; "memory: {resident} KiB\n")?;
        text.push_str(&line)?;
    }
    Ok(text)
}
