//! The control socket, by which a process can be told to stop, and asked what it says of itself.

ghost use Rattle.std.specs.Prelude.{◌≡◌, IfSome, None};
ghost use Rattle.sockets.specs.Commands.{IsNoCommand, line_of};

use std::io::Read;
use std::os::unix::net::UnixStream;
use std::time::Duration;

/// The command that stops a process: the word `stop` and a line feed.
pub const STOP: &[u8] = b"stop\n";

/// The command that asks a process what it says of itself: the word `status` and a line feed.
pub const STATUS: &[u8] = b"status\n";

/// How many seconds a caller has for its next byte.
const PATIENCE: u64 = 1;

/// The most bytes of a command.
const LONGEST: usize = 7;

/// A command to a process.
#[derive(Clone, Copy, Debug, PartialEq, Eq)]
pub enum Command {
    /// To stop.
    Stop,
    /// To say what it says of itself.
    Status,
}

/// Whether the first bytes that a caller sends are the command to stop.
pub fn says_stop(caller: &UnixStream) -> bool {
    command_of(caller) == Some(Command::Stop)
}

/// The command that the first line of a caller is; none where it is another line, or doesn't come in time.
pub fn command_of(caller: &UnixStream) -> Option<Command> {
    let _ = caller.set_read_timeout(Some(Duration::from_secs(PATIENCE)));
    let mut caller = caller;
    let mut line = [0; LONGEST];
    for length in 0..LONGEST {
        match caller.read(&mut line[length..length + 1]) {
            Ok(1) => {}
            _ => return None,
        }
        if line[length] == b'\n' {
            return command_in(&line[..length + 1]);
        }
    }
    None
}

/// The command that a line is.
fn command_in(line: &[u8]) -> Option<Command>
    ensures some { IfSome result (λ command. line.now ≡ line_of command) }
    ensures none { result ≡ None → IsNoCommand line.now }
{
    if line == STOP {
        Some(Command::Stop)
    } else if line == STATUS {
        Some(Command::Status)
    } else {
        None
    }
}
