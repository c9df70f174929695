//! Where a script is read.

ghost use Rattle.std.specs.Prelude.{◌≡◌, false, IfOk};
ghost use Rattle.std.specs.Io.KnownBytes.{IsAtEnd};

use crate::lines::{Next, next_line, pass_line};
use crate::stop::Stop;
use nfs_items::Time;
use std::alloc::Global;
use std::io::Read;

/// How far a script was read, and the last line.
#[derive(Drop)]
pub(crate) struct Cursor {
    line: Vec<u8>,
    number: u64,
}

impl Cursor {
    /// Before the first line.
    pub(crate) fn new(alloc: Global) -> Cursor {
        Cursor {
            line: Vec::new(alloc),
            number: 0,
        }
    }

    /// The number of the line that was read last, from 1; lines that are passed over count too.
    pub(crate) fn number(&self) -> u64 {
        self.number
    }

    /// The time at which that line runs: so many seconds, at most the most that a time has.
    pub(crate) fn time(&self) -> Time {
        let seconds = self.number.min(u64::from(u32::MAX)) as u32;
        Time::new(seconds, 0).unwrap()
    }

    /// Reads the next line that isn't passed over: empty lines are, and those that begin with `#`, however
    /// long they are. Tells whether there is one.
    pub(crate) fn next<I: Read>(&mut self, reader: &mut I) -> Result<bool, Stop>
        ensures { IfOk result (λ there. there ≡ false → IsAtEnd (I.remaining reader.new)) }
    {
        for _ in 0..u64::MAX {
            self.number = self.number.saturating_add(1);
            match next_line(reader, &mut self.line) {
                Next::Line if self.is_passed_over() => {}
                Next::Line => return Ok(true),
                Next::End => return Ok(false),
                Next::TooLong if self.is_passed_over() => pass_rest(reader)?,
                Next::TooLong => return Err(Stop::Bad),
                Next::Device => return Err(Stop::Device),
                Next::NoMemory => return Err(Stop::NoMemory),
            }
        }
        Err(Stop::Bad)
    }

    /// Whether the line is empty or begins with `#`.
    fn is_passed_over(&self) -> bool {
        match self.line.first() {
            Some(byte) => *byte == b'#',
            None => true,
        }
    }

    /// The line. It is bad where it is no text.
    pub(crate) fn text(&self) -> Result<&str, Stop> {
        str::from_utf8(&self.line).map_err(|_| Stop::Bad)
    }
}

/// Reads on to the end of a line that is passed over.
fn pass_rest<I: Read>(reader: &mut I) -> Result<(), Stop> {
    match pass_line(reader) {
        Next::Line | Next::End => Ok(()),
        Next::Device => Err(Stop::Device),
        Next::TooLong | Next::NoMemory => Err(Stop::Bad),
    }
}
