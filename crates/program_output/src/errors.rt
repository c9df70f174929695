//! Standard error as a writer.

use crate::times::time_now;
use std::alloc::Global;
use std::io;
use std::io::Write;
use std::rt::Clock;

/// Standard error, as a writer of text.
#[derive(Drop)]
pub struct ErrorWriter<'a, R> {
    runtime: &'a R,
}

impl<'a, R: Eprint> ErrorWriter<'a, R> {
    /// The standard error that a runtime reaches.
    pub fn new(runtime: &'a R) -> ErrorWriter<'a, R> {
        ErrorWriter { runtime }
    }
}

impl<'a, R: Eprint> Write for ErrorWriter<'a, R> {
    fn write(&mut self, bytes: &[u8]) -> io::Result<usize> {
        match str::from_utf8(bytes) {
            Ok(text) => {
                self.runtime.eprint(text)?;
                Ok(bytes.len())
            }
            Err(_) => Err(io::Error::from(io::ErrorKind::InvalidData)),
        }
    }

    fn flush(&mut self) -> io::Result<()> {
        Ok(())
    }
}

/// Standard error, as a writer of lines that may begin with the time.
#[derive(Drop)]
pub struct TimedErrors<'a, R> {
    runtime: &'a R,
    alloc: Global,
    errors: ErrorWriter<'a, R>,
    /// Whether what is written begins with the time.
    tells_time: bool,
}

impl<'a, R: Eprint + Clock> TimedErrors<'a, R> {
    /// The standard error that a runtime reaches. With `tells_time` each line that is written, all at once,
    /// begins with the time.
    pub fn new(runtime: &'a R, alloc: Global, tells_time: bool) -> TimedErrors<'a, R> {
        TimedErrors {
            runtime,
            alloc,
            errors: ErrorWriter::new(runtime),
            tells_time,
        }
    }

    /// The bytes of a line after the time, if it can be told.
    fn timed(&self, bytes: &[u8]) -> Option<String> {
        let line = str::from_utf8(bytes).ok()?;
        let time = time_now(self.runtime)?;
        format!(in self.alloc; "{time} {line}").ok()
    }
}

impl<'a, R: Eprint + Clock> Write for TimedErrors<'a, R> {
    fn write(&mut self, bytes: &[u8]) -> io::Result<usize> {
        if self.tells_time {
            if let Some(line) = self.timed(bytes) {
                self.errors.write_all(line.as_bytes())?;
                return Ok(bytes.len());
            }
        }
        self.errors.write(bytes)
    }

    fn flush(&mut self) -> io::Result<()> {
        self.errors.flush()
    }
}
