//! Where the threads of a process say what happens.

use std::alloc::AllocError;
use std::io::Write;

/// Where the threads of a process say what happens: it lies under a lock. What can't be said is noted.
#[derive(Drop)]
pub struct Output<W, E> {
    lines: W,
    errors: E,
    has_failed: bool,
}

impl<W: Write, E: Write> Output<W, E> {
    /// An output of lines, and of what is beside them.
    pub fn new(lines: W, errors: E) -> Output<W, E> {
        Output {
            lines,
            errors,
            has_failed: false,
        }
    }

    /// Whether a line couldn't be said.
    pub fn has_failed(&self) -> bool {
        self.has_failed
    }

    /// Says a line, with its line feed.
    pub fn line(&mut self, line: Result<String, AllocError>) {
        let Ok(line) = line else {
            self.has_failed = true;
            return;
        };
        if self.lines.write_all(line.as_bytes()).is_err() || self.lines.flush().is_err() {
            self.has_failed = true;
        }
    }

    /// Says what is no line of the process's own: a peer's fault, or a want. Where it can't be said nothing is done
    /// about it.
    pub fn say(&mut self, line: Result<String, AllocError>) {
        if let Ok(line) = line {
            let _ = self.errors.write_all(line.as_bytes());
        }
    }
}
