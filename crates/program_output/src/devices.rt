//! Readers and writers that remember why they failed.

use std::io;
use std::io::{Read, Write};

/// A reader or a writer, with the last error that it answered.
#[derive(Drop)]
pub struct Remembering<T> {
    device: T,
    last: Option<io::Error>,
}

impl<T> Remembering<T> {
    /// One that has answered no error.
    pub fn new(device: T) -> Remembering<T> {
        Remembering { device, last: None }
    }

    /// The last error, if there was one.
    pub fn last(&self) -> Option<io::Error> {
        self.last
    }
}

impl<R: Read> Read for Remembering<R> {
    fn read(&mut self, buf: &mut [u8]) -> io::Result<usize> {
        match self.device.read(buf) {
            Ok(len) => Ok(len),
            Err(error) => {
                self.last = Some(error);
                Err(error)
            }
        }
    }
}

impl<W: Write> Write for Remembering<W> {
    fn write(&mut self, bytes: &[u8]) -> io::Result<usize> {
        match self.device.write(bytes) {
            Ok(len) => Ok(len),
            Err(error) => {
                self.last = Some(error);
                Err(error)
            }
        }
    }

    fn flush(&mut self) -> io::Result<()> {
        match self.device.flush() {
            Ok(()) => Ok(()),
            Err(error) => {
                self.last = Some(error);
                Err(error)
            }
        }
    }
}
