//! Readers and writers that give and take little a call, count their calls, and fail at one.

use rpc::records::Ahead;
use std::alloc::Global;
use std::io;
use std::io::{ErrorKind, Read, Write};

/// Gives one byte a call, and fails at one call.
#[derive(Drop)]
pub struct SlowReader<'a> {
    bytes: &'a [u8],
    pub calls: u64,
    fails_at: u64,
}

impl<'a> SlowReader<'a> {
    /// Fails at the call of this number, from 1 on; at none where it is 0.
    pub fn new(bytes: &'a [u8], fails_at: u64) -> Self {
        SlowReader {
            bytes,
            calls: 0,
            fails_at,
        }
    }
}

impl Read for SlowReader<'_> {
    fn read(&mut self, buf: &mut [u8]) -> io::Result<usize> {
        self.calls = self.calls.saturating_add(1);
        if self.calls == self.fails_at {
            return Err(io::Error::from(ErrorKind::Other));
        }
        let Some((byte, rest)) = self.bytes.split_first() else {
            return Ok(0);
        };
        let Some(first) = buf.first_mut() else {
            return Ok(0);
        };
        *first = *byte;
        self.bytes = rest;
        Ok(1)
    }
}

impl Ahead for SlowReader<'_> {
    ghost use Rattle.std.specs.Prelude.{[]};

    ghost ahead = { λ _. [] };

    fn at_hand(&self) -> &[u8] {
        &[]
    }

    fn pass(&mut self, _amount: usize) {}
}

/// How a call of a writer fails.
#[derive(Clone, Copy, Debug)]
pub enum Refusal {
    Error,
    TakesNothing,
}

/// Takes so many bytes a call at most, and fails at one call.
#[derive(Drop)]
pub struct SlowWriter {
    pub taken: Vec<u8>,
    most: usize,
    pub calls: u64,
    fails_at: u64,
    refusal: Refusal,
}

impl SlowWriter {
    /// Takes so many bytes a call at most, and fails at the call of this number, from 1 on; at none where it
    /// is 0.
    pub fn new(alloc: Global, most: usize, fails_at: u64, refusal: Refusal) -> Self {
        SlowWriter {
            taken: Vec::new(alloc),
            most,
            calls: 0,
            fails_at,
            refusal,
        }
    }
}

impl Write for SlowWriter {
    fn write(&mut self, buf: &[u8]) -> io::Result<usize> {
        self.calls = self.calls.saturating_add(1);
        if self.calls == self.fails_at {
            return match self.refusal {
                Refusal::Error => Err(io::Error::from(ErrorKind::Other)),
                Refusal::TakesNothing => Ok(0),
            };
        }
        let piece = &buf[..buf.len().min(self.most)];
        self.taken.extend_from_slice(piece)?;
        Ok(piece.len())
    }

    fn flush(&mut self) -> io::Result<()> {
        self.calls = self.calls.saturating_add(1);
        if self.calls == self.fails_at {
            return Err(io::Error::from(ErrorKind::Other));
        }
        Ok(())
    }
}
