//! Records that lie whole in a reader's buffer.

ghost use Rattle.std.specs.Prelude.{◌≡◌, ◌≤◌, List, ℕ, length, take, IfSome, None};
ghost use Rattle.std.specs.Io.{StartsWith};
ghost use Rattle.std.specs.Io.Buffered.{reader_buffer};
ghost use Rattle.std.specs.Io.KnownBytes.{Consumes};
ghost use Rattle.rpc.specs.Records.Ahead.{IsInFront, HasNoneInFront};

use crate::records::record::{MAX_RECORD, mark_of};
use std::io::{BufRead, BufReader, Read};

/// A reader that shows what it has read ahead.
pub trait Ahead: Read {
    // What was read and not yet given.
    ghost ahead: { Self → List ℕ };

    /// The bytes that it gives next without asking its device.
    fn at_hand(&self) -> &[u8]
        ensures bytes { result.now ≡ ahead self.now }
        ensures front { IfSome (Self.remaining self.now) (λ left. StartsWith left result.now) };

    /// Passes over the first `amount` of these bytes.
    fn pass(&mut self, amount: usize)
        requires { amount ≤ length (ahead self.old) }
        ensures { Consumes (Self.remaining self.old) (Self.remaining self.new)
            (take amount (ahead self.old)) };
}

impl<R: Read> Ahead for BufReader<R> {
    ghost ahead = { λ r. reader_buffer r };

    fn at_hand(&self) -> &[u8] {
        self.buffer()
    }

    fn pass(&mut self, amount: usize) {
        let _ahead = self.at_hand();
        self.consume(amount);
    }
}

impl Ahead for &[u8] {
    ghost ahead = { λ bytes. bytes.now };

    fn at_hand(&self) -> &[u8] {
        self
    }

    fn pass(&mut self, amount: usize) {
        *self = &self[amount..];
    }
}

/// The record that stands in front of some bytes, whole and as one fragment, where one does.
pub fn record_in_front(bytes: &[u8]) -> Option<&[u8]>
    ensures found { IfSome result (λ found. IsInFront found.now bytes.now) }
    ensures none { result ≡ None → HasNoneInFront bytes.now }
{
    if bytes.len() < 4 {
        return None;
    }
    let (front, rest) = bytes.split_at(4);
    let mark = mark_of(front);
    let len = mark.len as usize;
    if !mark.is_last || len > MAX_RECORD || len > rest.len() {
        return None;
    }
    Some(&rest[..len])
}
