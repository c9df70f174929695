//! Counts what a reader or a writer refused.

ghost use Rattle.std.specs.Prelude.{◌≡◌, ◌≤◌, length, take};
ghost use Rattle.std.specs.Io.{ReadsAtMost, WritesAtMost};
ghost use Rattle.std.specs.Io.KnownBytes.{Consumes, Keeps, ReadConsumes, WriteAppends};
ghost use Rattle.rpc.specs.Records.Count.{CountsErr, CountsWrite};

use crate::records::ahead::Ahead;
use std::io;
use std::io::{Read, Write};
use std::marker::Model;

/// A reader or a writer, with a count of the Errs that its `read`, `write` and `flush` gave and of
/// the writes of a non-empty piece that took nothing. The count stops at the greatest `u64`. What
/// `read_exact` and `write_all` answer of their own, as at the end of a stream, isn't counted.
///
/// A clause sees the reader or writer as `inner` and the count as `count`. Only the calls below
/// change them. That each of `read`, `write` and `flush` asks the reader or writer once and answers
/// as it did shows in their bodies; no clause can say it, since an Err leaves no trace.
#[derive(Drop)]
pub struct Counting<T> {
    inner: T,
    count: u64,
}

impl<T> Model for Counting<T> {
    ghost use Rattle.rpc.specs.Records.Count.{CountedDevice};

    ghost Value = { CountedDevice T };

    ghost view = { λ c. record { inner = c.inner; count = c.count } };
}

impl<T> Counting<T> {
    /// Counts from 0.
    pub fn new(inner: T) -> Self
        ensures inner { result.inner ≡ inner }
        ensures count { result.count ≡ 0 }
    {
        Counting { inner, count: 0 }
    }

    /// The count so far.
    pub fn count(&self) -> u64
        ensures { result ≡ self.now.count }
    {
        self.count
    }

    /// The reader or the writer, to look at.
    pub fn get_ref(&self) -> &T
        ensures { result.now ≡ self.now.inner }
    {
        &self.inner
    }

    /// The reader or the writer, without its count.
    pub fn into_inner(self) -> T
        ensures { result ≡ self.inner }
    {
        self.inner
    }
}

impl<R: Ahead> Counting<R> {
    /// Passes over the first `amount` bytes that the reader has at hand.
    pub fn pass(&mut self, amount: usize)
        requires { amount ≤ length (R.ahead self.old.inner) }
        ensures taken { Consumes (R.remaining self.old.inner) (R.remaining self.new.inner)
            (take amount (R.ahead self.old.inner)) }
        ensures count { self.new.count ≡ self.old.count }
    {
        self.inner.pass(amount);
    }
}

impl<R: Read> Read for Counting<R> {
    ghost remaining = { λ c. R.remaining c.inner };

    fn read(&mut self, buf: &mut [u8]) -> io::Result<usize>
        ensures bound { ReadsAtMost result buf.new }
        ensures bytes { ReadConsumes (R.remaining self.old.inner) (R.remaining self.new.inner)
            result buf.new }
        ensures count { CountsErr result self.old.count self.new.count }
    {
        let result = self.inner.read(buf);
        if result.is_err() {
            self.count = self.count.saturating_add(1);
        }
        result
    }
}

impl<W: Write> Write for Counting<W> {
    ghost contents = { λ c. W.contents c.inner };

    fn write(&mut self, buf: &[u8]) -> io::Result<usize>
        ensures bound { WritesAtMost result buf.now }
        ensures bytes { WriteAppends (W.contents self.old.inner) (W.contents self.new.inner) result buf.now }
        ensures count { CountsWrite result (length buf.now) self.old.count self.new.count }
    {
        let result = self.inner.write(buf);
        let is_refused = match &result {
            Ok(n) => *n == 0 && !buf.is_empty(),
            Err(_) => true,
        };
        if is_refused {
            self.count = self.count.saturating_add(1);
        }
        result
    }

    fn flush(&mut self) -> io::Result<()>
        ensures bytes { Keeps (W.contents self.old.inner) (W.contents self.new.inner) }
        ensures count { CountsErr result self.old.count self.new.count }
    {
        let result = self.inner.flush();
        if result.is_err() {
            self.count = self.count.saturating_add(1);
        }
        result
    }
}
