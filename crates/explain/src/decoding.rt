//! Where bytes stop being a roster's text with that of evidence after it.

ghost use Rattle.std.specs.Prelude.{◌≡◌, ◌+◌, ◌/◌, ◌<◌, ◌^◌, IfNone, IfSome, false, true};
ghost use Rattle.secure_log.specs.LogEntries.Words.{follows};

use authenticator::{MAX_MEMBERS, MAX_NODE, SECOND_FORM};
use secure_log::log_entries::{MAX_BODY, following};
use secure_log::{MAX_ENTRIES, Word};
use xdr::Reader;

/// The greatest height of a member's tree, and the most hashes in a signature's path.
const HEIGHT: u32 = 16;

/// The most entries of a log.
const ENTRIES: u32 = 65536;

/// The most bytes of a base's state.
const STATE: u32 = 67_108_864;

/// The greatest number of a place, or word of an entry: any but the greatest of 64 bits.
const PLACE: u64 = u64::MAX - 1;

/// The number of an entry whose word of 64 bits follows on the number before it, if it does.
fn number_in(before: u64, word: u64) -> Option<u64>
    ensures some { IfSome result (λ number. (follows before word ≡ true)
        × (number ≡ before + 1 + word / 2 ^ 32)) }
    ensures none { IfNone result (follows before word ≡ false) }
{
    if word > PLACE {
        return None;
    }
    following(before, Word::new(word))
}

/// Where the first item begins that doesn't decode, by the rules of docs/CHECKING.md, if there is one. Bytes
/// after the evidence are such an item. It takes no memory.
pub fn first_undecodable(bytes: &[u8]) -> Option<usize> {
    let mut passing = Passing {
        reader: Reader::new(bytes),
        has_stopped: false,
    };
    passing.case();
    let left = passing.reader.rest().len();
    if left == 0 && !passing.has_stopped {
        return None;
    }
    Some(bytes.len().saturating_sub(left))
}

/// Items that are passed one after another. Before the first that doesn't decode the reader stops, and passes
/// nothing more.
#[derive(Drop)]
struct Passing<'a> {
    reader: Reader<'a>,
    has_stopped: bool,
}

impl<'a> Passing<'a> {
    /// Passes a word from one number to another, and answers it; 0 where it stops.
    fn word(&mut self, first: u32, last: u32) -> u32 {
        let start = self.reader.rest();
        match self.reader.u32() {
            Ok(word) if !self.has_stopped && word >= first && word <= last => word,
            _ => {
                self.stop(start);
                0
            }
        }
    }

    /// Passes a number of 64 bits from one to another, and answers it; 0 where it stops.
    fn number(&mut self, first: u64, last: u64) -> u64 {
        let start = self.reader.rest();
        match self.reader.u64() {
            Ok(number) if !self.has_stopped && number >= first && number <= last => number,
            _ => {
                self.stop(start);
                0
            }
        }
    }

    /// Passes the word of an entry after a number, and answers the entry's own; 0 where it stops.
    fn entry_word(&mut self, before: u64) -> u64 {
        let start = self.reader.rest();
        let number = match self.reader.u64() {
            Ok(word) if !self.has_stopped => number_in(before, word),
            _ => None,
        };
        match number {
            Some(number) => number,
            None => {
                self.stop(start);
                0
            }
        }
    }

    /// Stops before these bytes.
    fn stop(&mut self, start: &'a [u8]) {
        self.reader = Reader::new(start);
        self.has_stopped = true;
    }

    fn fixed<const N: usize>(&mut self)
        requires { N < 2 ^ 32 }
    {
        self.has_stopped = self.has_stopped || self.reader.fixed::<N>().is_err();
    }

    /// Passes at most so many bytes after their length.
    fn opaque(&mut self, most: u32) {
        self.has_stopped = self.has_stopped || self.reader.opaque(most).is_err();
    }

    fn case(&mut self) {
        self.roster();
        self.word(0, u32::MAX);
        match self.word(1, 5) {
            1 => self.fork(),
            2 => self.log(),
            3 => self.fork_with_gaps(),
            4 => self.log_with_gaps(),
            5 => self.log_after_base(),
            _ => {}
        }
    }

    /// Passes a roster in either form.
    fn roster(&mut self) {
        match self.roster_word() {
            SECOND_FORM => self.versioned_members(),
            count => self.members(count),
        }
    }

    /// Passes the first word of a roster, and answers it; 0 where it stops.
    fn roster_word(&mut self) -> u32 {
        let start = self.reader.rest();
        match self.reader.u32() {
            Ok(word) if word <= MAX_MEMBERS || word == SECOND_FORM => word,
            _ => {
                self.stop(start);
                0
            }
        }
    }

    /// Passes so many members, whose logs are of version 1.
    fn members(&mut self, count: u32) {
        let mut last = 0;
        for _ in 0..count {
            last = self.member(last);
        }
    }

    /// Passes members with their logs, of which one is of version 2 at least. Where none is, it stops before
    /// the last member's log, or before their count where there are none.
    fn versioned_members(&mut self) {
        let mut start = self.reader.rest();
        let mut last = 0;
        let mut has_gaps = false;
        for _ in 0..self.word(0, MAX_MEMBERS) {
            last = self.member(last);
            start = self.reader.rest();
            has_gaps = self.word(1, 2) == 2 || has_gaps;
        }
        if !has_gaps && !self.has_stopped {
            self.stop(start);
        }
    }

    /// Passes a member with a number above another, and answers its number.
    fn member(&mut self, last: u32) -> u32 {
        let node = self.word(last.saturating_add(1), MAX_NODE);
        self.word(1, 2);
        self.fixed::<32>();
        self.word(1, HEIGHT);
        node
    }

    fn signature(&mut self) {
        self.word(0, u32::MAX);
        self.fixed::<8192>();
        self.fixed::<8192>();
        for _ in 0..self.word(0, HEIGHT) {
            self.fixed::<32>();
        }
    }

    fn authenticator(&mut self) {
        self.word(0, u32::MAX);
        self.number(0, PLACE);
        self.fixed::<32>();
        self.signature();
    }

    fn fork(&mut self) {
        self.number(0, PLACE);
        self.showing();
        if self.word(0, 1) == 1 {
            self.showing();
        }
    }

    fn showing(&mut self) {
        self.word(0, u32::MAX);
        self.number(0, u64::MAX);
        self.fixed::<32>();
        for _ in 0..self.word(0, MAX_ENTRIES) {
            self.word(1, 5);
            self.fixed::<32>();
        }
        self.authenticator();
    }

    /// Passes a fork of a log of version 2.
    fn fork_with_gaps(&mut self) {
        self.number(0, PLACE);
        self.showing_with_gaps();
        if self.word(0, 1) == 1 {
            self.showing_with_gaps();
        }
    }

    /// Passes a showing of a log of version 2: the number before it, and each link after its word.
    fn showing_with_gaps(&mut self) {
        self.word(0, u32::MAX);
        let mut before = self.number(0, PLACE);
        self.fixed::<32>();
        for _ in 0..self.word(0, MAX_ENTRIES) {
            before = self.entry_word(before);
            self.word(1, 5);
            self.fixed::<32>();
        }
        self.authenticator();
    }

    fn log(&mut self) {
        self.word(0, u32::MAX);
        self.number(1, PLACE);
        self.fixed::<32>();
        for _ in 0..self.word(1, ENTRIES) {
            self.entry();
        }
        self.authenticator();
    }

    /// Passes a log of version 2: the number before it, and each entry after its word.
    fn log_with_gaps(&mut self) {
        self.word(0, u32::MAX);
        let mut before = self.number(0, PLACE);
        self.fixed::<32>();
        for _ in 0..self.word(1, ENTRIES) {
            before = self.entry_word(before);
            self.entry();
        }
        self.authenticator();
    }

    /// Passes a base, and a log of its version.
    fn log_after_base(&mut self) {
        match self.word(1, 2) {
            1 => {
                self.showing();
                self.base_state();
                self.log();
            }
            2 => {
                self.showing_with_gaps();
                self.base_state();
                self.log_with_gaps();
            }
            _ => {}
        }
    }

    /// Passes the number of a base, and the bytes of its state.
    fn base_state(&mut self) {
        self.number(0, PLACE);
        self.opaque(STATE);
    }

    fn entry(&mut self) {
        match self.word(1, 5) {
            1 => self.send(),
            2 => self.recv(),
            3 => self.ack(),
            4 => self.clock(),
            5 => self.fixed::<32>(),
            _ => {}
        }
    }

    fn send(&mut self) {
        self.word(0, u32::MAX);
        self.opaque(MAX_BODY);
    }

    fn recv(&mut self) {
        self.word(0, u32::MAX);
        self.number(0, PLACE);
        self.fixed::<32>();
        self.opaque(MAX_BODY);
        self.signature();
    }

    fn clock(&mut self) {
        self.word(0, u32::MAX);
        self.word(0, u32::MAX);
    }

    fn ack(&mut self) {
        self.word(0, u32::MAX);
        self.number(0, PLACE);
        self.fixed::<32>();
        self.number(0, PLACE);
        self.fixed::<32>();
        self.signature();
    }
}
