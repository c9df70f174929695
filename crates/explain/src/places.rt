//! The log that is explained, and where its entries stand.

ghost use Rattle.std.specs.Prelude.{◌≡◌, ◌↔◌, ◌+◌, ◌<◌, ◌≤◌, ℕ, IfNone, IfSome, IsTrue, length, map};
ghost use Rattle.challenge.specs.evidence_spec.Evidence.{MAX_AUDITED};
ghost use Rattle.explain.specs.Numbers.{AreBelow, IsNumber, StandsAt, number_at, skipped_in};

use crate::facts::Facts;
use challenge::{AuditedLog, BaseText, BasedReplay};
use secure_log::log_entries::{Entry, skipped_at};
use secure_log::{Kind, LogVersion, Member, Roster};

/// The log that entries are of.
#[derive(Clone, Copy)]
pub(crate) struct Log<'a> {
    pub roster: &'a Roster,
    /// What the roster says of the node that keeps it, if it is a member.
    pub member: Option<Member>,
    /// The base after which its entries stand, if they don't begin with the log.
    pub base: Option<&'a BaseText>,
    pub audited: &'a AuditedLog,
}

impl<'a> Log<'a> {
    /// A log with what the roster says of its node.
    pub fn new(roster: &'a Roster, audited: &'a AuditedLog) -> Log<'a> {
        Log {
            roster,
            member: roster.member(audited.node()),
            base: None,
            audited,
        }
    }

    /// The same of entries after a base.
    pub fn after(roster: &'a Roster, based: &'a BasedReplay) -> Log<'a> {
        Log {
            base: Some(based.base()),
            ..Log::new(roster, based.log())
        }
    }

    /// Whether what stands before its first entry is known: the log begins with it, or a base has the state there.
    pub fn is_whole(&self) -> bool {
        self.base.is_some() || self.audited.first().get() == 1
    }

    /// The node that keeps it.
    pub fn node(&self) -> u32 {
        self.audited.node()
    }

    /// What the node is, if the roster says so.
    pub fn kind(&self) -> Option<Kind> {
        Some(self.member?.kind)
    }

    pub fn version(&self) -> LogVersion
        ensures { result ≡ self.now.audited.now.log_version }
    {
        self.audited.log_version()
    }

    pub fn entries(&self) -> &'a [Entry]
        ensures entries { result.now ≡ map (λ l. l.entry) self.now.audited.now.entries }
        ensures few { length result.now ≤ MAX_AUDITED }
        ensures count { length result.now ≡ length self.now.audited.now.entries }
    {
        self.audited.entries()
    }

    /// How many numbers are skipped just before the entry at a place.
    pub fn skipped(&self, at: usize) -> u32
        requires { at < length self.now.audited.now.entries }
        ensures { result ≡ skipped_in self.now.audited.now.entries at }
    {
        skipped_at(self.audited.skips(), at)
    }

    /// Counts the numbers from its first on.
    pub fn numbers(&self) -> Numbers
        ensures { IsNumber result.next self.now.audited.now.first }
    {
        Numbers::from(self.audited.first().get())
    }

    /// The number of the entry at a place, if it has 64 bits.
    pub fn number(&self, at: usize) -> Option<u64>
        requires { at < length self.now.audited.now.entries }
        ensures { IsNumber result (number_at self.now.audited.now.first self.now.audited.now.entries at) }
    {
        let mut numbers = self.numbers();
        for place in 0..at {
            let _ = numbers.after(self.skipped(place));
        }
        numbers.after(self.skipped(at))
    }

    /// The number of the last entry, 0 where there is none.
    pub fn last_number(&self) -> u64 {
        match self.entries().len().checked_sub(1) {
            Some(at) => self.number(at).unwrap_or(u64::MAX),
            None => 0,
        }
    }

    /// How many entries stand before the first with this number or a greater one.
    pub fn count_below(&self, number: u64) -> usize
        ensures { AreBelow self.now.audited.now.first self.now.audited.now.entries number result }
    {
        let mut numbers = self.numbers();
        for at in 0..self.entries().len() {
            if !is_below(numbers.after(self.skipped(at)), number) {
                return at;
            }
        }
        self.entries().len()
    }

    /// The place of the entry that has a number, if one has it.
    pub fn place_of(&self, number: u64) -> Option<usize>
        ensures some { IfSome result
            (StandsAt self.now.audited.now.first self.now.audited.now.entries number) }
        ensures none { IfNone result
            ((at : ℕ) → ¬ StandsAt self.now.audited.now.first self.now.audited.now.entries number at) }
    {
        let at = self.count_below(number);
        if at < self.entries().len() && self.number(at) == Some(number) {
            Some(at)
        } else {
            None
        }
    }
}

/// Counts the numbers of entries that stand one after the other.
#[derive(Clone, Copy)]
pub(crate) struct Numbers {
    /// The number that comes next where none is skipped, if it has 64 bits.
    next: Option<u64>,
}

impl Numbers {
    /// From this number on.
    pub fn from(first: u64) -> Numbers
        ensures { IsNumber result.next first }
    {
        Numbers { next: Some(first) }
    }

    /// The number of the next entry, before which so many are skipped, if it has 64 bits.
    pub fn after(&mut self, skipped: u32) -> Option<u64>
        ensures number { (n : ℕ) → IsNumber self.old.next n → IsNumber result (n + skipped) }
        ensures next { (n : ℕ) → IsNumber self.old.next n → IsNumber self.new.next (n + skipped + 1) }
    {
        let number = number_after(self.next, u64::from(skipped));
        self.next = number_after(number, 1);
        number
    }
}

/// Whether a number is below another. One of more than 64 bits isn't.
fn is_below(number: Option<u64>, other: u64) -> bool
    ensures { (n : ℕ) → IsNumber number n → (IsTrue result ↔ (n < other)) }
{
    match number {
        Some(number) => number < other,
        None => false,
    }
}

/// The number so many after another, if it has 64 bits.
fn number_after(number: Option<u64>, count: u64) -> Option<u64>
    ensures { (n : ℕ) → IsNumber number n → IsNumber result (n + count) }
{
    match number {
        Some(number) => number.checked_add(count),
        None => None,
    }
}

/// Adds the number of an entry or a link, and how many numbers are skipped just before it, if any are. One
/// that stands too high has no number of 64 bits: then nothing closes what is shown.
pub(crate) fn add_number(facts: &mut Facts, number: Option<u64>, skipped: u32) {
    match number {
        Some(number) => facts.place("number", number),
        None => facts.words("number", "above 18446744073709551615"),
    }
    add_skipped(facts, "skipped", u64::from(skipped));
}

/// Adds under one name the number that a word stands for in a log of this version, and under another how many
/// numbers it skips, if any.
pub(crate) fn add_word(
    facts: &mut Facts,
    number: &'static str,
    skipped: &'static str,
    version: LogVersion,
    word: u64,
) {
    match version {
        LogVersion::One => facts.place(number, word),
        LogVersion::Two => {
            facts.place(number, word & 0xffff_ffff);
            add_skipped(facts, skipped, word >> 32);
        }
    }
}

/// Adds how many numbers are skipped just before an entry, if any are.
fn add_skipped(facts: &mut Facts, name: &'static str, skipped: u64) {
    if skipped != 0 {
        facts.number(name, skipped);
    }
}
