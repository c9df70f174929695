//! The items of evidence and of cases, taken from the front of what is left of their bytes.

ghost use Rattle.std.specs.Prelude.{◌≡◌, IfOk, length, map, option_map};
ghost use Rattle.xdr.specs.Item.{array, fixed, optional, pair, word};
ghost use Rattle.xdr.specs.Reading.{GivesUnless};
ghost use Rattle.xdr.specs.ReadFault.{xdr_fault};
ghost use Rattle.authenticator.specs.Roster.{listed_value, roster_item};
ghost use Rattle.evidence_showings.specs.Bases.{plain_base_value, worded_base_value};
ghost use Rattle.evidence_showings.specs.Plain.{plain_value};
ghost use Rattle.evidence_showings.specs.Worded.{worded_value};
ghost use Rattle.evidence_showings.specs.evidence_spec.Base.{begun_item};
ghost use Rattle.evidence_showings.specs.evidence_spec.Evidence.{MAX_AUDITED, fork_item};
ghost use Rattle.authenticator.specs.Numbers.{number_item};
ghost use Rattle.authenticator.specs.declared.member.LogVersion.TheVariants.{One, Two};
ghost use Rattle.authenticator.specs.Signed.{authenticator_item, authenticator_value};
ghost use Rattle.secure_log.specs.LogEntries.Entry.{entry_item, entry_value};
ghost use Rattle.secure_log.specs.Versioned.{logged_item, worded_values};
ghost use Rattle.challenge.specs.Taking.{LeavesOf};

use crate::source::Source;
use authenticator::{Authenticator, ListedRoster, Number, Word};
use evidence_showings::{MAX_AUDITED, PlainBase, PlainShowing, WordedBase, WordedShowing};
use secure_log::log_entries::Entry;
use std::alloc::Global;
use xdr::{FromXdr, ReadFault, Reader, XdrFault};

/// The item in front of some bytes, and how many are left after it.
pub(crate) fn front<'a, T: FromXdr<'a>>(
    alloc: Global,
    bytes: &'a [u8],
) -> Result<(T, usize), ReadFault>
    ensures { LeavesOf xdr_fault T.item (λ x. T.value x.0) (λ x. x.1) bytes.now result }
{
    let mut reader = Reader::new(bytes);
    let item = T::read(alloc, &mut reader)?;
    Ok((item, reader.rest().len()))
}

/// A number of a log and one showing or two, as they stand in a text. After an `Err` the reader may stand
/// within them.
fn read_fork<'a, S: FromXdr<'a>>(
    alloc: Global,
    reader: &mut Reader<'a>,
) -> Result<(Number, S, Option<S>), ReadFault>
    ensures { GivesUnless xdr_fault (pair number_item (pair S.item (optional S.item)))
        (λ f. (f.0, (S.value f.1, option_map S.value f.2))) reader.old result reader.new }
{
    let at = Number::read(alloc, reader)?;
    let a = S::read(alloc, reader)?;
    let b = read_second(alloc, reader)?;
    Ok((at, a, b))
}

#[tactic(auto, unfolding(xdr::specs::Reading::optional_at))]
fn read_second<'a, S: FromXdr<'a>>(
    alloc: Global,
    reader: &mut Reader<'a>,
) -> Result<Option<S>, ReadFault>
    ensures { GivesUnless xdr_fault (optional S.item) (λ b. option_map S.value b)
        reader.old result reader.new }
{
    if !reader.bool()? {
        return Ok(None);
    }
    let showing = S::read(alloc, reader)?;
    Ok(Some(showing))
}

/// A number and its showings in front of some bytes, and how many are left after them.
fn fork_in_front<'a, S: FromXdr<'a>>(
    alloc: Global,
    bytes: &'a [u8],
) -> Result<((Number, S, Option<S>), usize), ReadFault>
    ensures { LeavesOf xdr_fault (pair number_item (pair S.item (optional S.item)))
        (λ x. (x.0.0, (S.value x.0.1, option_map S.value x.0.2))) (λ x. x.1) bytes.now result }
{
    let mut reader = Reader::new(bytes);
    let fork = read_fork(alloc, &mut reader)?;
    Ok((fork, reader.rest().len()))
}

/// The hash in front of some bytes, and how many are left after it.
fn hash_in_front(bytes: &[u8]) -> Result<([u8; 32], usize), ReadFault>
    ensures { LeavesOf xdr_fault (fixed 32) (λ x. x.0) (λ x. x.1) bytes.now result }
{
    let mut reader = Reader::new(bytes);
    let hash = *reader.fixed::<32>()?;
    Ok((hash, reader.rest().len()))
}

/// Takes a roster in either form.
pub(crate) fn take_roster(alloc: Global, source: &mut Source) -> Result<ListedRoster, ReadFault>
    ensures { GivesUnless xdr_fault roster_item listed_value source.old result source.new }
{
    let (listed, left): (ListedRoster, usize) = front(alloc, source.rest())?;
    source.keep(left);
    Ok(listed)
}

/// Takes a word.
pub(crate) fn take_word(alloc: Global, source: &mut Source) -> Result<u32, ReadFault>
    ensures { GivesUnless xdr_fault word (λ n. n) source.old result source.new }
{
    let (word, left): (u32, usize) = front(alloc, source.rest())?;
    source.keep(left);
    Ok(word)
}

/// Takes a number of a log.
pub(crate) fn take_number(alloc: Global, source: &mut Source) -> Result<Number, ReadFault>
    ensures { GivesUnless xdr_fault number_item (λ n. n) source.old result source.new }
{
    let (number, left): (Number, usize) = front(alloc, source.rest())?;
    source.keep(left);
    Ok(number)
}

/// Takes a hash.
pub(crate) fn take_hash(source: &mut Source) -> Result<[u8; 32], ReadFault>
    ensures { GivesUnless xdr_fault (fixed 32) (λ h. h) source.old result source.new }
{
    let (hash, left) = hash_in_front(source.rest())?;
    source.keep(left);
    Ok(hash)
}

/// Takes an entry of a log.
fn take_entry(alloc: Global, source: &mut Source) -> Result<Entry, ReadFault>
    ensures { GivesUnless xdr_fault entry_item entry_value source.old result source.new }
{
    let (entry, left): (Entry, usize) = front(alloc, source.rest())?;
    source.keep(left);
    Ok(entry)
}

/// Takes an authenticator.
pub(crate) fn take_authenticator(
    alloc: Global,
    source: &mut Source,
) -> Result<Authenticator, ReadFault>
    ensures { GivesUnless xdr_fault authenticator_item authenticator_value source.old result source.new }
{
    let (authenticator, left): (Authenticator, usize) = front(alloc, source.rest())?;
    source.keep(left);
    Ok(authenticator)
}

/// Takes the number and the showings of a fork of a log of version 1.
pub(crate) fn take_fork(
    alloc: Global,
    source: &mut Source,
) -> Result<(Number, PlainShowing, Option<PlainShowing>), ReadFault>
    ensures { GivesUnless xdr_fault (fork_item One)
        (λ f. (f.0, (plain_value f.1, option_map plain_value f.2)))
        source.old result source.new }
{
    let (fork, left): ((Number, PlainShowing, Option<PlainShowing>), usize) = fork_in_front(
        alloc,
        source.rest(),
    )?;
    source.keep(left);
    Ok(fork)
}

/// Takes those of a fork of a log of version 2, whose words aren't checked.
pub(crate) fn take_worded_fork(
    alloc: Global,
    source: &mut Source,
) -> Result<(Number, WordedShowing, Option<WordedShowing>), ReadFault>
    ensures { GivesUnless xdr_fault (fork_item Two)
        (λ f. (f.0, (worded_value f.1, option_map worded_value f.2)))
        source.old result source.new }
{
    let (fork, left): ((Number, WordedShowing, Option<WordedShowing>), usize) = fork_in_front(
        alloc,
        source.rest(),
    )?;
    source.keep(left);
    Ok(fork)
}

/// Takes what stands after the version's number of a base of a log of version 1.
pub(crate) fn take_plain_base(alloc: Global, source: &mut Source) -> Result<PlainBase, ReadFault>
    ensures { GivesUnless xdr_fault (begun_item One) plain_base_value source.old result source.new }
{
    let (base, left): (PlainBase, usize) = front(alloc, source.rest())?;
    source.keep(left);
    Ok(base)
}

/// Takes the same of one of a log of version 2, whose words aren't checked.
pub(crate) fn take_worded_base(alloc: Global, source: &mut Source) -> Result<WordedBase, ReadFault>
    ensures { GivesUnless xdr_fault (begun_item Two) worded_base_value source.old result source.new }
{
    let (base, left): (WordedBase, usize) = front(alloc, source.rest())?;
    source.keep(left);
    Ok(base)
}

/// Takes the word of an entry of a log of version 2, and the entry.
fn take_worded_entry(alloc: Global, source: &mut Source) -> Result<(Word, Entry), ReadFault>
    ensures { GivesUnless xdr_fault (logged_item Two) (λ x. (x.0, entry_value x.1))
        source.old result source.new }
{
    let (word, left): (Word, usize) = front(alloc, source.rest())?;
    source.keep(left);
    let entry = take_entry(alloc, source)?;
    Ok((word, entry))
}

/// Takes the entries of a log of version 1, after their count.
pub(crate) fn take_entries(alloc: Global, source: &mut Source) -> Result<Vec<Entry>, ReadFault>
    ensures { GivesUnless xdr_fault (array MAX_AUDITED entry_item) (λ v. map entry_value v.items)
        source.old result source.new }
{
    let count = take_word(alloc, source)?;
    if count > MAX_AUDITED {
        return Err(ReadFault::Fault(XdrFault::TooLong));
    }
    let mut entries = Vec::new(alloc);
    for _ in 0..count {
        entries.push(take_entry(alloc, source)?)?;
    }
    Ok(entries)
}

/// Takes the entries of a log of version 2 with their words, which aren't checked, after their count.
pub(crate) fn take_worded_entries(
    alloc: Global,
    source: &mut Source,
) -> Result<(Vec<Word>, Vec<Entry>), ReadFault>
    ensures text { GivesUnless xdr_fault (array MAX_AUDITED (logged_item Two))
        (λ x. worded_values x.0.items x.1.items) source.old result source.new }
    ensures count { IfOk result (λ x. length x.0.items ≡ length x.1.items) }
{
    let count = take_word(alloc, source)?;
    if count > MAX_AUDITED {
        return Err(ReadFault::Fault(XdrFault::TooLong));
    }
    let mut words = Vec::new(alloc);
    let mut entries = Vec::new(alloc);
    for _ in 0..count {
        let (word, entry) = take_worded_entry(alloc, source)?;
        words.push(word)?;
        entries.push(entry)?;
    }
    Ok((words, entries))
}
