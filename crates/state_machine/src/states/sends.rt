//! The messages that a node sent and that have no acknowledgement yet.

ghost use Rattle.std.specs.Prelude.{◌≡◌, ◌<◌, ◌≤◌, OnOk, OnErr, IfOk, MatchOption, MatchBool, None, length};
ghost use Rattle.std.specs.Prelude.{map};
ghost use Rattle.std.specs.FinMap.{get, insert, remove, empty, entries, len};
ghost use Rattle.std.specs.List.{flat_map, AllByRecursion};
ghost use Rattle.std.specs.List.Sorted.{IsStrictlySortedBy};
ghost use Rattle.std.specs.Map.{keys_of};
ghost use Rattle.std.specs.Ordering.{nat_cmp};
ghost use Rattle.xdr.specs.Item.{Fits, array, spelling};
ghost use Rattle.xdr.specs.Writing.{Adds};
ghost use Rattle.state_spec.specs.StateItems.{sent_item, sent_value};
ghost use Rattle.state_spec.specs.StateValues.{map_from};
ghost use Rattle.state_spec.specs.Limits.{max_sends};
ghost use Rattle.state_machine.specs.States.Bounds.{SentFits};
ghost use Rattle.state_machine.specs.States.Numbered.{numbered};

use crate::states::message::SentMessage;
use crate::states::texts::{NumberedSend, add_sent};
use std::alloc::{AllocError, Global};
use std::collections::BTreeMap;
use std::marker::Model;
use xdr::Writer;

/// The greatest count of messages that have no acknowledgement yet.
pub const MAX_SENDS: usize = 131_072;

/// The messages that a node sent and that have no acknowledgement yet, by their numbers in its log, at most
/// `MAX_SENDS`.
#[derive(Drop)]
pub struct Sends {
    messages: BTreeMap<u64, SentMessage>,
}

impl Model for Sends {
    ghost use Rattle.std.specs.Map.{keys_of};
    ghost use Rattle.std.specs.Ordering.{nat_cmp};
    ghost use Rattle.std.specs.Coded.{coded_ℕ};
    ghost use Rattle.std.specs.FinMap as finite;
    ghost use Rattle.state_spec.specs.State.{SentMessage};
    ghost use Rattle.state_spec.specs.Codes.{sent_code};
    ghost use Rattle.state_spec.specs.StateValues.{map_from};
    ghost use Rattle.state_machine.specs.States.Bounds.{SentFits};
    ghost use Rattle.state_machine.specs.States.Kept.{AreKept};
    ghost use Rattle.state_machine.specs.declared.states.sends.TheConstants.{MAX_SENDS};

    ghost Value = { finite.FinMap nat_cmp SentMessage };

    ghost coded = { finite.code coded_ℕ sent_code };

    ghost view = { λ s. map_from nat_cmp s.messages.entries };

    ghost invariant = { λ s.
        AreKept nat_cmp SentFits MAX_SENDS (keys_of s.messages.entries) s.messages.entries };
}

impl Sends {
    /// None.
    pub fn new(alloc: Global) -> Sends
        ensures { result ≡ empty }
    {
        Sends {
            messages: BTreeMap::new(alloc),
        }
    }

    /// How many there are.
    pub fn len(&self) -> usize
        ensures count { result ≡ len self.now }
        ensures bound { result ≤ MAX_SENDS }
    {
        self.messages.len()
    }

    /// The message of a number.
    pub fn get(&self, seq: u64) -> Option<SentMessage>
        ensures { result ≡ get self.now seq }
    {
        self.messages.get(&seq).copied()
    }

    /// Puts a message under a number, in place of the one that it has. Where memory is refused, which it
    /// isn't for a number that has one, nothing changes.
    pub fn insert(&mut self, seq: u64, message: SentMessage) -> Result<(), AllocError>
        requires { len self.old < MAX_SENDS }
        ensures ok { OnOk result (self.new ≡ insert self.old seq message) }
        ensures err { OnErr result (self.new ≡ self.old) }
        ensures absent { OnErr result (get self.old seq ≡ None) }
    {
        message.is_bounded();
        self.messages.insert(seq, message)?;
        Ok(())
    }

    /// Takes the message of a number out, if there is one.
    pub fn remove(&mut self, seq: u64)
        ensures { self.new ≡ remove self.old seq }
    {
        self.messages.remove(&seq);
    }

    /// The messages of a list whose numbers rise strictly. None where they don't.
    pub fn of_rising(alloc: Global, messages: &[NumberedSend]) -> Result<Option<Sends>, AllocError>
        requires { length messages.now ≤ MAX_SENDS }
        ensures { IfOk result (λ r. MatchOption r
            (IsStrictlySortedBy nat_cmp (keys_of (numbered messages.now)) → ⊥)
            (λ s. (s ≡ map_from nat_cmp (numbered messages.now))
            × IsStrictlySortedBy nat_cmp (keys_of (numbered messages.now)))) }
    {
        if !rise(messages) {
            return Ok(None);
        }
        Ok(Some(Sends {
            messages: map_of(alloc, messages)?,
        }))
    }

    /// They are within the bounds of a text, as their types keep them: does nothing, and tells a caller's
    /// proof.
    pub(crate) fn are_bounded(&self)
        ensures { Fits (array max_sends sent_item) (map sent_value (entries self.now)) }
    {
        let _messages = &self.messages;
    }

    /// Appends them after their count; where memory is refused a part may stand.
    pub fn add_to(&self, out: &mut Vec<u8>) -> Result<(), AllocError>
        ensures fits { OnOk result
            (Fits (array MAX_SENDS sent_item) (map sent_value (entries self.now))) }
        ensures text { Adds (spelling (array MAX_SENDS sent_item) (map sent_value (entries self.now)))
            out.old.items result out.new.items }
    {
        out.put_u32(self.messages.len() as u32)?;
        add_each(&self.messages, out)
    }
}

/// Whether each number is below the next.
fn rise(messages: &[NumberedSend]) -> bool
    ensures { MatchBool result (IsStrictlySortedBy nat_cmp (keys_of (numbered messages.now)))
        (IsStrictlySortedBy nat_cmp (keys_of (numbered messages.now)) → ⊥) }
{
    for at in 1..messages.len() {
        let before = messages[at - 1].seq;
        let next = messages[at].seq;
        if next <= before {
            return false;
        }
    }
    true
}

/// The map of messages whose numbers rise strictly.
fn map_of(
    alloc: Global,
    messages: &[NumberedSend],
) -> Result<BTreeMap<u64, SentMessage>, AllocError>
    requires { IsStrictlySortedBy nat_cmp (keys_of (numbered messages.now)) }
    ensures entries { IfOk result (λ map. map.entries ≡ numbered messages.now) }
    ensures bounded { IfOk result (λ map. AllByRecursion SentFits map.entries) }
{
    let mut map = BTreeMap::new(alloc);
    for sent in messages {
        sent.is_bounded();
        map.insert(sent.seq, sent.message)?;
    }
    Ok(map)
}

/// Appends messages one after the other; where memory is refused a part may stand.
fn add_each(messages: &BTreeMap<u64, SentMessage>, out: &mut Vec<u8>) -> Result<(), AllocError>
    ensures fits { OnOk result (AllByRecursion (Fits sent_item) (map sent_value messages.now.entries)) }
    ensures text { Adds (flat_map (λ e. spelling sent_item (sent_value e)) messages.now.entries)
        out.old.items result out.new.items }
{
    for (seq, message) in messages.iter() {
        add_sent(*seq, message, out)?;
    }
    Ok(())
}
