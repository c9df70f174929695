//! The messages that a node received.

ghost use Rattle.std.specs.Prelude.{◌≡◌, ◌<◌, ◌≤◌, OnOk, OnErr, IfOk, MatchOption, MatchBool, length, map};
ghost use Rattle.std.specs.FinMap.{empty, keys, len, remove};
ghost use Rattle.std.specs.List.{flat_map, AllByRecursion};
ghost use Rattle.std.specs.List.Sorted.{IsStrictlySortedBy};
ghost use Rattle.std.specs.Ordering.{is_lt};
ghost use Rattle.xdr.specs.Item.{Fits, array, spelling};
ghost use Rattle.xdr.specs.Writing.{Adds};
ghost use Rattle.state_spec.specs.State.{received_cmp, is_received, with_received};
ghost use Rattle.state_spec.specs.StateItems.{received_item, received_value};
ghost use Rattle.state_spec.specs.StateValues.{set_from};
ghost use Rattle.state_spec.specs.Limits.{max_received};
ghost use Rattle.state_machine.specs.States.Bounds.{ReceivedFits};

use crate::states::message::ReceivedMessage;
use crate::states::texts::add_received;
use std::alloc::{AllocError, Global};
use std::collections::BTreeSet;
use std::marker::Model;
use xdr::Writer;

/// The greatest count of messages that are known to have been received.
pub const MAX_RECEIVED: usize = 131_072;

/// The messages that a node received, at most `MAX_RECEIVED`.
#[derive(Drop)]
pub struct Received {
    messages: BTreeSet<ReceivedMessage>,
}

impl Model for Received {
    ghost use Rattle.std.specs.FinSet.{FinSet};
    ghost use Rattle.std.specs.FinSet as finite_set;
    ghost use Rattle.state_spec.specs.State.{received_cmp};
    ghost use Rattle.state_spec.specs.Codes.{received_code};
    ghost use Rattle.state_spec.specs.StateValues.{set_from};
    ghost use Rattle.state_machine.specs.States.Bounds.{ReceivedFits};
    ghost use Rattle.state_machine.specs.States.Kept.{AreKept};
    ghost use Rattle.state_machine.specs.declared.states.received.TheConstants.{MAX_RECEIVED};

    ghost Value = { FinSet received_cmp };

    ghost coded = { finite_set.code received_code };

    ghost view = { λ s. set_from received_cmp s.messages.keys };

    ghost invariant = { λ s.
        AreKept received_cmp ReceivedFits MAX_RECEIVED s.messages.keys s.messages.keys };
}

impl Received {
    /// None.
    pub fn new(alloc: Global) -> Received
        ensures { result ≡ empty }
    {
        Received {
            messages: BTreeSet::new(alloc),
        }
    }

    /// How many there are.
    pub fn len(&self) -> usize
        ensures count { result ≡ len self.now }
        ensures bound { result ≤ MAX_RECEIVED }
    {
        self.messages.len()
    }

    /// Whether a message is among them.
    pub fn contains(&self, message: &ReceivedMessage) -> bool
        ensures { result ≡ is_received self.now message.now }
    {
        self.messages.contains(message)
    }

    /// Takes a message in. Where memory is refused nothing changes.
    pub fn insert(&mut self, message: ReceivedMessage) -> Result<(), AllocError>
        requires { len self.old < MAX_RECEIVED }
        ensures ok { OnOk result (self.new ≡ with_received self.old message) }
        ensures err { OnErr result (self.new ≡ self.old) }
    {
        message.is_bounded();
        self.messages.insert(message)?;
        Ok(())
    }

    /// Takes a message out, if it is there.
    pub fn remove(&mut self, message: &ReceivedMessage)
        ensures { self.new ≡ remove self.old message.now }
    {
        self.messages.remove(message);
    }

    /// The messages of a list whose messages rise strictly. None where they don't.
    pub fn of_rising(
        alloc: Global,
        messages: &[ReceivedMessage],
    ) -> Result<Option<Received>, AllocError>
        requires { length messages.now ≤ MAX_RECEIVED }
        ensures { IfOk result (λ r. MatchOption r (IsStrictlySortedBy received_cmp messages.now → ⊥)
            (λ s. (s ≡ set_from received_cmp messages.now) × IsStrictlySortedBy received_cmp messages.now)) }
    {
        if !rise(messages) {
            return Ok(None);
        }
        Ok(Some(Received {
            messages: set_of(alloc, messages)?,
        }))
    }

    /// They are within the bounds of a text, as their types keep them: does nothing, and tells a caller's
    /// proof.
    pub(crate) fn are_bounded(&self)
        ensures { Fits (array max_received received_item) (map received_value (keys self.now)) }
    {
        let _messages = &self.messages;
    }

    /// Appends them after their count; where memory is refused a part may stand.
    pub fn add_to(&self, out: &mut Vec<u8>) -> Result<(), AllocError>
        ensures fits { OnOk result
            (Fits (array MAX_RECEIVED received_item) (map received_value (keys self.now))) }
        ensures text { Adds
            (spelling (array MAX_RECEIVED received_item) (map received_value (keys self.now)))
            out.old.items result out.new.items }
    {
        out.put_u32(self.messages.len() as u32)?;
        add_each(&self.messages, out)
    }
}

/// Whether a message is before another.
fn is_before(a: &ReceivedMessage, b: &ReceivedMessage) -> bool
    ensures { result ≡ is_lt (received_cmp a.now b.now) }
{
    a.cmp(b).is_lt()
}

/// Whether each message is before the next.
fn rise(messages: &[ReceivedMessage]) -> bool
    ensures { MatchBool result (IsStrictlySortedBy received_cmp messages.now)
        (IsStrictlySortedBy received_cmp messages.now → ⊥) }
{
    for at in 1..messages.len() {
        if !is_before(&messages[at - 1], &messages[at]) {
            return false;
        }
    }
    true
}

/// The set of messages that rise strictly.
fn set_of(
    alloc: Global,
    messages: &[ReceivedMessage],
) -> Result<BTreeSet<ReceivedMessage>, AllocError>
    requires { IsStrictlySortedBy received_cmp messages.now }
    ensures keys { IfOk result (λ set. set.keys ≡ messages.now) }
    ensures bounded { IfOk result (λ set. AllByRecursion ReceivedFits set.keys) }
{
    let mut set = BTreeSet::new(alloc);
    for message in messages {
        message.is_bounded();
        set.insert(*message)?;
    }
    Ok(set)
}

/// Appends messages one after the other; where memory is refused a part may stand.
fn add_each(messages: &BTreeSet<ReceivedMessage>, out: &mut Vec<u8>) -> Result<(), AllocError>
    ensures fits { OnOk result (AllByRecursion (Fits received_item) (map received_value messages.now.keys)) }
    ensures text { Adds (flat_map (λ m. spelling received_item (received_value m)) messages.now.keys)
        out.old.items result out.new.items }
{
    for message in messages.iter() {
        add_received(message, out)?;
    }
    Ok(())
}
