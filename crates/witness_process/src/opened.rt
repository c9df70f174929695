//! Since when challenges are open.

ghost use Rattle.std.specs.Prelude.{◌≡◌, IfOk, map};
ghost use Rattle.std.specs.List.{AllZip};
ghost use Rattle.witness_process.specs.Opened.{IsListed, IsSince, oldest_in, opened_one, wanted_of};

use challenge::Challenge;
use envelopes::Message;
use std::alloc::{AllocError, Global};
use watching::Opened;

/// What a challenge asks a node to show.
#[derive(Clone, Copy, Debug, PartialEq, Eq)]
pub(crate) enum Wanted {
    /// Its log from the first to the last of these numbers.
    Segment { first: u64, last: u64 },
    /// That it has this message.
    Message(Message),
}

/// A challenge that is open, and the reading of the clock when it was opened, in seconds.
#[derive(Clone, Copy, Debug, PartialEq, Eq)]
pub(crate) struct OpenChallenge {
    pub(crate) wanted: Wanted,
    pub(crate) since: u64,
}

impl Wanted {
    /// What a challenge asks for.
    fn of(challenge: &Challenge) -> Wanted
        ensures { result ≡ wanted_of challenge.now }
    {
        match challenge {
            Challenge::Audit { first, last } => Wanted::Segment {
                first: first.get(),
                last: last.get(),
            },
            Challenge::Send(envelope) => Wanted::Message(envelope.message()),
        }
    }
}

/// The challenges that are open now, in their order: one that was open before keeps its time, another has
/// this time.
pub(crate) fn open_after(
    alloc: Global,
    challenges: &[Challenge],
    before: &[OpenChallenge],
    time: u64,
) -> Result<Vec<OpenChallenge>, AllocError>
    ensures { IfOk result (λ v. AllZip (IsListed before.now time) challenges.now v.items) }
{
    let mut listed = Vec::with_capacity(alloc, challenges.len())?;
    for challenge in challenges {
        let wanted = Wanted::of(challenge);
        let since = since_of(&wanted, before, time);
        listed.push(OpenChallenge { wanted, since })?;
    }
    Ok(listed)
}

/// Since when a challenge is open that asks for this: since then where it was open before, else since this time.
fn since_of(wanted: &Wanted, before: &[OpenChallenge], time: u64) -> u64
    ensures { IsSince wanted.now before.now time result }
{
    match before.split_first() {
        Some((first, others)) => {
            if first.wanted == *wanted {
                first.since
            } else {
                since_of(wanted, others, time)
            }
        }
        None => time,
    }
}

/// The oldest of the challenges that are open, if one is: they stand in the order in which they came.
pub(crate) fn oldest_of(listed: &[OpenChallenge]) -> Option<OpenChallenge>
    ensures { result ≡ oldest_in listed.now }
{
    match listed.first() {
        Some(oldest) => Some(*oldest),
        None => None,
    }
}

/// Notes when the oldest open challenge to a node was opened.
pub(crate) fn note_opened(opened: &mut [Opened], node: u32, at: u64)
    ensures { opened.new ≡ map (opened_one node at) opened.old }
{
    for one in opened.iter_mut() {
        note_one(one, node, at);
    }
}

/// Notes a time where it is of this node.
fn note_one(one: &mut Opened, node: u32, at: u64)
    ensures { one.new ≡ opened_one node at one.old }
{
    if one.node == node {
        one.at = at;
    }
}
