//! The numbers up to which the members' logs were audited.

ghost use Rattle.std.specs.Prelude.{◌≡◌, length, option_map, replicate, IfOk};
ghost use Rattle.witness_books.specs.node_book.Events.{event_in};
ghost use Rattle.witness_books.specs.node_book.Replies.{reply_in};
ghost use Rattle.watching.specs.Ends.{end_done, end_filed, end_in, end_parts, filed_by, with_end};

use authenticator::Member;
use std::alloc::{AllocError, Global};
use witness_books::{Event, EventOf, JobVerdict, ReplayDone, Reply, ReplyOf};

/// The last number of a node's log that a replay found sound.
#[derive(Clone, Copy, Debug)]
pub struct SoundEnd {
    pub node: u32,
    pub number: u64,
}

/// What a replay that comes back as done found sound, if it did.
pub fn sound_end(event: &Event) -> Option<SoundEnd>
    ensures { option_map end_parts result ≡ end_filed (event_in event.now) }
{
    match event {
        EventOf::File(done) => sound_end_of(done),
        _ => None,
    }
}

/// What was filed of that, by the reply.
pub fn filed_end(sound: Option<SoundEnd>, reply: &Reply) -> Option<SoundEnd>
    ensures { option_map end_parts result ≡ filed_by (option_map end_parts sound) (reply_in reply.now) }
{
    match reply {
        ReplyOf::Filed => sound,
        _ => None,
    }
}

/// What a done value found sound, if it did.
fn sound_end_of(done: &ReplayDone) -> Option<SoundEnd>
    ensures { option_map end_parts result ≡ end_done done.now }
{
    match done.verdict() {
        JobVerdict::Sound(_, _) => {
            let segment = done.plain().job().segment().closed().segment();
            Some(SoundEnd {
                node: done.node(),
                number: segment.closing().word.number(segment.log_version()).get(),
            })
        }
        JobVerdict::Fault(_, _) => None,
    }
}

/// Puts another number in the place of a node's.
pub fn put_end(members: &[Member], ends: &mut [u64], node: u32, number: u64)
    requires { length ends.old ≡ length members.now }
    ensures { ends.new ≡ with_end members.now node number ends.old }
{
    for place in 0..members.len() {
        if node == members[place].node {
            ends[place] = number;
        }
    }
}

/// The number of a node, if it is a member.
pub fn end_of(members: &[Member], ends: &[u64], node: u32) -> Option<u64>
    requires { length ends.now ≡ length members.now }
    ensures { result ≡ end_in members.now node ends.now }
{
    for place in 0..members.len() {
        if members[place].node == node {
            return Some(ends[place]);
        }
    }
    None
}

/// So many zeros.
pub fn zeros(alloc: Global, count: usize) -> Result<Vec<u64>, AllocError>
    ensures { IfOk result (λ v. v.items ≡ replicate count 0) }
{
    let mut zeros = Vec::new(alloc);
    zeros.resize(count, 0)?;
    Ok(zeros)
}
