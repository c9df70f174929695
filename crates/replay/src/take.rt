//! What entries without a fault do to a state.

ghost use Rattle.std.specs.Prelude.{◌≡◌, ◌<◌, false, OnOk, OnErr};
ghost use Rattle.std.specs.FinMap.{len};
ghost use Rattle.checkpoint.specs.state_machine.declared.states.received.TheConstants.{MAX_RECEIVED};
ghost use Rattle.checkpoint.specs.state_machine.declared.states.sends.TheConstants.{MAX_SENDS};
ghost use Rattle.checkpoint.specs.state_spec.State.{Heard};
ghost use Rattle.state_spec.specs.Steps.{at_stage, having_received};
ghost use Rattle.replay_spec.specs.Steps.{after_entry, received_message};
ghost use Rattle.replay_spec.specs.Stepping.{shows_no_time};

use crate::messages::received_message;
use authenticator::Word;
use checkpoint::{MessageBody, SentMessage, Stage, State};
use nfs_items::Time;
use secure_log::log_entries::{Body, Entry};
use std::alloc::{AllocError, Global};

/// The state takes an entry with a word, after a hash. Where memory is refused nothing changes.
pub(crate) fn take(
    state: &mut State,
    alloc: Global,
    word: Word,
    before: &[u8; 32],
    entry: &Entry,
) -> Result<(), AllocError>
    requires few_received { len state.old.state.received < MAX_RECEIVED }
    requires few_sends { len state.old.state.sends < MAX_SENDS }
    requires time { shows_no_time entry.now ≡ false }
    ensures ok { OnOk result (state.new.state ≡ after_entry state.old.state word before.now entry.now) }
    ensures err { OnErr result (state.new.state ≡ state.old.state) }
{
    match entry {
        Entry::Send { to, body } => {
            state.add_send(word.get(), SentMessage::new(*to, *before, body.digest()))?;
            state.set_stage(Stage::Idle);
            Ok(())
        }
        Entry::Recv {
            from,
            seq,
            prev,
            body,
            signature: _,
        } => { receive(state, alloc, *from, *seq, prev, body) }
        Entry::Ack { seq, .. } => {
            state.remove_send(seq.get());
            Ok(())
        }
        Entry::Clock {
            seconds,
            microseconds,
        } => { state.read_clock(alloc, Time::new(*seconds, *microseconds).unwrap()) }
        Entry::Check { .. } => Ok(()),
    }
}

/// The state takes a message in; a server keeps a copy of its body, and owes a clock reading.
fn receive(
    state: &mut State,
    alloc: Global,
    from: u32,
    seq: Word,
    prev: &[u8; 32],
    body: &Body,
) -> Result<(), AllocError>
    requires { len state.old.state.received < MAX_RECEIVED }
    ensures ok { OnOk result (state.new.state ≡ at_stage
        (having_received state.old.state (received_message state.old.state.node from seq prev.now body.now))
        (Heard from body.now)) }
    ensures err { OnErr result (state.new.state ≡ state.old.state) }
{
    let heard = MessageBody::new(body.bytes().to_vec(alloc)?);
    state.add_received(received_message(state.node(), from, seq, prev, body))?;
    state.set_stage(Stage::Heard { from, body: heard });
    Ok(())
}
