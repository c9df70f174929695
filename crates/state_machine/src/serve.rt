//! What a server does with a message at once.

ghost use Rattle.std.specs.Prelude.{◌≡◌, ◌<◌, ◌≤◌, None, IsSome, IfOk, IfSome, OnOk, OnErr, IsOk, false};
ghost use Rattle.std.specs.Prelude.{length};
ghost use Rattle.std.specs.Option.{option_map};
ghost use Rattle.std.specs.FinMap.{get, len};
ghost use Rattle.state_machine.specs.declared.states.received.TheConstants.{MAX_RECEIVED};
ghost use Rattle.state_machine.specs.declared.states.sends.TheConstants.{MAX_SENDS};
ghost use Rattle.state_spec.specs.State.{is_received};
ghost use Rattle.state_machine.specs.declared.body.TheConstants.{MAX_BODY};
ghost use Rattle.state_machine.specs.Machines.{machine_in};
ghost use Rattle.state_spec.specs.Steps.{IsIdle, reply_by, having_answered, having_forgotten};
ghost use Rattle.state_spec.specs.Steps.{having_received, having_sent, having_served, HasPlace};
ghost use Rattle.state_spec.specs.Steps.{HasPlaceFor};

use crate::machine::Machine;
use crate::state::State;
use crate::states::{ReceivedMessage, SentMessage};
use service::Time;
use std::alloc::{AllocError, Global};

impl State {
    /// Takes a message out of those received, if it is there.
    fn remove_received(&mut self, message: &ReceivedMessage)
        ensures { self.new.state ≡ having_forgotten self.old.state message.now }
    {
        self.received.remove(message);
    }

    /// Puts a message that was sent under its number, in place of the one that has the number. No memory is
    /// taken.
    pub fn replace_send(&mut self, seq: u64, message: SentMessage)
        requires there { IsSome (get self.old.state.sends seq) }
        requires few { len self.old.state.sends < MAX_SENDS }
        ensures { self.new.state ≡ having_sent self.old.state seq message }
    {
        self.sends.insert(seq, message).unwrap();
    }

    /// A server answers a message's body at a time: the reply, if one is owed, which has at most `MAX_BODY`
    /// bytes. What it owed before stays. A client answers nothing. Where memory is refused nothing changes.
    pub fn answer(
        &mut self,
        alloc: Global,
        time: Time,
        body: &[u8],
    ) -> Result<Option<Vec<u8>>, AllocError>
        ensures reply { IfOk result (λ r.
            option_map (λ v. v.items) r ≡ reply_by self.old.state.machine time body.now) }
        ensures size { IfOk result (λ r. IfSome r (λ v. length v.items ≤ MAX_BODY)) }
        ensures ok { OnOk result
            (self.new.state ≡ record self.old.state
            { machine = having_answered self.old.state.machine time body.now }) }
        ensures err { OnErr result (self.new.state ≡ self.old.state) }
    {
        answer_by(&mut self.machine, alloc, time, body)
    }

    /// A server that owes nothing takes in a message that is new to it, and answers its body at a time: the
    /// reply, if one is owed, which has at most `MAX_BODY` bytes. Then there is room for the reply among the
    /// messages sent, under a number that none of them has: `replace_send` puts it there. Where memory is
    /// refused nothing changes.
    pub fn serve(
        &mut self,
        alloc: Global,
        time: Time,
        message: ReceivedMessage,
        body: &[u8],
        seq: u64,
    ) -> Result<Option<Vec<u8>>, AllocError>
        requires idle { IsIdle self.old.state.machine }
        requires fresh { is_received self.old.state.received message ≡ false }
        requires unused { get self.old.state.sends seq ≡ None }
        requires few_received { len self.old.state.received < MAX_RECEIVED }
        requires few_sends { len self.old.state.sends < MAX_SENDS }
        ensures reply { IfOk result (λ r.
            option_map (λ v. v.items) r ≡ reply_by self.old.state.machine time body.now) }
        ensures size { IfOk result (λ r. IfSome r (λ v. length v.items ≤ MAX_BODY)) }
        ensures ok { IfOk result (λ r. HasPlaceFor (option_map (λ v. v.items) r)
            (having_served self.old.state message time body.now) seq self.new.state) }
        ensures err { OnErr result (self.new.state ≡ self.old.state) }
    {
        self.make_place(message, seq)?;
        match self.answer(alloc, time, body) {
            Ok(Some(reply)) => Ok(Some(reply)),
            Ok(None) => {
                self.remove_send(seq);
                Ok(None)
            }
            Err(refused) => {
                self.remove_send(seq);
                self.remove_received(&message);
                Err(refused)
            }
        }
    }

    /// Takes in a message, and makes room for one that will be sent under a number.
    fn make_place(&mut self, message: ReceivedMessage, seq: u64) -> Result<(), AllocError>
        requires fresh { is_received self.old.state.received message ≡ false }
        requires few_received { len self.old.state.received < MAX_RECEIVED }
        requires few_sends { len self.old.state.sends < MAX_SENDS }
        ensures ok { OnOk result (HasPlace (having_received self.old.state message) seq self.new.state) }
        ensures err { OnErr result (self.new.state ≡ self.old.state) }
    {
        self.add_received(message)?;
        match self.add_send(seq, SentMessage::new(0, [0; 32], [0; 32])) {
            Ok(()) => Ok(()),
            Err(refused) => {
                self.remove_received(&message);
                Err(refused)
            }
        }
    }
}

/// A machine answers a message's body at a time.
fn answer_by(
    machine: &mut Machine,
    alloc: Global,
    time: Time,
    body: &[u8],
) -> Result<Option<Vec<u8>>, AllocError>
    ensures reply { IfOk result (λ r.
        option_map (λ v. v.items) r ≡ reply_by (machine_in machine.old) time body.now) }
    ensures size { IfOk result (λ r. IfSome r (λ v. length v.items ≤ MAX_BODY)) }
    ensures ok { OnOk result
        (machine_in machine.new ≡ having_answered (machine_in machine.old) time body.now) }
    ensures err { OnErr result (machine_in machine.new ≡ machine_in machine.old) }
{
    match machine {
        Machine::Server(service, _) => service.answer(alloc, time, body),
        Machine::Client(_) => Ok(None),
    }
}
