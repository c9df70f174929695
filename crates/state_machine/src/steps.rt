//! What entries of a log do to a state.

ghost use Rattle.std.specs.Prelude.{◌≡◌, ◌<◌, OnOk, OnErr};
ghost use Rattle.std.specs.FinMap.{len};
ghost use Rattle.state_machine.specs.declared.states.received.TheConstants.{MAX_RECEIVED};
ghost use Rattle.state_machine.specs.declared.states.sends.TheConstants.{MAX_SENDS};
ghost use Rattle.state_spec.specs.State.{Server};
ghost use Rattle.state_machine.specs.Stages.{stage_in};
ghost use Rattle.state_machine.specs.Machines.{machine_in};
ghost use Rattle.state_spec.specs.Steps.{having_received, having_sent, having_acknowledged, at_stage};
ghost use Rattle.state_spec.specs.Steps.{having_read, after_reading, answered};

use crate::machine::Machine;
use crate::stage::Stage;
use crate::state::State;
use crate::states::{ReceivedMessage, SentMessage};
use service::{Service, Time};
use std::alloc::{AllocError, Global};

impl State {
    /// Takes a message in among those received. Where memory is refused nothing changes.
    pub fn add_received(&mut self, message: ReceivedMessage) -> Result<(), AllocError>
        requires { len self.old.state.received < MAX_RECEIVED }
        ensures ok { OnOk result (self.new.state ≡ having_received self.old.state message) }
        ensures err { OnErr result (self.new.state ≡ self.old.state) }
    {
        self.received.insert(message)
    }

    /// Puts a message that was sent under its number, in place of the one that has the number. Where memory
    /// is refused nothing changes.
    pub fn add_send(&mut self, seq: u64, message: SentMessage) -> Result<(), AllocError>
        requires { len self.old.state.sends < MAX_SENDS }
        ensures ok { OnOk result (self.new.state ≡ having_sent self.old.state seq message) }
        ensures err { OnErr result (self.new.state ≡ self.old.state) }
    {
        self.sends.insert(seq, message)
    }

    /// Takes the message of a number out of those that were sent, if there is one.
    pub fn remove_send(&mut self, seq: u64)
        ensures { self.new.state ≡ having_acknowledged self.old.state seq }
    {
        self.sends.remove(seq);
    }

    /// What a server owes next is this. A client owes nothing, and stays as it is.
    pub fn set_stage(&mut self, stage: Stage)
        ensures { self.new.state ≡ at_stage self.old.state (stage_in stage) }
    {
        match &mut self.machine {
            Machine::Server(_, old) => *old = stage,
            Machine::Client(_) => {}
        }
    }

    /// The clock is read. A server answers the message that it heard at this time, and then owes the reply,
    /// if one is owed; one that heard none stays as it is. A client's clock shows this time. Where memory is
    /// refused nothing changes.
    pub fn read_clock(&mut self, alloc: Global, time: Time) -> Result<(), AllocError>
        ensures ok { OnOk result (self.new.state ≡ having_read self.old.state time) }
        ensures err { OnErr result (self.new.state ≡ self.old.state) }
    {
        read_by(&mut self.machine, alloc, time)
    }
}

/// The clock is read by a machine.
fn read_by(machine: &mut Machine, alloc: Global, time: Time) -> Result<(), AllocError>
    ensures ok { OnOk result (machine_in machine.new ≡ after_reading (machine_in machine.old) time) }
    ensures err { OnErr result (machine_in machine.new ≡ machine_in machine.old) }
{
    match machine {
        Machine::Server(service, stage) => answer_heard(alloc, time, service, stage),
        Machine::Client(clock) => {
            *clock = time;
            Ok(())
        }
    }
}

/// Answers the message that a server heard, if it heard one.
fn answer_heard(
    alloc: Global,
    time: Time,
    service: &mut Service,
    stage: &mut Stage,
) -> Result<(), AllocError>
    ensures ok { OnOk result
        (Server service.new.world (stage_in stage.new)
        ≡ answered service.old.world (stage_in stage.old) time) }
    ensures err { OnErr result
        (Server service.new.world (stage_in stage.new) ≡ Server service.old.world (stage_in stage.old)) }
{
    let Stage::Heard { from, body } = &*stage else {
        return Ok(());
    };
    let from = *from;
    let reply = service.answer(alloc, time, body.bytes())?;
    *stage = Stage::owing(from, reply);
    Ok(())
}
