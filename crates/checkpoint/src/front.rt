//! The text of a state up to its files (RFC 4506).

ghost use Rattle.std.specs.Prelude.{◌≡◌, ◌++◌};
ghost use Rattle.xdr.specs.Item.{opaque, spelling, number_spelling};
ghost use Rattle.xdr.specs.Writing.{Adds};
ghost use Rattle.nfs_items.specs.Timeval.{timeval, timeval_value};
ghost use Rattle.state_spec.specs.Limits.{max_body};
ghost use Rattle.state_spec.specs.StateItems.{stage_item, stage_value};
ghost use Rattle.state_machine.specs.Stages.{stage_in};
ghost use Rattle.state_machine.specs.Machines.{machine_in};
ghost use Rattle.checkpoint.specs.Fronts.{kind_of, rest_front, front_text};

use crate::mounts::add_mounts;
use nfs_items::Time;
use state_machine::{Machine, MessageBody, Stage, State};
use std::alloc::AllocError;
use xdr::Writer;

/// The one version of a state's text.
const VERSION: u32 = 1;

/// Appends all of a state's text up to its files; where memory is refused a part may stand.
pub fn add_front(state: &State, out: &mut Vec<u8>) -> Result<(), AllocError>
    ensures { Adds (front_text state.now.state) out.old.items result out.new.items }
{
    out.put_u32(VERSION)?;
    out.put_u32(state.node())?;
    out.put_u32(kind_of(state.machine()))?;
    add_time(state.clock(), out)?;
    state.received().add_to(out)?;
    state.sends().add_to(out)?;
    add_rest(state.machine(), out)
}

/// The number of a machine's kind.
fn kind_of(machine: &Machine) -> u32
    ensures { result ≡ kind_of (machine_in machine.now) }
{
    match machine {
        Machine::Server(_, _) => 1,
        Machine::Client(_) => 2,
    }
}

fn add_time(time: Time, out: &mut Vec<u8>) -> Result<(), AllocError>
    ensures { Adds (spelling timeval (timeval_value time)) out.old.items result out.new.items }
{
    out.put_u32(time.seconds())?;
    out.put_u32(time.microseconds())
}

/// What stands after the messages, up to the files. The stage of a client is 0.
fn add_rest(machine: &Machine, out: &mut Vec<u8>) -> Result<(), AllocError>
    ensures { Adds (rest_front (machine_in machine.now)) out.old.items result out.new.items }
{
    match machine {
        Machine::Server(service, stage) => {
            add_stage(stage, out)?;
            out.put_u32(service.tree().next())?;
            add_mounts(service.mounts(), out)
        }
        Machine::Client(_) => out.put_u32(0),
    }
}

fn add_stage(stage: &Stage, out: &mut Vec<u8>) -> Result<(), AllocError>
    ensures { Adds (spelling stage_item (stage_value (stage_in stage.now)))
        out.old.items result out.new.items }
{
    match stage {
        Stage::Idle => out.put_u32(0),
        Stage::Heard { from, body } => add_message(1, *from, body, out),
        Stage::Owes { to, body } => add_message(2, *to, body, out),
    }
}

/// The number of a stage, the other node, and a body.
fn add_message(
    stage: u32,
    node: u32,
    body: &MessageBody,
    out: &mut Vec<u8>,
) -> Result<(), AllocError>
    ensures { Adds
        (number_spelling 4 stage ++ (number_spelling 4 node ++ spelling (opaque max_body) body.now))
        out.old.items result out.new.items }
{
    out.put_u32(stage)?;
    out.put_u32(node)?;
    out.put_opaque(body.bytes())
}
