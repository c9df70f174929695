//! The parts of a state from its text (RFC 4506).

ghost use Rattle.std.specs.Prelude.{◌==◌};
ghost use Rattle.xdr.specs.Item.{choice, word_where};
ghost use Rattle.xdr.specs.Reading.{GivesUnless};
ghost use Rattle.xdr.specs.ReadFault.{xdr_fault};
ghost use Rattle.nfs_items.specs.Timeval.{timeval};
ghost use Rattle.state_spec.specs.server_spec.FileItems.{file_item};
ghost use Rattle.state_machine.specs.file_texts.Parts.{time_said};
ghost use Rattle.state_spec.specs.StateItems.{is_node_kind, rest_item, machine_item, state_item};
ghost use Rattle.checkpoint.specs.Parts.SaidParts.{world_said, kind_said, machine_said, state_said};

use crate::parts::parts::{MachinePart, StatePart, WorldPart};
use crate::parts::world::read_world;
use state_machine::states::{NumberedSend, ReceivedMessage};
use state_machine::{TimePart, states};
use std::alloc::Global;
use xdr::{FromXdr, ReadFault, Reader, XdrFault, put_back_on_err, read_array};

/// The one version of a state's text.
const VERSION: u32 = 1;

/// The greatest count of messages that are known to have been received.
const MAX_RECEIVED: u32 = states::MAX_RECEIVED as u32;

/// The greatest count of messages that have no acknowledgement yet.
const MAX_SENDS: u32 = states::MAX_SENDS as u32;

impl<'a> FromXdr<'a> for StatePart<'a> {
    ghost item = { state_item file_item };

    ghost value = { state_said };

    fn read(alloc: Global, reader: &mut Reader<'a>) -> Result<StatePart<'a>, ReadFault> {
        let start = reader.rest();
        let read = read_state(alloc, reader);
        put_back_on_err(reader, start, read)
    }
}

fn read_state<'a>(alloc: Global, reader: &mut Reader<'a>) -> Result<StatePart<'a>, ReadFault>
    ensures { GivesUnless xdr_fault (state_item file_item) state_said reader.old result reader.new }
{
    read_version(reader)?;
    let node = reader.u32()?;
    let (shared, machine) = read_machine(alloc, reader)?;
    Ok(StatePart {
        node,
        clock: shared.clock,
        received: shared.received,
        sends: shared.sends,
        machine,
    })
}

/// The version, which is 1.
#[tactic(auto, unfolding(xdr::specs::Reading::tested_at))]
fn read_version(reader: &mut Reader<'_>) -> Result<(), ReadFault>
    ensures { GivesUnless xdr_fault (word_where (λ version. version == 1)) (λ _. 1)
        reader.old result reader.new }
{
    let version = reader.u32()?;
    if version != VERSION {
        return Err(ReadFault::Fault(XdrFault::BadEnum));
    }
    Ok(())
}

/// What a text says of a node of either kind.
#[derive(Drop)]
struct SharedPart {
    clock: TimePart,
    received: Vec<ReceivedMessage>,
    sends: Vec<NumberedSend>,
}

/// What stands after a node's number: its kind, and what each kind has.
fn read_machine<'a>(
    alloc: Global,
    reader: &mut Reader<'a>,
) -> Result<(SharedPart, MachinePart<'a>), ReadFault>
    ensures { GivesUnless xdr_fault (choice is_node_kind (machine_item file_item))
        (λ x. machine_said x.0.clock x.0.received.items x.0.sends.items x.1)
        reader.old result reader.new }
{
    match reader.u32()? {
        1 => {
            let (shared, world) = read_server(alloc, reader)?;
            Ok((shared, MachinePart::Server(world)))
        }
        2 => {
            let shared = read_client(alloc, reader)?;
            Ok((shared, MachinePart::Client))
        }
        _ => Err(ReadFault::Fault(XdrFault::BadEnum)),
    }
}

fn read_server<'a>(
    alloc: Global,
    reader: &mut Reader<'a>,
) -> Result<(SharedPart, WorldPart<'a>), ReadFault>
    ensures { GivesUnless xdr_fault (machine_item file_item 1)
        (λ x. kind_said 1 x.0.clock x.0.received.items x.0.sends.items (world_said x.1))
        reader.old result reader.new }
{
    let clock = read_time(reader)?;
    let received = read_array(alloc, reader, MAX_RECEIVED)?;
    let sends = read_array(alloc, reader, MAX_SENDS)?;
    let world = read_world(alloc, reader)?;
    let shared = SharedPart {
        clock,
        received,
        sends,
    };
    Ok((shared, world))
}

fn read_client(alloc: Global, reader: &mut Reader<'_>) -> Result<SharedPart, ReadFault>
    ensures { GivesUnless xdr_fault (machine_item file_item 2)
        (λ x. kind_said 2 x.clock x.received.items x.sends.items 0) reader.old result reader.new }
{
    let clock = read_time(reader)?;
    let received = read_array(alloc, reader, MAX_RECEIVED)?;
    let sends = read_array(alloc, reader, MAX_SENDS)?;
    read_no_stage(reader)?;
    Ok(SharedPart {
        clock,
        received,
        sends,
    })
}

/// The stage of a client, which is 0.
#[tactic(auto, unfolding(xdr::specs::Reading::tested_at))]
fn read_no_stage(reader: &mut Reader<'_>) -> Result<(), ReadFault>
    ensures { GivesUnless xdr_fault (rest_item file_item 2) (λ _. 0) reader.old result reader.new }
{
    let stage = reader.u32()?;
    if stage != 0 {
        return Err(ReadFault::Fault(XdrFault::BadEnum));
    }
    Ok(())
}

fn read_time(reader: &mut Reader<'_>) -> Result<TimePart, ReadFault>
    ensures { GivesUnless xdr_fault timeval time_said reader.old result reader.new }
{
    let seconds = reader.u32()?;
    let microseconds = reader.u32()?;
    Ok(TimePart {
        seconds,
        microseconds,
    })
}
