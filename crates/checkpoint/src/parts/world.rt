//! What only a server's text has: the stage, the next number, the mounts and the files.

ghost use Rattle.xdr.specs.Item.{pair, word, opaque};
ghost use Rattle.xdr.specs.Reading.{GivesUnless};
ghost use Rattle.xdr.specs.ReadFault.{xdr_fault};
ghost use Rattle.state_spec.specs.server_spec.FileItems.{file_item};
ghost use Rattle.state_spec.specs.StateItems.{mount_item, stage_item, rest_item};
ghost use Rattle.checkpoint.specs.declared.parts.world.TheConstants.{MAX_BODY};
ghost use Rattle.checkpoint.specs.Parts.SaidParts.{mount_said, stage_said, world_said};

use crate::parts::parts::{MountPart, StagePart, WorldPart};
use mount_types::{MAX_MOUNTS, MNTNAMLEN, MNTPATHLEN};
use std::alloc::Global;
use xdr::{FromXdr, ReadFault, Reader, XdrFault, put_back_on_err, read_array};

/// The most bytes of a message's body.
const MAX_BODY: u32 = state_machine::MAX_BODY as u32;

/// The greatest count of files.
const MAX_FILES: u32 = file_tree::MAX_FILES as u32;

impl<'a> FromXdr<'a> for MountPart<'a> {
    ghost item = { mount_item };

    ghost value = { mount_said };

    fn read(_alloc: Global, reader: &mut Reader<'a>) -> Result<MountPart<'a>, ReadFault> {
        let start = reader.rest();
        let read = read_mount(reader);
        put_back_on_err(reader, start, read)
    }
}

/// What stands after a server's messages.
pub fn read_world<'a>(alloc: Global, reader: &mut Reader<'a>) -> Result<WorldPart<'a>, ReadFault>
    ensures { GivesUnless xdr_fault (rest_item file_item 1) world_said reader.old result reader.new }
{
    let stage = read_stage(reader)?;
    let next = reader.u32()?;
    let mounts = read_array(alloc, reader, MAX_MOUNTS)?;
    let files = read_array(alloc, reader, MAX_FILES)?;
    Ok(WorldPart {
        stage,
        next,
        mounts,
        files,
    })
}

fn read_stage<'a>(reader: &mut Reader<'a>) -> Result<StagePart<'a>, ReadFault>
    ensures { GivesUnless xdr_fault stage_item stage_said reader.old result reader.new }
{
    match reader.u32()? {
        0 => Ok(StagePart::Idle),
        1 => {
            let (from, body) = read_message(reader)?;
            Ok(StagePart::Heard { from, body })
        }
        2 => {
            let (to, body) = read_message(reader)?;
            Ok(StagePart::Owes { to, body })
        }
        _ => Err(ReadFault::Fault(XdrFault::BadEnum)),
    }
}

/// The other node, and a body.
fn read_message<'a>(reader: &mut Reader<'a>) -> Result<(u32, &'a [u8]), ReadFault>
    ensures { GivesUnless xdr_fault (pair word (opaque MAX_BODY)) (λ x. (x.0, x.1.now))
        reader.old result reader.new }
{
    let node = reader.u32()?;
    let body = reader.opaque(MAX_BODY)?;
    Ok((node, body))
}

fn read_mount<'a>(reader: &mut Reader<'a>) -> Result<MountPart<'a>, ReadFault>
    ensures { GivesUnless xdr_fault mount_item mount_said reader.old result reader.new }
{
    let host = reader.opaque(MNTNAMLEN)?;
    let directory = reader.opaque(MNTPATHLEN)?;
    Ok(MountPart { host, directory })
}
