//! Reads the arguments of procedures.

ghost use Rattle.std.specs.Prelude.{◌≡◌, ℕ, List, IfOk, IsOkAnd};
ghost use Rattle.mount_types.specs.Calls.{MountCall};
ghost use Rattle.mount_types.specs.Texts.{procedure_in, SaysCall};
ghost use Rattle.mount_types.specs.Bounds.{HasBounds};
ghost use Rattle.mount_types.specs.Arguments.{call_of, GivesCall, ReadsCall};
ghost use Rattle.mount_types.specs.declared.arguments.MountProcedure.TheVariants as procedures;

use crate::arguments::{MountArgs, MountProcedure};
use crate::limits::MNTPATHLEN;
use nfs_items::{Reader, XdrFault};

/// Reads a procedure's arguments from the front of bytes, and ignores what follows them (RFC 1094, appendix
/// A.5). The fault is the first from left to right.
pub fn read_mount_args(procedure: MountProcedure, bytes: &[u8]) -> Result<MountArgs<'_>, XdrFault>
    ensures found { IfOk result (λ a. (rest : List ℕ) × SaysCall procedure bytes.now (call_of a) rest) }
    ensures only { (call : MountCall) (rest : List ℕ) → SaysCall procedure bytes.now call rest →
        IsOkAnd result (λ a. call_of a ≡ call) }
    ensures exact { ReadsCall procedure bytes.now result }
    ensures own { IfOk result (λ a. procedure_in (call_of a) ≡ procedure) }
    ensures bounds { IfOk result (λ a. HasBounds (call_of a)) }
{
    read_arguments(procedure, &mut Reader::new(bytes))
}

fn read_arguments<'a>(
    procedure: MountProcedure,
    reader: &mut Reader<'a>,
) -> Result<MountArgs<'a>, XdrFault>
    ensures { GivesCall procedure reader.old result reader.new }
{
    match procedure {
        MountProcedure::Null => Ok(MountArgs::Null),
        MountProcedure::Mnt => read_mnt(reader),
        MountProcedure::Dump => Ok(MountArgs::Dump),
        MountProcedure::Umnt => read_umnt(reader),
        MountProcedure::Umntall => Ok(MountArgs::Umntall),
        MountProcedure::Export => Ok(MountArgs::Export),
    }
}

fn read_mnt<'a>(reader: &mut Reader<'a>) -> Result<MountArgs<'a>, XdrFault>
    ensures { GivesCall procedures.Mnt reader.old result reader.new }
{
    Ok(MountArgs::Mnt(reader.opaque(MNTPATHLEN)?))
}

fn read_umnt<'a>(reader: &mut Reader<'a>) -> Result<MountArgs<'a>, XdrFault>
    ensures { GivesCall procedures.Umnt reader.old result reader.new }
{
    Ok(MountArgs::Umnt(reader.opaque(MNTPATHLEN)?))
}
