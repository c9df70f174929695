//! The checks of a call, in their order.

ghost use Rattle.std.specs.Prelude.{◌≡◌, IfOk, OnOk};
ghost use Rattle.nfs_procs.specs.nfs_items.Caller.{nobody};
ghost use Rattle.nfs_procs.specs.nfs_items.CallerOf.{caller_of};
ghost use Rattle.rpc.specs.CallValues.{header_of};
ghost use Rattle.nfs_procs.specs.nfs_items.Credentials.{caller_in};
ghost use Rattle.server_spec.specs.Replies.{caller_or_refusal, caller_at, version_served, wants_machine};
ghost use Rattle.server_spec.specs.Replies.{machine_or_refusal, nfs_call_or_refusal, mount_call_or_refusal};
ghost use Rattle.server_spec.specs.Replies.{program_call_or_refusal, call_or_refusal};
ghost use Rattle.service.specs.Views.{view_of_caller, view_of_served, view_of_call, HasShortName, IsBounded};

use mount::{MountArgs, MountProcedure, read_mount_args};
use nfs_procs::{Who, read_credential};
use nfs_types::{NfsArgs, NfsProcedure, read_args};
use rpc::{AuthStat, Header, OpaqueAuth, ReplyBody};
use server_spec::programs::{
    AUTH_NONE, AUTH_SYS, MOUNT_PROGRAM, MOUNT_VERSION, NFS_PROGRAM, NFS_VERSION,
};

/// A call of a program that is served, with its arguments.
#[derive(Drop)]
pub enum ServedArgs<'a> {
    Nfs(NfsArgs<'a>),
    Mount(MountArgs<'a>),
}

/// Sets the caller that the body of an AUTH_SYS credential says; a body that says none is a bad credential.
fn sys_caller<'a>(body: &'a [u8], who: &mut Who<'a>) -> Result<(), ReplyBody>
    ensures caller { view_of_caller who.new result ≡ caller_or_refusal (caller_in body.now) }
    ensures name { OnOk result (HasShortName who.new) }
{
    let Some(says) = read_credential(body) else {
        return Err(ReplyBody::AuthError(AuthStat::BadCredential));
    };
    *who = says;
    Ok(())
}

/// Sets the caller that a credential stands for, where it was nobody: AUTH_NONE, whatever its body; AUTH_SYS
/// by its body; every other flavor is rejected.
fn set_caller<'a>(credential: &OpaqueAuth<'a>, who: &mut Who<'a>) -> Result<(), ReplyBody>
    requires nobody { caller_of who.old ≡ nobody }
    requires name { HasShortName who.old }
    ensures caller { view_of_caller who.new result ≡ caller_at credential.now.flavor credential.now.body.now }
    ensures name { OnOk result (HasShortName who.new) }
{
    match credential.flavor {
        AUTH_NONE => Ok(()),
        AUTH_SYS => sys_caller(credential.body, who),
        _ => Err(ReplyBody::AuthError(AuthStat::RejectedCredential)),
    }
}

/// Whether a program's version is the one that is served.
fn check_version(version: u32, served: u32) -> Result<(), ReplyBody>
    ensures { result ≡ version_served served version }
{
    if version != served {
        return Err(ReplyBody::ProgramMismatch {
            low: served,
            high: served,
        });
    }
    Ok(())
}

/// Whether a procedure of MOUNT is about the mounts of the caller's machine.
fn wants_machine(procedure: MountProcedure) -> bool
    ensures { result ≡ wants_machine procedure }
{
    match procedure {
        MountProcedure::Mnt | MountProcedure::Umnt | MountProcedure::Umntall => true,
        MountProcedure::Null | MountProcedure::Dump | MountProcedure::Export => false,
    }
}

/// Whether a credential says as much as a procedure of MOUNT asks for: AUTH_SYS alone names a machine.
fn check_machine(procedure: MountProcedure, flavor: u32) -> Result<(), ReplyBody>
    ensures { result ≡ machine_or_refusal procedure flavor }
{
    if wants_machine(procedure) && flavor != AUTH_SYS {
        return Err(ReplyBody::AuthError(AuthStat::TooWeak));
    }
    Ok(())
}

/// A call of NFS, or the reply by the first check that fails.
fn check_nfs<'a>(header: &Header<'a>, arguments: &'a [u8]) -> Result<ServedArgs<'a>, ReplyBody>
    ensures call { view_of_served result ≡ nfs_call_or_refusal (header_of header.now) arguments.now }
    ensures bounds { IfOk result IsBounded }
{
    check_version(header.version, NFS_VERSION)?;
    let Some(procedure) = NfsProcedure::from_number(header.procedure) else {
        return Err(ReplyBody::ProcedureUnavailable);
    };
    let Ok(args) = read_args(procedure, arguments) else {
        return Err(ReplyBody::GarbageArguments);
    };
    Ok(ServedArgs::Nfs(args))
}

/// A call of MOUNT, or the reply by the first check that fails.
fn check_mount<'a>(header: &Header<'a>, arguments: &'a [u8]) -> Result<ServedArgs<'a>, ReplyBody>
    ensures call { view_of_served result ≡ mount_call_or_refusal (header_of header.now) arguments.now }
    ensures bounds { IfOk result IsBounded }
{
    check_version(header.version, MOUNT_VERSION)?;
    let Some(procedure) = MountProcedure::from_number(header.procedure) else {
        return Err(ReplyBody::ProcedureUnavailable);
    };
    check_machine(procedure, header.credential.flavor)?;
    let Ok(args) = read_mount_args(procedure, arguments) else {
        return Err(ReplyBody::GarbageArguments);
    };
    Ok(ServedArgs::Mount(args))
}

/// A call of a program that is served, or the reply by the first check that fails.
fn check_program<'a>(header: &Header<'a>, arguments: &'a [u8]) -> Result<ServedArgs<'a>, ReplyBody>
    ensures call { view_of_served result ≡ program_call_or_refusal (header_of header.now) arguments.now }
    ensures bounds { IfOk result IsBounded }
{
    match header.program {
        NFS_PROGRAM => check_nfs(header, arguments),
        MOUNT_PROGRAM => check_mount(header, arguments),
        _ => Err(ReplyBody::ProgramUnavailable),
    }
}

/// The procedure with its arguments, and in `who`, where it was nobody, the caller; or the reply by the first
/// check that fails.
pub fn check_call<'a>(
    header: &Header<'a>,
    arguments: &'a [u8],
    who: &mut Who<'a>,
) -> Result<ServedArgs<'a>, ReplyBody>
    requires nobody { caller_of who.old ≡ nobody }
    requires name { HasShortName who.old }
    ensures call { view_of_call who.new result ≡ call_or_refusal (header_of header.now) arguments.now }
    ensures bounds { IfOk result IsBounded }
    ensures name { OnOk result (HasShortName who.new) }
{
    set_caller(&header.credential, who)?;
    check_program(header, arguments)
}
