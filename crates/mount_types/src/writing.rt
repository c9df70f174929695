//! Writes the results of procedures.

ghost use Rattle.std.specs.Prelude.{◌≡◌, ◌<◌, ◌≤◌, ◌-◌, ◌^◌, ◌++◌, ◌∷◌, [], All, IsOk, length, map, vec_len};
ghost use Rattle.std.specs.Prelude.{vec_capacity};
ghost use Rattle.std.specs.List.{flat_map};
ghost use Rattle.nfs_items.specs.xdr.Item.{word, spelling};
ghost use Rattle.nfs_items.specs.xdr.Writing.{Adds, Appends, Spends};
ghost use Rattle.nfs_items.specs.Handle.{fhandle};
ghost use Rattle.mount_types.specs.Items.{mount, mountlist, exportlist};
ghost use Rattle.mount_types.specs.Texts.{answer_text};
ghost use Rattle.mount_types.specs.Results.{answer_of, HasLengths, IsShort, answer_bytes};

use crate::limits::MNT_ANSWER;
use crate::results::MountResult;
use nfs_items::{FileHandle, Writer, all_or_nothing};
use std::alloc::AllocError;

/// The status of a directory that was mounted (RFC 1094, appendix A.4.2).
const OK: u32 = 0;

/// FALSE and TRUE, before the end of a list and before each of its items (RFC 4506, section 4.19).
const END: u32 = 0;

const MORE: u32 = 1;

/// Appends what a procedure answers (RFC 1094, appendix A.5). Where memory is refused, the bytes stay as they
/// were; none is for an answer of a call that changes what is mounted where `out` has room for `MNT_ANSWER`
/// bytes more.
#[tactic(auto, using(crate::proofs::AnswersSaid::answers_say))]
pub fn write_mount_result(answer: &MountResult, out: &mut Vec<u8>) -> Result<(), AllocError>
    requires { HasLengths answer.now }
    ensures appends { Appends (answer_text (answer_of answer.now)) out.old.items result out.new.items }
    ensures room { IsShort answer.now → MNT_ANSWER ≤ vec_capacity out.old - vec_len out.old → IsOk result }
{
    let start = out.len();
    let written = add_result(answer, out);
    all_or_nothing(out, start, written)
}

fn add_result(answer: &MountResult, out: &mut Vec<u8>) -> Result<(), AllocError>
    requires { HasLengths answer.now }
    ensures adds { Adds (answer_bytes answer.now) out.old.items result out.new.items }
    ensures room { IsShort answer.now → MNT_ANSWER ≤ vec_capacity out.old - vec_len out.old → IsOk result }
{
    match answer {
        MountResult::Nothing => Ok(()),
        MountResult::Mounted(Ok(handle)) => add_handle(handle, out),
        MountResult::Mounted(Err(stat)) => stat.write(out),
        MountResult::Mounts { hosts, directory } => add_list(hosts, directory, out),
        MountResult::Exported(directory) => add_export(directory, out),
    }
}

fn add_handle(handle: &FileHandle, out: &mut Vec<u8>) -> Result<(), AllocError>
    ensures adds { Adds (spelling word 0 ++ spelling fhandle handle.now.0)
        out.old.items result out.new.items }
    ensures room { Spends 36 (vec_capacity out.old - vec_len out.old)
        result (vec_capacity out.new - vec_len out.new) }
{
    out.put_u32(OK)?;
    handle.write(out)
}

fn add_mount(host: &[u8], directory: &[u8], out: &mut Vec<u8>) -> Result<(), AllocError>
    requires host { length host.now < 2 ^ 32 }
    requires directory { length directory.now < 2 ^ 32 }
    ensures { Adds (spelling word 1 ++ spelling mount (host.now, directory.now))
        out.old.items result out.new.items }
{
    out.put_u32(MORE)?;
    out.put_opaque(host)?;
    out.put_opaque(directory)
}

fn add_mounts(hosts: &[Vec<u8>], directory: &[u8], out: &mut Vec<u8>) -> Result<(), AllocError>
    requires hosts { All (λ h. length h.items < 2 ^ 32) hosts.now }
    requires directory { length directory.now < 2 ^ 32 }
    ensures { Adds (flat_map (λ h. spelling word 1 ++ spelling mount (h.items, directory.now)) hosts.now)
        out.old.items result out.new.items }
{
    for host in hosts {
        add_mount(host, directory, out)?;
    }
    Ok(())
}

/// Each mount after TRUE, and then FALSE.
fn add_list(hosts: &[Vec<u8>], directory: &[u8], out: &mut Vec<u8>) -> Result<(), AllocError>
    requires hosts { All (λ h. length h.items < 2 ^ 32) hosts.now }
    requires directory { length directory.now < 2 ^ 32 }
    ensures { Adds (spelling mountlist (map (λ h. (h.items, directory.now)) hosts.now))
        out.old.items result out.new.items }
{
    add_mounts(hosts, directory, out)?;
    out.put_u32(END)
}

/// One directory with no group after it, and then FALSE.
fn add_export(directory: &[u8], out: &mut Vec<u8>) -> Result<(), AllocError>
    requires { length directory.now < 2 ^ 32 }
    ensures { Adds (spelling exportlist ((directory.now, []) ∷ [])) out.old.items result out.new.items }
{
    out.put_u32(MORE)?;
    out.put_opaque(directory)?;
    out.put_u32(END)?;
    out.put_u32(END)
}
