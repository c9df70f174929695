//! MOUNT version 1 over a tree of files (RFC 1094, appendix A).
#![tactic(auto)]

ghost use Rattle.std.specs.Prelude.{◌≡◌, ◌≤◌, [], ◌∷◌, IfSome, OnOk, OnErr, length};
ghost use Rattle.xdr.specs.Writing.{Appends};
ghost use Rattle.mount_types.specs.nfs_items.CallerOf.{caller_of};
ghost use Rattle.mount_types.specs.Bounds.{HasBounds};
ghost use Rattle.mount_types.specs.Texts.{answer_text};
ghost use Rattle.mount_types.specs.Arguments.{call_of};
ghost use Rattle.mount_types.specs.declared.limits.TheConstants.{MNTNAMLEN};
ghost use Rattle.mount_types.specs.Calls.{Mounts as Listed, Exports};
ghost use Rattle.mount_types.specs.Mounts.{root_path};
ghost use Rattle.server_spec.specs.Paths.{names_on};
ghost use Rattle.server_spec.specs.MountCalls.{mount_at, mount_does};

mod changing;
mod paths;
mod table;

use changing::{mount, unmount};
pub use file_tree::Tree;
use mount_types::{MNT_ANSWER, MountResult, Who, write_mount_result};
pub use mount_types::{MountArgs, MountProcedure, read_mount_args};
use paths::root_path;
use std::alloc::{AllocError, Global};
pub use table::MountTable;

/// The answer to MNT, for which room is made first.
fn answer_mount(
    mounts: &mut MountTable,
    tree: &Tree,
    alloc: Global,
    host: &[u8],
    path: &[u8],
    out: &mut Vec<u8>,
) -> Result<(), AllocError>
    requires { length host.now ≤ MNTNAMLEN }
    ensures text { Appends (answer_text (mount_at tree.now.files mounts.old host.now (names_on path.now)).0)
        out.old.items result out.new.items }
    ensures mounts { OnOk result (mounts.new
        ≡ (mount_at tree.now.files mounts.old host.now (names_on path.now)).1) }
    ensures err { OnErr result (mounts.new ≡ mounts.old) }
{
    out.reserve(MNT_ANSWER)?;
    let answer = mount(mounts, tree, alloc, host, path)?;
    write_mount_result(&answer, out)
}

/// The answer to DUMP: what is mounted.
fn dump(mounts: &MountTable, out: &mut Vec<u8>) -> Result<(), AllocError>
    ensures { Appends (answer_text (Listed mounts.now)) out.old.items result out.new.items }
{
    mounts.are_mounts();
    let answer = MountResult::Mounts {
        hosts: mounts.hosts(),
        directory: root_path(),
    };
    write_mount_result(&answer, out)
}

/// The answer to EXPORT: the root, with no groups.
fn export(out: &mut Vec<u8>) -> Result<(), AllocError>
    ensures { Appends (answer_text (Exports ((root_path, []) ∷ []))) out.old.items result out.new.items }
{
    write_mount_result(&MountResult::Exported(root_path()), out)
}

/// Does what a caller's call asks for, and appends the answer. A refusal is a status within the answer, and
/// leaves the mounts as they were. Where memory is refused, the mounts and the bytes are as they were.
pub fn mount_call(
    mounts: &mut MountTable,
    tree: &Tree,
    alloc: Global,
    who: &Who,
    args: &MountArgs,
    out: &mut Vec<u8>,
) -> Result<(), AllocError>
    requires host { IfSome who.now.machine_name (λ name. length name.now ≤ MNTNAMLEN) }
    requires bounds { HasBounds (call_of args.now) }
    ensures text { Appends
        (answer_text (mount_does tree.now.files mounts.old (caller_of who.now) (call_of args.now)).0)
        out.old.items result out.new.items }
    ensures mounts { OnOk result (mounts.new
        ≡ (mount_does tree.now.files mounts.old (caller_of who.now) (call_of args.now)).1) }
    ensures err { OnErr result (mounts.new ≡ mounts.old) }
{
    let host = who.machine_name.unwrap_or(b"");
    match args {
        MountArgs::Null => Ok(()),
        MountArgs::Mnt(path) => answer_mount(mounts, tree, alloc, host, path, out),
        MountArgs::Dump => dump(mounts, out),
        MountArgs::Umnt(path) => {
            unmount(mounts, host, path);
            Ok(())
        }
        MountArgs::Umntall => {
            mounts.remove(host);
            Ok(())
        }
        MountArgs::Export => export(out),
    }
}
