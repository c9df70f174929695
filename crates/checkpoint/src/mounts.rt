//! The mounts of a server as texts (RFC 4506).

ghost use Rattle.std.specs.Prelude.{◌≡◌, ◌≤◌, OnOk, length};
ghost use Rattle.std.specs.List.{All, flat_map};
ghost use Rattle.xdr.specs.Item.{Fits, array, spelling};
ghost use Rattle.xdr.specs.Writing.{Adds};
ghost use Rattle.mount_types.specs.declared.limits.TheConstants.{MNTNAMLEN};
ghost use Rattle.mount_types.specs.Mounts.{max_mounts, root_of};
ghost use Rattle.state_spec.specs.StateItems.{mount_item};

use state_machine::MountTable;
use std::alloc::AllocError;
use xdr::Writer;

/// The one directory that can be mounted.
const ROOT: &[u8] = b"/";

/// Appends mounts after their count, in order of mounting; where memory is refused a part may stand.
pub fn add_mounts(mounts: &MountTable, out: &mut Vec<u8>) -> Result<(), AllocError>
    ensures { Adds (spelling (array max_mounts mount_item) mounts.now) out.old.items result out.new.items }
{
    mounts.are_mounts();
    let hosts = mounts.hosts();
    out.put_u32(hosts.len() as u32)?;
    add_each(hosts, out)
}

/// The mounts of machines, one after the other.
fn add_each(hosts: &[Vec<u8>], out: &mut Vec<u8>) -> Result<(), AllocError>
    requires { All (λ host. length host.items ≤ MNTNAMLEN) hosts.now }
    ensures { Adds (flat_map (λ host. spelling mount_item (root_of host.items)) hosts.now)
        out.old.items result out.new.items }
{
    for host in hosts {
        add_mount(host, out)?;
    }
    Ok(())
}

/// The mount of a machine.
fn add_mount(host: &[u8], out: &mut Vec<u8>) -> Result<(), AllocError>
    requires { length host.now ≤ MNTNAMLEN }
    ensures fits { OnOk result (Fits mount_item (root_of host.now)) }
    ensures text { Adds (spelling mount_item (root_of host.now)) out.old.items result out.new.items }
{
    out.put_opaque(host)?;
    out.put_opaque(ROOT)
}
