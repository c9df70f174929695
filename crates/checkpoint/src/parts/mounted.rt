//! The mounts of a server from the parts of its text.

ghost use Rattle.std.specs.Prelude.{◌≡◌, ◌<◌, ◌≤◌, [], ◌∷◌, ◌++◌, length, if◌then◌else◌};
ghost use Rattle.std.specs.Prelude.{OnOk, OnErr, IfOk, MatchOption};
ghost use Rattle.std.specs.List.{All};
ghost use Rattle.std.specs.Str.{bytes_eq};
ghost use Rattle.mount_types.specs.declared.limits.TheConstants.{MNTNAMLEN};
ghost use Rattle.mount_types.specs.Mounts.{max_mounts, root_path};
ghost use Rattle.state_spec.specs.Rules.{MountsAreOfTheRoot, MountsDiffer};
ghost use Rattle.checkpoint.specs.Parts.SaidParts.{mount_said, mounts_given};
ghost use Rattle.checkpoint.specs.Parts.Taking.{may_take};

use crate::parts::parts::MountPart;
use state_machine::MountTable;
use std::alloc::{AllocError, Global};

/// The one directory that can be mounted.
const ROOT: &[u8] = b"/";

/// The mounts of these parts, in their order. None exactly where one is of another directory than the root,
/// or two are the same.
pub fn mounts_of(alloc: Global, parts: &[MountPart]) -> Result<Option<MountTable>, AllocError>
    requires few { length parts.now ≤ max_mounts }
    requires short { All (λ part. length part.host.now ≤ MNTNAMLEN) parts.now }
    ensures { IfOk result (λ mounts. MatchOption mounts
        ((MountsAreOfTheRoot (mounts_given parts.now) × MountsDiffer (mounts_given parts.now)) → ⊥)
        (λ m. (m ≡ mounts_given parts.now) × MountsAreOfTheRoot (mounts_given parts.now)
        × MountsDiffer (mounts_given parts.now))) }
{
    let mut mounts = MountTable::new(alloc);
    for part in parts {
        if !take(&mut mounts, alloc, part)? {
            return Ok(None);
        }
    }
    mounts.are_mounts();
    Ok(Some(mounts))
}

/// Takes a mount after others, and tells whether it did: not where it is of another directory than the root,
/// or is one of them. Where memory is refused nothing changes.
#[tactic(auto, using(crate::proofs::OfParts::MountsTaken::listed_alike, crate::proofs::OfParts::MountsTaken::put_alike))]
fn take(mounts: &mut MountTable, alloc: Global, part: &MountPart) -> Result<bool, AllocError>
    requires few { length mounts.old < max_mounts }
    requires short { length part.now.host.now ≤ MNTNAMLEN }
    ensures taken { IfOk result (λ taken. taken ≡ may_take mounts.old (mount_said part.now)) }
    ensures ok { OnOk result (mounts.new ≡ (if may_take mounts.old (mount_said part.now)
        then mounts.old ++ mount_said part.now ∷ [] else mounts.old)) }
    ensures err { OnErr result (mounts.new ≡ mounts.old) }
{
    if !is_root(part.directory) {
        return Ok(false);
    }
    mounts.push(alloc, part.host)
}

/// Whether a path is the root's, which is one slash.
fn is_root(path: &[u8]) -> bool
    ensures { result ≡ bytes_eq path.now root_path }
{
    path == ROOT
}
