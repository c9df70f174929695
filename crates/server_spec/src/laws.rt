//! What holds of the reply that is owed.

ghost use Rattle.std.specs.Prelude.{◌≡◌, ◌<◌, ◌≤◌, ◌^◌, List, ℕ, Option, IfSome, length};
ghost use Rattle.server_spec.specs.declared.programs.TheConstants.{AUTH_NONE, AUTH_SYS, NFS_PROGRAM};
ghost use Rattle.server_spec.specs.declared.programs.TheConstants.{NFS_VERSION, MOUNT_PROGRAM, MOUNT_VERSION};
ghost use Rattle.rpc.specs.declared.call.TheConstants.{RPC_VERSION};
ghost use Rattle.xdr.specs.Item.{IsBytes};
ghost use Rattle.mount_types.specs.nfs_items.Timeval.{Timeval};
ghost use Rattle.nfs_laws.specs.fs_spec.Trees.{IsTime};
ghost use Rattle.rpc.specs.declared.records.record.TheConstants.{MAX_RECORD};
ghost use Rattle.server_spec.specs.World.{World};
ghost use Rattle.server_spec.specs.IsWorld.{IsWorld};
ghost use Rattle.server_spec.specs.Replies.{Answers, reply_owed, world_after};

use crate::mount_laws::mounts_stay_mounts;
use nfs_laws::frames::laws::calls_keep_the_files_they_do_not_name;
use nfs_laws::laws::{no_limit_is_passed, trees_stay_trees};
use nfs_laws::sizes::laws::{answers_have_a_spelling, read_calls_are_bounded};
use nfs_types::laws::calls_are_bounded;

/// A record at a time has one answer: the reply owed, or none, and the world after it.
pub fn one_answer()
    ensures { (w : World) (time : Timeval) (bytes : List ℕ) (v u : World) (r s : Option (List ℕ)) →
        Answers w time bytes v r → Answers w time bytes u s → (v ≡ u) × (r ≡ s) }
{}

/// Each record has an answer, which `reply_owed` and `world_after` compute.
pub fn reply_owed_is_the_answer()
    ensures { (w : World) (time : Timeval) (bytes : List ℕ) → IsBytes bytes →
        Answers w time bytes (world_after w time bytes) (reply_owed w time bytes) }
{}

/// A server's world stays one, whatever bytes come at whatever time, and the reply that it owes to them has
/// at most `MAX_RECORD` bytes.
pub fn worlds_stay_worlds()
    ensures stays { (node : ℕ) (w : World) (time : Timeval) (bytes : List ℕ) → IsWorld node w →
        IsTime time → time.seconds < 2 ^ 32 → IsBytes bytes → IsWorld node (world_after w time bytes) }
    ensures short { (node : ℕ) (w : World) (time : Timeval) (bytes : List ℕ) → IsWorld node w →
        IfSome (reply_owed w time bytes) (λ text. length text ≤ MAX_RECORD) }
{
    trees_stay_trees();
    no_limit_is_passed();
    answers_have_a_spelling();
    calls_keep_the_files_they_do_not_name();
    read_calls_are_bounded();
    calls_are_bounded();
    mounts_stay_mounts();
}

/// The numbers that the definitions cite are the standards': AUTH_NONE and AUTH_SYS (RFC 5531, section 8.2),
/// version 2 of RPC, program 100003 of version 2 (NFS), and program 100005 of version 1 (MOUNT;
/// RFC 1094, appendix A).
pub fn numbers_are_the_standards()
    ensures none { AUTH_NONE ≡ 0 }
    ensures sys { AUTH_SYS ≡ 1 }
    ensures rpc { RPC_VERSION ≡ 2 }
    ensures program { NFS_PROGRAM ≡ 100003 }
    ensures version { NFS_VERSION ≡ 2 }
    ensures mount { MOUNT_PROGRAM ≡ 100005 }
    ensures mount_version { MOUNT_VERSION ≡ 1 }
{}
