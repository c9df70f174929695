//! What holds of the calls of MOUNT.

ghost use Rattle.std.specs.Prelude.{◌≡◌, ◌≢◌, ◌≤◌, true, false, IsTrue, Ok, length};
ghost use Rattle.xdr.specs.Item.{Fits};
ghost use Rattle.mount_types.specs.nfs_items.Caller.{Caller};
ghost use Rattle.mount_types.specs.nfs_items.Handle.{FileHandle};
ghost use Rattle.nfs_laws.specs.fs_spec.Files.{Files};
ghost use Rattle.mount_types.specs.declared.limits.TheConstants.{MNTNAMLEN};
ghost use Rattle.mount_types.specs.Calls.{HostName, DirPath, MountCall, Mnt, Umnt, Umntall, Mounted};
ghost use Rattle.mount_types.specs.Texts.{procedure_in, answer_item, answer_value, answer_text, IsAnswerTo};
ghost use Rattle.mount_types.specs.Mounts.{Mounts, root_of, is_listed, AreMounts};
ghost use Rattle.server_spec.specs.Paths.{names_on};
ghost use Rattle.server_spec.specs.Walks.{is_root};
ghost use Rattle.server_spec.specs.MountCalls.{host_of, mount_does};

/// What is mounted stays at most 40 mounts, each of the root and no two of one machine, where the caller's
/// machine has a name of at most 255 bytes.
pub fn mounts_stay_mounts()
    ensures { (fs : Files) (mounts : Mounts) (who : Caller) (call : MountCall) →
        AreMounts mounts → length (host_of who) ≤ MNTNAMLEN → AreMounts (mount_does fs mounts who call).1 }
{}

/// An answer is one of its procedure, has a spelling, and takes at most 10,884 bytes: those of 40 mounts by
/// machines with the longest names.
pub fn answers_fit_a_reply()
    ensures own { (fs : Files) (mounts : Mounts) (who : Caller) (call : MountCall) →
        IsAnswerTo (procedure_in call) (mount_does fs mounts who call).0 }
    ensures spelled { (fs : Files) (mounts : Mounts) (who : Caller) (call : MountCall) → AreMounts mounts →
        Fits (answer_item (mount_does fs mounts who call).0)
        (answer_value (mount_does fs mounts who call).0) }
    ensures short { (fs : Files) (mounts : Mounts) (who : Caller) (call : MountCall) → AreMounts mounts →
        length (answer_text (mount_does fs mounts who call).0) ≤ 10884 }
{}

/// A call changes the mounts of the caller's machine alone. A machine that got a file handle has the root
/// mounted; one that unmounted the root, or all, hasn't.
pub fn mounts_are_the_callers()
    ensures others { (fs : Files) (mounts : Mounts) (who : Caller) (call : MountCall) (host : HostName) →
        host ≢ host_of who →
        is_listed (mount_does fs mounts who call).1 (root_of host) ≡ is_listed mounts (root_of host) }
    ensures mounted { (fs : Files) (mounts : Mounts) (who : Caller) (path : DirPath) (handle : FileHandle) →
        (mount_does fs mounts who (Mnt path)).0 ≡ Mounted (Ok handle) →
        is_listed (mount_does fs mounts who (Mnt path)).1 (root_of (host_of who)) ≡ true }
    ensures unmounted { (fs : Files) (mounts : Mounts) (who : Caller) (path : DirPath) →
        IsTrue (is_root (names_on path)) →
        is_listed (mount_does fs mounts who (Umnt path)).1 (root_of (host_of who)) ≡ false }
    ensures all_unmounted { (fs : Files) (mounts : Mounts) (who : Caller) →
        is_listed (mount_does fs mounts who Umntall).1 (root_of (host_of who)) ≡ false }
{}
