//! Answers in bytes.

ghost use Rattle.std.specs.Prelude.{◌≡◌, [], ◌∷◌, codes, Ok, Err};
ghost use Rattle.nfs_items.specs.xdr.declared.fault.XdrFault.TheVariants as faults;
ghost use Rattle.nfs_items.specs.declared.stat.Stat.TheVariants as stats;
ghost use Rattle.nfs_items.specs.Handle.{handle_of};
ghost use Rattle.mount_types.specs.declared.arguments.MountProcedure.TheVariants as procedures;
ghost use Rattle.mount_types.specs.Calls as calls;
ghost use Rattle.mount_types.specs.Texts.{call_at, answer_text};

/// MNT's path `/`, and the same with padding that isn't zero.
pub fn paths_are_read()
    ensures root { call_at procedures.Mnt (0 ∷ 0 ∷ 0 ∷ 1 ∷ 0x2f ∷ 0 ∷ 0 ∷ 0 ∷ [])
        ≡ Ok (calls.Mnt (codes "/"), []) }
    ensures padding { call_at procedures.Mnt (0 ∷ 0 ∷ 0 ∷ 1 ∷ 0x2f ∷ 0 ∷ 1 ∷ 0 ∷ []) ≡ Err faults.Padding }
{}

/// The root's file handle on node 1; refusals; what DUMP gives where the machine `m` has `/` mounted, and
/// where nothing is; and the one export.
pub fn answers_come_out()
    ensures mounted { answer_text (calls.Mounted (Ok (handle_of 1 1)))
        ≡ 0 ∷ 0 ∷ 0 ∷ 0 ∷ 0 ∷ 0 ∷ 0 ∷ 1 ∷ 0 ∷ 0 ∷ 0 ∷ 1 ∷ 0 ∷ 0 ∷ 0 ∷ 0 ∷ 0 ∷ 0 ∷ 0 ∷ 0
        ∷ 0 ∷ 0 ∷ 0 ∷ 0 ∷ 0 ∷ 0 ∷ 0 ∷ 0 ∷ 0 ∷ 0 ∷ 0 ∷ 0 ∷ 0 ∷ 0 ∷ 0 ∷ 0 ∷ [] }
    ensures absent { answer_text (calls.Mounted (Err stats.NoEnt)) ≡ 0 ∷ 0 ∷ 0 ∷ 2 ∷ [] }
    ensures refused { answer_text (calls.Mounted (Err stats.Acces)) ≡ 0 ∷ 0 ∷ 0 ∷ 13 ∷ [] }
    ensures full { answer_text (calls.Mounted (Err stats.NoSpc)) ≡ 0 ∷ 0 ∷ 0 ∷ 28 ∷ [] }
    ensures dump { answer_text (calls.Mounts ((codes "m", codes "/") ∷ []))
        ≡ 0 ∷ 0 ∷ 0 ∷ 1 ∷ 0 ∷ 0 ∷ 0 ∷ 1 ∷ 0x6d ∷ 0 ∷ 0 ∷ 0 ∷ 0 ∷ 0 ∷ 0 ∷ 1
        ∷ 0x2f ∷ 0 ∷ 0 ∷ 0 ∷ 0 ∷ 0 ∷ 0 ∷ 0 ∷ [] }
    ensures none { answer_text (calls.Mounts []) ≡ 0 ∷ 0 ∷ 0 ∷ 0 ∷ [] }
    ensures export { answer_text (calls.Exports ((codes "/", []) ∷ []))
        ≡ 0 ∷ 0 ∷ 0 ∷ 1 ∷ 0 ∷ 0 ∷ 0 ∷ 1 ∷ 0x2f ∷ 0 ∷ 0 ∷ 0 ∷ 0 ∷ 0 ∷ 0 ∷ 0 ∷ 0 ∷ 0 ∷ 0 ∷ 0 ∷ [] }
{}
