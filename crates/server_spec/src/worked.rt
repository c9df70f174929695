//! Calls of MOUNT on the files that a server begins with.

ghost use Rattle.std.specs.Prelude.{◌≡◌, false, [], ◌∷◌, codes, Some, None, Ok, Err, length};
ghost use Rattle.mount_types.specs.nfs_items.Caller.{Caller};
ghost use Rattle.mount_types.specs.nfs_items.Handle.{handle_of};
ghost use Rattle.mount_types.specs.nfs_items.declared.stat.Stat.TheVariants as stats;
ghost use Rattle.nfs_laws.specs.nfs_spec.Opening.{opening_files};
ghost use Rattle.mount_types.specs.Calls.{HostName, Mnt, Umnt, Umntall, Nothing, Mounted};
ghost use Rattle.mount_types.specs.Mounts.{Mounts, root_of, is_listed};
ghost use Rattle.server_spec.specs.Paths.{names_on};
ghost use Rattle.server_spec.specs.MountCalls.{mount_does};
ghost use Rattle.server_spec.specs.Machines.{m, n, by};

/// The names on paths: one or more slashes alone are the root, repeated and trailing slashes are dropped, and
/// a path that doesn't begin with a slash has none.
pub fn paths_have_names()
    ensures root { names_on (codes "/") ≡ Some [] }
    ensures slashes { names_on (codes "//") ≡ Some [] }
    ensures names { names_on (codes "//a/bc//") ≡ Some (codes "a" ∷ codes "bc" ∷ []) }
    ensures relative { names_on (codes "a/bc") ≡ None }
    ensures empty { names_on [] ≡ None }
{}

/// MNT of the root, first, once more, and where 40 others have it mounted; of a file that is there, with a
/// slash after it too; of one that isn't, of `.`, of a path through a file, and of one that doesn't begin
/// with a slash.
pub fn mounts_come_out()
    ensures first { mount_does (opening_files 1) [] (by m) (Mnt (codes "//"))
        ≡ (Mounted (Ok (handle_of 1 1)), root_of m ∷ []) }
    ensures again { mount_does (opening_files 1) (root_of m ∷ root_of n ∷ []) (by m) (Mnt (codes "/"))
        ≡ (Mounted (Ok (handle_of 1 1)), root_of m ∷ root_of n ∷ []) }
    ensures last { mount_does (opening_files 1) (root_of m ∷ []) (by n) (Mnt (codes "/"))
        ≡ (Mounted (Ok (handle_of 1 1)), root_of m ∷ root_of n ∷ []) }
    ensures full { (mounts : Mounts) → length mounts ≡ 40 → is_listed mounts (root_of m) ≡ false →
        mount_does (opening_files 1) mounts (by m) (Mnt (codes "/")) ≡ (Mounted (Err stats.NoSpc), mounts) }
    ensures there { mount_does (opening_files 1) [] (by m) (Mnt (codes "/hello"))
        ≡ (Mounted (Err stats.Acces), []) }
    ensures behind { mount_does (opening_files 1) [] (by m) (Mnt (codes "/hello/"))
        ≡ (Mounted (Err stats.Acces), []) }
    ensures absent { mount_does (opening_files 1) [] (by m) (Mnt (codes "/no"))
        ≡ (Mounted (Err stats.NoEnt), []) }
    ensures dot { mount_does (opening_files 1) [] (by m) (Mnt (codes "/."))
        ≡ (Mounted (Err stats.NoEnt), []) }
    ensures through { mount_does (opening_files 1) [] (by m) (Mnt (codes "/hello/x"))
        ≡ (Mounted (Err stats.NoEnt), []) }
    ensures relative { mount_does (opening_files 1) [] (by m) (Mnt (codes "hello"))
        ≡ (Mounted (Err stats.NoEnt), []) }
{}

/// UMNT of the root and of another path, and UMNTALL, by one of two machines.
pub fn mounts_are_taken_out()
    ensures root { mount_does (opening_files 1) (root_of m ∷ root_of n ∷ []) (by m) (Umnt (codes "//"))
        ≡ (Nothing, root_of n ∷ []) }
    ensures other { mount_does (opening_files 1) (root_of m ∷ root_of n ∷ []) (by m) (Umnt (codes "/hello"))
        ≡ (Nothing, root_of m ∷ root_of n ∷ []) }
    ensures all { mount_does (opening_files 1) (root_of m ∷ root_of n ∷ []) (by n) Umntall
        ≡ (Nothing, root_of m ∷ []) }
{}
