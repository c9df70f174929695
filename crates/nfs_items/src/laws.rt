//! What holds of file handles and credentials.

ghost use Rattle.std.specs.Prelude.{◌≡◌, ◌<◌, ◌^◌, ◌↔◌, ◌++◌, ◌∷◌, ℕ, List, Some, None};
ghost use Rattle.xdr.specs.Item.{IsBytes};
ghost use Rattle.nfs_items.specs.Handle.{handle_of, number_in};
ghost use Rattle.nfs_items.specs.Caller.{Caller};
ghost use Rattle.nfs_items.specs.Credentials.{caller_in, body_of, caller_from, IsCaller};

use crate::who::{MAX_GROUPS, NOBODY_ID};

/// A file handle tells the file number that it was made of, no other bytes tell one, and no two files have
/// one handle.
pub fn handles_tell_numbers()
    ensures given { (fsid number : ℕ) → number < 2 ^ 32 →
        number_in fsid (handle_of fsid number) ≡ Some number }
    ensures exact { (fsid number : ℕ) (handle : List ℕ) → IsBytes handle →
        ((number_in fsid handle ≡ Some number) ↔ ((number < 2 ^ 32) × (handle ≡ handle_of fsid number))) }
    ensures one_file { (fsid number other_fsid other : ℕ) →
        fsid < 2 ^ 32 → number < 2 ^ 32 → other_fsid < 2 ^ 32 → other < 2 ^ 32 →
        handle_of fsid number ≡ handle_of other_fsid other → (fsid ≡ other_fsid) × (number ≡ other) }
{}

/// The body of an AUTH_SYS credential says a caller exactly where it is the spelling of a stamp, the
/// machine's name, uid, gid and gids within their bounds, with nothing left over; what is more is refused. A
/// caller and a stamp have one body.
pub fn credentials_say_callers()
    ensures said { (body : List ℕ) (who : Caller) → IsBytes body → caller_in body ≡ Some who →
        (stamp : ℕ) × (name : List ℕ) × (uid : ℕ) × (gid : ℕ) × (gids : List ℕ) × (stamp < 2 ^ 32)
        × IsCaller name uid gid gids × (who ≡ caller_from name uid gid gids)
        × (body ≡ body_of stamp name uid gid gids) }
    ensures spelled { (stamp : ℕ) (name : List ℕ) (uid gid : ℕ) (gids : List ℕ) → stamp < 2 ^ 32 →
        IsCaller name uid gid gids →
        caller_in (body_of stamp name uid gid gids) ≡ Some (caller_from name uid gid gids) }
    ensures more { (body : List ℕ) (who : Caller) (byte : ℕ) (more : List ℕ) → IsBytes body →
        caller_in body ≡ Some who → caller_in (body ++ byte ∷ more) ≡ None }
{}

/// AUTH_NONE stands for user and group 65534, and a caller has at most 16 further groups.
pub fn numbers_are_as_documented()
    ensures nobody { NOBODY_ID ≡ 65534 }
    ensures groups { MAX_GROUPS ≡ 16 }
{}
