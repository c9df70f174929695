//! Who calls.

use std::marker::Model;

/// The greatest number of further groups (RFC 5531, appendix A, authsys_parms).
pub const MAX_GROUPS: usize = 16;

/// The user and the group that AUTH_NONE stands for.
pub const NOBODY_ID: u32 = 65534;

/// The further groups of a caller, at most 16.
#[derive(Drop)]
pub struct Groups {
    words: [u32; MAX_GROUPS],
    count: usize,
}

impl Model for Groups {
    ghost use Rattle.std.specs.Prelude.{ℕ, List, take, ◌≤◌};
    ghost use Rattle.std.specs.Coded.{coded_list, coded_ℕ};

    ghost Value = { List ℕ };

    ghost coded = { coded_list coded_ℕ };

    ghost view = { λ g. take g.count g.words };

    ghost invariant = { λ g. g.count ≤ 16 };
}

impl Groups {
    ghost use Rattle.std.specs.Prelude.{◌≡◌, ◌<◌, ◌≤◌, ◌++◌, ◌∷◌, [], length};

    /// No group.
    pub fn none() -> Groups
        ensures { result ≡ [] }
    {
        Groups {
            words: [0; MAX_GROUPS],
            count: 0,
        }
    }

    /// Puts a group after the others.
    pub fn push(&mut self, group: u32)
        requires { length self.old < 16 }
        ensures { self.new ≡ self.old ++ group ∷ [] }
    {
        self.words[self.count] = group;
        self.count += 1;
    }

    /// The groups in their order.
    pub fn as_slice(&self) -> &[u32]
        ensures groups { result.now ≡ self.now }
        ensures few { length self.now ≤ 16 }
    {
        &self.words[..self.count]
    }
}

/// The caller of a procedure.
#[derive(Drop)]
pub struct Who<'a> {
    pub uid: u32,
    pub gid: u32,
    pub gids: Groups,
    /// The name of the caller's machine, at most 255 bytes, where AUTH_SYS gave one.
    pub machine_name: Option<&'a [u8]>,
}

impl<'a> Who<'a> {
    ghost use Rattle.std.specs.Prelude.{◌≡◌};
    ghost use Rattle.nfs_items.specs.Caller.{nobody};
    ghost use Rattle.nfs_items.specs.CallerOf.{caller_of};

    /// The caller that AUTH_NONE stands for (RFC 5531, section 10.1): user and group 65534.
    pub fn nobody() -> Who<'a>
        ensures { caller_of result ≡ nobody }
    {
        Who {
            uid: NOBODY_ID,
            gid: NOBODY_ID,
            gids: Groups::none(),
            machine_name: None,
        }
    }
}
