//! What is mounted.

use mount_types::MAX_MOUNTS;
use std::alloc::{AllocError, Global};
use std::marker::Model;

/// The machines that have the root mounted, in order of mounting: at most 40, each with a name of its own of
/// at most 255 bytes.
#[derive(Drop)]
pub struct MountTable {
    hosts: Vec<Vec<u8>>,
}

impl Model for MountTable {
    ghost use Rattle.std.specs.Prelude.{map};
    ghost use Rattle.mount_types.specs.Mounts.{Mounts, root_of, AreMounts};

    ghost Value = { Mounts };

    ghost view = { λ t. map (λ host. root_of host.items) t.hosts.items };

    ghost invariant = { λ t. AreMounts (map (λ host. root_of host.items) t.hosts.items) };
}

impl MountTable {
    ghost use Rattle.std.specs.Prelude.{◌≡◌, ◌≤◌, [], ◌∷◌, ◌++◌, ◌&&◌, not, map, length, nat_le, nat_lt};
    ghost use Rattle.std.specs.Prelude.{IfOk, OnOk, OnErr, if◌then◌else◌};
    ghost use Rattle.mount_types.specs.declared.limits.TheConstants.{MNTNAMLEN};
    ghost use Rattle.mount_types.specs.Mounts.{max_mounts, root_of, is_listed, without_mount, without_host};
    ghost use Rattle.mount_types.specs.Mounts.{AreMounts, may_list};

    /// Nothing is mounted.
    pub fn new(alloc: Global) -> MountTable
        ensures { result ≡ [] }
    {
        MountTable {
            hosts: Vec::new(alloc),
        }
    }

    /// The mounts are within their limits, and differ, as each call keeps them: does nothing,
    /// and tells a caller's proof.
    pub fn are_mounts(&self)
        ensures { AreMounts self.now }
    {
        let _hosts = &self.hosts;
    }

    /// The machines, in order of mounting.
    pub fn hosts(&self) -> &[Vec<u8>]
        ensures { map (λ host. root_of host.items) result.now ≡ self.now }
    {
        &self.hosts
    }

    /// Whether a machine has the root mounted.
    pub fn contains(&self, host: &[u8]) -> bool
        ensures { result ≡ is_listed self.now (root_of host.now) }
    {
        self.hosts.iter().any(|listed| host == listed.as_slice())
    }

    /// Whether 40 mounts are listed.
    pub fn is_full(&self) -> bool
        ensures { result ≡ nat_le max_mounts (length self.now) }
    {
        self.hosts.len() >= MAX_MOUNTS as usize
    }

    /// Lists a machine last, and tells whether it did: not where it is listed, or 40 are. Where memory is
    /// refused nothing changes.
    pub fn push(&mut self, alloc: Global, host: &[u8]) -> Result<bool, AllocError>
        requires { length host.now ≤ MNTNAMLEN }
        ensures pushed { IfOk result (λ pushed. pushed ≡ may_list self.old (root_of host.now)) }
        ensures ok { OnOk result (self.new ≡ (if may_list self.old (root_of host.now)
            then self.old ++ root_of host.now ∷ [] else self.old)) }
        ensures err { OnErr result (self.new ≡ self.old) }
    {
        if self.contains(host) || self.is_full() {
            return Ok(false);
        }
        let name = host.to_vec(alloc)?;
        self.hosts.push(name)?;
        Ok(true)
    }

    /// Takes a machine's mounts out. It has one at most, that of the root.
    pub fn remove(&mut self, host: &[u8])
        ensures root { self.new ≡ without_mount self.old (root_of host.now) }
        ensures all { self.new ≡ without_host self.old host.now }
    {
        self.hosts.retain(|listed| host != listed.as_slice());
    }
}
