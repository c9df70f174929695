//! What carries a record to a server and brings the reply back.

ghost use Rattle.std.specs.Prelude.{◌≡◌, ◌≤◌, ℕ, ⊤, length, List, Option, Some, None, IfOk, IfErr};
ghost use Rattle.std.specs.Prelude.{IfSome, OnOk};
ghost use Rattle.std.specs.Option.{option_map};
ghost use Rattle.rpc.specs.declared.records.record.TheConstants.{MAX_RECORD};
ghost use Rattle.nfs_items.specs.Timeval.{Timeval};
ghost use Rattle.server_spec.specs.World.{World};
ghost use Rattle.server_spec.specs.Replies.{reply_owed, world_after};
ghost use Rattle.gateway.specs.declared.links.fault.LinkFault.{LinkFault};

use crate::links::fault::LinkFault;
use nfs_items::Time;
use service::Service;
use std::alloc::Global;

/// A link is the way to a node, a transport: it carries records to a server, and brings the replies back. It
/// has nothing to do with links in files, nor with those of a hash chain. A link that waits for others keeps
/// its runtime itself.
///
/// Its ghost members say what is known of it. `exchanges` and `fails` say which link an exchange leaves, by
/// its time, its record and the reply, or the fault. `world` is that of its server, where it is told; then
/// each answer is the reply owed (RFC 5531, section 9), and the world moves as that says. `may_fault` are the
/// faults that it may answer from now on; an exchange that is answered adds none. `faulted` is what holds of
/// a link after a fault.
pub trait Link {
    // An exchange at this time, of this record and with this reply, if one, leads from one link to another.
    ghost exchanges: { Self → Timeval → List ℕ → Option (List ℕ) → Self → Type 0 } = { λ _ _ _ _ _. ⊤ };

    // So does an exchange with this fault.
    ghost fails: { Self → Timeval → List ℕ → LinkFault → Self → Type 0 } = { λ _ _ _ _ _. ⊤ };

    // The world of its server, where it is told.
    ghost world: { Self → Option World } = { λ _. None };

    // Its exchanges may answer this fault, from now on.
    ghost may_fault: { Self → LinkFault → Type 0 } = { λ _ _. ⊤ };

    // What holds of it after an exchange that answered this fault.
    ghost faulted: { Self → LinkFault → Type 0 } = { λ _ _. ⊤ };

    /// The reply to a record at a time, if one is owed; it has at most `MAX_RECORD` bytes (12,288), as the
    /// record must have. A fault says nothing of the world: what was done before it stands.
    fn exchange(
        &mut self,
        alloc: Global,
        time: Time,
        bytes: &[u8],
    ) -> Result<Option<Vec<u8>>, LinkFault>
        requires size { length bytes.now ≤ MAX_RECORD }
        ensures exchanged { IfOk result (λ r.
            exchanges self.old time bytes.now (option_map (λ v. v.items) r) self.new) }
        ensures failed { IfErr result (λ e. fails self.old time bytes.now e self.new) }
        ensures reply { IfOk result (λ r. IfSome (world self.old) (λ w.
            option_map (λ v. v.items) r ≡ reply_owed w time bytes.now)) }
        ensures moves { OnOk result (IfSome (world self.old) (λ w.
            world self.new ≡ Some (world_after w time bytes.now))) }
        ensures fits { IfOk result (λ r. IfSome r (λ v. length v.items ≤ MAX_RECORD)) }
        ensures kept { OnOk result ((e : LinkFault) → may_fault self.new e → may_fault self.old e) }
        ensures fault { IfErr result (λ e. may_fault self.old e) }
        ensures after { IfErr result (λ e. faulted self.new e) };
}

/// The server itself is the shortest link. It tells its world, and lacks nothing but memory; then it is as it
/// was.
impl Link for Service {
    ghost exchanges = { λ s time bytes reply s'.
        (reply ≡ reply_owed s.world time bytes) × (s'.world ≡ world_after s.world time bytes) };

    ghost fails = { λ s _ _ e s'. (e ≡ LinkFault.NoMemory) × (s'.world ≡ s.world) };

    ghost world = { λ s. Some s.world };

    ghost may_fault = { λ _ e. e ≡ LinkFault.NoMemory };

    fn exchange(
        &mut self,
        alloc: Global,
        time: Time,
        bytes: &[u8],
    ) -> Result<Option<Vec<u8>>, LinkFault> {
        let Ok(reply) = self.answer(alloc, time, bytes) else {
            return Err(LinkFault::NoMemory);
        };
        Ok(reply)
    }
}
