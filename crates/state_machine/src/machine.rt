//! The reference machine of a node.

ghost use Rattle.std.specs.Prelude.{◌≡◌, ◌≤◌, [], ℕ, IfOk, OnOk, length};
ghost use Rattle.file_texts.specs.fs_spec.Maxima.{max_files};
ghost use Rattle.state_spec.specs.State.{clock_in, IsMachine};
ghost use Rattle.state_machine.specs.Machines.{machine_in, missing_in, IsOf, MachineFits};

use crate::stage::Stage;
use service::{Service, Time};
use std::alloc::{AllocError, Global};

/// The reference machine of a node: what its next entries depend on beside its messages.
#[derive(Drop)]
pub enum Machine {
    /// A server, and what it owes next.
    Server(Service, Stage),
    /// A client, of which the last clock reading is known.
    Client(Time),
}

impl Machine {
    /// The last clock reading.
    pub fn clock(&self) -> Time
        ensures { result ≡ clock_in (machine_in self.now) }
    {
        match self {
            Machine::Server(service, _) => service.clock(),
            Machine::Client(clock) => *clock,
        }
    }

    /// Computes the digests of a server's files that are missing, and gives how many they were; a client has
    /// no files. It stays as it is seen. Where memory is refused, some more may be kept.
    pub(crate) fn renew_digests(&mut self, alloc: Global) -> Result<u32, AllocError>
        ensures same { machine_in self.new ≡ machine_in self.old }
        ensures count { IfOk result (λ count. count ≡ length (missing_in self.old)) }
        ensures few { IfOk result (λ count. count ≤ max_files) }
        ensures whole { OnOk result (missing_in self.new ≡ []) }
    {
        match self {
            Machine::Server(service, _) => service.renew_digests(alloc),
            Machine::Client(_) => Ok(0),
        }
    }

    /// It is one that its node can have, and within the bounds of a text, as its types keep it: does nothing,
    /// and tells a caller's proof.
    pub(crate) fn is_valid(&self)
        ensures machine { (node : ℕ) → IsOf node (machine_in self.now) →
            IsMachine node (machine_in self.now) }
        ensures text { MachineFits (machine_in self.now) }
    {
        match self {
            Machine::Server(service, stage) => {
                service.is_a_world();
                stage.is_bounded();
            }
            Machine::Client(clock) => {
                let _seconds = clock.seconds();
                let _microseconds = clock.microseconds();
            }
        }
    }
}
