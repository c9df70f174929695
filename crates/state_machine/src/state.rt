//! The state of a node.

ghost use Rattle.std.specs.Prelude.{◌≡◌, ◌≤◌, [], IfOk, OnOk, length};
ghost use Rattle.xdr.specs.Item.{Fits};
ghost use Rattle.state_spec.specs.State.{IsState, clock_in, opening_client, opening_server};
ghost use Rattle.state_spec.specs.StateItems.{state_item};
ghost use Rattle.state_spec.specs.StateText.{said};
ghost use Rattle.state_spec.specs.server_spec.FileItems.{file_item};
ghost use Rattle.file_texts.specs.fs_spec.Maxima.{max_files};
ghost use Rattle.state_machine.specs.Stages.{stage_in};
ghost use Rattle.state_machine.specs.Machines.{machine_in, missing_in, server_state, client_state};

use crate::machine::Machine;
use crate::stage::{Stage, is_word};
use crate::states::{Received, Sends};
use service::{Service, Time};
use std::alloc::{AllocError, Global};
use std::marker::Model;

/// The state of a node: the messages that it received, those that it sent and that have no acknowledgement
/// yet, and its machine. A server's files have its number.
#[derive(Drop)]
pub struct State {
    node: u32,
    pub(crate) received: Received,
    pub(crate) sends: Sends,
    pub(crate) machine: Machine,
}

impl Model for State {
    ghost use Rattle.state_machine.specs.KeptState.{KeptState, kept_state_code};

    ghost Value = { KeptState };

    ghost coded = { kept_state_code };

    ghost use Rattle.state_machine.specs.Machines.{machine_in, missing_in, IsOf};

    ghost view = { λ s. record {
      state = record {
        node = s.node;
        received = s.received;
        sends = s.sends;
        machine = machine_in s.machine;
      };
      missing = missing_in s.machine;
    } };

    ghost invariant = { λ s. IsOf s.node (machine_in s.machine) };
}

impl State {
    /// The state that the server of a number begins with.
    pub fn opening_server(alloc: Global, node: u32) -> Result<State, AllocError>
        ensures { IfOk result (λ state. state.state ≡ opening_server node) }
    {
        let service = Service::opening(alloc, node)?;
        Ok(State {
            node,
            received: Received::new(alloc),
            sends: Sends::new(alloc),
            machine: Machine::Server(service, Stage::Idle),
        })
    }

    /// The state that the client of a number begins with. No memory is taken.
    pub fn opening_client(alloc: Global, node: u32) -> State
        ensures state { result.state ≡ opening_client node }
        ensures missing { result.missing ≡ [] }
    {
        State {
            node,
            received: Received::new(alloc),
            sends: Sends::new(alloc),
            machine: Machine::Client(Time::epoch()),
        }
    }

    /// The state of a server, whose number is that of its files.
    pub fn server(service: Service, stage: Stage, received: Received, sends: Sends) -> State
        ensures state { result.state ≡ server_state service.world (stage_in stage) received sends }
        ensures missing { result.missing ≡ service.missing }
    {
        State {
            node: service.tree().fsid(),
            received,
            sends,
            machine: Machine::Server(service, stage),
        }
    }

    /// The state of a client.
    pub fn client(node: u32, clock: Time, received: Received, sends: Sends) -> State
        ensures state { result.state ≡ client_state node clock received sends }
        ensures missing { result.missing ≡ [] }
    {
        State {
            node,
            received,
            sends,
            machine: Machine::Client(clock),
        }
    }

    /// The node's number.
    pub fn node(&self) -> u32
        ensures { result ≡ self.now.state.node }
    {
        self.node
    }

    /// The messages that the node received.
    pub fn received(&self) -> &Received
        ensures { result.now ≡ self.now.state.received }
    {
        &self.received
    }

    /// The messages that the node sent and that have no acknowledgement yet.
    pub fn sends(&self) -> &Sends
        ensures { result.now ≡ self.now.state.sends }
    {
        &self.sends
    }

    /// The node's machine.
    pub fn machine(&self) -> &Machine
        ensures machine { machine_in result.now ≡ self.now.state.machine }
        ensures missing { missing_in result.now ≡ self.now.missing }
    {
        &self.machine
    }

    /// The last clock reading.
    pub fn clock(&self) -> Time
        ensures { result ≡ clock_in self.now.state.machine }
    {
        self.machine.clock()
    }

    /// Computes the digests of a server's files that are missing, and gives how many they were; a client has
    /// no files. The state stays. Where memory is refused, some more may be kept.
    pub fn renew_digests(&mut self, alloc: Global) -> Result<u32, AllocError>
        ensures same { self.new.state ≡ self.old.state }
        ensures count { IfOk result (λ count. count ≡ length self.old.missing) }
        ensures few { IfOk result (λ count. count ≤ max_files) }
        ensures whole { OnOk result (self.new.missing ≡ []) }
    {
        self.machine.renew_digests(alloc)
    }

    /// It is one that a node can be in, and what is said of it can be spelled, as its types keep it: does
    /// nothing, and tells a caller's proof.
    pub fn is_a_state(&self)
        ensures state { IsState self.now.state }
        ensures fits { Fits (state_item file_item) (said self.now.state) }
    {
        is_word(self.node);
        self.received.are_bounded();
        self.sends.are_bounded();
        self.machine.is_valid();
    }
}
