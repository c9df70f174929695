//! Reference machines of nodes.

ghost use Rattle.std.specs.Prelude.{◌≡◌, ◌<◌, ℕ, List, IfOk};
ghost use Rattle.std.specs.FinMap.{len};
ghost use Rattle.checkpoint.specs.state_machine.declared.states.received.TheConstants.{MAX_RECEIVED};
ghost use Rattle.checkpoint.specs.state_machine.declared.states.sends.TheConstants.{MAX_SENDS};
ghost use Rattle.checkpoint.specs.state_machine.Machines.{machine_in};
ghost use Rattle.checkpoint.specs.state_spec.State as spec;
ghost use Rattle.checkpoint.specs.state_spec.StateText.{IsStateText};
ghost use Rattle.replay.specs.Steps.{Steps, worded_place};
ghost use Rattle.replay_spec.specs.Opening.{kind_of};

use crate::steps::{StepFault, step};
use authenticator::{Kind, Roster, Word};
use checkpoint::{State, a_text_has_one_state, state_text};
use secure_log::log_entries::Entry;
use std::alloc::{AllocError, Global};
use std::marker::{Model, PhantomData};

/// A node's reference machine, by which replays go (PeerReview, SOSP 2007, section 5.4): what it answers to
/// an entry is a function of its state and the entry, and equal texts mean equal states.
pub trait Machine: Drop {
    /// The state that it is in.
    ghost state: { Self → spec.State };

    /// The state that it is in.
    fn state(&self) -> &State
        ensures { result.now.state ≡ state self.now };

    /// Its state alone.
    fn into_state(self) -> State
        ensures { result.state ≡ state self };

    /// Takes an entry of the log of its node, a member of this roster, with a word and after the hash
    /// `before`. `Fault` comes exactly where the entry may not stand there, with the first fault that it has;
    /// `NoMemory` only where a growth was refused. After either its state is as it was.
    fn step(
        &mut self,
        alloc: Global,
        roster: &Roster,
        word: Word,
        before: &[u8; 32],
        entry: &Entry,
    ) -> Result<(), StepFault>
        requires few_received { len (state self.old).received < MAX_RECEIVED }
        requires few_sends { len (state self.old).sends < MAX_SENDS }
        ensures { Steps roster.now (state self.old) (worded_place word before.now entry.now) result
            (state self.new) };

    /// The text of its state. `AllocError` comes only where a growth was refused.
    fn text(&self, alloc: Global) -> Result<Vec<u8>, AllocError>
        ensures { IfOk result (λ bytes. IsStateText (state self.now) bytes.items) };

    /// Equal texts mean equal states: does nothing, and tells a caller's proof.
    fn a_text_has_one_state()
        ensures { (s t : spec.State) (bytes : List ℕ) → IsStateText s bytes → IsStateText t bytes → s ≡ t };
}

/// The kind of a machine's node.
pub(crate) fn kind_of(machine: &checkpoint::Machine) -> Kind
    ensures { result ≡ kind_of (machine_in machine.now) }
{
    match machine {
        checkpoint::Machine::Server(_, _) => Kind::Server,
        checkpoint::Machine::Client(_) => Kind::Client,
    }
}

/// The kind of a state's node.
pub fn state_kind(state: &State) -> Kind
    ensures { result ≡ kind_of state.now.state.machine }
{
    kind_of(state.machine())
}

/// A kind of nodes, as a type, which stands for a kind of member.
pub trait NodeKind {
    ghost use Rattle.authenticator.specs.declared.member.Kind.{Kind};

    /// The kind as which a roster lists such a node.
    ghost kind: { Kind };
}

/// The kind of nodes that serve files.
#[derive(Clone, Copy, Debug)]
pub struct Servers;

/// The kind of nodes that call a server.
#[derive(Clone, Copy, Debug)]
pub struct Clients;

impl NodeKind for Servers {
    ghost use Rattle.authenticator.specs.declared.member.Kind.TheVariants as kinds;

    ghost kind = { kinds.Server };
}

impl NodeKind for Clients {
    ghost use Rattle.authenticator.specs.declared.member.Kind.TheVariants as kinds;

    ghost kind = { kinds.Client };
}

/// The machine of nodes of one kind, which it keeps.
#[derive(Drop)]
pub struct KindMachine<K: NodeKind> {
    state: State,
    kind: PhantomData<K>,
}

/// A server's machine: its messages are the replies that it owes.
pub type ServerMachine = KindMachine<Servers>;

/// A client's machine: it may send any message and read its clock at any time.
pub type FreeMachine = KindMachine<Clients>;

impl<K: NodeKind> Model for KindMachine<K> {
    ghost use Rattle.std.specs.Prelude.{◌≡◌};
    ghost use Rattle.checkpoint.specs.state_spec.Codes.{state_code};
    ghost use Rattle.checkpoint.specs.state_spec.State.{State};
    ghost use Rattle.replay_spec.specs.Opening.{kind_of};

    ghost Value = { State };

    ghost coded = { state_code };

    ghost view = { λ m. m.state.state };

    ghost invariant = { λ m. kind_of m.state.state.machine ≡ K.kind };
}

impl<K: NodeKind> KindMachine<K> {
    /// The machine in a state of a node of this kind.
    pub fn new(state: State) -> KindMachine<K>
        requires { kind_of state.state.machine ≡ K.kind }
        ensures { result ≡ state.state }
    {
        KindMachine {
            state,
            kind: PhantomData,
        }
    }

    /// Its state, which is one of its kind.
    pub fn state(&self) -> &State
        ensures state { result.now.state ≡ self.now }
        ensures kind { kind_of self.now.machine ≡ K.kind }
    {
        &self.state
    }
}

impl<K: NodeKind> Machine for KindMachine<K> {
    ghost state = { λ m. m };

    fn state(&self) -> &State {
        &self.state
    }

    fn into_state(self) -> State {
        self.state
    }

    fn step(
        &mut self,
        alloc: Global,
        roster: &Roster,
        word: Word,
        before: &[u8; 32],
        entry: &Entry,
    ) -> Result<(), StepFault> {
        step(&mut self.state, alloc, roster, word, before, entry)
    }

    fn text(&self, alloc: Global) -> Result<Vec<u8>, AllocError> {
        state_text(alloc, &self.state)
    }

    fn a_text_has_one_state() {
        a_text_has_one_state();
    }
}
