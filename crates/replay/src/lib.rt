//! Replays of segments: the reference machine of a node takes one entry after the other, up to the first that
//! has a fault.
#![tactic(auto)]

mod copy;
mod fault;
mod kept;
mod machine;
mod messages;
mod opening;
mod outcome;
mod run;
mod shown;
mod steps;
mod take;
mod turns;
mod verdict;

pub use checkpoint::parts::read_parts;
pub use checkpoint::{SharedState, State, StateFault, read_state, state_digest};
pub use fault::ReplayFault;
pub use machine::{
    Clients, FreeMachine, KindMachine, Machine, NodeKind, ServerMachine, Servers, state_kind,
};
pub use opening::opening_state;
pub use outcome::{Outcome, replay_outcome};
pub use state_spec::laws::a_text_has_one_state;
pub use steps::{StepFault, step};
pub use verdict::{Verdict, replay, replay_entries};
