//! The state of a node: what it received, what it sent, and its reference machine.
#![tactic(auto)]

mod body;
mod machine;
mod serve;
mod stage;
mod state;
pub mod states;
mod steps;

pub use body::{MAX_BODY, MessageBody};
pub use file_texts::{FilePart, TimePart, add_file, file_digest, inodes_of};
pub use machine::Machine;
pub use service::{MountTable, Service};
pub use stage::Stage;
pub use state::State;
pub use state_spec::laws::a_text_has_one_state;
