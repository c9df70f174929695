//! What is asked of a node and of a witness on another host, and what they answer: the calls and replies of two
//! programs over ONC RPC (RFC 5531), in XDR (RFC 4506).
#![tactic(auto)]

mod answers;
mod arguments;
mod bases;
mod call;
mod cases;
mod delivered;
pub mod laws;
mod node;
mod wanted;
mod witness;
mod write;

pub use answers::{
    Greeted, ResultNumber, ResultsFault, Segment, Told, read_greeted, read_segment, read_signed,
    read_stands,
};
pub use arguments::{After, BaseAfter, Greeting, NodeNumber, Numbers};
pub use bases::{MAX_BASE, read_base, write_base};
pub use call::{Asked, NODE_PROGRAM, Unasked, VERSION, WITNESS_PROGRAM, judge_call, read_results};
pub use cases::{Case, MAX_CASE, read_case};
pub use delivered::{Delivered, read_delivered};
pub use node::{NodeRequest, read_node_request, read_shown, write_node_request};
pub use wanted::{Wanted, WantedMessage};
pub use witness::{WitnessRequest, read_witness_request, write_witness_request};
pub use write::write_call;
