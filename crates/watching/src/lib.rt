//! What a witness says to others: the answers of its books to calls, and the line of a node.
#![tactic(auto)]

mod answer;
mod audited;
mod bases;
mod bound;
mod deliver;
mod ends;
mod filed;
pub mod laws;
mod results;
mod shown;
mod standing;
mod told;

pub use answer::{Outcome, answer_request};
pub use bound::{MOST, SegmentsAsked};
pub use deliver::Delivered;
pub use results::{Host, Opened};
pub use standing::Standing;
pub use told::NodeTold;
pub use witness_books::StartFault;
pub use witness_calls::{Said, Shelf, packet_texts, write_case};
