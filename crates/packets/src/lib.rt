//! Packets: what a witness is sent, read and checked, and written.
#![tactic(auto)]

pub mod laws;
mod packet;
mod read;
mod signatures;
mod write;

pub use packet::Packet;
pub use read::{read_packet, read_packet_by};
pub use signatures::{ByKeys, SignatureCheck};
pub use write::{write_ack, write_answer, write_answer_text, write_challenge, write_learn};
