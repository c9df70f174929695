//! Each answer has a spelling: what calls give is within the bounds of the protocol.

pub mod laws;
