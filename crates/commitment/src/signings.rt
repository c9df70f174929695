//! What a node signs of its log, leaf by leaf, and signatures looked up by the numbers of their entries.

mod places;

pub use places::{SignedPlace, find, keep_digest, last_up_to, make};
