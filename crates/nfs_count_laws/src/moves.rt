//! What moving an entry does to the numbers that a server keeps beside its files.

pub mod laws;
