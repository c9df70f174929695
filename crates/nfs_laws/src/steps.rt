//! What follows from a procedure's answering Ok: the checks that it passed, and what it did.

pub mod laws;
