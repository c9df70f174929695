//! The checks of each procedure of NFS version 2, in order, and that its stat is that of the first that
//! fails.
#![tactic(auto)]

pub mod laws;
