//! What every call of NFS version 2 leaves of a server's files, and what becomes of those that it names (RFC
//! 1094, section 2.2).

pub mod laws;
