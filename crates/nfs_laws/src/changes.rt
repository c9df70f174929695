//! What becomes of the files that a procedure of NFS version 2 names, and what it keeps of them (RFC 1094,
//! section 2.2).

pub mod laws;
