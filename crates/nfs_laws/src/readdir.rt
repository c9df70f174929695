//! READDIR of NFS version 2, call by call: its pages give a directory's whole listing once (RFC 1094, section
//! 2.2.17).

pub mod laws;
