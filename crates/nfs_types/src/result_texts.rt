//! Answers of NFS version 2 in bytes (RFC 1094, sections 2.2 and 2.3).

pub mod laws;
pub mod worked;
mod writing;

pub use writing::{write_attributes, write_dir_op, write_result};
