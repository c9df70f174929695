//! What each procedure of NFS version 2 does to a server's files, as definitions (RFC 1094, section 2.2).
#![tactic(auto)]

pub mod laws;

pub use fs_spec::{Fattr, FileType, RawTime, Sattr, Stat, Time, Who};
pub use nfs_types::result_texts::{write_attributes, write_dir_op, write_result};
pub use nfs_types::{
    DirOpArgs, DirOpOk, FsStats, MAXDATA, NfsArgs, NfsResult, Page, PageEntry, ReadOk, SHORT_ANSWER,
};
