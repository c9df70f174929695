//! Arguments and results of MOUNT version 1 (RFC 1094, appendix A).
#![tactic(auto)]

mod arguments;
pub mod laws;
mod limits;
mod reading;
mod results;
pub mod worked;
mod writing;

pub use arguments::{MountArgs, MountProcedure};
pub use limits::{MAX_MOUNTS, MNT_ANSWER, MNTNAMLEN, MNTPATHLEN};
pub use nfs_items::{FileHandle, Stat, Who};
pub use reading::read_mount_args;
pub use results::MountResult;
pub use writing::write_mount_result;
