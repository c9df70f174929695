//! What calls that change files or put names into directories refuse, told by the inode table before them.

mod creating;
mod limits;
mod naming;
mod room;
mod setting;

pub use creating::find_to_create;
pub use limits::{MAX_BLOCKS, MAX_DIRECTORY_ENTRIES, MAX_FILES, MAX_NUMBER};
pub use naming::{check_link, check_make};
pub use setting::{check_set, check_write};
