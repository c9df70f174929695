//! The text of a file: its number, its kind, its attributes and what it holds.
#![tactic(auto)]

mod digest;
mod inode;
mod numbered;
mod parts;
mod read;
mod write;

pub use digest::file_digest;
pub use inode::inode_of;
pub use numbered::inodes_of;
pub use parts::{AttributesPart, BodyPart, FilePart, TimePart};
pub use write::add_file;
