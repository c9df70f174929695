//! The parts of a file's text, lent by the bytes that they were read from. Nothing is tested in them but
//! their bounds.

use tree_rules::GivenEntry;

/// A time, of any microseconds.
#[derive(Clone, Copy, Debug)]
pub struct TimePart {
    pub seconds: u32,
    pub microseconds: u32,
}

/// Mode, owner, group and times, of any values.
#[derive(Clone, Copy, Debug)]
pub struct AttributesPart {
    pub mode: u32,
    pub uid: u32,
    pub gid: u32,
    pub atime: TimePart,
    pub mtime: TimePart,
    pub ctime: TimePart,
}

/// What a file holds.
#[derive(Drop)]
pub enum BodyPart<'a> {
    Regular(&'a [u8]),
    Symlink(&'a [u8]),
    Directory {
        /// The cookie that the next entry gets.
        next: u32,
        entries: Vec<GivenEntry<'a>>,
    },
}

/// A file with its number.
#[derive(Drop)]
pub struct FilePart<'a> {
    pub number: u32,
    pub attributes: AttributesPart,
    pub body: BodyPart<'a>,
}
