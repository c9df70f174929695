//! How much memory a process has.

use std::fs;
use std::fs::File;
use std::os::unix::fs::FileExt;
use std::rt::Files;

/// Where the system tells a process how it is.
const OF_ITSELF: &str = "/proc/self/status";

/// The name of the line that has the memory in use, in KiB.
const RESIDENT: &str = "VmRSS:";

/// The bytes that are read of it: there are some 1,500.
const MOST: usize = 4096;

/// What the system tells a process of its memory, in a file that stays open: threads reach no other.
#[derive(Drop)]
pub struct OwnMemory {
    file: File,
}

impl OwnMemory {
    /// Where the system tells it; none where it doesn't.
    pub fn open<R: Files<File = File>>(rt: &R) -> Option<OwnMemory> {
        let file = fs::open(rt, OF_ITSELF).ok()?;
        Some(OwnMemory { file })
    }

    /// The memory in use now, in KiB, where it is told.
    pub(crate) fn resident(&self) -> Option<u64> {
        let mut bytes = [0; MOST];
        let length = self.file.read_at(&mut bytes, 0).ok()?;
        let text = str::from_utf8(bytes.get(..length)?).ok()?;
        resident_in(text)
    }
}

/// The memory in use by what the system tells, a line each: a name with `:`, and a value with its unit.
fn resident_in(text: &str) -> Option<u64> {
    for line in text.lines() {
        let mut words = line.split_whitespace();
        if words.next() == Some(RESIDENT) {
            return words.next()?.parse::<u64>().ok();
        }
    }
    None
}
